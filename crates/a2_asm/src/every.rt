//! All errors of a source that can be known at once.

ghost use Rattle.std.specs.Prelude.{◌≡◌, ◌≢◌, ◌≤◌, ◌==◌, [], false, not, None, length, map, IfOk, OnOk};
ghost use Rattle.a2_syntax.specs.Texts.{fault_line};
ghost use Rattle.a2_syntax.specs.declared.fault.Fault.{Fault};
ghost use Rattle.a2_asm.specs.Layout.{names};
ghost use Rattle.a2_asm.specs.Pass.{source_rows};
ghost use Rattle.a2_asm.specs.Refusals.{first_error_in_order, refuse_place};
ghost use Rattle.a2_asm.specs.Entries.{entries};
ghost use Rattle.a2_asm.specs.Every as every;
ghost use Rattle.a2_asm.specs.Every.{AreLayoutErrors};

use crate::assembling::assemble;
use crate::bytes::{are_known, line_bytes};
use crate::layout::{define, is_taken, place};
use crate::modes::{has, mode_of};
use crate::place::Place;
use crate::program::Names;
use crate::values::is_known;
use a2_syntax::{Body, Fault, Line, Source};
use indexmap::IndexMap;
use std::alloc::{AllocError, Allocator};

/// Returns the given error, or `AllocError` if it is `Memory`.
pub fn refused(fault: Fault) -> Result<Fault, AllocError>
    ensures same { IfOk result (λ refusal. refusal ≡ fault) }
    ensures source { IfOk result (λ _. fault ≢ Fault.Memory) }
{
    match fault {
        Fault::Memory => Err(AllocError),
        refusal => Ok(refusal),
    }
}

// Adds the label of a line to the names, if the line has one that is not yet among them.
fn add_label<A: Allocator + Copy>(
    alloc: A,
    known: &mut Names<A>,
    line: &Line<A>,
) -> Result<(), AllocError>
    ensures { OnOk result (entries known.new ≡ every.with_label (entries known.old) line.now.label) }
{
    if is_taken(known, line) {
        return Ok(());
    }
    define(alloc, known, line, 0).or(Err(AllocError))
}

// Returns the labels of the lines.
fn labels<A: Allocator + Copy>(alloc: A, lines: &[Line<A>]) -> Result<Names<A>, AllocError>
    ensures { IfOk result (λ known. entries known ≡ every.labels lines.now) }
{
    let mut known: Names<A> = IndexMap::new(alloc);
    for line in lines {
        add_label(alloc, &mut known, line)?;
    }
    Ok(known)
}

// Returns the error in a line's label, its form or its names, if there is one.
fn refuse_names_in<A: Allocator>(
    all: &Names<A>,
    earlier: &Names<A>,
    number: u16,
    line: &Line<A>,
) -> Option<Fault>
    ensures { result ≡ every.refuse_names_in (entries all.now) (entries earlier.now) number line.now }
{
    if is_taken(earlier, line) {
        return Some(Fault::Duplicate(number));
    }
    let unknown = Some(Fault::Unknown(number));
    match &line.body {
        Body::Instr(m, operand) if !has(*m, mode_of(earlier, 0, *m, operand)) => {
            Some(Fault::NoMode(number))
        }
        Body::Instr(_, operand) => match operand.expr() {
            Some(e) if !is_known(all, e) => unknown,
            _ => None,
        },
        Body::Org(e) | Body::Equ(e) | Body::Ds(e) if !is_known(all, e) => unknown,
        Body::Org(e) | Body::Equ(e) | Body::Ds(e) if !is_known(earlier, e) => {
            Some(Fault::Forward(number))
        }
        Body::Dfb(es) | Body::Dw(es) if !are_known(all, es.get()) => unknown,
        _ => None,
    }
}

// Returns, for each line that has one, the error in its label, its form or its names.
fn by_names<A: Allocator + Copy>(alloc: A, lines: &[Line<A>]) -> Result<Vec<Fault, A>, AllocError>
    requires { length lines.now ≤ 4096 }
    ensures { IfOk result (λ faults. faults.items ≡ every.by_names lines.now) }
{
    let all = labels(alloc, lines)?;
    let mut known: Names<A> = IndexMap::new(alloc);
    let mut faults = Vec::new(alloc);
    let mut n: u16 = 1;
    for line in lines {
        if let Some(fault) = refuse_names_in(&all, &known, n, line) {
            faults.push(fault)?;
        }
        add_label(alloc, &mut known, line)?;
        n += 1;
    }
    Ok(faults)
}

// Returns, for each line that has one, the error in its values. The lines are at their places.
fn by_values<A: Allocator + Copy>(
    alloc: A,
    lines: &[Line<A>],
    places: &[Place],
    known: &Names<A>,
) -> Result<Vec<Fault, A>, AllocError>
    requires few { length lines.now ≤ 4096 }
    requires places { places.now ≡ map (λ row. row.place) (source_rows lines.now) }
    requires placed { first_error_in_order (refuse_place (names (source_rows lines.now))) [] (source_rows lines.now) ≡ None }
    ensures { IfOk result (λ faults. faults.items ≡ every.by_values (entries known.now) (source_rows lines.now)) }
{
    let mut faults = Vec::new(alloc);
    for (i, line) in lines.iter().enumerate() {
        match line_bytes(alloc, known, places[i], &line.body) {
            Ok(_) => {}
            Err(fault) => faults.push(refused(fault)?)?,
        }
    }
    Ok(faults)
}

// Returns the error of each line that has one.
fn error_of_each_line<A: Allocator + Copy>(
    alloc: A,
    lines: &[Line<A>],
) -> Result<Vec<Fault, A>, AllocError>
    requires { length lines.now ≤ 4096 }
    ensures { IfOk result (λ faults. faults.items ≡ every.error_of_each_line lines.now (source_rows lines.now)) }
{
    match place(alloc, lines) {
        Ok((places, known)) => by_values(alloc, lines, places.as_slice(), &known),
        Err(fault) => {
            refused(fault)?;
            by_names(alloc, lines)
        }
    }
}

// Returns an error, followed by the errors of other lines.
fn first_and_others<A: Allocator>(
    alloc: A,
    first: Fault,
    told: &[Fault],
) -> Result<Vec<Fault, A>, AllocError>
    ensures { IfOk result (λ faults. faults.items ≡ every.first_and_others first told.now) }
{
    let mut faults = Vec::new(alloc);
    faults.push(first)?;
    for fault in told {
        if fault.line() != first.line() {
            faults.push(*fault)?;
        }
    }
    Ok(faults)
}

/// Returns all errors of a source that can be known at once, or an empty list if the source assembles. The first
/// error is the one that `assemble` returns. The errors of other lines follow in line order.
///
/// If the layout has no error, these are errors in values: a name that no line defines, a value out of range, a
/// branch target that is too far away. Otherwise they are errors in names and forms, which do not depend on
/// addresses:
///
/// - an earlier line with the same label
/// - a name in ORG, EQU or DS that no earlier line defines
/// - a name that no line defines
/// - a form that the instruction table lacks
///
/// Fails only if memory runs out. This project's profile.
pub fn refusals<A: Allocator + Copy>(
    alloc: A,
    source: &Source<A>,
) -> Result<Vec<Fault, A>, AllocError>
    ensures { IfOk result (λ faults. AreLayoutErrors source.now faults.items) }
{
    let Err(fault) = assemble(alloc, source) else {
        return Ok(Vec::new(alloc));
    };
    let first = refused(fault)?;
    let lines = source.lines();
    let told = error_of_each_line(alloc, lines)?;
    first_and_others(alloc, first, told.as_slice())
}
