//! The routines of a run as a tree.

ghost use Rattle.std.specs.Prelude.{◌≡◌, ◌+◌, ◌<◌, ◌≤◌, ◌++◌, ◌∷◌, [], codes, false, filter, find, length, nat_lt, Some, None};
ghost use Rattle.std.specs.Prelude.{IfOk, if◌then◌else◌};
ghost use Rattle.arrayvec.specs.ArrayVec.{array_vec_len};
ghost use Rattle.a2_stream.specs.Stream.{SendsOrBreaks};
ghost use Rattle.a2_asm.specs.Entries.{entries};
ghost use Rattle.a2_asm.specs.Programs.{begins_at as begins_at_of};
ghost use Rattle.a2_machine.specs.Output.{cause_line};
ghost use Rattle.a2_run.specs.Answers.{Answers, is_read_fault};
ghost use Rattle.a2_timed_keys.specs.Rerun.{worlds_of, end_of};
ghost use Rattle.a2_trace.specs.Called.{begun};
ghost use Rattle.a2_trace.specs.Calls as tree;
ghost use Rattle.a2_trace.specs.Calls.{IsCallTreeOf};

use a2_asm::{Names, Program, Statement};
use a2_machine::{Machine, write_cause};
use a2_routines::is_call;
use a2_run::RunFault;
use a2_services::service_at;
use a2_stream::{Output, WriteFault, put_all};
use a2_symbols::name_of;
use a2_text::{decimal, hex_word};
use a2_timed_keys::{Ended, Rerun};
use arrayvec::ArrayVec;
use std::alloc::Allocator;

// A routine that was entered and not left.
#[derive(Clone, Copy, Default, Drop)]
pub(crate) struct Visit {
    // The address of the JSR that called it.
    caller: u16,
    // Where it begins.
    begin: u16,
    // The stack pointer before the JSR.
    s: u8,
    // The steps of the run when it began.
    steps: u64,
    // The cycles then.
    cycles: u64,
}

// There are at most as many as there are stack pointers, because each has a lower one than the routine around it.
type Visits = ArrayVec<Visit, 256>;

const BLANKS: &[u8] = b"                                                                ";

// Returns the indentation of a row.
fn indent(depth: usize) -> &'static [u8]
    requires { depth ≤ 256 }
    ensures { result.now ≡ tree.indent depth }
{
    &BLANKS[..(2 * depth).min(64)]
}

// Returns the name of a routine, or nothing.
fn routine_name<A: Allocator + Copy>(names: &Names<A>, address: u16) -> &[u8]
    ensures { result.now ≡ tree.routine_name (entries names.now) address }
{
    let own = name_of(names, address);
    if !own.is_empty() {
        return own;
    }
    match service_at(address) {
        Some(service) => service.name(),
        None => b"",
    }
}

// Returns what is before a name.
fn before_name(name: &[u8]) -> &'static [u8]
    ensures { result.now ≡ tree.before_name name.now }
{
    if name.is_empty() { b"" } else { b" " }
}

// Writes these texts.
#[tactic(auto, unfolding(crate::specs::Calls::routine_cells))]
fn put_cells<'a, W: Output>(
    blanks: &'a [u8],
    word: &'a [u8],
    address: &'a [u8],
    gap: &'a [u8],
    name: &'a [u8],
    writer: &mut W,
) -> Result<(), WriteFault>
    ensures { SendsOrBreaks (W.taker writer.old) (W.taker writer.new) result
        (tree.routine_cells blanks.now word.now address.now gap.now name.now) }
{
    put_all(&[blanks, word, address, gap, name], writer)
}

// Writes a word, and a routine by its address and name.
fn put_routine<A: Allocator + Copy, W: Output>(
    word: &[u8],
    names: &Names<A>,
    depth: usize,
    address: u16,
    writer: &mut W,
) -> Result<(), WriteFault>
    requires { depth ≤ 256 }
    ensures { SendsOrBreaks (W.taker writer.old) (W.taker writer.new) result
        (tree.routine_text word.now (entries names.now) depth address) }
{
    let name = routine_name(names, address);
    put_cells(
        indent(depth),
        word,
        &hex_word(address),
        before_name(name),
        name,
        writer,
    )
}

// Returns whether a statement is an instruction that begins at an address.
fn begins_at(statement: &Statement, address: u16) -> bool
    ensures { result ≡ begins_at_of address statement.now }
{
    statement.addr == address && statement.instr.is_some()
}

// Returns the instruction that begins at an address.
fn instruction_at(statements: &[Statement], address: u16) -> Option<Statement>
    ensures { result ≡ find (begins_at_of address) statements.now }
{
    for statement in statements {
        if begins_at(statement, address) {
            return Some(*statement);
        }
    }
    None
}

// Writes a word, digits, and the end of the row.
#[tactic(auto, unfolding(crate::specs::Calls::from_text))]
fn put_from<'a, W: Output>(
    word: &'a [u8],
    digits: &'a [u8],
    writer: &mut W,
) -> Result<(), WriteFault>
    ensures { SendsOrBreaks (W.taker writer.old) (W.taker writer.new) result (tree.from_text word.now digits.now) }
{
    put_all(&[word, digits, b"\n"], writer)
}

// Writes where a JSR is.
fn put_caller<W: Output>(
    statements: &[Statement],
    address: u16,
    writer: &mut W,
) -> Result<(), WriteFault>
    ensures { SendsOrBreaks (W.taker writer.old) (W.taker writer.new) result (tree.caller_text statements.now address) }
{
    match instruction_at(statements, address) {
        Some(statement) => {
            let line = decimal(u64::from(statement.line));
            put_from(b" FROM LINE ", line.as_slice(), writer)
        }
        None => put_from(b" FROM ", &hex_word(address), writer),
    }
}

// Writes the row of a routine that is entered.
#[tactic(auto, using(a2_stream::proofs::Joined::broke_off, a2_stream::proofs::Joined::went_on))]
fn put_entered<A: Allocator + Copy, W: Output>(
    program: &Program<A>,
    depth: usize,
    visit: &Visit,
    writer: &mut W,
) -> Result<(), WriteFault>
    requires { depth ≤ 256 }
    ensures { SendsOrBreaks (W.taker writer.old) (W.taker writer.new) result (tree.entered_row program.now depth visit.now) }
{
    put_routine(b"CALL ", program.names(), depth, visit.begin, writer)?;
    put_caller(program.statements(), visit.caller, writer)
}

// Writes steps and cycles.
#[tactic(auto, unfolding(crate::specs::Calls::spent_text))]
fn put_spent<W: Output>(steps: u64, cycles: u64, writer: &mut W) -> Result<(), WriteFault>
    ensures { SendsOrBreaks (W.taker writer.old) (W.taker writer.new) result (tree.spent_text steps cycles) }
{
    let steps = decimal(steps);
    let cycles = decimal(cycles);
    put_all(
        &[
            b" STEPS=",
            steps.as_slice(),
            b" CYCLES=",
            cycles.as_slice(),
            b"\n",
        ],
        writer,
    )
}

// Returns whether a routine continues at this stack pointer; at the end of a run none does.
fn is_within(s: Option<u8>, visit: &Visit) -> bool
    ensures { result ≡ tree.is_within s visit.now }
{
    match s {
        Some(s) => s < visit.s,
        None => false,
    }
}

// Returns the first word of the rows of routines that do not continue.
fn word_of(s: Option<u8>) -> &'static [u8]
    ensures { result.now ≡ tree.word_of s }
{
    match s {
        Some(_) => b"BACK ",
        None => b"OPEN ",
    }
}

// Writes the row of a routine that does not continue.
#[tactic(auto, using(a2_stream::proofs::Joined::broke_off, a2_stream::proofs::Joined::went_on))]
fn put_back<A: Allocator + Copy, B: Allocator + Copy, W: Output>(
    s: Option<u8>,
    program: &Program<B>,
    machine: &Machine<A>,
    depth: usize,
    visit: &Visit,
    writer: &mut W,
) -> Result<(), WriteFault>
    requires { depth ≤ 256 }
    ensures { SendsOrBreaks (W.taker writer.old) (W.taker writer.new) result
        (if tree.is_within s visit.now then [] else tree.spent_row (tree.word_of s) program.now machine.now.state.steps machine.now.state.cycles depth visit.now) }
{
    if is_within(s, visit) {
        return Ok(());
    }
    put_routine(word_of(s), program.names(), depth, visit.begin, writer)?;
    put_spent(
        machine.steps().saturating_sub(visit.steps),
        machine.cycles().saturating_sub(visit.cycles),
        writer,
    )
}

// Writes the rows of those routines that do not continue, the innermost first.
fn put_left<A: Allocator + Copy, B: Allocator + Copy, W: Output>(
    s: Option<u8>,
    program: &Program<B>,
    machine: &Machine<A>,
    visits: &Visits,
    writer: &mut W,
) -> Result<(), WriteFault>
    ensures { SendsOrBreaks (W.taker writer.old) (W.taker writer.new) result
        (tree.left_rows s program.now machine.now.state.steps machine.now.state.cycles 0 visits.now.items) }
{
    let all = visits.as_slice();
    for depth in (0..all.len()).rev() {
        put_back(s, program, machine, depth, &all[depth], writer)?;
    }
    Ok(())
}

// Enters a routine, and writes its row, if the last step of a machine was a JSR at `caller`, before which the stack pointer was
// `s`.
fn enter_where<A: Allocator + Copy, B: Allocator + Copy, W: Output>(
    is_jsr: bool,
    caller: u16,
    s: u8,
    program: &Program<B>,
    machine: &Machine<A>,
    visits: &mut Visits,
    writer: &mut W,
) -> Result<(), WriteFault>
    requires { array_vec_len visits.old < 256 }
    ensures row { SendsOrBreaks (W.taker writer.old) (W.taker writer.new) result
        (if is_jsr then tree.entered_row program.now (array_vec_len visits.old) (begun caller s machine.now.state) else []) }
    ensures visits { visits.new.items ≡ (if is_jsr then visits.old.items ++ begun caller s machine.now.state ∷ [] else
        visits.old.items) }
{
    if !is_jsr {
        return Ok(());
    }
    let visit = Visit {
        caller,
        begin: machine.regs().pc,
        s,
        steps: machine.steps(),
        cycles: machine.cycles(),
    };
    let depth = visits.len();
    visits.push(visit);
    put_entered(program, depth, &visit, writer)
}

// Leaves the routines that a machine's stack pointer is not below.
fn leave<A: Allocator + Copy>(machine: &Machine<A>, visits: &mut Visits)
    ensures { visits.new.items ≡ filter (λ v. nat_lt machine.now.state.regs.s v.s) visits.old.items }
{
    let s = machine.regs().s;
    visits.retain(|visit| s < visit.s);
}

// Enters and leaves what the last step of a machine entered and left, and writes the rows.
#[tactic(auto, using(a2_stream::proofs::Joined::broke_off, a2_stream::proofs::Joined::went_on))]
fn put_step<A: Allocator + Copy, B: Allocator + Copy, W: Output>(
    is_jsr: bool,
    caller: u16,
    s: u8,
    program: &Program<B>,
    machine: &Machine<A>,
    visits: &mut Visits,
    writer: &mut W,
) -> Result<(), WriteFault>
    requires { array_vec_len visits.old < 256 }
    ensures rows { let d = machine.now.state in let now = begun caller s d in
        SendsOrBreaks (W.taker writer.old) (W.taker writer.new) result
        ((if is_jsr then tree.entered_row program.now (array_vec_len visits.old) now else [])
        ++ tree.left_rows (Some d.regs.s) program.now d.steps d.cycles 0 (if is_jsr then visits.old.items ++ now ∷ [] else visits.old.items)) }
    ensures visits { let d = machine.now.state in
        IfOk result (λ _. visits.new.items ≡ filter (λ v. nat_lt d.regs.s v.s)
        (if is_jsr then visits.old.items ++ begun caller s d ∷ [] else visits.old.items)) }
{
    enter_where(is_jsr, caller, s, program, machine, visits, writer)?;
    put_left(Some(machine.regs().s), program, machine, visits, writer)?;
    leave(machine, visits);
    Ok(())
}

// Writes the rows of the routines that a run ended in, and the cause line.
#[tactic(auto, using(a2_stream::proofs::Joined::broke_off, a2_stream::proofs::Joined::went_on))]
fn put_open<A: Allocator + Copy, W: Output>(
    ended: &Ended<'_, A>,
    visits: &Visits,
    writer: &mut W,
) -> Result<(), WriteFault>
    ensures { let f = ended.now in let end = end_of f in
        SendsOrBreaks (W.taker writer.old) (W.taker writer.new) result
        (tree.left_rows None f.program end.steps end.world.cycles 0 visits.now.items ++ cause_line end.cause) }
{
    put_left(None, ended.program(), ended.machine(), visits, writer)?;
    write_cause(ended.cause(), writer)
}

// Executes a run, and writes its tree.
fn draw_run<A: Allocator + Copy, W: Output>(
    ended: &Ended<'_, A>,
    rerun: &mut Rerun<'_, '_, A>,
    writer: &mut W,
) -> Result<(), WriteFault>
    requires run { rerun.old.run ≡ ended.now }
    requires start { rerun.old.steps ≡ 0 }
    ensures { let f = ended.now in
        SendsOrBreaks (W.taker writer.old) (W.taker writer.new) result (tree.call_tree f.program (worlds_of f) (end_of f)) }
{
    let program = ended.program();
    let mut visits = Visits::new();
    loop {
        let is_jsr = is_call(rerun.machine());
        let before = rerun.machine().regs();
        if !rerun.step() {
            return put_open(ended, &visits, writer);
        }
        put_step(
            is_jsr,
            before.pc,
            before.s,
            program,
            rerun.machine(),
            &mut visits,
            writer,
        )?;
    }
}

/// Writes the routines of a run as a tree: a row where a JSR enters one, with its address and name, and where the JSR is; and a row where
/// it is left, with the steps and cycles since, including those of what it calls. At the end of the run there is such a row for each
/// routine that was not left, and then the cause line. [`a2_routines::enter`] and [`a2_routines::leave`] say which routines there are; a
/// service that is called is one. Each row is indented by two blanks more than that of the routine around it, up to 64. Fails if a write
/// fails, or if there is not enough memory. This project's profile.
pub fn trace_calls<A: Allocator + Copy, W: Output>(
    alloc: A,
    ended: &Ended<'_, A>,
    writer: &mut W,
) -> Result<(), RunFault>
    ensures meaning { Answers (λ _. ⊥) (λ _. IsCallTreeOf ended.now) (W.taker writer.old) (W.taker writer.new) result }
    ensures no_reader { is_read_fault result ≡ false }
{
    let mut rerun = ended.again(alloc, 0)?;
    draw_run(ended, &mut rerun, writer)?;
    Ok(())
}
