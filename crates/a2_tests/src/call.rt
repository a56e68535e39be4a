//! What a case runs: the source, preceded by lines that call a routine if the case calls one.

ghost use Rattle.std.specs.Prelude.{◌≡◌, ◌++◌, Some, None, IfOk, OnOk, IfSome, MatchOption, map, true, false};
ghost use Rattle.std.specs.List.{flat_map};
ghost use Rattle.a2_text.specs.Words.{words};
ghost use Rattle.a2_tests.specs.Calls as said;
ghost use Rattle.a2_tests.specs.Settings.{tight as tight_text};

use crate::line::{Call, Line, NumberedLine};
use crate::settings::{digits_in, name_in, operand_mark, tight};
use a2_text::{capital, first_word};
use std::alloc::{AllocError, Allocator};

// Returns the call of a line, or the earlier one if the line has none.
fn call_or<'a>(before: Option<Call<'a>>, line: Line<'a>) -> Option<Call<'a>>
    ensures { result ≡ said.call_or before.entry line.entry }
{
    match line {
        Line::Call(call) => Some(call),
        _ => before,
    }
}

/// Returns the call of a routine that some lines ask for; the last such line counts.
pub(crate) fn call_in<'a>(lines: &[NumberedLine<'a>]) -> Option<Call<'a>>
    ensures { result ≡ said.call_from None lines.now }
{
    let mut found = None;
    for asked in lines {
        found = call_or(found, asked.line);
    }
    found
}

// Returns the mnemonic of the instruction that loads a register.
fn load_of<'a>(place: &'a [u8]) -> Option<&'a [u8]>
    ensures { MatchOption result (said.load_of place.now ≡ None) (λ load. said.load_of place.now ≡ Some load.now) }
{
    match place {
        [c] => match capital(*c) {
            b'A' => Some(b" LDA "),
            b'X' => Some(b" LDX "),
            b'Y' => Some(b" LDY "),
            _ => None,
        },
        _ => None,
    }
}

/// Appends pieces.
pub(crate) fn append<A: Allocator + Copy>(
    text: &mut Vec<u8, A>,
    pieces: &[&[u8]],
) -> Result<(), AllocError>
    ensures { OnOk result (text.new.items ≡ text.old.items ++ flat_map (λ piece. piece.now) pieces.now) }
{
    for piece in pieces {
        text.extend_from_slice(piece)?;
    }
    Ok(())
}

// Appends the line for a word that loads a register.
fn append_load<A: Allocator + Copy>(text: &mut Vec<u8, A>, word: &[u8]) -> Result<(), AllocError>
    ensures { OnOk result (text.new.items ≡ text.old.items ++ said.load_lines word.now) }
{
    match load_of(name_in(word)) {
        Some(load) => append(
            text,
            &[load, operand_mark(digits_in(word)), digits_in(word), b"\n"],
        ),
        None => Ok(()),
    }
}

// Appends the lines for a word that stores a byte.
fn append_store<A: Allocator + Copy>(text: &mut Vec<u8, A>, word: &[u8]) -> Result<(), AllocError>
    ensures { OnOk result (text.new.items ≡ text.old.items ++ said.store_lines word.now) }
{
    match load_of(name_in(word)) {
        Some(_) => Ok(()),
        None => append(
            text,
            &[
                b" LDA ",
                operand_mark(digits_in(word)),
                digits_in(word),
                b"\n STA ",
                name_in(word),
                b"\n",
            ],
        ),
    }
}

// Appends the lines that store the byte of a word, or those that load it.
fn append_setting<A: Allocator + Copy>(
    text: &mut Vec<u8, A>,
    word: &[u8],
    stores: bool,
) -> Result<(), AllocError>
    ensures { OnOk result (text.new.items ≡ text.old.items ++ said.setting_lines stores word.now) }
{
    if stores {
        append_store(text, word)
    } else {
        append_load(text, word)
    }
}

// Appends the lines for each setting.
fn append_settings<A: Allocator + Copy>(
    alloc: A,
    text: &mut Vec<u8, A>,
    settings: &[u8],
    stores: bool,
) -> Result<(), AllocError>
    ensures { OnOk result (text.new.items ≡ text.old.items ++ said.all_lines stores (words (tight_text settings.now))) }
{
    let joined = tight(alloc, settings)?;
    let mut rest = joined.as_slice();
    while let Some((word, following)) = first_word(rest) {
        append_setting(text, word, stores)?;
        rest = following;
    }
    Ok(())
}

// Appends the lines that call a routine and return. After them, the source begins as it would without them.
#[tactic(auto, unfolding(crate::specs::Calls::call_lines))]
fn append_call<A: Allocator + Copy>(text: &mut Vec<u8, A>, name: &[u8]) -> Result<(), AllocError>
    ensures { OnOk result (text.new.items ≡ text.old.items ++ said.call_lines name.now) }
{
    append(text, &[b" JSR ", name, b"\n RTS\n ORG $300\n"])
}

// Appends a text.
fn append_text<A: Allocator + Copy>(text: &mut Vec<u8, A>, other: &[u8]) -> Result<(), AllocError>
    ensures { OnOk result (text.new.items ≡ text.old.items ++ other.now) }
{
    text.extend_from_slice(other)
}

/// Returns the text that runs in a case that calls a routine. It begins at $BF00 with lines that store the bytes, load
/// the registers, call the routine and return. The source follows.
pub(crate) fn calling_text<A: Allocator + Copy>(
    alloc: A,
    call: Call,
    source: &[u8],
) -> Result<Vec<u8, A>, AllocError>
    ensures { IfOk result (λ text. text.items ≡ said.calling_text call.entry.name.now call.entry.settings.now source.now) }
{
    let mut text = Vec::from_slice(alloc, b" ORG $BF00\n")?;
    append_settings(alloc, &mut text, call.settings, true)?;
    append_settings(alloc, &mut text, call.settings, false)?;
    append_call(&mut text, call.name)?;
    append_text(&mut text, source)?;
    Ok(text)
}
