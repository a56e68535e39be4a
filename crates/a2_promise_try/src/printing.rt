//! What the Monitor's services print, and what a promise says about it.

ghost use Rattle.std.specs.Prelude.{◌≡◌, ◌+◌, ◌%◌, ◌++◌, ◌↔◌, true, map, OnOk, IfOk, IsTrue};
ghost use Rattle.std.specs.List.{flat_map};
ghost use Rattle.a2_bus.specs.View.{memory_of};
ghost use Rattle.a2_effect.specs.View.{registers_of};
ghost use Rattle.a2_promise_try.specs.Printing as said;

use a2_bus::AddressSpace;
use a2_bus::locations::PROMPT;
use a2_cpu::Regs;
use a2_page::BLANK;
use a2_promise::{Text, Texts};
use a2_services::bytes::{BACKSLASH, BACKSPACE, CANCEL, LINE_FEED, RETURN, digit_byte};
use a2_services::{OnScreen, Service, load, row_of};
use std::alloc::{AllocError, Global};

// Adds a printed byte if it is a character.
fn push_shown(printed: &mut Vec<u8>, byte: u8) -> Result<(), AllocError>
    ensures { OnOk result (printed.new.items ≡ printed.old.items ++ said.shown byte) }
{
    if byte < 0x80 || BLANK <= byte || byte == BACKSPACE || byte == LINE_FEED || byte == RETURN {
        printed.push(byte)?;
    }
    Ok(())
}

// Returns the byte that echoes a key.
fn echo_of(key: u8) -> u8
    ensures { result ≡ said.echo_of key }
{
    let byte = 0x80 + key % 128;
    if byte >= 0xE0 { byte - 0x20 } else { byte }
}

// Adds a new line and the prompt.
fn push_prompt(printed: &mut Vec<u8>, prompt: u8) -> Result<(), AllocError>
    ensures { OnOk result (printed.new.items ≡ printed.old.items ++ said.prompted prompt) }
{
    printed.push(RETURN)?;
    push_shown(printed, prompt)
}

// Adds what is printed after the echo of a byte, if the line has this many bytes before it.
fn push_after_echo(
    printed: &mut Vec<u8>,
    prompt: u8,
    byte: u8,
    length: u8,
) -> Result<(), AllocError>
    ensures { OnOk result (printed.new.items ≡ printed.old.items ++ said.after_echo prompt byte length) }
{
    if byte == BACKSPACE {
        if length > 0 {
            return Ok(());
        }
        push_prompt(printed, prompt)
    } else if byte == CANCEL || length == 255 {
        printed.push(BACKSLASH)?;
        push_prompt(printed, prompt)
    } else {
        Ok(())
    }
}

// Returns the length of the line after a byte.
fn length_after(byte: u8, length: u8) -> u8
    ensures { result ≡ said.length_after byte length }
{
    if byte == BACKSPACE {
        length.saturating_sub(1)
    } else if byte == CANCEL || length == 255 {
        0
    } else {
        length + 1
    }
}

// Adds what is printed while these keys are typed into a line that already has this many bytes.
fn push_line(printed: &mut Vec<u8>, prompt: u8, keys: &[u8], length: u8) -> Result<(), AllocError>
    ensures { OnOk result (printed.new.items ≡ printed.old.items ++ said.line_printed prompt keys.now length) }
{
    let [key, rest @ ..] = keys else {
        return Ok(());
    };
    let byte = echo_of(*key);
    if byte == RETURN {
        printed.push(RETURN)?;
        return Ok(());
    }
    push_shown(printed, byte)?;
    push_after_echo(printed, prompt, byte, length)?;
    push_line(printed, prompt, rest, length_after(byte, length))
}

// Returns the waiting keys.
#[tactic(auto, unfolding(a2_bus::specs::View::memory_of))]
fn keys_of(space: &AddressSpace<Global>) -> &[u8]
    ensures { result.now ≡ (memory_of space.now).devices.keys }
{
    space.waiting()
}

// Adds what GETLN prints for these keys: the prompt and the line.
fn push_getln(printed: &mut Vec<u8>, prompt: u8, keys: &[u8]) -> Result<(), AllocError>
    ensures { OnOk result (printed.new.items ≡ printed.old.items ++ (said.shown prompt ++ said.line_printed prompt keys.now 0)) }
{
    push_shown(printed, prompt)?;
    push_line(printed, prompt, keys, 0)
}

/// Adds the bytes that a call of a service prints, given the registers and memory before it. These are the bytes it
/// prints that are characters, before INVFLG masks them. The services are from the Apple II Reference Manual (1979),
/// chapter 3. Fails only if memory runs out.
pub fn push_printed(
    printed: &mut Vec<u8>,
    service: Service,
    regs: &Regs,
    space: &AddressSpace<Global>,
) -> Result<(), AllocError>
    ensures { OnOk result (printed.new.items
        ≡ printed.old.items ++ said.printed_by service (registers_of regs.now) (memory_of space.now)) }
{
    match row_of(service).on_screen {
        OnScreen::PutsByte => push_shown(printed, regs.a),
        OnScreen::PutsDigits => {
            push_shown(printed, digit_byte(regs.a / 16))?;
            push_shown(printed, digit_byte(regs.a % 16))
        }
        OnScreen::PutsDigit => push_shown(printed, digit_byte(regs.a % 16)),
        OnScreen::ReadsLine => push_getln(printed, load(space, PROMPT), keys_of(space)),
        _ => Ok(()),
    }
}

// Adds the bytes of characters, with bit 7 set in each.
fn push_characters(bytes: &mut Vec<u8>, characters: &[u8]) -> Result<(), AllocError>
    ensures { OnOk result (bytes.new.items ≡ bytes.old.items ++ map (λ c. 128 + c % 128) characters.now) }
{
    for character in characters {
        bytes.push(128 + *character % 128)?;
    }
    Ok(())
}

// Adds the bytes of texts.
fn push_texts(bytes: &mut Vec<u8>, texts: &[Text]) -> Result<(), AllocError>
    ensures { OnOk result (bytes.new.items ≡ bytes.old.items ++ said.bytes_of_texts texts.now) }
{
    for text in texts {
        push_characters(bytes, text.characters.as_slice())?;
    }
    Ok(())
}

// Returns the bytes of texts, one text after another.
fn bytes_of(alloc: Global, texts: &[Text]) -> Result<Vec<u8>, AllocError>
    ensures { IfOk result (λ bytes. bytes.items ≡ said.bytes_of_texts texts.now) }
{
    let mut bytes = Vec::new(alloc);
    push_texts(&mut bytes, texts)?;
    Ok(bytes)
}

/// Returns whether a run printed exactly what a promise says; true if the promise says nothing about printing. Fails
/// only if memory runs out.
pub fn prints_as_promised(alloc: Global, texts: &Texts, printed: &[u8]) -> Result<bool, AllocError>
    ensures { IfOk result (λ so. (so ≡ true) ↔ said.PrintsAsPromised texts.now printed.now) }
{
    if texts.prints.is_empty() {
        return Ok(true);
    }
    let wanted = bytes_of(alloc, texts.prints.as_slice())?;
    Ok(wanted.as_slice() == printed)
}

/// Returns whether a promise says nothing about printing or keys.
pub(crate) fn has_no_text(texts: &Texts) -> bool
    ensures { IsTrue result → said.HasNoText texts.now }
{
    texts.prints.is_empty() && texts.takes.is_empty()
}
