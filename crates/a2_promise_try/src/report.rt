//! Writes the report on a promise.

ghost use Rattle.std.specs.Prelude.{◌≡◌, ℕ, List, OnOk};
ghost use Rattle.a2_stream.specs.Stream.{Sends, SendsOrBreaks};
ghost use Rattle.a2_promise_try.specs.Reports as spec;

use crate::exit::FallThrough;
use crate::failure_report::{line_at, put_failure};
use crate::named_inputs::settled_value;
use crate::printing::has_no_text;
use crate::trying::LEAST_TRIED;
use crate::verdict::{Doubt, Held, PromiseVerdict};
use crate::wording::{put_address, put_grouped, put_input, put_named, put_number};
use a2_asm::Program;
use a2_promise::Promise;
use a2_promise_certify::Input;
use a2_run::RunFault;
use a2_stream::{Output, ToWrite, WriteFault, put_all};
use std::alloc::Global;

// How many inputs a report lists.
const MAX_INPUTS_REPORTED: usize = 8;

// Writes the inputs that are not settled, and how many more there are than are listed. Returns the number of inputs
// that are not settled.
fn put_inputs<W: Output>(
    promise: &Promise,
    inputs: &[Input],
    output: &mut W,
) -> Result<usize, WriteFault> {
    let mut count: usize = 0;
    for input in inputs {
        if settled_value(inputs, promise.wanted.as_slice(), *input).is_some() {
            continue;
        }
        if count < MAX_INPUTS_REPORTED {
            let before: &[u8] = if count == 0 { b" of " } else { b", " };
            put_input(before, *input, output)?;
        }
        count = count.saturating_add(1);
    }
    let more = count.saturating_sub(MAX_INPUTS_REPORTED);
    if more > 0 {
        put_number(b" and ", more as u64, b" more", output)?;
    }
    Ok(count)
}

// How many bytes of the program a report lists.
const MAX_LAID_REPORTED: usize = 4;

// Writes the bytes that a promise rests on as the program lays them, if there are any.
fn put_laid<W: Output>(
    program: &Program<Global>,
    held: &Held,
    output: &mut W,
) -> Result<(), WriteFault> {
    let laid = held.laid.as_slice();
    for (index, address) in laid.iter().take(MAX_LAID_REPORTED).enumerate() {
        let before: &[u8] = if index == 0 { b", with " } else { b", " };
        put_named(program, before, Input::Byte(*address), output)?;
        let byte = program.image().get(*address).unwrap_or(0);
        put_number(b" = ", u64::from(byte), b"", output)?;
    }
    let more = laid.len().saturating_sub(MAX_LAID_REPORTED);
    if more > 0 {
        let bytes: &[u8] = if more == 1 {
            b" more byte"
        } else {
            b" more bytes"
        };
        put_number(b" and ", more as u64, bytes, output)?;
    }
    match laid.len() {
        0 => Ok(()),
        1 => put_all(&[b" as it is laid"], output),
        _ => put_all(&[b" as they are laid"], output),
    }
}

// Writes in how many states a promise that holds in every state was tried.
fn put_holds<W: Output>(
    program: &Program<Global>,
    held: &Held,
    output: &mut W,
) -> Result<(), WriteFault> {
    put_grouped(b" (", held.tried, b" tried", output)?;
    if held.kept != held.tried {
        put_grouped(b"; `requires` allows ", held.kept, b"", output)?;
    }
    put_all(&[b")"], output)?;
    put_laid(program, held, output)?;
    put_all(&[b"\n"], output)
}

// Writes why a promise that held in all states is not known to hold in every state.
fn put_doubt<W: Output>(doubt: Doubt, output: &mut W) -> Result<(), WriteFault> {
    put_all(&[b"  it is not shown to hold in every state: "], output)?;
    let why: &[u8] = match doubt {
        Doubt::Prints => b"its text was compared in these states only",
        Doubt::Takes => b"its keys were typed in these states only",
        Doubt::Stack => b"it depends on S, which was $FD in these states",
        Doubt::Decimal => b"it depends on D, which was clear in these states",
        Doubt::Service(address) => {
            put_address(b"the service at ", address, output)?;
            b" may depend on more than these inputs"
        }
        Doubt::Other => b"it may depend on more than these inputs",
    };
    put_all(&[why, b"\n"], output)
}

// Writes that nothing is ensured, if a promise has no such line.
fn put_unsaid<W: Output>(promise: &Promise, output: &mut W) -> Result<(), WriteFault> {
    if promise.promised.is_empty() && has_no_text(&promise.texts) {
        put_all(
            &[
                b"  no line says what it does, so only what may change was checked; add a line such as ;: ensures A = 0\n",
            ],
            output,
        )
    } else {
        Ok(())
    }
}

// Writes in how many states a promise held, and whether these are all states.
fn put_count<W: Output>(kept: u64, is_all: bool, output: &mut W) -> Result<(), WriteFault> {
    match (kept, is_all) {
        (1, true) => put_all(&[b"the one state"], output),
        (1, false) => put_all(&[b"1 state"], output),
        (_, true) => put_grouped(b"all ", kept, b" states", output),
        (_, false) => put_grouped(b"", kept, b" states", output),
    }
}

// Writes in how many states a promise held, of how many, and of which inputs; or that its routine reads nothing at
// the entry.
fn put_held<W: Output>(promise: &Promise, held: &Held, output: &mut W) -> Result<(), WriteFault> {
    let inputs = held.inputs.as_slice();
    if inputs.is_empty() {
        let following = b" states; it uses no values from its caller";
        return put_grouped(b"", LEAST_TRIED, following, output);
    }
    put_count(held.kept, held.tried == held.total, output)?;
    let free = put_inputs(promise, inputs, output)?;
    if held.kept != held.tried {
        put_grouped(b" that `requires` allows (", held.tried, b" tried)", output)?;
    } else if free == 0 {
        put_all(&[b" that `requires` allows"], output)?;
    }
    if held.tried != held.total {
        put_total(held.total, output)?;
    }
    Ok(())
}

// Writes the report on a promise that held in each state tried.
fn put_kept<W: Output>(
    program: &Program<Global>,
    promise: &Promise,
    held: &Held,
    output: &mut W,
) -> Result<(), WriteFault> {
    if held.is_everywhere {
        put_holds(program, held, output)?;
    } else {
        put_held(promise, held, output)?;
        put_laid(program, held, output)?;
        put_all(&[b"\n"], output)?;
        if held.tried == held.total {
            put_doubt(held.doubt, output)?;
        }
    }
    put_unsaid(promise, output)
}

// Writes how many states there are.
fn put_total<W: Output>(total: u64, output: &mut W) -> Result<(), WriteFault> {
    if total == u64::MAX {
        put_all(
            &[b"; there are more than 18 quintillion states in all"],
            output,
        )
    } else {
        put_grouped(b"; there are ", total, b" states in all", output)
    }
}

// Writes where a routine continues into another one.
fn put_fall_through<W: Output>(
    program: &Program<Global>,
    fall_through: Option<FallThrough>,
    output: &mut W,
) -> Result<(), WriteFault> {
    let Some(FallThrough { from, to }) = fall_through else {
        return Ok(());
    };
    let (from, to) = (line_at(program, from) as u64, line_at(program, to) as u64);
    put_number(
        b"  line ",
        from,
        b" continues into the routine in line ",
        output,
    )?;
    let following = b" without a call; end a routine with RTS, or call the other one with JSR\n";
    put_number(b"", to, following, output)
}

// Writes that no state tried satisfies the requirements of a promise.
fn put_no_state<W: Output>(tried: u64, output: &mut W) -> Result<(), WriteFault> {
    if tried == 1 {
        put_all(&[b"the one state tried does not satisfy"], output)?;
    } else {
        put_grouped(b"none of ", tried, b" states satisfies", output)?;
    }
    put_all(
        &[b" `requires`, so the promise was not tested; make `requires` allow more\n"],
        output,
    )
}

// Returns the first words of the report on a promise.
fn first_words(verdict: &PromiseVerdict) -> &'static [u8]
    ensures { result.now ≡ spec.first_words verdict.now }
{
    match verdict {
        PromiseVerdict::Held(held) => if held.is_everywhere {
            b"HOLDS in every state"
        } else {
            b"held in "
        },
        PromiseVerdict::Fails(_) | PromiseVerdict::NoState(_) => b"FAILS: ",
    }
}

// Writes a report in parts.
#[tactic(auto, unfolding(crate::specs::Reports::joined))]
fn put_report<'a, W: Output>(
    name: &'a [u8],
    words: &'a [u8],
    following: &'a [u8],
    output: &mut W,
) -> Result<(), WriteFault>
    ensures { SendsOrBreaks (W.taker output.old) (W.taker output.new) result (spec.joined name.now words.now following.now) }
{
    put_all(&[name, b": ", words, following], output)
}

// Writes what follows the first words.
fn put_following<W: Output>(
    program: &Program<Global>,
    lines: &[&[u8]],
    promise: &Promise,
    verdict: &PromiseVerdict,
    output: &mut W,
) -> Result<(), WriteFault> {
    match verdict {
        PromiseVerdict::Held(held) => {
            put_kept(program, promise, held, output)?;
            put_fall_through(program, held.fall_through, output)
        }
        PromiseVerdict::Fails(failure) => {
            put_failure(program, lines, promise, failure, output)?;
            put_fall_through(program, failure.fall_through, output)
        }
        PromiseVerdict::NoState(tried) => put_no_state(*tried, output),
    }
}

// Returns what follows the first words. Fails only if memory runs out.
fn text_of(
    alloc: Global,
    program: &Program<Global>,
    lines: &[&[u8]],
    promise: &Promise,
    verdict: &PromiseVerdict,
) -> Result<Vec<u8>, RunFault> {
    let mut told = Vec::new(alloc);
    match put_following(
        program,
        lines,
        promise,
        verdict,
        &mut ToWrite::new(&mut told),
    ) {
        Ok(()) => Ok(told),
        Err(WriteFault) => Err(RunFault::Memory),
    }
}

/// Writes the verdict on a promise, for a source with these lines: the routine's name, the first words, which say whether
/// the promise is known to hold everywhere, and the rest of the report. Fails if a write fails or memory runs out.
pub fn put_verdict<W: Output>(
    alloc: Global,
    program: &Program<Global>,
    lines: &[&[u8]],
    promise: &Promise,
    verdict: &PromiseVerdict,
    output: &mut W,
) -> Result<(), RunFault>
    ensures words { OnOk result ((following : List ℕ)
        × Sends (W.taker output.old) (W.taker output.new) (spec.report promise.now.name.now verdict.now following)) }
{
    let following = text_of(alloc, program, lines, promise, verdict)?;
    let words = first_words(verdict);
    Ok(put_report(promise.name, words, following.as_slice(), output)?)
}
