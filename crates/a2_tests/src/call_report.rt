//! Reports on a call that the source does not allow.

use crate::call::append;
use crate::line::Call;
use crate::settings::setting_in;
use a2_asm::{Names, Program};
use a2_text::{first_word, front_len};
use std::alloc::{AllocError, Allocator};
use strsim::generic_levenshtein;

// The report if no name is missing.
const NOT_VALID: &[u8] =
    b"cannot call its routine: the lines that call it begin at $BF00, and the source is not valid with them; keep $BF00 to $BFFF free";

// Returns whether a program has a name.
fn is_defined<A: Allocator + Copy>(program: &Program<A>, name: &[u8]) -> bool {
    match std::str::from_utf8(name) {
        Ok(name) => program.name(name).is_some(),
        Err(_) => false,
    }
}

// Returns the name at the front of a place, or nothing if it begins with a number or is a register.
fn name_of_place(place: &[u8]) -> &[u8] {
    match place {
        [b'$' | b'%' | b'0'..=b'9', ..] => &[],
        [b'A' | b'X' | b'Y' | b'a' | b'x' | b'y'] => &[],
        _ => &place[..front_len(place, |c| c != b'+' && c != b'-')],
    }
}

// Returns the first name in the settings of a call that a program lacks.
fn missing_place<'a, A: Allocator + Copy>(
    program: &Program<A>,
    settings: &'a [u8],
) -> Option<&'a [u8]> {
    let mut rest = settings;
    while let Some(setting) = setting_in(rest) {
        let name = name_of_place(setting.name);
        if !name.is_empty() && !is_defined(program, name) {
            return Some(name);
        }
        let (_, following) = first_word(setting.value)?;
        rest = following;
    }
    None
}

// Returns the first name in a call that a program lacks.
fn missing_name<'a, A: Allocator + Copy>(program: &Program<A>, call: Call<'a>) -> Option<&'a [u8]> {
    if is_defined(program, call.name) {
        missing_place(program, call.settings)
    } else {
        Some(call.name)
    }
}

// Returns how different two names are: 0 if they differ only in upper and lower case, otherwise 1 more than the number of
// letters inserted, left out or changed.
fn distance<A: Allocator + Copy>(alloc: A, name: &[u8], other: &[u8]) -> Result<usize, AllocError> {
    if name.eq_ignore_ascii_case(other) {
        return Ok(0);
    }
    Ok(generic_levenshtein(alloc, name, other)?.saturating_add(1))
}

// Returns the name that is most similar to a missing one, or an empty one if none is similar enough. At most two letters may
// differ, and at most half of them.
fn nearest<'a, A: Allocator + Copy>(
    alloc: A,
    names: &'a Names<A>,
    name: &[u8],
) -> Result<&'a [u8], AllocError> {
    let mut nearest: &[u8] = b"";
    let mut least = (name.len() / 2).min(2) + 2;
    for index in 0..names.len() {
        if let Some((known, _)) = names.get_index(index) {
            let known = known.as_str().as_bytes();
            let far = distance(alloc, name, known)?;
            if far < least {
                least = far;
                nearest = known;
            }
        }
    }
    Ok(nearest)
}

/// Returns why the routine of a call cannot be called: the first name that the program lacks, and the one that may be meant.
pub(crate) fn call_report<A: Allocator + Copy>(
    alloc: A,
    call: Call,
    program: &Program<A>,
) -> Result<Vec<u8, A>, AllocError> {
    let mut text = Vec::new(alloc);
    let Some(name) = missing_name(program, call) else {
        append(&mut text, &[NOT_VALID])?;
        return Ok(text);
    };
    append(
        &mut text,
        &[
            b"cannot call ",
            call.name,
            b": the source has no label ",
            name,
        ],
    )?;
    let near = nearest(alloc, program.names(), name)?;
    if !near.is_empty() {
        append(&mut text, &[b"; did you mean ", near, b"?"])?;
    }
    Ok(text)
}
