//! Parameters of macros and counters of repeated blocks, and the texts that replace them.

use crate::adding::add;
use crate::fault::{ExpandFault, Problem, trouble, trouble_at};
use crate::larger::{is_run_byte, quote_after};
use crate::limits::MOST_LINE_BYTES;
use crate::parts::{is_name, place_in_list, split_item};
use a2_text::front_len;
use std::alloc::{AllocError, Allocator};

/// A name and the text that replaces it.
#[derive(Drop)]
pub(crate) struct Binding<A: Allocator> {
    pub name: Vec<u8, A>,
    pub text: Vec<u8, A>,
}

// Returns the text that replaces a name; the newest binding counts.
fn bound<'b, A: Allocator>(bindings: &'b [Binding<A>], name: &[u8]) -> Option<&'b [u8]> {
    for binding in bindings {
        if binding.name.as_slice() == name {
            return Some(binding.text.as_slice());
        }
    }
    None
}

// Appends a run of name bytes, or the text that replaces it. After `$`, `%` and `.` it is not a name. Fails if that text makes the line too
// long.
fn put_run<A: Allocator>(
    out: &mut Vec<u8, A>,
    last: u8,
    run: &[u8],
    bindings: &[Binding<A>],
) -> Result<(), ExpandFault> {
    let text = if matches!(last, b'$' | b'%' | b'.') {
        None
    } else {
        bound(bindings, run)
    };
    out.extend_from_slice(text.unwrap_or(run))?;
    if text.is_some() && out.len() > MOST_LINE_BYTES {
        return Err(trouble(Problem::GrownLine, run));
    }
    Ok(())
}

/// Returns a line with texts in place of the names that are bound. Comments and texts in quotes stay as they are. Fails if a text makes the
/// line too long: otherwise an argument that is passed on twice by each call would double with each.
pub(crate) fn substituted<A: Allocator>(
    alloc: A,
    line: &[u8],
    bindings: &[Binding<A>],
) -> Result<Vec<u8, A>, ExpandFault> {
    if bindings.is_empty() || line.starts_with(b"*") {
        return Ok(Vec::from_slice(alloc, line)?);
    }
    let mut out = Vec::new(alloc);
    let mut rest = line;
    let mut quote = None;
    let mut last = 0;
    for _ in 0..line.len() {
        let Some((c, following)) = rest.split_first() else {
            break;
        };
        if quote.is_none() && *c == b';' {
            break;
        }
        if quote.is_none() && is_run_byte(*c) {
            let (run, after) = rest.split_at(front_len(rest, |c| is_run_byte(c)));
            put_run(&mut out, last, run, bindings)?;
            rest = after;
        } else {
            out.extend_from_slice(&[*c])?;
            quote = quote_after(quote, *c);
            rest = following;
        }
        last = *c;
    }
    out.extend_from_slice(rest)?;
    Ok(out)
}

// Returns the name of a parameter and its default, which follows `=`.
fn split_parameter(item: &[u8]) -> (&[u8], Option<&[u8]>) {
    let (name, rest) = item.split_at(front_len(item, |c| c != b'='));
    match rest.strip_prefix(b"=") {
        Some(default) => (name.trim_ascii(), Some(default.trim_ascii())),
        None => (name.trim_ascii(), None),
    }
}

// Adds the binding of a parameter to its argument, or to its default.
fn bind<A: Allocator + Copy>(
    alloc: A,
    bindings: &mut Vec<Binding<A>, A>,
    parameter: &[u8],
    argument: Option<&[u8]>,
) -> Result<(), ExpandFault> {
    let (name, default) = split_parameter(parameter);
    let given = match argument {
        Some(text) if !text.is_empty() => Some(text),
        _ => default,
    };
    let Some(text) = given else {
        return Err(trouble(Problem::FewArguments, name));
    };
    let name = Vec::from_slice(alloc, name)?;
    let text = Vec::from_slice(alloc, text)?;
    add(bindings, Binding { name, text })?;
    Ok(())
}

// Splits the first item off a list, if there is a list that is not blank.
fn next_item(list: Option<&[u8]>) -> (Option<&[u8]>, Option<&[u8]>) {
    match list {
        Some(text) => {
            let (item, rest) = split_item(text);
            (Some(item), rest)
        }
        None => (None, None),
    }
}

// A list, or `None` if it is blank.
fn list_of(text: &[u8]) -> Option<&[u8]> {
    if text.trim_ascii().is_empty() {
        None
    } else {
        Some(text)
    }
}

// Whether a parameter of a list has this name.
fn has_parameter(list: Option<&[u8]>, name: &[u8]) -> bool {
    let mut rest = list;
    for _ in 0..list.unwrap_or(b"").len().saturating_add(1) {
        let (Some(item), more) = next_item(rest) else {
            break;
        };
        if split_parameter(item).0 == name {
            return true;
        }
        rest = more;
    }
    false
}

/// Fails if a parameter of a list is not a name, or has the name of a later one.
pub(crate) fn check_parameters(parameters: &[u8]) -> Result<(), ExpandFault> {
    let mut rest = list_of(parameters);
    for _ in 0..parameters.len().saturating_add(1) {
        let (Some(item), more) = next_item(rest) else {
            break;
        };
        let (name, _) = split_parameter(item);
        let at = place_in_list(parameters, rest.unwrap_or(b""));
        if !is_name(name) {
            return Err(trouble_at(Problem::Parameter, item, at));
        }
        if has_parameter(more, name) {
            return Err(trouble_at(Problem::ParameterTwice, name, at));
        }
        rest = more;
    }
    Ok(())
}

/// Adds the bindings of the parameters of a macro to the arguments of a call.
pub(crate) fn bind_all<A: Allocator + Copy>(
    alloc: A,
    bindings: &mut Vec<Binding<A>, A>,
    parameters: &[u8],
    arguments: &[u8],
) -> Result<(), ExpandFault> {
    let mut names = list_of(parameters);
    let mut texts = list_of(arguments);
    for _ in 0..parameters.len().saturating_add(1) {
        let (Some(parameter), more) = next_item(names) else {
            break;
        };
        let (argument, others) = next_item(texts);
        bind(alloc, bindings, parameter, argument)?;
        names = more;
        texts = others;
    }
    match texts {
        Some(text) => {
            let at = place_in_list(arguments, text);
            Err(trouble_at(Problem::ManyArguments, text.trim_ascii(), at))
        }
        None => Ok(()),
    }
}
