//! Breakpoints: where they are, and what they need besides.

ghost use Rattle.a2_dap.specs.Requests.{Travels};

use a2_debugger::{Break, Inspector, InspectorCommand, Watch};
use a2_symbols::Span;

/// Which request sets a breakpoint.
#[derive(Clone, Copy, Debug, PartialEq, Eq)]
pub enum MarkKind {
    Line,
    Function,
    Instruction,
}

/// A breakpoint.
#[derive(Drop)]
pub struct Mark {
    /// The number by which the editor knows it.
    pub id: u64,
    pub kind: MarkKind,
    pub place: Break,
    /// The run stops from this arrival on; 0 or 1 for each.
    pub needed: u64,
    /// How often the run has arrived.
    pub hits: u64,
    /// What an arrival prints; then the run does not stop.
    pub log: Option<String>,
}

/// What the arrival at a breakpoint means.
#[derive(Clone, Copy, Debug, PartialEq, Eq)]
pub enum Arrival {
    /// There is no breakpoint.
    Nowhere,
    /// The run stops at the breakpoint with this number.
    Stops(u64),
    /// The run continues, since it has not arrived often enough.
    Passes,
    /// The run continues, and the text of the breakpoint with this index is printed.
    Prints(usize),
}

// Returns the index of the breakpoint at an address.
fn index_at(marks: &[Mark], address: u16) -> Option<usize> {
    marks.iter().position(|mark| mark.place.address == address)
}

/// Counts an arrival at an address, and returns what it means.
pub fn arrive(marks: &mut Vec<Mark>, address: u16) -> Arrival {
    let Some(index) = index_at(marks.as_slice(), address) else {
        return Arrival::Nowhere;
    };
    let Some(mark) = marks.get_mut(index) else {
        return Arrival::Nowhere;
    };
    mark.hits = mark.hits.saturating_add(1);
    if mark.hits < mark.needed {
        Arrival::Passes
    } else if mark.log.is_some() {
        Arrival::Prints(index)
    } else {
        Arrival::Stops(mark.id)
    }
}

/// Returns what it means that a run backwards arrives at an address: breakpoints that print are passed, and no arrival is counted.
pub fn arrive_backwards(marks: &[Mark], address: u16) -> Arrival {
    match index_at(marks, address) {
        Some(index) => match marks.get(index) {
            Some(mark) if mark.log.is_none() => Arrival::Stops(mark.id),
            _ => Arrival::Passes,
        },
        None => Arrival::Nowhere,
    }
}

// Sets breakpoints.
fn set_breaks(inspector: &mut Inspector<'_>, marks: &[Mark])
    ensures { Travels inspector.old inspector.new }
{
    for mark in marks {
        let _ = inspector.execute_command(InspectorCommand::Break(mark.place));
    }
}

// Watches bytes.
fn set_watches(inspector: &mut Inspector<'_>, watches: &[Span])
    ensures { Travels inspector.old inspector.new }
{
    for span in watches {
        let _ = inspector.execute_command(InspectorCommand::Watch(Watch::OfBytes(*span)));
    }
}

/// Sets these breakpoints and watches these bytes, in place of all others.
pub fn set_stops(inspector: &mut Inspector<'_>, marks: &[Mark], watches: &[Span])
    ensures { Travels inspector.old inspector.new }
{
    let _ = inspector.execute_command(InspectorCommand::Clear);
    set_breaks(inspector, marks);
    set_watches(inspector, watches);
}
