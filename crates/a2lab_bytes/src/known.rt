//! The names of the Monitor, and those of a file.

use a2_bus::locations;
use a2_disassembly::NamedPlace;
use a2_services::service_at;
use a2_syntax::{Body, Expr, Line, Part, Signed, Source, Term};
use std::alloc::{AllocError, Global};

// Returns the name of a location of page 0. Apple II Reference Manual (1979), chapter 3, the Monitor's special locations.
fn low_name(address: u16) -> Option<&'static [u8]> {
    match address {
        locations::WNDLFT => Some(b"WNDLFT"),
        locations::WNDWDTH => Some(b"WNDWDTH"),
        locations::WNDTOP => Some(b"WNDTOP"),
        locations::WNDBTM => Some(b"WNDBTM"),
        locations::CH => Some(b"CH"),
        locations::CV => Some(b"CV"),
        locations::BASL => Some(b"BASL"),
        locations::BASH => Some(b"BASH"),
        locations::H2 => Some(b"H2"),
        locations::V2 => Some(b"V2"),
        locations::COLOR => Some(b"COLOR"),
        locations::INVFLG => Some(b"INVFLG"),
        locations::PROMPT => Some(b"PROMPT"),
        locations::CSW => Some(b"CSW"),
        locations::KSW => Some(b"KSW"),
        _ => None,
    }
}

// Returns the name of the keyboard or a switch. Apple II Reference Manual (1979), pages 6, 12 and 79.
fn switch_name(address: u16) -> Option<&'static [u8]> {
    match address {
        locations::KBD => Some(b"KBD"),
        locations::KBDSTRB => Some(b"KBDSTRB"),
        locations::TXTCLR => Some(b"TXTCLR"),
        locations::TXTSET => Some(b"TXTSET"),
        locations::MIXCLR => Some(b"MIXCLR"),
        locations::MIXSET => Some(b"MIXSET"),
        locations::LOWSCR => Some(b"LOWSCR"),
        locations::HISCR => Some(b"HISCR"),
        locations::LORES => Some(b"LORES"),
        locations::HIRES => Some(b"HIRES"),
        _ => None,
    }
}

// Returns the name that the Monitor gives an address.
fn monitor_name(address: u16) -> Option<&'static [u8]> {
    if address < 256 {
        return low_name(address);
    }
    match service_at(address) {
        Some(service) => Some(service.name()),
        None => switch_name(address),
    }
}

// Returns the number that an expression is, if it is one.
fn number_of(e: &Expr) -> Option<u16> {
    match e.terms.get() {
        [
            Signed {
                minus: false,
                term: Term::Number(number),
            },
        ] if e.part == Part::Whole => Some(*number),
        _ => None,
    }
}

// Returns the name that a line gives a number.
fn place_on(line: &Line) -> Option<NamedPlace<'_>> {
    let name = line.label.as_ref()?;
    match &line.body {
        Body::Equ(e) => Some(NamedPlace {
            address: number_of(e)?,
            name: name.get().as_bytes(),
        }),
        _ => None,
    }
}

// Returns whether one of these places has this name.
fn is_taken(places: &[NamedPlace<'_>], name: &[u8]) -> bool {
    for place in places {
        if place.name == name {
            return true;
        }
    }
    false
}

// Adds the names that the lines of a source give to numbers.
fn add_names<'s>(names: &mut Vec<NamedPlace<'s>>, source: &'s Source) -> Result<(), AllocError> {
    for line in source.lines() {
        if let Some(place) = place_on(line) {
            names.push(place)?;
        }
    }
    Ok(())
}

/// Returns the names of addresses: those of the Monitor, and those that a source gives to numbers. A name of the source is not one of
/// the Monitor too.
pub(crate) fn names_with(
    alloc: Global,
    source: &Source,
) -> Result<Vec<NamedPlace<'_>>, AllocError> {
    let mut given = Vec::new(alloc);
    add_names(&mut given, source)?;
    let mut names = Vec::new(alloc);
    for address in 0..=0xFFFFu16 {
        if let Some(name) = monitor_name(address)
            && !is_taken(given.as_slice(), name)
        {
            names.push(NamedPlace { address, name })?;
        }
    }
    names.extend_from_slice(given.as_slice())?;
    Ok(names)
}
