//! What is said of a file that cannot be read, or of an image that cannot be written.

use a2_formats::{Flaw, FormatFault};
use a2_run::RunFault;
use a2_stream::{Output, put};
use a2_text::{decimal, hex_word};
use a2lab_commands::Refusal;

// Returns the sentence of a flaw.
fn sentence(flaw: Flaw) -> &'static [u8] {
    match flaw {
        Flaw::Form => b"not a line of this format; --from says what the file is",
        Flaw::Digits => b"expected two hexadecimal digits for each byte",
        Flaw::Length => b"the number of bytes differs from the count at the front of the line",
        Flaw::Checksum => b"the checksum is wrong, so the line was changed or is not complete",
        Flaw::Kind => b"unknown type of record",
        Flaw::NoAddress => b"the first bytes have no address",
        Flaw::AfterEnd => b"a line follows the record that ends the file",
        Flaw::NoEnd => b"the record that ends the file is missing, so the file is not complete",
        Flaw::Outside => b"a byte would be at or above $C000, where RAM ends",
        Flaw::Overlap => b"an earlier byte has the same address",
        Flaw::Short => b"the file ends here, but it says that it has more bytes",
        Flaw::Long => b"the file continues here, but it says that it ends",
        Flaw::Empty => b"there are no bytes to write",
        Flaw::Gap => b"there is no byte here, and this format has no gaps; give --fill 00",
        Flaw::Unlike => b"this format cannot have these bytes",
    }
}

// Writes where a flaw is, after the name of the file.
fn put_place<E: Output>(texts: bool, place: usize, flaw: Flaw, complaints: &mut E) {
    // If a write fails, there is no place left to report it.
    let number = decimal(place as u64);
    if flaw == Flaw::Empty || flaw == Flaw::Unlike {
        let _ = put(b": error: ", complaints);
    } else if flaw == Flaw::Gap {
        let address = hex_word((place % 65536) as u16);
        let _ = put(b": error: $", complaints);
        let _ = put(&address, complaints);
        let _ = put(b": ", complaints);
    } else if texts {
        let _ = put(b":", complaints);
        let _ = put(number.as_slice(), complaints);
        let _ = put(b": error: ", complaints);
    } else {
        let _ = put(b": error: byte ", complaints);
        let _ = put(number.as_slice(), complaints);
        let _ = put(b": ", complaints);
    }
}

// Reports a flaw at a place of the file `name`.
fn report_at<E: Output>(name: &str, texts: bool, place: usize, flaw: Flaw, complaints: &mut E) {
    let _ = put(name.as_bytes(), complaints);
    put_place(texts, place, flaw, complaints);
    let _ = put(sentence(flaw), complaints);
    let _ = put(b"\n", complaints);
}

/// Reports why the file `name` cannot be read, or its image cannot be written, and returns the error that ends the command. `texts` says
/// whether the places of the file are lines; otherwise they are offsets from 0.
pub fn report_flaw<'a, E: Output>(
    name: Option<&str>,
    texts: bool,
    fault: FormatFault,
    complaints: &mut E,
) -> Refusal<'a> {
    match fault {
        FormatFault::Memory => Refusal::Fault(RunFault::Memory),
        FormatFault::At(place, flaw) => {
            report_at(name.unwrap_or("-"), texts, place, flaw, complaints);
            Refusal::Reported
        }
    }
}
