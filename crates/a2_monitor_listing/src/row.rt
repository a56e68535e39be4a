//! Writing one line of a listing as lines of a source.

ghost use Rattle.std.specs.Prelude.{◌≡◌, ◌<◌, length, IfSome};

use a2_opcode::{Instr, Mode, decode, list_line, row_for};
use a2_text::{hex_pair, hex_word};
use std::alloc::{AllocError, Allocator};

// The blanks before an operation.
const BLANKS: &[u8] = b"        ";

// The column where the operand begins in a line of a listing.
const OPERAND: usize = 25;

// The number of data bytes on a line.
const BYTES: usize = 8;

/// The lines of the source so far.
pub(crate) struct Draft<A: Allocator> {
    text: Vec<u8, A>,
    // The line of the listing that each of them comes from.
    origins: Vec<usize, A>,
    // The addresses below $0100 that have a name.
    named: [bool; 256],
}

// Not derived, only for the prover: it treats this as one call, and a derived `drop` field by field.
impl<A: Allocator> Drop for Draft<A> {
    fn drop(self) {
        let Draft {
            text: _,
            origins: _,
            named: _,
        } = self;
    }
}

// The instruction that exactly these bytes form.
fn whole(bytes: &[u8], address: u16) -> Option<Instr>
    ensures { IfSome result (λ _. 0 < length bytes.now) }
{
    let instr = decode(bytes, address)?;
    if usize::from(instr.mode.length()) == bytes.len() {
        Some(instr)
    } else {
        None
    }
}

// Whether an instruction has three bytes although the value of its operand would give it two.
fn is_long(instr: Instr) -> bool {
    let short = match instr.mode {
        Mode::Absolute => Mode::ZeroPage,
        Mode::AbsoluteX => Mode::ZeroPageX,
        Mode::AbsoluteY => Mode::ZeroPageY,
        _ => return false,
    };
    instr.value < 256 && row_for(instr.mnemonic, short).is_some()
}

// The address this many bytes further on.
fn address_after(address: u16, count: usize) -> Option<u16> {
    let count = u16::try_from(count).ok()?;
    address.checked_add(count)
}

impl<A: Allocator + Copy> Draft<A> {
    /// Returns an empty source.
    pub(crate) fn new(alloc: A) -> Draft<A> {
        Draft {
            text: Vec::new(alloc),
            origins: Vec::new(alloc),
            named: [false; 256],
        }
    }

    // Ends a line that comes from this line of the listing.
    fn end_line(&mut self, number: usize) -> Result<(), AllocError> {
        self.text.push(b'\n')?;
        self.origins.push(number)?;
        Ok(())
    }

    // Appends a line made of these texts.
    fn put_line(&mut self, number: usize, pieces: &[&[u8]]) -> Result<(), AllocError> {
        for piece in pieces {
            self.text.extend_from_slice(piece)?;
        }
        self.end_line(number)
    }

    // Appends the line that sets the address of the lines after it.
    fn put_origin(&mut self, number: usize, address: u16) -> Result<(), AllocError> {
        self.put_line(number, &[BLANKS, b"ORG $", &hex_word(address)])
    }

    // Appends the line of an instruction, in the form in which the Monitor lists it.
    fn put_instruction(
        &mut self,
        number: usize,
        instr: Instr,
        bytes: &[u8],
        address: u16,
    ) -> Result<(), AllocError>
        requires { 0 < length bytes.now }
    {
        let listed = list_line(bytes, address);
        let line = listed.text.as_str().as_bytes();
        let (_, operand) = line.split_at(OPERAND.min(line.len()));
        let name = instr.mnemonic.name().as_bytes();
        if is_long(instr) {
            let word = hex_word(instr.value);
            let (_, index) = operand.split_at(word.len().saturating_add(1).min(operand.len()));
            self.named[usize::from(instr.value % 256)] = true;
            return self.put_line(number, &[BLANKS, name, b" W", &word, index]);
        }
        let gap: &[u8] = if operand.is_empty() { b"" } else { b" " };
        self.put_line(number, &[BLANKS, name, gap, operand])
    }

    // Appends the line of some bytes of data.
    fn put_data(&mut self, number: usize, bytes: &[u8]) -> Result<(), AllocError> {
        let mut front: &[u8] = b"        DFB $";
        for byte in bytes {
            self.text.extend_from_slice(front)?;
            self.text.extend_from_slice(&hex_pair(*byte))?;
            front = b",$";
        }
        self.end_line(number)
    }

    // Appends the lines for one line of the listing: an instruction if its bytes form one, otherwise data.
    fn put_row(&mut self, number: usize, bytes: &[u8], address: u16) -> Result<(), AllocError> {
        if let Some(instr) = whole(bytes, address) {
            return self.put_instruction(number, instr, bytes, address);
        }
        for piece in bytes.chunks(BYTES) {
            self.put_data(number, piece)?;
        }
        Ok(())
    }

    /// Appends the lines for bytes at an address, and returns the address after them. `next` is the address at which lines
    /// without an `ORG` would be placed.
    pub(crate) fn put_bytes(
        &mut self,
        next: Option<u16>,
        number: usize,
        bytes: &[u8],
        address: u16,
    ) -> Result<Option<u16>, AllocError> {
        if next != Some(address) && !bytes.is_empty() {
            self.put_origin(number, address)?;
        }
        self.put_row(number, bytes, address)?;
        Ok(address_after(address, bytes.len()))
    }

    /// Appends the lines that define the names. A name that is defined after its use always takes two bytes.
    pub(crate) fn put_names(&mut self, number: usize) -> Result<(), AllocError> {
        for low in 0..=255u8 {
            if self.named[usize::from(low)] {
                let word = hex_word(u16::from(low));
                self.put_line(number, &[b"W", &word, b"   EQU $", &word])?;
            }
        }
        Ok(())
    }

    /// Returns the text of the lines.
    pub(crate) fn text(&self) -> &[u8]
        ensures { result.now ≡ self.now.text.items }
    {
        self.text.as_slice()
    }

    /// Returns the line of the listing that a line of the text comes from, or 0 if it comes from none.
    pub(crate) fn origin(&self, line: u16) -> usize {
        let index = usize::from(line).wrapping_sub(1);
        self.origins.as_slice().get(index).copied().unwrap_or(0)
    }

    /// Returns the text of the lines and drops the rest.
    pub(crate) fn into_text(self) -> Vec<u8, A>
        ensures { result.items ≡ self.text.items }
    {
        let Draft {
            text,
            origins: _,
            named: _,
        } = self;
        text
    }
}
