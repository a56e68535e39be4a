//! Messages for the layout errors of a source whose lines are all in the grammar.

use crate::checked::Checked;
use crate::finding::is_operation;
use crate::forms::has_mode;
use crate::line::{Parts, is_among, number_of, parts_of};
use crate::message::Message;
use crate::mistake::Sentence;
use crate::names::{is_hexadecimal, line_of, marked_binary, marked_hexadecimal, missing, nearest};
use crate::operand::word_at;
use crate::probe::{in_the_way, word_of_line};
use crate::services::{address_of, service_like};
use crate::values::{has_name, literal};
use a2_opcode::{Mnemonic, Mode};
use a2_syntax::{Body, Fault, Operand};
use std::alloc::{AllocError, Allocator};

/// A line of a source with errors.
#[derive(Drop)]
pub(crate) struct Place<'a, A: Allocator> {
    source: &'a Checked<'a, A>,
    index: usize,
    // The parts of the line as written.
    parts: Parts<'a>,
    // The parsed line.
    body: &'a Body<A>,
}

impl<'a> Parts<'a> {
    // A message that points at the label.
    fn at_label(self, what: Sentence, fix: Sentence) -> Message<'a> {
        Message::new(0, self.label.len(), what, fix).with_word(self.label)
    }

    // A message that points at the operation.
    fn at_operation(self, what: Sentence, fix: Sentence) -> Message<'a> {
        Message::new(self.operation_at, self.operation.len(), what, fix)
    }

    // A message that points at the operand, or at the operation if there is no operand.
    fn at_operand(self, what: Sentence, fix: Sentence) -> Message<'a> {
        if self.operand.is_empty() {
            self.at_operation(what, fix)
        } else {
            Message::new(self.operand_at, self.operand.len(), what, fix)
        }
    }

    // A message that points at a name in the operand.
    fn at_name(self, name: &'a [u8], what: Sentence, fix: Sentence) -> Message<'a> {
        let at = self.operand_at.saturating_add(word_at(self.operand, name));
        Message::new(at, name.len(), what, fix).with_word(name)
    }
}

impl<'a, A: Allocator + Copy> Place<'a, A> {
    /// Returns the line with this number, counted from 1, or `None` if the source does not have it.
    pub(crate) fn of(source: &'a Checked<'a, A>, number: u16) -> Option<Place<'a, A>> {
        let index = usize::from(number).wrapping_sub(1);
        match (source.texts.get(index), source.lines.get(index)) {
            (Some(text), Some(line)) => Some(Place {
                source,
                index,
                parts: parts_of(text),
                body: &line.body,
            }),
            _ => None,
        }
    }

    // The label is already defined in an earlier line.
    fn duplicate(&self) -> Message<'a> {
        let first = line_of(self.source.lines, self.parts.label).unwrap_or(0);
        let fix = b"rename one of the two; if @ is an operation, put a blank before it";
        self.parts
            .at_label(b"`@` is already defined in line #", fix)
            .with_number(number_of(first))
    }

    // The line uses a name that no line defines.
    fn unknown(&self, alloc: A) -> Result<Message<'a>, AllocError> {
        let Some(name) = missing(self.source.lines, self.body) else {
            return Ok(
                self.parts
                    .at_operand(b"a name is not defined", b"define it with a label or EQU"),
            );
        };
        let number = self.number(name);
        if let Some(message) = number {
            return Ok(message);
        }
        let near = nearest(alloc, self.source.lines, name)?;
        if near.is_empty() {
            return self.undefined(alloc, name);
        }
        Ok(Message {
            second: near,
            ..self.parts.at_name(name, NOT_DEFINED, b"did you mean ~?")
        })
    }

    // Returns the message for a name that is a number as other assemblers write it.
    fn number(&self, name: &'a [u8]) -> Option<Message<'a>> {
        let (digits, fix): (&[u8], Sentence) = match marked_hexadecimal(name) {
            Some(digits) => (digits, b"write $@"),
            None => (marked_binary(name)?, b"write %@"),
        };
        Some(Message {
            first: digits,
            ..self.parts.at_name(name, NOT_DEFINED, fix)
        })
    }

    // The line uses a name that no line defines, and no label is similar to it.
    fn undefined(&self, alloc: A, name: &'a [u8]) -> Result<Message<'a>, AllocError> {
        if is_among(name, b"X Y") {
            return Ok(self.register(name));
        }
        if let Some(address) = address_of(name) {
            return Ok(Message {
                second: address,
                ..self.parts.at_name(
                    name,
                    b"`@` is not defined; it is the service at ~",
                    b"add the line @ EQU ~",
                )
            });
        }
        match self.misspelt_service(alloc, name)? {
            Some(message) => Ok(message),
            None => Ok(self.undefined_name(name)),
        }
    }

    // Returns the message for a call of a service whose name is misspelt.
    fn misspelt_service(
        &self,
        alloc: A,
        name: &'a [u8],
    ) -> Result<Option<Message<'a>>, AllocError> {
        if !matches!(self.body, Body::Instr(Mnemonic::Jsr | Mnemonic::Jmp, _)) {
            return Ok(None);
        }
        let Some(service) = service_like(alloc, name)? else {
            return Ok(None);
        };
        let fix = b"for the service ~, write @ or add a line with EQU";
        Ok(Some(Message {
            first: service.address,
            second: service.name,
            ..self.parts.at_name(name, NOT_DEFINED, fix)
        }))
    }

    // Returns the message for a name that has nothing else to be taken for.
    fn undefined_name(&self, name: &'a [u8]) -> Message<'a> {
        if is_operation(name) {
            let fix = b"put each operation on its own line";
            return self
                .parts
                .at_name(name, b"`@` is an operation, not a name", fix);
        }
        let fix: Sentence = if is_hexadecimal(name) {
            b"write $@ if it is a hexadecimal number"
        } else {
            b"define it: put @ in column 1 of a line, or add a line such as @ EQU 5"
        };
        self.parts.at_name(name, NOT_DEFINED, fix)
    }

    // The line uses X or Y as a name.
    fn register(&self, name: &'a [u8]) -> Message<'a> {
        let is_x = name.eq_ignore_ascii_case(b"X");
        match self.table(name, is_x) {
            Some(table) => Message {
                first: table,
                second: name,
                ..self.parts.at_name(name, IS_REGISTER, b"write @,~")
            },
            None => self
                .parts
                .at_name(name, IS_REGISTER, self.for_register(is_x)),
        }
    }

    // Returns the operand without X or Y that is added to it, if the mnemonic can have that register as an index.
    fn table(&self, name: &[u8], is_x: bool) -> Option<&'a [u8]> {
        let Body::Instr(mnemonic, Operand::Plain(_)) = self.body else {
            return None;
        };
        let mode = if is_x {
            Mode::AbsoluteX
        } else {
            Mode::AbsoluteY
        };
        let table = self.parts.operand.strip_suffix(name)?.strip_suffix(b"+")?;
        has_mode(*mnemonic, mode).then_some(table)
    }

    // Returns what to write instead of an operand that is X or Y.
    fn for_register(&self, is_x: bool) -> Sentence {
        match self.body {
            Body::Instr(mnemonic, _) => instead_of_register(*mnemonic, is_x),
            _ => b"write a number or the name of a label",
        }
    }

    // The line needs the value of a name that is only defined in a later line.
    fn forward(&self) -> Message<'a> {
        let lines = self.source.lines;
        let (earlier, _) = lines.split_at(self.index.min(lines.len()));
        let name = missing(earlier, self.body).unwrap_or(b"");
        let line = line_of(lines, name).unwrap_or(self.index);
        let what = b"`@` is used here before its definition in line #";
        self.parts
            .at_name(name, what, b"move line # above this line")
            .with_number(number_of(line))
    }

    // Returns the address of the line and its value if they are known.
    fn value(&self) -> Option<(u16, u16)> {
        match (self.source.values, self.body) {
            (Some(program), Body::Instr(_, _)) => word_of_line(program, self.index),
            _ => None,
        }
    }

    // The value is out of range.
    fn range(&self) -> Message<'a> {
        let (most, fix) = limits(self.body);
        let value = match self.value() {
            Some((_, value)) => Some(value),
            None => literal(self.body),
        };
        let what: Sentence = if value.is_some() {
            b"the value is #, but @"
        } else {
            b"the value is out of range: @"
        };
        let message = self.parts.at_operand(what, fix).with_word(most);
        Message {
            second: self.parts.expression(),
            number: value.unwrap_or(0),
            ..message
        }
    }

    // The branch target is too far away.
    fn branch(&self) -> Message<'a> {
        let (number, what) = match self.value() {
            Some((address, target)) => distance(address.wrapping_add(2), target),
            None => (
                0,
                b"the target is too far away: at most 128 bytes before the next instruction, or 127 after it".as_slice(),
            ),
        };
        let fix = b"write  @ *+5, then in the next line  JMP ~";
        Message {
            first: opposite(self.body),
            second: self.parts.expression(),
            ..self.parts.at_operand(what, fix).with_number(number)
        }
    }

    // The line places a byte at an address where an earlier line has one.
    fn overlap(&self, alloc: A) -> Result<Message<'a>, AllocError> {
        let line = in_the_way(alloc, self.source.texts, self.index, self.parts.label)?;
        let what: Sentence = if line.is_some() {
            b"this line puts a byte at an address that line # already uses"
        } else {
            b"this line puts a byte at an address that an earlier line already uses"
        };
        let message = self.parts.at_operation(
            what,
            b"move one of the two parts to other addresses with ORG",
        );
        Ok(message.with_number(line.unwrap_or(0)))
    }

    // The mnemonic does not have this addressing mode.
    fn no_mode(&self) -> Message<'a> {
        match self.body {
            Body::Instr(mnemonic, operand) => self.no_form(*mnemonic, operand),
            _ => self.parts.at_operand(b"this operand is not allowed here", b"use another operand"),
        }
    }

    // The mnemonic does not have the form of this operand.
    fn no_form(&self, mnemonic: Mnemonic, operand: &Operand<A>) -> Message<'a> {
        let (what, form) = refused_form(operand);
        let name = mnemonic.name().as_bytes();
        let message = Message {
            shown: name,
            first: name,
            second: form,
            ..self.parts.at_operand(what, b"write it as in ")
        };
        if has_mode(mnemonic, Mode::Implied) {
            return Message {
                what: b"`@` takes no operand",
                fix: b"remove the operand, or begin a comment with ;",
                ..message
            };
        }
        match (mnemonic, operand) {
            (Mnemonic::Inc, Operand::Accumulator) => Message {
                fix: b"write  CLC, then  @ in the next line",
                first: b"ADC #1",
                ..message
            },
            (Mnemonic::Dec, Operand::Accumulator) => Message {
                fix: b"write  SEC, then  @ in the next line",
                first: b"SBC #1",
                ..message
            },
            _ => Message {
                forms: Some(mnemonic),
                ..message
            },
        }
    }

    /// Returns the message for a layout error in this line.
    pub(crate) fn message(&self, alloc: A, fault: Fault) -> Result<Message<'a>, AllocError> {
        match fault {
            Fault::TooManyNames(_) => Ok(
                self.parts.at_label(
                    b"this is the 1025th label, but at most 1024 are allowed",
                    b"replace some by numbers, or by * and a distance, as in *-5",
                ),
            ),
            Fault::Duplicate(_) => Ok(self.duplicate()),
            Fault::Unknown(_) => self.unknown(alloc),
            Fault::Forward(_) => Ok(self.forward()),
            Fault::NoMode(_) => Ok(self.no_mode()),
            Fault::Branch(_) => Ok(self.branch()),
            Fault::Outside(_) => Ok(
                self.parts.at_operation(
                    b"a byte of this line would be at or above $C000",
                    b"use ORG to start at a lower address",
                ),
            ),
            Fault::Overlap(_) => self.overlap(alloc),
            _ => Ok(self.range()),
        }
    }
}

// Returns the branch that branches whenever the branch of a line does not.
fn opposite<A: Allocator>(body: &Body<A>) -> &'static [u8] {
    match body {
        Body::Instr(Mnemonic::Bcc, _) => b"BCS",
        Body::Instr(Mnemonic::Bcs, _) => b"BCC",
        Body::Instr(Mnemonic::Beq, _) => b"BNE",
        Body::Instr(Mnemonic::Bne, _) => b"BEQ",
        Body::Instr(Mnemonic::Bmi, _) => b"BPL",
        Body::Instr(Mnemonic::Bpl, _) => b"BMI",
        Body::Instr(Mnemonic::Bvc, _) => b"BVS",
        _ => b"BVC",
    }
}

// Returns the distance from the next instruction to a target, modulo 65,536, and the sentence that reports it.
fn distance(next: u16, target: u16) -> (u16, Sentence) {
    let following = target.wrapping_sub(next);
    if following < 0x8000 {
        (
            following,
            b"the target is # bytes after the next instruction, but at most 127 are allowed",
        )
    } else {
        (
            next.wrapping_sub(target),
            b"the target is # bytes before the next instruction, but at most 128 are allowed",
        )
    }
}

const NOT_DEFINED: Sentence = b"`@` is not defined";

const IS_REGISTER: Sentence = b"`@` is a register, not a name";

// Returns what to write instead of an instruction with X or Y as its operand.
fn instead_of_register(mnemonic: Mnemonic, is_x: bool) -> Sentence {
    match (mnemonic, is_x) {
        (Mnemonic::Inc, true) => b"write  INX to add 1 to X",
        (Mnemonic::Inc, false) => b"write  INY to add 1 to Y",
        (Mnemonic::Dec, true) => b"write  DEX to subtract 1 from X",
        (Mnemonic::Dec, false) => b"write  DEY to subtract 1 from Y",
        (Mnemonic::Sta, true) => b"write  TAX to copy A to X",
        (Mnemonic::Sta, false) => b"write  TAY to copy A to Y",
        (Mnemonic::Lda, true) => b"write  TXA to copy X to A",
        (Mnemonic::Lda, false) => b"write  TYA to copy Y to A",
        (_, true) => b"store X first, as in  STX $06, and write that address here",
        (_, false) => b"store Y first, as in  STY $06, and write that address here",
    }
}

// Returns the sentence for a mnemonic that does not have the form of an operand, and how that form is written.
fn refused_form<A: Allocator>(operand: &Operand<A>) -> (Sentence, &'static [u8]) {
    let form: &'static [u8] = match operand {
        Operand::Nothing => return (b"`@` needs an operand", b""),
        Operand::Plain(_) => return (b"`@` cannot have this operand", b""),
        Operand::Accumulator => b"A",
        Operand::Immediate(_) => b"#",
        Operand::WithX(_) => b",X",
        Operand::WithY(_) => b",Y",
        Operand::InParenthesesX(_) => b"(..,X)",
        Operand::ParenthesesY(_) => b"(..),Y",
        Operand::InParentheses(_) => b"(..)",
    };
    (b"`@` cannot be used with ~", form)
}

// Returns how to fix a value that is more than a byte.
fn one_byte(is_named: bool) -> Sentence {
    if is_named {
        b"write < before the name for its low byte, or > for its high byte"
    } else {
        b"use a value from 0 to 255"
    }
}

// Returns the range of the values in a line, and how to fix a value outside it.
fn limits<A: Allocator>(body: &Body<A>) -> (Sentence, Sentence) {
    match body {
        Body::Instr(_, Operand::Immediate(_)) | Body::Dfb(_) => (
            b"a byte must be from 0 to 255",
            one_byte(has_name(body)),
        ),
        Body::Instr(Mnemonic::Stx, Operand::WithY(_)) => (
            b"STX ..,Y needs an address from 0 to 255",
            b"write  TXA, then  STA ~,Y in the next line",
        ),
        Body::Instr(Mnemonic::Sty, Operand::WithX(_)) => (
            b"STY ..,X needs an address from 0 to 255",
            b"write  TYA, then  STA ~,X in the next line",
        ),
        Body::Instr(_, Operand::InParenthesesX(_) | Operand::ParenthesesY(_)) => (
            b"a zero-page address must be from 0 to 255",
            b"put the pointer in zero page",
        ),
        _ => (
            b"it must be from 0 to 255 in zero page, or from 0 to 65535 elsewhere",
            b"use a value in this range",
        ),
    }
}
