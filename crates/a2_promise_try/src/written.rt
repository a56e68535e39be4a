//! Reads what the lines of a promise say as it is written, which their meaning no longer shows: parentheses, signs, names
//! and the order of comparisons. Only lines that the reader of promises has accepted are read, so nothing is checked.

use crate::line_words::{Piece, piece_in};
use a2_asm::Program;
use a2_promise::Atom;
use a2_text::number_in;
use std::alloc::{AllocError, Global};

/// A part of a form.
#[derive(Clone, Copy)]
pub(crate) enum Field<'a> {
    None,
    Token(Piece<'a>),
    Number(u64),
    Text(&'a [u8]),
    /// An operator.
    Sign(&'static [u8]),
    Atom(Atom),
}

/// A form that is read, with the number of expressions before it that belong to it, and its other parts.
#[derive(Clone, Copy)]
pub(crate) struct Event<'a> {
    pub form: &'static [u8],
    pub count: u64,
    pub first: Field<'a>,
    pub second: Field<'a>,
    pub third: Field<'a>,
    pub fourth: Field<'a>,
}

// What an expression is made of, if it is more than one word or number. A form that has begun may become another one: an
// `if` becomes Provided at its `then`, and OneOf at its `else`.
#[derive(Clone, Copy, PartialEq)]
enum Form {
    Joined,
    Before,
    Magnitude,
    Signed,
    Minus,
    Negated,
    There,
    Group,
    ByteIn,
    WordIn,
    TextIn,
    Least,
    Greatest,
    If,
    Provided,
    OneOf,
    EachHead,
    ForAll,
    SumHead,
    SumOf,
    BitPlace,
    Bit,
}

// Returns the name of a form, and of how many expressions it consists.
fn name_of(form: Form) -> (&'static [u8], u64) {
    match form {
        Form::Joined => (b"joined", 2),
        Form::Before => (b"before", 1),
        Form::Magnitude => (b"magnitude", 1),
        Form::Signed => (b"signed", 1),
        Form::Minus => (b"minus", 1),
        Form::Negated => (b"negated", 1),
        Form::There => (b"there", 1),
        Form::Group => (b"group", 1),
        Form::ByteIn => (b"byte_in", 1),
        Form::WordIn => (b"word_in", 1),
        Form::TextIn => (b"text_in", 1),
        Form::Least => (b"least", 2),
        Form::Greatest => (b"greatest", 2),
        Form::If | Form::Provided => (b"provided", 2),
        Form::OneOf => (b"one_of", 3),
        Form::EachHead | Form::ForAll => (b"for_all", 2),
        Form::SumHead | Form::SumOf => (b"sum_of", 2),
        Form::BitPlace | Form::Bit => (b"bit", 2),
    }
}

// The rank of what closes an expression without being an operator.
const CLOSER: u8 = 0;

// The ranks of `and`, of comparisons, and of the tightest operators.
const AND: u8 = 3;

const COMPARISON: u8 = 5;

const TIGHTEST: u8 = 9;

// A form that has begun and is not complete.
#[derive(Clone, Copy)]
struct Open<'a> {
    form: Form,
    // The greatest rank of an operator that ends it, or `None` if only its own sign or word does.
    ends: Option<u8>,
    // Its sign, label or counted name.
    name: Field<'a>,
    // The label's value, or the counted name's number.
    number: Field<'a>,
}

// What begins with a word.
#[derive(Clone, Copy)]
enum Opening {
    Held(Atom),
    // One expression follows, up to an operator of this rank.
    One(Form, u8),
    At,
    If,
    Each,
    Sum,
    Pair(Form),
    Bit,
    Word,
    Text,
}

static OPENINGS: [(&'static [u8], Opening); 25] = [
    (b"A", Opening::Held(Atom::A)),
    (b"X", Opening::Held(Atom::X)),
    (b"Y", Opening::Held(Atom::Y)),
    (b"S", Opening::Held(Atom::S)),
    (b"C", Opening::Held(Atom::Carry)),
    (b"Z", Opening::Held(Atom::Zero)),
    (b"N", Opening::Held(Atom::Negative)),
    (b"V", Opening::Held(Atom::Overflow)),
    (b"D", Opening::Held(Atom::Decimal)),
    (b"I", Opening::Held(Atom::Interrupt)),
    (b"cycles", Opening::Held(Atom::Cycles)),
    (b"steps", Opening::Held(Atom::Steps)),
    (b"old", Opening::One(Form::Before, TIGHTEST)),
    (b"abs", Opening::One(Form::Magnitude, TIGHTEST)),
    (b"signed", Opening::One(Form::Signed, TIGHTEST)),
    (b"not", Opening::One(Form::Negated, AND)),
    (b"at", Opening::At),
    (b"if", Opening::If),
    (b"for", Opening::Each),
    (b"sum", Opening::Sum),
    (b"min", Opening::Pair(Form::Least)),
    (b"max", Opening::Pair(Form::Greatest)),
    (b"bit", Opening::Bit),
    (b"word", Opening::Word),
    (b"text", Opening::Text),
];

// Returns what begins with a word.
fn opening_of(word: &[u8]) -> Option<Opening> {
    for (name, opening) in &OPENINGS {
        if *name == word {
            return Some(*opening);
        }
    }
    None
}

// The operators with their ranks.
static OPERATORS: [(&'static [u8], u8); 17] = [
    (b"iff", 1),
    (b"or", 2),
    (b"and", AND),
    (b"=", COMPARISON),
    (b"<>", COMPARISON),
    (b"<", COMPARISON),
    (b"<=", COMPARISON),
    (b">", COMPARISON),
    (b">=", COMPARISON),
    (b"|", 6),
    (b"^", 6),
    (b"&", 7),
    (b"+", 8),
    (b"-", 8),
    (b"*", TIGHTEST),
    (b"/", TIGHTEST),
    (b"%", TIGHTEST),
];

// Returns the spelling and the rank of an operator.
fn operator_of(spelled: &[u8]) -> Option<(&'static [u8], u8)> {
    for (name, rank) in &OPERATORS {
        if *name == spelled {
            return Some((*name, *rank));
        }
    }
    None
}

// Returns the number that decimal digits spell.
fn decimal_of(digits: &[u8]) -> u64 {
    let mut number: u64 = 0;
    for digit in digits {
        number = number
            .wrapping_mul(10)
            .wrapping_add(u64::from(digit.wrapping_sub(b'0')));
    }
    number
}

// What is read of a line, and what is left of it.
struct Reading<'a, 'p> {
    program: &'p Program<Global>,
    rest: &'a [u8],
    open: Vec<Open<'a>>,
    events: Vec<Event<'a>>,
}

// Written by hand only for the prover: it handles this as one call, but a derived `Drop` field by field.
impl<'a, 'p> Drop for Reading<'a, 'p> {
    fn drop(self) {
        let Reading {
            program: _,
            rest: _,
            open: _,
            events: _,
        } = self;
    }
}

impl<'a, 'p> Reading<'a, 'p> {
    // Returns the forms that are read.
    fn into_events(self) -> Vec<Event<'a>> {
        let Reading {
            program: _,
            rest: _,
            open: _,
            events,
        } = self;
        events
    }

    // Reads the next piece of the line; at its end, a sign of no meaning.
    fn next(&mut self) -> Piece<'a> {
        match piece_in(self.rest) {
            Some((piece, rest)) => {
                self.rest = rest;
                piece
            }
            None => Piece::Sign(0, 0),
        }
    }

    // Reads the next piece if it is this sign. Returns whether it is.
    fn took(&mut self, sign: u8, second: u8) -> bool {
        match piece_in(self.rest) {
            Some((Piece::Sign(c, d), rest)) if c == sign && d == second => {
                self.rest = rest;
                true
            }
            _ => false,
        }
    }

    // Returns the number that a word or a number stands for.
    fn value_of(&self, piece: Piece) -> u64 {
        match piece {
            Piece::Decimal(digits) => decimal_of(digits),
            Piece::Place(digits) => u64::from(number_in(16, 4, digits).unwrap_or(0)),
            Piece::Word(word) => match std::str::from_utf8(word) {
                Ok(name) => u64::from(self.program.name(name).unwrap_or(0)),
                Err(_) => 0,
            },
            Piece::Quoted(_, _) | Piece::Sign(_, _) => 0,
        }
    }

    // Adds a form without expressions, which has a word or number as a part.
    fn add_valued(&mut self, form: &'static [u8], piece: Piece<'a>) -> Result<(), AllocError> {
        let value = self.value_of(piece);
        self.add(form, Field::Token(piece), Field::Number(value))
    }

    // Adds a form without expressions, which has these parts.
    fn add(
        &mut self,
        form: &'static [u8],
        first: Field<'a>,
        second: Field<'a>,
    ) -> Result<(), AllocError> {
        let none = Field::None;
        let event = Event {
            form,
            count: 0,
            first,
            second,
            third: none,
            fourth: none,
        };
        Ok(self.events.push(event)?)
    }

    // Begins a form that has no other parts than expressions.
    fn begin(&mut self, form: Form, ends: Option<u8>) -> Result<(), AllocError> {
        self.begin_named(form, ends, Field::None, Field::None)
    }

    // Begins a form that has a name and a number.
    fn begin_named(
        &mut self,
        form: Form,
        ends: Option<u8>,
        name: Field<'a>,
        number: Field<'a>,
    ) -> Result<(), AllocError> {
        let open = Open {
            form,
            ends,
            name,
            number,
        };
        Ok(self.open.push(open)?)
    }

    // Adds a form whose expressions are all read.
    fn complete(&mut self, open: Open<'a>) -> Result<(), AllocError> {
        let (form, count) = name_of(open.form);
        let (first, second, none) = (open.name, open.number, Field::None);
        let event = Event {
            form,
            count,
            first,
            second,
            third: none,
            fourth: none,
        };
        Ok(self.events.push(event)?)
    }

    // Completes the forms that an operator of this rank ends, the innermost one first.
    fn close(&mut self, rank: u8) -> Result<(), AllocError> {
        for _ in 0..self.open.len() {
            match self.open.pop() {
                Some(open) if matches!(open.ends, Some(ends) if rank <= ends) => {
                    self.complete(open)?;
                }
                Some(open) => {
                    self.open.push(open)?;
                    return Ok(());
                }
                None => return Ok(()),
            }
        }
        Ok(())
    }

    // Completes the forms within the innermost one of this form, which becomes another one.
    fn turn(&mut self, from: Form, to: Form, ends: Option<u8>) -> Result<(), AllocError> {
        for _ in 0..self.open.len() {
            match self.open.pop() {
                Some(open) if open.form == from => return self.begin_named(
                    to,
                    ends,
                    open.name,
                    open.number,
                ),
                Some(open) => self.complete(open)?,
                None => return Ok(()),
            }
        }
        Ok(())
    }

    // Returns the number of a counted name, or `None` if the word is not one. The innermost one counts.
    fn counted(&self, word: &[u8]) -> Option<u64> {
        let mut number: u64 = 0;
        let mut found = None;
        for open in &self.open {
            if matches!(open.form, Form::ForAll | Form::SumOf) {
                if let Field::Text(name) = open.name
                    && name == word
                {
                    found = Some(number);
                }
                number = number.saturating_add(1);
            }
        }
        found
    }

    // Returns how many counted names there are here.
    fn count_names(&self) -> u64 {
        let mut number: u64 = 0;
        for open in &self.open {
            if matches!(open.form, Form::ForAll | Form::SumOf) {
                number = number.saturating_add(1);
            }
        }
        number
    }

    // Reads the name and the `<` of a count.
    fn begin_count(&mut self, form: Form) -> Result<(), AllocError> {
        let number = self.count_names();
        let name = match self.next() {
            Piece::Word(name) => Field::Text(name),
            _ => Field::None,
        };
        self.next();
        self.begin_named(form, None, name, Field::Number(number))
    }

    // Reads the `=` and the text after a place, and adds the form. The place is a word or number and its value, or an
    // expression before it.
    fn add_text(&mut self, place: Option<Piece<'a>>) -> Result<(), AllocError> {
        self.next();
        let (quote, text) = match self.next() {
            Piece::Quoted(quote, text) => (Field::Number(u64::from(quote)), Field::Text(text)),
            _ => return Ok(()),
        };
        let event = match place {
            Some(piece) => {
                let (first, second) = (Field::Token(piece), Field::Number(self.value_of(piece)));
                Event {
                    form: b"text",
                    count: 0,
                    first,
                    second,
                    third: quote,
                    fourth: text,
                }
            }
            None => {
                let none = Field::None;
                Event {
                    form: b"text_in",
                    count: 1,
                    first: quote,
                    second: text,
                    third: none,
                    fourth: none,
                }
            }
        };
        Ok(self.events.push(event)?)
    }

    // Reads what begins with a word. Returns whether an operand comes next.
    fn begin_opening(&mut self, opening: Opening) -> Result<bool, AllocError> {
        match opening {
            Opening::Held(atom) => {
                self.add(b"atom", Field::Atom(atom), Field::None)?;
                return Ok(false);
            }
            Opening::One(form, rank) => self.begin(form, Some(rank))?,
            Opening::At => {
                let label = self.next();
                let value = self.value_of(label);
                if let Piece::Word(name) = label {
                    let (name, number) = (Field::Text(name), Field::Number(value));
                    self.begin_named(Form::There, Some(TIGHTEST), name, number)?;
                }
            }
            Opening::If => self.begin(Form::If, None)?,
            Opening::Each => {
                self.next();
                self.begin_count(Form::EachHead)?;
            }
            Opening::Sum => self.begin_count(Form::SumHead)?,
            Opening::Pair(form) => {
                self.next();
                self.begin(form, None)?;
            }
            Opening::Bit => self.begin(Form::BitPlace, None)?,
            Opening::Word => return self.begin_word(),
            Opening::Text => return self.begin_text(),
        }
        Ok(true)
    }

    // Reads what follows `word`. Returns whether an operand comes next.
    fn begin_word(&mut self) -> Result<bool, AllocError> {
        if self.took(b'[', 0) {
            self.begin(Form::WordIn, None)?;
            return Ok(true);
        }
        let piece = self.next();
        self.add_valued(b"word_of", piece)?;
        Ok(false)
    }

    // Reads what follows `text`. Returns whether an operand comes next.
    fn begin_text(&mut self) -> Result<bool, AllocError> {
        if self.took(b'[', 0) {
            self.begin(Form::TextIn, None)?;
            return Ok(true);
        }
        let piece = self.next();
        self.add_text(Some(piece))?;
        Ok(false)
    }

    // Reads an operand that begins with a word. Returns whether an operand comes next.
    fn begin_name(&mut self, word: &'a [u8]) -> Result<bool, AllocError> {
        if let Some(opening) = opening_of(word) {
            return self.begin_opening(opening);
        }
        match self.counted(word) {
            Some(number) => self.add(b"counted", Field::Text(word), Field::Number(number))?,
            None => self.add_valued(b"byte", Piece::Word(word))?,
        }
        Ok(false)
    }

    // Reads an operand that begins with a piece. Returns whether an operand comes next.
    fn begin_operand(&mut self, piece: Piece<'a>) -> Result<bool, AllocError> {
        match piece {
            Piece::Word(word) => return self.begin_name(word),
            Piece::Sign(b'(', _) => self.begin(Form::Group, None)?,
            Piece::Sign(b'[', _) => self.begin(Form::ByteIn, None)?,
            Piece::Sign(b'-', _) => self.begin(Form::Minus, Some(TIGHTEST))?,
            Piece::Sign(_, _) => {
                let number = self.next();
                self.add_valued(b"literal", number)?;
                return Ok(false);
            }
            Piece::Decimal(_) => {
                self.add_valued(b"decimal", piece)?;
                return Ok(false);
            }
            Piece::Place(_) | Piece::Quoted(_, _) => {
                self.add_valued(b"byte", piece)?;
                return Ok(false);
            }
        }
        Ok(true)
    }

    // Joins what is read to what follows an operator. Returns whether an operand comes next.
    fn join(&mut self, spelled: &[u8]) -> Result<bool, AllocError> {
        if let Some((sign, rank)) = operator_of(spelled) {
            self.close(rank)?;
            self.begin_named(Form::Joined, Some(rank), Field::Sign(sign), Field::None)?;
        }
        Ok(true)
    }

    // Reads a `)` or `]`. No operand comes next.
    fn close_bracket(&mut self) -> Result<bool, AllocError> {
        self.close(CLOSER)?;
        match self.open.pop() {
            Some(open) if open.form == Form::TextIn => self.add_text(None)?,
            Some(open) => self.complete(open)?,
            None => {}
        }
        Ok(false)
    }

    // Reads the `:` of a count. An operand comes next.
    fn begin_body(&mut self) -> Result<bool, AllocError> {
        self.close(CLOSER)?;
        match self.open.pop() {
            Some(open) if open.form == Form::SumHead => {
                self.begin_named(Form::SumOf, Some(COMPARISON), open.name, open.number)?;
            }
            Some(open) => self.begin_named(Form::ForAll, Some(CLOSER), open.name, open.number)?,
            None => {}
        }
        Ok(true)
    }

    // Reads the sign or word after an operand. Returns whether an operand comes next.
    fn continue_with(&mut self, piece: Piece<'a>) -> Result<bool, AllocError> {
        match piece {
            Piece::Word(word) if word == b"then".as_slice() => {
                self.turn(Form::If, Form::Provided, Some(CLOSER))?;
                Ok(true)
            }
            Piece::Word(word) if word == b"else".as_slice() => {
                self.turn(Form::Provided, Form::OneOf, Some(CLOSER))?;
                Ok(true)
            }
            Piece::Word(word) if word == b"of".as_slice() => {
                self.turn(Form::BitPlace, Form::Bit, Some(TIGHTEST))?;
                Ok(true)
            }
            Piece::Word(word) => self.join(word),
            Piece::Sign(b')' | b']', _) => self.close_bracket(),
            Piece::Sign(b':', _) => self.begin_body(),
            Piece::Sign(b',', _) => {
                self.close(CLOSER)?;
                Ok(true)
            }
            Piece::Sign(c, 0) => self.join(&[c]),
            Piece::Sign(c, d) => self.join(&[c, d]),
            Piece::Decimal(_) | Piece::Place(_) | Piece::Quoted(_, _) => Ok(true),
        }
    }

    // Reads an expression up to the end of the line.
    fn read_expression(&mut self) -> Result<(), AllocError> {
        let mut is_operand_next = true;
        // (Each round reads a byte or more.)
        for _ in self.rest {
            let Some(_) = piece_in(self.rest) else {
                break;
            };
            let piece = self.next();
            is_operand_next = if is_operand_next {
                self.begin_operand(piece)?
            } else {
                self.continue_with(piece)?
            };
        }
        self.close(CLOSER)
    }

    // Reads one thing that may change, which begins with this piece.
    fn read_change(&mut self, piece: Piece<'a>) -> Result<(), AllocError> {
        if let Piece::Word(word) = piece
            && let Some(Opening::Held(atom)) = opening_of(word)
        {
            return self.add(b"held", Field::Atom(atom), Field::None);
        }
        let (first, second) = (Field::Token(piece), Field::Number(self.value_of(piece)));
        if !self.took(b'.', b'.') {
            return self.add(b"byte", first, second);
        }
        let end = self.next();
        let (third, fourth) = (Field::Token(end), Field::Number(self.value_of(end)));
        let event = Event {
            form: b"bytes",
            count: 0,
            first,
            second,
            third,
            fourth,
        };
        Ok(self.events.push(event)?)
    }

    // Reads what may change, up to the end of the line.
    fn read_changes(&mut self) -> Result<(), AllocError> {
        // (Each round reads a byte or more.)
        for _ in self.rest {
            let Some((first, _)) = piece_in(self.rest) else {
                break;
            };
            self.next();
            match first {
                Piece::Sign(_, _) => {}
                Piece::Word(word) if word == b"nothing".as_slice() && self.events.is_empty() => {}
                _ => self.read_change(first)?,
            }
        }
        Ok(())
    }
}

/// Returns the forms of an expression, or of a list of what may change, in a text; each comes after its parts. Fails
/// only if memory runs out.
pub(crate) fn events_of<'a>(
    alloc: Global,
    program: &Program<Global>,
    text: &'a [u8],
    is_list: bool,
) -> Result<Vec<Event<'a>>, AllocError> {
    let mut reading = Reading {
        program,
        rest: text,
        open: Vec::new(alloc),
        events: Vec::new(alloc),
    };
    if is_list {
        reading.read_changes()?;
    } else {
        reading.read_expression()?;
    }
    Ok(reading.into_events())
}
