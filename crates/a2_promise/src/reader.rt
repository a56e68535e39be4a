//! Reads a line of a promise from left to right.

ghost use Rattle.std.specs.Prelude.{◌≡◌, ◌<◌, ◌≤◌, ℕ, false, IsTrue, List, [], ◌∷◌};
ghost use Rattle.std.specs.Prelude.{◌++◌, length, map, reverse, Some, None, IfOk, IfSome, IfNone, OnOk};
ghost use Rattle.std.specs.List.{slice_range};
ghost use Rattle.a2_asm.specs.Values.{name_value};
ghost use Rattle.a2_promise.specs.declared.reading.Class.TheVariants as class;
ghost use Rattle.a2_promise.specs.Grammar as grammar;
ghost use Rattle.a2_promise.specs.Grammar.{is_text, number_among, number_of};
ghost use Rattle.a2_promise.specs.Phrases.{Phrase, phrase_of};
ghost use Rattle.a2_promise.specs.Reading.{Binds, IsJust, IsTop, IsWritten, Puts, Takes, Unbinds};
ghost use Rattle.a2_promise.specs.Reading.{around_of, beginning_of, first, made, spelling, state_of, token_of};
ghost use Rattle.a2_promise.specs.Tokens.{Token as ReadToken, quoted, tokens, word};

use crate::expr::Expr;
use crate::fault::{ReadFault, Why};
use crate::parts::{Part, PartsError, expr_of};
use crate::reading::{Class, Token, address_of, decimal_of, token_in};
use crate::words::Kind;
use a2_asm::Program;
use a2_text::after_blanks;
use std::alloc::{AllocError, Global};

// The most names that may be bound inside one another.
const MOST_NAMES: usize = 4;

/// A label named after `at`: its address, and how many bytes of the line are left from it on.
#[derive(Clone, Copy)]
pub(crate) struct Named {
    pub address: u16,
    pub bytes_left: usize,
}

/// A range of parts: the index of the first one, and the index after the last one.
#[derive(Clone, Copy)]
pub(crate) struct Span {
    pub begun: usize,
    pub ended: usize,
}

/// The rest of a line, and the meaning of names in it.
pub(crate) struct Reader<'a, 'p> {
    pub alloc: Global,
    parts: Vec<Part>,
    pub rest: &'a [u8],
    program: &'p Program<Global>,
    names: [&'a [u8]; MOST_NAMES],
    named: usize,
    /// Whether `at` is allowed in the line.
    pub is_within: bool,
    /// The labels that the line names.
    pub labels: Vec<Named>,
}

// Written by hand only for the prover: it handles this as one call, but a derived `Drop` field by field.
impl<'a, 'p> Drop for Reader<'a, 'p> {
    fn drop(self) {
        let Reader {
            alloc: _,
            parts: _,
            rest: _,
            program: _,
            names: _,
            named: _,
            is_within: _,
            labels: _,
        } = self;
    }
}

impl<'a, 'p> Reader<'a, 'p> {
    /// Creates a reader for a line.
    pub fn new(alloc: Global, line: &'a [u8], program: &'p Program<Global>) -> Reader<'a, 'p>
        ensures state { state_of result ≡ beginning_of line.now program.now.names }
        ensures rest { result.rest.now ≡ line.now }
    {
        Reader {
            alloc,
            parts: Vec::new(alloc),
            rest: line,
            program,
            names: [b""; MOST_NAMES],
            named: 0,
            is_within: false,
            labels: Vec::new(alloc),
        }
    }

    /// Returns the next token without reading it.
    pub fn next(&self) -> Token<'a>
        ensures first { token_of result.class result.text.now ≡ first (tokens self.now.rest.now) }
        ensures written { IsWritten result.class result.text.now }
    {
        token_in(self.rest).0
    }

    /// Skips the next token.
    pub fn take(&mut self)
        ensures { (token : ReadToken) → first (tokens self.old.rest.now) ≡ Some token
            → Takes token (state_of self.old) (state_of self.new) }
    {
        self.rest = token_in(self.rest).1;
    }

    /// Returns how many bytes of the line are left, from the next token on.
    pub fn bytes_left(&self) -> usize {
        after_blanks(self.rest).len()
    }

    /// Returns an error at the next token.
    pub fn refuse<T>(&self, why: Why) -> Result<T, ReadFault>
        ensures { OnOk result ⊥ }
    {
        Err(ReadFault::Says(why, self.bytes_left()))
    }

    /// Skips the next token if it is this word or sign, and returns whether it was.
    pub fn took(&mut self, text: &[u8]) -> bool
        ensures took { IsTrue result → Takes (spelling text.now) (state_of self.old) (state_of self.new) }
        ensures same { result ≡ false → state_of self.new ≡ state_of self.old }
        ensures none { result ≡ false → first (tokens self.old.rest.now) ≡ Some (spelling text.now) → ⊥ }
    {
        let is_next = self.next().is(text);
        if is_next {
            self.take();
        }
        is_next
    }

    /// Skips this word or sign, or returns an error if it does not come next.
    pub fn expect(&mut self, text: &[u8], why: Why) -> Result<(), ReadFault>
        ensures { OnOk result (Takes (spelling text.now) (state_of self.old) (state_of self.new)) }
    {
        if self.took(text) {
            Ok(())
        } else {
            self.refuse(why)
        }
    }

    // Returns the number that a token stands for: decimal, `$` and digits, or a name of the source.
    fn number_at(&self, token: Token<'a>) -> Option<u32>
        ensures { IfSome result (λ number. IsJust (token_of token.entry.class token.entry.text.now)
            (λ it. number_of self.now.program.now.names it ≡ Some number)) }
    {
        match token.class {
            Class::Decimal => decimal_of(token.text),
            _ => self.address_at(token).map(u32::from),
        }
    }

    /// Reads a number: decimal, `$` and digits, or a name of the source.
    pub fn number(&mut self) -> Result<u32, ReadFault>
        ensures { IfOk result (λ number. (token : ReadToken) × Takes token (state_of self.old) (state_of self.new)
            × (number_of self.old.program.now.names token ≡ Some number)) }
    {
        match self.number_at(self.next()) {
            Some(number) => {
                self.take();
                Ok(number)
            }
            None => self.refuse(Why::NoNumber),
        }
    }

    // Returns the value of a name of the source.
    fn value_of(&self, name: &[u8]) -> Option<u16>
        ensures { IfSome result (λ value. name_value self.now.program.now.names name.now ≡ Some value) }
    {
        match std::str::from_utf8(name) {
            Ok(name) => self.program.name(name),
            Err(_) => None,
        }
    }

    // Returns the address that a token stands for: `$` and digits, or a name of the source.
    fn address_at(&self, token: Token<'a>) -> Option<u16>
        ensures { IfSome result (λ address. IsJust (token_of token.entry.class token.entry.text.now)
            (λ it. grammar.address_of self.now.program.now.names it ≡ Some address)) }
    {
        match token.class {
            Class::Place => address_of(token.text),
            Class::Word => self.value_of(token.text),
            _ => None,
        }
    }

    /// Reads an address: `$` and digits, or a name of the source.
    pub fn address(&mut self) -> Result<u16, ReadFault>
        ensures { IfOk result (λ address. (token : ReadToken) × Takes token (state_of self.old) (state_of self.new)
            × (grammar.address_of self.old.program.now.names token ≡ Some address)) }
    {
        match self.address_at(self.next()) {
            Some(address) => {
                self.take();
                Ok(address)
            }
            None => self.refuse(Why::NoAddress),
        }
    }

    // Returns the address of the label that a token names.
    fn label_at(&self, token: Token<'a>) -> Option<u16>
        ensures { IfSome result (λ address. (token_of token.entry.class token.entry.text.now ≡ Some (word token.entry.text.now))
            × (name_value self.now.program.now.names token.entry.text.now ≡ Some address)) }
    {
        match token.class {
            Class::Word => self.value_of(token.text),
            _ => None,
        }
    }

    /// Reads the label after an `at`, and returns its address. `bytes_left` is the number of bytes that were left at
    /// the `at`.
    pub fn label(&mut self, bytes_left: usize) -> Result<u16, ReadFault>
        ensures { IfOk result (λ address. (name : List ℕ) × Takes (word name) (state_of self.old) (state_of self.new)
            × IsTrue self.old.is_within × (name_value self.old.program.now.names name ≡ Some address)) }
    {
        if !self.is_within {
            return Err(ReadFault::Says(Why::AtOutside, bytes_left));
        }
        match self.label_at(self.next()) {
            Some(address) => {
                let bytes_left = self.bytes_left();
                self.labels.extend_from_slice(&[Named {
                    address,
                    bytes_left,
                }])?;
                self.take();
                Ok(address)
            }
            None => self.refuse(Why::NoLabel),
        }
    }

    /// Reads a quoted text as ASC stores it. Returns its characters and the number to add to the code of each.
    pub fn laid_text(&mut self) -> Result<(&'a [u8], u8), ReadFault>
        ensures { IfOk result (λ (text, top). (quote : ℕ) × Takes (quoted quote text.now) (state_of self.old) (state_of self.new)
            × IsTrue (is_text quote text.now) × IsTop quote top) }
    {
        let token = self.next();
        match token.class {
            Class::Single => {
                self.take();
                Ok((token.text, 0))
            }
            Class::Double => {
                self.take();
                Ok((token.text, 0x80))
            }
            _ => self.refuse(Why::NoText),
        }
    }

    /// Binds a name, and returns its number.
    pub fn bind(&mut self, name: &'a [u8]) -> Result<u8, ReadFault>
        ensures { IfOk result (λ number. Binds name.now number (state_of self.old) (state_of self.new)) }
    {
        let number = self.named;
        if number >= MOST_NAMES {
            return self.refuse(Why::TooManyNames);
        }
        self.names[number] = name;
        self.named = number + 1;
        Ok(number as u8)
    }

    /// Ends the scope of the innermost bound name, which has this number. It can then mean a name of the source
    /// again.
    pub fn unbind(&mut self, number: u8)
        ensures { Unbinds number (state_of self.old) (state_of self.new) }
    {
        self.named = usize::from(number);
    }

    // Returns the number of a bound name; the innermost one if it is bound several times.
    fn number_of(&self, name: &[u8]) -> Option<u8>
        ensures { result ≡ number_among (around_of self.now) name.now }
    {
        match innermost(&self.names[..self.named.min(MOST_NAMES)], name) {
            Some(number) => Some(number as u8),
            None => None,
        }
    }

    /// Returns the number of the bound name that a token is, or `None` if it is not one.
    pub fn bound(&self, token: Token<'a>) -> Option<u8>
        ensures found { IfSome result (λ number. (token_of token.entry.class token.entry.text.now ≡ Some (word token.entry.text.now))
            × (number_among (around_of self.now) token.entry.text.now ≡ Some number)) }
        ensures none { IfNone result (token.entry.class ≡ class.Word → number_among (around_of self.now) token.entry.text.now ≡ None) }
    {
        match token.class {
            Class::Word => self.number_of(token.text),
            _ => None,
        }
    }

    /// Returns the number of parts.
    pub fn count(&self) -> usize
        ensures { result ≡ length self.now.parts.items }
    {
        self.parts.len()
    }

    /// Appends a copy of parts that were made before.
    pub fn again(&mut self, span: Span) -> Result<(), ReadFault>
        ensures { span.ended ≤ length self.old.parts.items
            → OnOk result (Puts (slice_range self.old.parts.items span.begun span.ended) (state_of self.old) (state_of self.new)) }
    {
        let copied = copied(self.alloc, self.parts.as_slice(), span)?;
        Ok(self.parts.extend_from_slice(copied.as_slice())?)
    }

    /// Appends parts of the expression.
    pub fn puts(&mut self, parts: &[Part]) -> Result<(), ReadFault>
        ensures { OnOk result (Puts parts.now (state_of self.old) (state_of self.new)) }
    {
        Ok(self.parts.extend_from_slice(parts)?)
    }

    /// Appends the last part of an expression of this kind.
    pub fn makes(&mut self, last: Part, kind: Kind) -> Result<Kind, ReadFault>
        ensures { IfOk result (λ made. (made ≡ kind) × Puts (last ∷ []) (state_of self.old) (state_of self.new)) }
    {
        self.parts.extend_from_slice(&[last])?;
        Ok(kind)
    }

    /// Appends the last parts of an expression of this kind.
    pub fn ends(&mut self, last: &[Part], kind: Kind) -> Result<Kind, ReadFault>
        ensures { IfOk result (λ made. (made ≡ kind) × Puts last.now (state_of self.old) (state_of self.new)) }
    {
        self.parts.extend_from_slice(last)?;
        Ok(kind)
    }

    /// Returns the expression that was read.
    pub fn expr(&self) -> Result<Expr, ReadFault>
        ensures { IfOk result (λ expr. (more : List Phrase) × (made self.now.parts.items [] ≡ phrase_of expr ∷ more)) }
    {
        match expr_of(self.alloc, self.parts.as_slice()) {
            Ok(expr) => Ok(expr),
            Err(PartsError::TooFew) => self.refuse(Why::NothingSaid),
            Err(PartsError::Memory) => Err(ReadFault::Memory),
        }
    }
}

// Returns the index of a name among others, or its last index if it occurs several times.
fn innermost(names: &[&[u8]], name: &[u8]) -> Option<usize>
    ensures number { result ≡ number_among (reverse (map (λ one. one.now) names.now)) name.now }
    ensures within { IfSome result (λ number. number < length names.now) }
{
    let mut number = names.len();
    while number > 0 {
        number -= 1;
        if names[number] == name {
            return Some(number);
        }
    }
    None
}

// Returns a copy of the parts in a span.
fn copied(alloc: Global, parts: &[Part], span: Span) -> Result<Vec<Part>, AllocError>
    ensures { span.ended ≤ length parts.now → IfOk result (λ copy. copy.items ≡ slice_range parts.now span.begun span.ended) }
{
    match parts.get(span.begun..span.ended) {
        Some(some) => Vec::from_slice(alloc, some),
        None => Ok(Vec::new(alloc)),
    }
}
