//! The names of a text: what each stands for, and how it is written here.

use crate::dialect::Dialect;
use crate::operator::SUM;
use crate::pieces::append;
use crate::value::Value;
use a2_text::decimal;
use std::alloc::{AllocError, Allocator};

// The most bytes of a name.
const MOST_NAME_BYTES: usize = 32;

/// A name that a line of the text defines.
#[derive(Drop)]
pub(crate) struct Symbol<'a, A: Allocator> {
    /// The blocks around the line, with `_` after each.
    pub prefix: Vec<u8, A>,
    pub name: &'a [u8],
    /// Whether the line gives it a value, and not the address of the line.
    pub is_equate: bool,
    /// The index of the line.
    pub at: usize,
    /// Whether the line is read whatever the conditions of the text are.
    pub is_certain: bool,
}

/// A name that stands for a value which may change.
#[derive(Drop)]
pub(crate) struct Variable<'a, A: Allocator> {
    pub name: &'a [u8],
    pub value: Value<A>,
}

/// A name as it is written here, and its number.
#[derive(Drop)]
pub(crate) struct Constant<A: Allocator> {
    pub name: Vec<u8, A>,
    pub number: i32,
}

/// How often a label was set that may be set again.
#[derive(Clone, Copy)]
pub(crate) struct Count<'a> {
    pub name: &'a [u8],
    pub count: u16,
}

/// The names of a text up to a line.
#[derive(Drop)]
pub(crate) struct Names<'a, A: Allocator> {
    pub alloc: A,
    pub dialect: Dialect,
    /// The last label that is not local, as it is written here; before the first one, a default for it.
    pub last: Vec<u8, A>,
    /// The label of the last directive that begins a scope of local labels.
    pub zone: Vec<u8, A>,
    // How often each label without a name was used, by its kind.
    counts: [u16; 16],
    /// Whether labels without a name stay as they are.
    pub keeps_turns: bool,
    pub symbols: Vec<Symbol<'a, A>, A>,
    pub variables: Vec<Variable<'a, A>, A>,
    pub constants: Vec<Constant<A>, A>,
    pub again: Vec<Count<'a>, A>,
    /// The blocks around the line that have names of their own.
    pub blocks: Vec<&'a [u8], A>,
    pub in_macro: bool,
    /// The parameters of the macro around the line.
    pub parameters: Vec<&'a [u8], A>,
    /// The labels that belong to a call of that macro.
    pub locals: Vec<&'a [u8], A>,
}

// Where the name of a local label comes from.
#[derive(Clone, Copy)]
enum Local<'a> {
    /// It belongs to the last label.
    OfLabel(&'a [u8]),
    /// It belongs to a scope that a directive began.
    OfZone(&'a [u8]),
    /// It may be set again.
    Again(&'a [u8]),
}

// What kind of local label a name is, without its mark, or `None` if it is not local.
fn local_of(dialect: Dialect, name: &[u8]) -> Option<Local<'_>> {
    Some(match (dialect, name) {
        (Dialect::Sc, [b'.' | b':', rest @ ..]) => Local::OfLabel(rest),
        (Dialect::Merlin, [b':', rest @ ..]) => Local::OfLabel(rest),
        (Dialect::Merlin, [b']', ..]) => Local::Again(name),
        (Dialect::Ca65, [b'@', rest @ ..]) => Local::OfLabel(rest),
        (Dialect::Acme, [b'@', rest @ ..]) => Local::OfLabel(rest),
        (Dialect::Acme, [b'.', rest @ ..]) => Local::OfZone(rest),
        (Dialect::Dasm, [b'.', rest @ ..]) => Local::OfZone(rest),
        (Dialect::Tass, [b'_', rest @ ..]) if !rest.is_empty() => Local::OfLabel(rest),
        _ => return None,
    })
}

/// Returns whether a name is a local label.
pub(crate) fn is_local(dialect: Dialect, name: &[u8]) -> bool {
    local_of(dialect, name).is_some()
}

/// Returns whether a name is among others.
pub(crate) fn has_name(names: &[&[u8]], name: &[u8]) -> bool {
    for one in names {
        if *one == name {
            return true;
        }
    }
    false
}

// The index of a kind of label without a name.
fn place(digit: u8) -> usize {
    usize::from(digit.saturating_sub(b'0'))
}

/// Appends a name with `_` in place of what a name cannot have here.
pub(crate) fn put_cleaned<A: Allocator>(
    out: &mut Vec<u8, A>,
    name: &[u8],
) -> Result<(), AllocError> {
    let mut last = 0;
    for c in name {
        let is_part = c.is_ascii_alphanumeric() || *c == b'_';
        // `::` becomes one `_`
        if is_part || last != b':' || *c != b':' {
            out.push(if is_part { *c } else { b'_' })?;
        }
        last = *c;
    }
    Ok(())
}

// Appends the name of the parameter with this digit.
fn put_argument<A: Allocator>(out: &mut Vec<u8, A>, digit: u8) -> Result<(), AllocError> {
    append(out, &[b"ARG", &[digit]])
}

/// Returns whether names that differ only in case are the same.
fn is_same(dialect: Dialect, name: &[u8], other: &[u8]) -> bool {
    if dialect == Dialect::Tass {
        name.eq_ignore_ascii_case(other)
    } else {
        name == other
    }
}

impl<'a, A: Allocator + Copy> Names<'a, A> {
    /// Returns the names before the first line.
    pub(crate) fn new(alloc: A, dialect: Dialect) -> Result<Names<'a, A>, AllocError> {
        Ok(Names {
            alloc,
            dialect,
            last: Vec::from_slice(alloc, b"TOP")?,
            zone: Vec::from_slice(alloc, b"TOP")?,
            counts: [0; 16],
            keeps_turns: false,
            symbols: Vec::new(alloc),
            variables: Vec::new(alloc),
            constants: Vec::new(alloc),
            again: Vec::new(alloc),
            blocks: Vec::new(alloc),
            in_macro: false,
            parameters: Vec::new(alloc),
            locals: Vec::new(alloc),
        })
    }

    // Returns how often a label was set that may be set again.
    fn times(&self, name: &[u8]) -> u16 {
        for one in self.again.iter() {
            if one.name == name {
                return one.count;
            }
        }
        0
    }

    /// Counts a label that may be set again.
    pub(crate) fn set_again(&mut self, name: &'a [u8]) -> Result<(), AllocError> {
        for one in self.again.iter_mut() {
            if one.name == name {
                one.count = one.count.saturating_add(1);
                return Ok(());
            }
        }
        self.again.push(Count { name, count: 1 })?;
        Ok(())
    }

    /// Counts a label without a name.
    pub(crate) fn count_turn(&mut self, digit: u8) {
        if let Some(count) = self.counts.get_mut(place(digit)) {
            *count = count.saturating_add(1);
        }
    }

    // Appends the name of a label without a name: the last one but so many of its kind, or one so many further on.
    fn put_turn(
        &self,
        out: &mut Vec<u8, A>,
        digit: u8,
        back: u16,
        on: u16,
    ) -> Result<(), AllocError> {
        let count = self.counts.get(place(digit)).copied().unwrap_or(0);
        let number = decimal(u64::from(count.saturating_sub(back).saturating_add(on)));
        let kind = decimal(u64::from(digit.saturating_sub(b'0')));
        if self.in_macro {
            out.push(b'.')?;
        }
        append(out, &[b"L", kind.as_slice(), b"_", number.as_slice()])
    }

    /// Returns the value of a label without a name, so many before the last one of its kind, or so many after it.
    pub(crate) fn turn_value(&self, digit: u8, back: u16, on: u16) -> Result<Value<A>, AllocError> {
        let mut made = Value::term(self.alloc, &[], None)?;
        made.is_address = true;
        if self.keeps_turns {
            made.text.push(b':')?;
            let sign = if on > 0 { b'+' } else { b'-' };
            for _ in 0..on.max(back.saturating_add(1)) {
                made.text.push(sign)?;
            }
        } else {
            self.put_turn(&mut made.text, digit, back, on)?;
        }
        Ok(made)
    }

    // Appends a scope, `_` and a local name, at most as many bytes as a name may have.
    fn put_scoped(
        &self,
        out: &mut Vec<u8, A>,
        scope: &[u8],
        name: &[u8],
    ) -> Result<(), AllocError> {
        if self.in_macro {
            out.push(b'.')?;
            return put_cleaned(out, name);
        }
        let room = MOST_NAME_BYTES.saturating_sub(name.len().saturating_add(1));
        let (scope, _) = scope.split_at(room.min(scope.len()));
        append(out, &[scope, b"_"])?;
        put_cleaned(out, name)
    }

    // Appends the name of a label that may be set again.
    fn put_again(&self, out: &mut Vec<u8, A>, name: &[u8]) -> Result<bool, AllocError> {
        let count = self.times(name);
        let (_, word) = name.split_at(name.len().min(1));
        if count == 0 || word.is_empty() {
            return Ok(false);
        }
        let number = decimal(u64::from(count));
        if self.in_macro {
            out.push(b'.')?;
        }
        put_cleaned(out, word)?;
        append(out, &[b"_", number.as_slice()])?;
        Ok(true)
    }

    // Appends the name of a local label; returns whether it is known.
    fn put_local(&self, out: &mut Vec<u8, A>, local: &Local<'_>) -> Result<bool, AllocError> {
        match local {
            Local::OfLabel(name) => self.put_scoped(out, self.last.as_slice(), name)?,
            Local::OfZone(name) => self.put_scoped(out, self.zone.as_slice(), name)?,
            Local::Again(name) => return self.put_again(out, name),
        }
        Ok(true)
    }

    // Appends the names of the first blocks around the line, with `_` after each.
    fn put_blocks(&self, out: &mut Vec<u8, A>, count: usize) -> Result<(), AllocError> {
        for (i, name) in self.blocks.iter().enumerate() {
            if i < count && !name.is_empty() {
                put_cleaned(out, name)?;
                out.push(b'_')?;
            }
        }
        Ok(())
    }

    /// Returns the names of the blocks around the line, with `_` after each.
    pub(crate) fn prefix(&self) -> Result<Vec<u8, A>, AllocError> {
        let mut out = Vec::new(self.alloc);
        self.put_blocks(&mut out, self.blocks.len())?;
        Ok(out)
    }

    /// Returns the symbol that a name stands for in this line, if the text defines it.
    pub(crate) fn symbol(&self, name: &[u8]) -> Result<Option<&Symbol<'a, A>>, AllocError> {
        for depth in 0..self.blocks.len().saturating_add(1) {
            let mut prefix = Vec::new(self.alloc);
            self.put_blocks(&mut prefix, self.blocks.len().saturating_sub(depth))?;
            for symbol in self.symbols.iter() {
                if symbol.prefix.as_slice() == prefix.as_slice()
                    && is_same(self.dialect, symbol.name, name)
                {
                    return Ok(Some(symbol));
                }
            }
        }
        Ok(None)
    }

    /// Returns the last symbol that the text defines above a line, whatever the blocks around it.
    pub(crate) fn definition(&self, name: &[u8]) -> Option<&Symbol<'a, A>> {
        for symbol in self.symbols.iter() {
            if is_same(self.dialect, symbol.name, name) {
                return Some(symbol);
            }
        }
        None
    }

    // Appends a name that is not local; returns whether it stands for the address of a line.
    fn put_global(&self, out: &mut Vec<u8, A>, name: &[u8]) -> Result<bool, AllocError> {
        let name = name.strip_prefix(b"::").unwrap_or(name);
        match self.symbol(name)? {
            Some(symbol) => {
                out.extend_from_slice(symbol.prefix.as_slice())?;
                put_cleaned(out, symbol.name)?;
                Ok(!symbol.is_equate)
            }
            None => {
                put_cleaned(out, name)?;
                Ok(false)
            }
        }
    }

    // Returns the number of a name as it is written here, if it is known.
    fn number_of(&self, written: &[u8]) -> Option<i32> {
        for constant in self.constants.iter() {
            if constant.name.as_slice() == written {
                return Some(constant.number);
            }
        }
        None
    }

    // Appends the parameter that a name stands for; returns whether it is one.
    fn put_parameter(&self, out: &mut Vec<u8, A>, name: &[u8]) -> Result<bool, AllocError> {
        match (self.dialect, name) {
            (Dialect::Merlin | Dialect::Sc, [b']', digit @ b'1'..=b'9'])
            | (Dialect::Edasm, [b'&', digit @ b'1'..=b'9'])
            | (Dialect::Tass, [b'\\', digit @ b'1'..=b'9'])
            | (Dialect::Dasm, [b'{', digit @ b'1'..=b'9', b'}']) => put_argument(out, *digit)?,
            (Dialect::Tass, [b'\\', word @ ..]) => {
                out.extend_from_slice(b"p_")?;
                put_cleaned(out, word)?;
            }
            (Dialect::Acme, [b'.', word @ ..]) if has_name(self.parameters.as_slice(), name) => {
                out.extend_from_slice(b"p_")?;
                put_cleaned(out, word)?;
            }
            _ if has_name(self.parameters.as_slice(), name) => put_cleaned(out, name)?,
            _ => return Ok(false),
        }
        Ok(true)
    }

    // The value that a name has from its last line on.
    fn variable(&self, name: &[u8]) -> Option<&Variable<'a, A>> {
        let mut after: usize = 0;
        for (i, variable) in self.variables.iter().enumerate() {
            if variable.name == name {
                after = i.saturating_add(1);
            }
        }
        self.variables.get(after.checked_sub(1)?)
    }

    /// Returns the value of a name, or `None` if it has none here.
    pub(crate) fn value_of(&self, name: &[u8]) -> Result<Option<Value<A>>, AllocError> {
        if let Some(variable) = self.variable(name) {
            return Ok(Some(variable.value.copied(self.alloc)?));
        }
        let mut made = Value::term(self.alloc, &[], None)?;
        if self.in_macro && self.put_parameter(&mut made.text, name)? {
            made.is_parameter = true;
            if self.dialect.is_old() || self.dialect == Dialect::Acme {
                made.level = SUM;
            }
            if self.dialect == Dialect::Acme {
                made.right = SUM;
            }
            return Ok(Some(made));
        }
        if self.in_macro && has_name(self.locals.as_slice(), name) {
            made.text.push(b'.')?;
            put_cleaned(&mut made.text, name.strip_prefix(b"_").unwrap_or(name))?;
            return Ok(Some(made));
        }
        if let Some(local) = local_of(self.dialect, name) {
            made.is_address = true;
            return Ok(if self.put_local(&mut made.text, &local)? {
                Some(made)
            } else {
                None
            });
        }
        if !self.is_word(name) {
            return Ok(None);
        }
        made.is_address = self.put_global(&mut made.text, name)?;
        made.number = self.number_of(made.text.as_slice());
        Ok(Some(made))
    }

    // Whether a name has only parts that a name may have.
    fn is_word(&self, name: &[u8]) -> bool {
        match name.first() {
            Some(b'.' | b']' | b'\\' | b'{' | b'&' | b'@') | None => false,
            Some(b':') => name.starts_with(b"::"),
            _ => true,
        }
    }

    /// Appends the label of a line as it is written here; returns whether it has a form here. `is_equate` says that the line gives it
    /// a value.
    pub(crate) fn put_label(
        &mut self,
        out: &mut Vec<u8, A>,
        label: &'a [u8],
        is_equate: bool,
    ) -> Result<bool, AllocError> {
        if let Some(kind) = turn_of(self.dialect, label) {
            if self.keeps_turns {
                out.push(b':')?;
                return Ok(true);
            }
            self.count_turn(kind);
            self.put_turn(out, kind, 0, 0)?;
            return Ok(true);
        }
        if let Some(Local::Again(name)) = local_of(self.dialect, label) {
            self.set_again(name)?;
        }
        let Some(value) = self.value_of(label)? else {
            return Ok(false);
        };
        out.extend_from_slice(value.text.as_slice())?;
        if !is_equate && !is_local(self.dialect, label) && !self.in_macro {
            self.last = value.text;
        }
        Ok(true)
    }
}

/// Returns the kind of a label without a name.
pub(crate) fn turn_of(dialect: Dialect, label: &[u8]) -> Option<u8> {
    match (dialect, label) {
        (Dialect::Lisa, [b'^', digit @ b'0'..=b'9']) => Some(*digit),
        (Dialect::Ca65, [b':']) => Some(b'0'),
        (Dialect::Tass, [b'-']) => Some(b'0'),
        (Dialect::Tass, [b'+']) => Some(b'5'),
        (Dialect::Acme, [sign @ (b'-' | b'+'), rest @ ..]) => acme_turn(*sign, rest),
        _ => None,
    }
}

// The kind of a label of acme that repeats a sign.
fn acme_turn(sign: u8, rest: &[u8]) -> Option<u8> {
    for c in rest {
        if *c != sign {
            return None;
        }
    }
    let base = if sign == b'-' { b'0' } else { b'5' };
    match u8::try_from(rest.len()) {
        Ok(count) if count < 5 => Some(base.saturating_add(count)),
        _ => None,
    }
}

/// Returns the kind of the label that an operand of signs alone stands for, how many before the last one it is, and how many after it.
pub(crate) fn signs_in(dialect: Dialect, operand: &[u8]) -> Option<(u8, u16, u16)> {
    let (sign, rest) = operand.split_first()?;
    if !matches!(*sign, b'-' | b'+') {
        return None;
    }
    let kind = acme_turn(*sign, rest)?;
    let count = u16::try_from(rest.len()).ok()?;
    match (dialect, *sign) {
        (Dialect::Acme, b'-') => Some((kind, 0, 0)),
        (Dialect::Acme, _) => Some((kind, 0, 1)),
        (Dialect::Tass, b'-') => Some((b'0', count, 0)),
        (Dialect::Tass, _) => Some((b'5', 0, count.saturating_add(1))),
        _ => None,
    }
}
