//! The value of an expression: how it is written here, and its number if that is known.

use crate::operator::{Operator, PART, SIGNED, SUM, TERM};
use crate::pieces::append;
use a2_text::decimal;
use std::alloc::{AllocError, Allocator};

/// What a value is written for.
#[derive(Clone, Copy, PartialEq, Eq)]
pub(crate) enum Width {
    Byte,
    Word,
}

/// An expression as it is written here.
#[derive(Drop)]
pub(crate) struct Value<A: Allocator> {
    pub text: Vec<u8, A>,
    /// How tightly the outermost operator binds.
    pub level: u8,
    /// How tightly it binds after an operator.
    pub right: u8,
    /// Whether it is a parameter of a macro, which may stand for a sum.
    pub is_parameter: bool,
    /// The number, if all names in the expression have known values.
    pub number: Option<i32>,
    /// Whether the expression has an address that is not known before assembly.
    pub is_address: bool,
}

impl<A: Allocator + Copy> Value<A> {
    /// Returns a term: a text, and its number if it is known.
    pub(crate) fn term(
        alloc: A,
        pieces: &[&[u8]],
        number: Option<i32>,
    ) -> Result<Value<A>, AllocError> {
        let mut text = Vec::new(alloc);
        append(&mut text, pieces)?;
        Ok(Value {
            text,
            level: TERM,
            right: TERM,
            is_parameter: false,
            number,
            is_address: false,
        })
    }

    /// Returns the value of a number.
    pub(crate) fn of_number(alloc: A, number: i32) -> Result<Value<A>, AllocError> {
        let size = if number < 0 {
            0i64 - i64::from(number)
        } else {
            i64::from(number)
        };
        let digits = decimal(size as u64);
        let mut made = Value::term(alloc, &[], Some(number))?;
        if number < 0 {
            made.text.push(b'-')?;
            made.level = SIGNED;
            made.right = SIGNED;
        }
        made.text.extend_from_slice(digits.as_slice())?;
        Ok(made)
    }

    /// Returns the value again.
    pub(crate) fn copied(&self, alloc: A) -> Result<Value<A>, AllocError> {
        let text = Vec::from_slice(alloc, self.text.as_slice())?;
        Ok(Value {
            text,
            level: self.level,
            right: self.right,
            is_parameter: self.is_parameter,
            number: self.number,
            is_address: self.is_address,
        })
    }

    // Appends the text, in brackets if it binds less tightly than `level`.
    fn put(&self, out: &mut Vec<u8, A>, level: u8) -> Result<(), AllocError> {
        let text = self.text.as_slice();
        if self.level < level {
            return append(out, &[b"(", text, b")"]);
        }
        out.extend_from_slice(text)
    }

    // Appends the text after an operator, in brackets if it binds less tightly.
    fn put_right(&self, out: &mut Vec<u8, A>, operator: Operator) -> Result<(), AllocError> {
        let text = self.text.as_slice();
        let is_sum = operator == Operator::Add && self.is_parameter;
        if self.right <= operator.level() && !is_sum {
            return append(out, &[b"(", text, b")"]);
        }
        out.extend_from_slice(text)
    }

    /// Returns the value after an operator with one operand.
    pub(crate) fn changed(&self, alloc: A, operator: Operator) -> Result<Value<A>, AllocError> {
        let mut text = Vec::new(alloc);
        let mut level = operator.level();
        if operator == Operator::Not {
            text.push(b'(')?;
            self.put(&mut text, SUM)?;
            text.extend_from_slice(b"=0)")?;
            level = TERM;
        } else {
            text.extend_from_slice(operator.spelling())?;
            // here `<` and `>` are followed by a sum
            self.put(&mut text, if level == PART { SUM } else { TERM })?;
        }
        let number = match self.number {
            Some(number) => changed_number(operator, number),
            None => None,
        };
        Ok(Value {
            text,
            level,
            right: level,
            is_parameter: false,
            number,
            is_address: self.is_address && level != PART,
        })
    }

    /// Returns the value of an operator between this value and another.
    pub(crate) fn combined(
        &self,
        alloc: A,
        operator: Operator,
        other: &Value<A>,
        width: Width,
    ) -> Result<Value<A>, AllocError> {
        if let Some(made) = self.shortened(alloc, operator, other, width)? {
            return Ok(made);
        }
        let mut text = Vec::new(alloc);
        let level = operator.level();
        if matches!(operator, Operator::Both | Operator::Either) {
            text.push(b'(')?;
            self.put(&mut text, SUM)?;
            append(&mut text, &[b"<>0)", operator.spelling(), b"("])?;
            other.put(&mut text, SUM)?;
            text.extend_from_slice(b"<>0)")?;
        } else {
            self.put(&mut text, level)?;
            text.extend_from_slice(operator.spelling())?;
            other.put_right(&mut text, operator)?;
        }
        let number = match (self.number, other.number) {
            (Some(a), Some(b)) => combined_number(operator, a, b),
            _ => None,
        };
        Ok(Value {
            text,
            level,
            right: level,
            is_parameter: false,
            number,
            is_address: self.is_address || other.is_address,
        })
    }

    // Returns the value in another form, if there is one that is simpler, or that an address may have.
    fn shortened(
        &self,
        alloc: A,
        operator: Operator,
        other: &Value<A>,
        width: Width,
    ) -> Result<Option<Value<A>>, AllocError> {
        match (operator, self.text.as_slice(), other.number) {
            (Operator::Or, [b'\'', c, b'\''], Some(128)) => {
                let number = i32::from(*c) | 128;
                let text: &[u8] = &[b'"', *c, b'"'];
                Ok(Some(Value::term(alloc, &[text], Some(number))?))
            }
            (Operator::Divide, _, Some(256)) if self.number.is_none() => Ok(Some(self.changed(
                alloc,
                Operator::High,
            )?)),
            (Operator::ShiftRight, _, Some(8)) if self.number.is_none() => Ok(Some(self.changed(
                alloc,
                Operator::High,
            )?)),
            (Operator::And, _, Some(255)) if self.number.is_none() => Ok(Some(self.changed(
                alloc,
                Operator::Low,
            )?)),
            (Operator::Remainder, _, Some(256)) if self.number.is_none() => Ok(Some(self.changed(
                alloc,
                Operator::Low,
            )?)),
            (Operator::Add | Operator::Subtract, [mark @ (b'<' | b'>'), ..], _)
                if self.level == PART && self.number.is_none() && width == Width::Byte => Ok(Some(
                self.added(alloc, operator, other, *mark)?,
            )),
            _ => Ok(None),
        }
    }

    // Returns a byte of an address plus or minus a value as a byte of a sum.
    fn added(
        &self,
        alloc: A,
        operator: Operator,
        other: &Value<A>,
        mark: u8,
    ) -> Result<Value<A>, AllocError> {
        let mut text = Vec::from_slice(alloc, self.text.as_slice())?;
        text.extend_from_slice(operator.spelling())?;
        match (mark, other.number) {
            (b'<', _) => other.put(&mut text, 4)?,
            (_, Some(number)) if number >= 0 && number < 256 => {
                let digits = decimal((number as u64).saturating_mul(256));
                text.extend_from_slice(digits.as_slice())?;
            }
            _ => {
                other.put(&mut text, 4)?;
                text.extend_from_slice(b"*256")?;
            }
        }
        Ok(Value {
            text,
            level: PART,
            right: PART,
            is_parameter: false,
            number: None,
            is_address: false,
        })
    }
}

// The number after an operator with one operand, if there is one.
fn changed_number(operator: Operator, a: i32) -> Option<i32> {
    match operator {
        Operator::Negate => a.checked_neg(),
        Operator::Invert => Some(!a),
        Operator::Low => Some(a & 255),
        Operator::High => Some((a & 65535) / 256),
        Operator::Not => truth(a == 0),
        _ => None,
    }
}

// The value of a comparison.
fn truth(holds: bool) -> Option<i32> {
    Some(if holds { 1 } else { 0 })
}

// The power of two of a shift by at most 16 places.
fn power(places: i32) -> Option<i32> {
    let mut made: i32 = 1;
    if places < 0 || places > 16 {
        return None;
    }
    for _ in 0..places {
        made = made.checked_mul(2)?;
    }
    Some(made)
}

// The number of an operator between two numbers, if there is one.
fn combined_number(operator: Operator, a: i32, b: i32) -> Option<i32> {
    match operator {
        Operator::Equal => truth(a == b),
        Operator::Unequal => truth(a != b),
        Operator::Less => truth(a < b),
        Operator::Greater => truth(a > b),
        Operator::AtMost => truth(a <= b),
        Operator::AtLeast => truth(a >= b),
        Operator::Add => a.checked_add(b),
        Operator::Subtract => a.checked_sub(b),
        Operator::Multiply => a.checked_mul(b),
        Operator::Divide => a.checked_div(b),
        Operator::Remainder => a.checked_rem(b),
        Operator::Or => Some(a | b),
        Operator::And => Some(a & b),
        Operator::Xor => Some(a ^ b),
        Operator::ShiftLeft => a.checked_mul(power(b)?),
        Operator::ShiftRight => a.checked_div_euclid(power(b)?),
        Operator::Both => truth(a != 0 && b != 0),
        Operator::Either => truth(a != 0 || b != 0),
        _ => None,
    }
}
