//! Expressions of other assemblers, written as expressions of this language.

use crate::dialect::Dialect;
use crate::names::Names;
use crate::operator::Operator;
use crate::token::{Token, first_token};
use crate::value::{Value, Width};
use a2_text::{after_blanks, number_in};
use std::alloc::{AllocError, Allocator};

// The values and operators of an expression that is read from left to right.
#[derive(Drop)]
struct Work<A: Allocator> {
    alloc: A,
    dialect: Dialect,
    width: Width,
    values: Vec<Value<A>, A>,
    waiting: Vec<Operator, A>,
}

// The number of a number token.
fn number_of(text: &[u8]) -> Option<u16> {
    match text {
        [b'$', digits @ ..] => number_in(16, 4, digits),
        [b'%', digits @ ..] => number_in(2, 16, digits),
        _ => number_in(10, 5, text),
    }
}

impl<A: Allocator + Copy> Work<A> {
    // Replaces the last values by the value of an operator; returns whether there were enough.
    fn apply(&mut self, operator: Operator) -> Result<bool, AllocError> {
        let Some(last) = self.values.pop() else {
            return Ok(false);
        };
        if operator.is_unary() {
            let made = last.changed(self.alloc, operator)?;
            self.values.push(made)?;
            return Ok(true);
        }
        let Some(first) = self.values.pop() else {
            return Ok(false);
        };
        let made = first.combined(self.alloc, operator, &last, self.width)?;
        self.values.push(made)?;
        Ok(true)
    }

    // Takes the last operator that waits, if it binds at least as tightly as `level`.
    fn due(&mut self, level: u8) -> Option<Operator> {
        let last = *self.waiting.last()?;
        if last.level_in(self.dialect) < level {
            return None;
        }
        self.waiting.pop()
    }

    // Applies the operators that wait and bind at least as tightly as `level`, which is at least 1.
    fn settle(&mut self, level: u8) -> Result<bool, AllocError> {
        for _ in 0..self.waiting.len() {
            let Some(operator) = self.due(level) else {
                break;
            };
            if !self.apply(operator)? {
                return Ok(false);
            }
        }
        Ok(true)
    }

    // Reads a token where a term is expected. Returns whether a term ends there, or `None` if the token does not belong there.
    fn term(
        &mut self,
        token: &Token<'_>,
        names: &Names<'_, A>,
    ) -> Result<Option<bool>, AllocError> {
        let made = match token {
            Token::Operator(operator) => {
                self.waiting.push(*operator)?;
                return Ok(Some(false));
            }
            Token::Open => {
                self.waiting.push(Operator::Open)?;
                return Ok(Some(false));
            }
            Token::Number(text) => match number_of(text) {
                Some(number) => Value::term(self.alloc, &[text], Some(i32::from(number)))?,
                None => return Ok(None),
            },
            Token::Hex(text) => match number_in(16, 4, text) {
                Some(number) => Value::term(self.alloc, &[b"$", text], Some(i32::from(number)))?,
                None => return Ok(None),
            },
            Token::Character(quote, c) => match character_value(self.alloc, *quote, *c)? {
                Some(made) => made,
                None => return Ok(None),
            },
            Token::Name(name) => match names.value_of(name)? {
                Some(made) => made,
                None => return Ok(None),
            },
            Token::Turn(digit, back, on) => names.turn_value(*digit, *back, *on)?,
            Token::Here => {
                let mut made = Value::term(self.alloc, &[b"*"], None)?;
                made.is_address = true;
                made
            }
            Token::Close | Token::Bad => return Ok(None),
        };
        self.values.push(made)?;
        Ok(Some(true))
    }

    // Reads a token after a term. Returns whether a term ends there, or `None` if the token does not belong there.
    fn after_term(&mut self, token: &Token<'_>) -> Result<Option<bool>, AllocError> {
        match token {
            Token::Close => {
                if !self.settle(1)? {
                    return Ok(None);
                }
                match self.waiting.pop() {
                    Some(Operator::Open) => Ok(Some(true)),
                    _ => Ok(None),
                }
            }
            Token::Operator(operator) => {
                if !self.settle(operator.level_in(self.dialect))? {
                    return Ok(None);
                }
                self.waiting.push(*operator)?;
                Ok(Some(false))
            }
            _ => Ok(None),
        }
    }

    // Returns the value of the whole expression.
    fn finish(&mut self) -> Result<Option<Value<A>>, AllocError> {
        if !self.settle(1)? || !self.waiting.is_empty() {
            return Ok(None);
        }
        Ok(self.values.pop())
    }
}

// The value of a character in quotes, or `None` if it cannot be written here.
fn character_value<A: Allocator + Copy>(
    alloc: A,
    quote: u8,
    c: u8,
) -> Result<Option<Value<A>>, AllocError> {
    let high: i32 = if quote == b'"' { 128 } else { 0 };
    if c < 32 || c > 126 {
        return Ok(None);
    }
    let number = i32::from(c) | high;
    if c == quote {
        return Ok(Some(Value::of_number(alloc, number)?));
    }
    Ok(Some(Value::term(alloc, &[&[quote, c, quote]], Some(number))?))
}

/// Returns an expression as it is written here, or `None` if it cannot be read.
pub(crate) fn value_in<A: Allocator + Copy>(
    names: &Names<'_, A>,
    text: &[u8],
    width: Width,
) -> Result<Option<Value<A>>, AllocError> {
    let alloc = names.alloc;
    let mut work = Work {
        alloc,
        dialect: names.dialect,
        width,
        values: Vec::new(alloc),
        waiting: Vec::new(alloc),
    };
    let mut after_term = false;
    let mut rest = after_blanks(text);
    for _ in 0..text.len() {
        if rest.is_empty() {
            break;
        }
        let (token, following) = first_token(names.dialect, rest, after_term);
        let step = if after_term {
            work.after_term(&token)?
        } else {
            work.term(&token, names)?
        };
        let Some(now) = step else {
            return Ok(None);
        };
        after_term = now;
        rest = after_blanks(following);
    }
    if !after_term || !rest.is_empty() {
        return Ok(None);
    }
    work.finish()
}
