//! What instructions did to the stack, and what each RTS pulled. A service returns as RTS does.

use crate::past::Past;
use crate::step::Step;
use a2_opcode::Mnemonic;
use std::alloc::{AllocError, Allocator};

// What last stored a byte of the stack page, as far as the examined steps show.
#[derive(Clone, Copy)]
enum Origin {
    // No examined step.
    Unseen,
    // The JSR at this address, whose return address has this low byte.
    Low(u16),
    // The JSR at this address, whose return address has this high byte.
    High(u16),
    // The PHA or PHP at this address.
    Pushed(u16),
    // Another instruction, at this address.
    Stored(u16),
}

// A byte of the stack page.
#[derive(Clone, Copy)]
struct Byte {
    origin: Origin,
    // The PLA or PLP that last pulled it since then.
    pulled_by: Option<u16>,
}

const UNSEEN: Byte = Byte {
    origin: Origin::Unseen,
    pulled_by: None,
};

/// What an RTS pulled. Instructions are named by their addresses.
#[derive(Clone, Copy)]
pub(crate) enum Pulled {
    /// The return address that this JSR pushed.
    Call(u16),
    /// A byte that this PHA or PHP pushed, and no byte of another one.
    Pushed(u16),
    /// A byte that this PHA or PHP pushed in place of the low byte of a return address.
    Replaced(u16),
    /// Two bytes that different instructions PHA or PHP pushed.
    BothPushed(u16, u16),
    /// A byte that the first instruction stored at the second address.
    Stored(u16, u16),
    /// What was above a return address of which the first instruction, PLA or PLP, pulled a byte. The JSR pushed it, or it was the last
    /// return address.
    Short(u16, Option<u16>),
    /// Other bytes: the stack pointer was elsewhere.
    Elsewhere,
    /// Bytes that were stored before the examined steps.
    Unseen,
}

/// An RTS, and what it pulled.
#[derive(Clone, Copy)]
pub(crate) struct Return {
    pub step: Step,
    pub pulled: Pulled,
}

/// The bytes of the stack page.
#[derive(Drop)]
struct Stack<A: Allocator> {
    bytes: Vec<Byte, A>,
    // Whether all steps since the start are examined.
    is_whole: bool,
}

// Returns an address in the stack page.
fn stack_address(offset: u8) -> u16 {
    u16::from_le_bytes([offset, 1])
}

impl<A: Allocator + Copy> Stack<A> {
    // No step is noted yet. Fails only if there is not enough memory.
    fn new(alloc: A, is_whole: bool) -> Result<Stack<A>, AllocError> {
        Ok(Stack {
            bytes: Vec::from_elem(alloc, UNSEEN, 256)?,
            is_whole,
        })
    }

    // Notes what stored the byte at $0100 plus this offset.
    fn note_byte(&mut self, offset: u8, origin: Origin) {
        if let Some(byte) = self.bytes.get_mut(usize::from(offset)) {
            *byte = Byte {
                origin,
                pulled_by: None,
            };
        }
    }

    // Notes that the PLA or PLP at `pc` pulled the byte at $0100 plus this offset.
    fn note_pull(&mut self, offset: u8, pc: u16) {
        if let Some(byte) = self.bytes.get_mut(usize::from(offset)) {
            byte.pulled_by = Some(pc);
        }
    }

    // Notes what the instruction of a step stored at its operand, if that is in the stack page.
    fn note_store(&mut self, step: &Step) {
        if let Some(store) = step.store {
            let [offset, page] = store.address.to_le_bytes();
            if page == 1 {
                self.note_byte(offset, Origin::Stored(step.regs.pc));
            }
        }
    }

    // Notes what a step did to the stack page.
    fn note(&mut self, step: &Step) {
        let (pc, s) = (step.regs.pc, step.regs.s);
        match step.mnemonic() {
            Some(Mnemonic::Jsr) => {
                self.note_byte(s, Origin::High(pc));
                self.note_byte(s.wrapping_sub(1), Origin::Low(pc));
            }
            Some(Mnemonic::Pha | Mnemonic::Php) => self.note_byte(s, Origin::Pushed(pc)),
            Some(Mnemonic::Pla | Mnemonic::Plp) => self.note_pull(s.wrapping_add(1), pc),
            _ => self.note_store(step),
        }
    }

    // Returns what is known of the byte at $0100 plus this offset.
    fn at(&self, offset: u8) -> Byte {
        match self.bytes.get(usize::from(offset)) {
            Some(byte) => *byte,
            None => UNSEEN,
        }
    }

    // Returns what an RTS pulls that begins above the low byte of a return address, with this S.
    fn pulled_above(&self, s: u8) -> Pulled {
        let below = self.at(s);
        match (below.pulled_by, below.origin) {
            (Some(by), Origin::Low(call)) => Pulled::Short(by, Some(call)),
            (Some(by), Origin::Unseen) if self.is_whole => Pulled::Short(by, None),
            _ if self.is_whole => Pulled::Elsewhere,
            _ => Pulled::Unseen,
        }
    }

    // Returns what an RTS pulls with this S, if its high byte decides that.
    fn pulled_by_high(&self, s: u8) -> Pulled {
        let high = s.wrapping_add(2);
        match self.at(high).origin {
            Origin::Pushed(by) => Pulled::Pushed(by),
            Origin::Stored(by) => Pulled::Stored(by, stack_address(high)),
            _ => self.pulled_above(s),
        }
    }

    // Returns what an RTS pulls with this S.
    fn pulled_at(&self, s: u8) -> Pulled {
        let address = stack_address(s.wrapping_add(1));
        let high = self.at(s.wrapping_add(2)).origin;
        match self.at(s.wrapping_add(1)).origin {
            Origin::Pushed(by) => pulled_after_push(by, high),
            Origin::Stored(by) => pulled_after_store(by, address, high),
            Origin::Low(call) if is_high_of(high, call) => Pulled::Call(call),
            _ => self.pulled_by_high(s),
        }
    }
}

// Returns what an RTS pulls whose low byte the PHA or PHP at `by` pushed.
fn pulled_after_push(by: u16, high: Origin) -> Pulled {
    match high {
        Origin::Pushed(other) if by != other => Pulled::BothPushed(by, other),
        Origin::High(_) => Pulled::Replaced(by),
        _ => Pulled::Pushed(by),
    }
}

// Returns what an RTS pulls whose low byte the instruction at `by` stored at `address`.
fn pulled_after_store(by: u16, address: u16, high: Origin) -> Pulled {
    match high {
        Origin::Pushed(other) => Pulled::Pushed(other),
        _ => Pulled::Stored(by, address),
    }
}

// Returns whether a byte is the high byte of the return address that the JSR at `call` pushed.
fn is_high_of(origin: Origin, call: u16) -> bool {
    match origin {
        Origin::High(same) => same == call,
        _ => false,
    }
}

/// What the examined steps of a run pulled by RTS.
#[derive(Clone, Copy)]
pub(crate) struct Returns {
    /// The last step, if it was an RTS.
    pub last: Option<Return>,
    /// The last RTS that pulled a byte above a return address, or above the low byte of one. A program that pushes an address for an
    /// RTS does not do this.
    pub astray: Option<Return>,
}

// Returns whether a step was an RTS, or a service that returned as RTS does.
fn is_return(step: &Step) -> bool {
    match step.mnemonic() {
        Some(mnemonic) => mnemonic == Mnemonic::Rts,
        None => step.next_s == step.regs.s.wrapping_add(2),
    }
}

// Returns whether a program does not mean to pull this by an RTS.
fn is_astray(pulled: Pulled) -> bool {
    matches!(pulled, Pulled::Pushed(_) | Pulled::Short(_, _))
}

/// Returns what the examined steps of a run pulled by RTS. Fails only if there is not enough memory.
pub(crate) fn returns_of<A: Allocator + Copy>(
    past: &Past<'_, '_, A>,
) -> Result<Returns, AllocError> {
    let mut stack = Stack::new(past.alloc(), past.is_whole())?;
    let mut returns = Returns {
        last: None,
        astray: None,
    };
    for step in past.steps() {
        returns.last = None;
        if is_return(step) {
            let it = Return {
                step: *step,
                pulled: stack.pulled_at(step.regs.s),
            };
            returns.last = Some(it);
            if is_astray(it.pulled) {
                returns.astray = Some(it);
            }
        }
        stack.note(step);
    }
    Ok(returns)
}
