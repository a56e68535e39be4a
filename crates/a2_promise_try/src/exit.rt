//! How a run of a routine proceeds and ends.

use a2_cpu::Regs;

/// How a routine leaves.
#[derive(Clone, Copy)]
pub enum Exit {
    /// It returns to its caller.
    Returned,
    /// It pulls the caller's return address from the stack, or leaves something on the stack.
    Stack,
    /// It reaches an address at which no instruction of the source begins.
    Elsewhere(u16),
    /// It reaches an address above RAM where there is no service.
    Above(u16),
    /// The service at this address does not work with the current window, cursor or block positions.
    Window(u16),
    /// It waits for a key, and no key is typed.
    Keys(u16),
    /// It would store at a byte of the program.
    Code(u16),
    /// It would store at a switch or a device.
    Device(u16),
    /// It would read a switch, a device or a byte of the ROM.
    Read(u16),
    Brk,
    Decimal,
    /// It has executed 1,000,000 steps and is still running.
    Endless,
}

/// A run that has ended or is still in progress: the registers, the address of the last step, the cycles and steps
/// since the entry, and how the routine left, if it did.
#[derive(Clone, Copy)]
pub(crate) struct TrialRun {
    pub regs: Regs,
    pub from: Option<u16>,
    pub cycles: u32,
    pub steps: u32,
    pub exit: Exit,
}

impl TrialRun {
    /// Creates a run before its first step.
    pub fn at(regs: Regs) -> TrialRun {
        TrialRun {
            regs,
            from: None,
            cycles: 0,
            steps: 0,
            exit: Exit::Endless,
        }
    }

    /// Records a step that took this many cycles and left these registers.
    pub fn advance(&mut self, regs: Regs, cycles: u32) {
        self.from = Some(self.regs.pc);
        self.regs = regs;
        self.cycles = self.cycles.saturating_add(cycles);
        self.steps = self.steps.saturating_add(1);
    }
}

/// A place where a run continued into another routine without calling it: its last step before that, and the
/// routine's address.
#[derive(Clone, Copy)]
pub struct FallThrough {
    pub from: u16,
    pub to: u16,
}

/// A step of a run: its address, and the registers after it.
#[derive(Clone, Copy)]
pub struct TracedStep {
    pub address: u16,
    pub regs: Regs,
}
