//! A machine that enters a routine in the state of a failure.

ghost use Rattle.std.specs.Prelude.{◌≡◌, IfOk, IsTrue};
ghost use Rattle.std.specs.List.{list_all};
ghost use Rattle.a2_hex.specs.Images.{held};
ghost use Rattle.a2_machine.specs.State.{world_of_state};
ghost use Rattle.a2_promise_certify.specs.States.{with_value, with_values};
ghost use Rattle.a2_promise_try.specs.Failing.{IsEntry, IsFresh, is_input_in_ram};

use crate::entry_ram::filled;
use crate::verdict::Failure;
use a2_asm::Program;
use a2_effect::Live;
use a2_hex::RAM_END;
use a2_machine::Machine;
use a2_promise_certify::{Input, put_register};
use std::alloc::{AllocError, Global};

// Gives an input a value. A byte that is not in RAM has no value.
fn lay_value(input: Input, value: u8, machine: &mut Machine<Global>)
    ensures world { IsTrue (is_input_in_ram input)
        → world_of_state machine.new.state ≡ with_value input value (world_of_state machine.old.state) }
    ensures fresh { IsFresh machine.old → IsFresh machine.new }
{
    if let Input::Byte(address) = input {
        if address < RAM_END {
            machine.poke(address, value);
        }
        return;
    }
    let mut live = Live::of(&machine.regs());
    put_register(input, value, &mut live);
    machine.set_regs(live.regs());
}

// Gives inputs their values.
fn lay_values(inputs: &[Input], values: &[u8], machine: &mut Machine<Global>)
    ensures world { IsTrue (list_all is_input_in_ram inputs.now)
        → world_of_state machine.new.state ≡ with_values inputs.now values.now (world_of_state machine.old.state) }
    ensures fresh { IsFresh machine.old → IsFresh machine.new }
{
    let [input, rest @ ..] = inputs else {
        return;
    };
    let [value, others @ ..] = values else {
        return;
    };
    lay_values(rest, others, machine);
    lay_value(*input, *value, machine);
}

/// Creates a machine that enters a routine of a program at this address in the state of a failure, as its trial did:
///
/// - The program is laid over arbitrary bytes. The bytes of page 0 that services read are as after power-on.
/// - PC is the address, S is $FD, and the return address leads to $FF69.
/// - The keys of the failure are typed, and each input has its value.
///
/// The machine has not executed a step and has no guard. Fails only if memory runs out.
pub fn machine_at_entry(
    alloc: Global,
    program: &Program<Global>,
    address: u16,
    failure: &Failure,
) -> Result<Machine<Global>, AllocError>
    ensures world { IfOk result (λ machine. IsTrue (list_all is_input_in_ram failure.now.inputs.items)
        → IsEntry (held program.now.image) address failure.now.keys failure.now.inputs.items failure.now.values.items
        (world_of_state machine.state)) }
    ensures fresh { IfOk result (λ machine. IsFresh machine) }
{
    let image = filled(alloc, program.image())?;
    let mut machine = Machine::booted(alloc, &image, address, &failure.keys)?;
    machine.set_pc(address);
    let (inputs, values) = (failure.inputs.as_slice(), failure.values.as_slice());
    lay_values(inputs, values, &mut machine);
    Ok(machine)
}
