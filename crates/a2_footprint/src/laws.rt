//! Laws: a run depends only on what it reads. So a promise that was tried from every state of some bytes and registers
//! holds in every world. The calls do nothing: their contracts are the theorems.

ghost use Rattle.a2_footprint.specs.Boards.{BoardsReadAsTheirMemory};
ghost use Rattle.a2_footprint.specs.Calls.{CallsGoBack, CallPromisesHoldEverywhere};
ghost use Rattle.a2_footprint.specs.Counting.{StatesAreCounted};
ghost use Rattle.a2_footprint.specs.Doubling.{DoublingHolds};
ghost use Rattle.a2_footprint.specs.Fetches.{FetchesDependOnReads, StepsByBytesRead};
ghost use Rattle.a2_footprint.specs.Promises.{PromisesHoldEverywhere, TriesDependOnInputs};
ghost use Rattle.a2_footprint.specs.Serving.{ServicesDependOnUses, ServicesKeepTheRest};
ghost use Rattle.a2_footprint.specs.Stays.{UnknownRegistersStay};
ghost use Rattle.a2_footprint.specs.Runs.{InstructionsDependOnReads, StepsDependOnReads, RunsDependOnReads};
ghost use Rattle.a2_footprint.specs.RotatedStack.{RunsOffStackAlike, RunsAlikeOnRotatedStack};
ghost use Rattle.a2_footprint.specs.Uses.{RunsDependOnUses};

/// A theorem, and no code: an instruction does the same in two states that hold the same bytes at the addresses it
/// reads.
pub fn instructions_depend_on_reads()
    ensures { InstructionsDependOnReads }
{}

/// A theorem, and no code: a service of the Monitor that needs no key does the same in two worlds. The worlds must hold
/// the same in all bytes, registers and flags that the service uses.
pub fn services_depend_on_uses()
    ensures { ServicesDependOnUses }
{}

/// A theorem, and no code: such a service changes only the bytes at which it stores, and only the registers and flags
/// that it sets.
pub fn services_keep_the_rest()
    ensures { ServicesKeepTheRest }
{}

/// A theorem, and no code: a step of a run, which is an instruction or a service, does the same in two worlds, and is
/// not stuck in either.
pub fn steps_depend_on_reads()
    ensures { StepsDependOnReads }
{}

/// A theorem, and no code: the same holds for any number of steps.
pub fn runs_depend_on_reads()
    ensures { RunsDependOnReads }
{}

/// A theorem, and no code: the same holds for steps from two worlds with different registers and flags, if each is set
/// before it is used.
pub fn runs_depend_on_uses()
    ensures { RunsDependOnUses }
{}

/// A theorem, and no code: a register that steps neither use nor set is unchanged after them.
pub fn unknown_registers_stay()
    ensures { UnknownRegistersStay }
{}

/// A theorem, and no code: steps of code without a guard that use the stack only through S do the same for every value
/// of S. They leave the same state, except where the stack is.
pub fn runs_alike_on_rotated_stack()
    ensures { RunsAlikeOnRotatedStack }
{}

/// A theorem, and no code: if the steps of a run use the stack only through S, so do those of a run from another world
/// that agrees in everything the first run uses.
pub fn runs_off_stack_alike()
    ensures { RunsOffStackAlike }
{}

/// A theorem, and no code: steps that reach an RTS, and do not store at the return address, return to their caller.
pub fn calls_go_back()
    ensures { CallsGoBack }
{}

/// A theorem, and no code: an instruction fetched from memory depends only on its bytes.
pub fn fetches_depend_on_reads()
    ensures { FetchesDependOnReads }
{}

/// A theorem, and no code: so a step by code in memory reads only known bytes, if the bytes of its instruction and the
/// bytes that this instruction reads are known.
pub fn steps_by_bytes_read()
    ensures { StepsByBytesRead }
{}

/// A theorem, and no code: an instruction reads the same addresses on a board and on the memory that the board holds.
pub fn boards_read_as_their_memory()
    ensures { BoardsReadAsTheirMemory }
{}

/// A theorem, and no code: suppose a routine returns and passes a test from every state of its inputs, and uses nothing
/// else that is not fixed. Then it does so in every world.
pub fn promises_hold_everywhere()
    ensures { PromisesHoldEverywhere }
{}

/// A theorem, and no code: the same holds for a routine that is tried up to its RTS, for every caller with the same S.
pub fn call_promises_hold_everywhere()
    ensures { CallPromisesHoldEverywhere }
{}

/// A theorem, and no code: the states from which a promise is tried are exactly those of its inputs.
pub fn tries_depend_on_inputs()
    ensures { TriesDependOnInputs }
{}

/// A theorem, and no code: each state of the inputs has a number whose digits are the values of the inputs. It is less
/// than the product of how many values each input has. So counting up to that product reaches each state.
pub fn states_are_counted()
    ensures { StatesAreCounted }
{}

/// A theorem, and no code: an example of a promise that holds, for three instructions that double A if it is below 128.
pub fn doubling_holds()
    ensures { DoublingHolds }
{}
