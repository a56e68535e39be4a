//! Keys that are typed after given steps.

ghost use Rattle.std.specs.Prelude.{◌≡◌, ◌+◌, ◌<◌, ◌≤◌, ◌++◌, ◌∷◌, [], ℕ, true, false, All, length, OnOk};
ghost use Rattle.a2_timed_keys.specs.Typed.{keys_at, typed_after, with_keys};

use a2_bus::Keys;
use a2_machine::Machine;
use std::alloc::{AllocError, Allocator, Global};
use std::marker::Model;

/// A key, and after how many steps it is typed.
#[derive(Clone, Copy, Debug, PartialEq, Eq)]
pub struct Typed {
    pub steps: u64,
    /// 0 to 127.
    pub key: u8,
}

/// The keys that are typed in a run, each after its steps. Contracts see a list.
#[derive(Drop)]
pub struct Strokes<A: Allocator = Global> {
    typed: Vec<Typed, A>,
}

impl<A: Allocator> Model for Strokes<A> {
    ghost use Rattle.std.specs.Prelude.{List, All, ◌<◌};
    ghost use Rattle.a2_timed_keys.specs.declared.strokes.Typed.{Typed};

    ghost Value = { List Typed };

    ghost view = { λ s. s.typed.items };

    ghost invariant = { λ s. All (λ t. t.key < 128) s.typed.items };
}

// Adds keys that are typed after so many steps.
fn note_keys<A: Allocator + Copy>(
    typed: &mut Vec<Typed, A>,
    steps: u64,
    keys: &[u8],
) -> Result<(), AllocError>
    requires codes { All (λ key. key < 128) keys.now }
    requires typed { All (λ t. t.key < 128) typed.old.items }
    ensures added { OnOk result (typed.new.items ≡ typed.old.items ++ typed_after steps keys.now) }
    ensures codes { All (λ t. t.key < 128) typed.new.items }
{
    for key in keys {
        typed.push(Typed { steps, key: *key })?;
    }
    Ok(())
}

// Types a key if it is one of these steps. Returns whether there was room.
fn type_stroke<A: Allocator + Copy>(machine: &mut Machine<A>, stroke: Typed, steps: u64) -> bool
    requires { stroke.key < 128 }
    ensures typed { result ≡ true → machine.new ≡ with_keys (keys_at (stroke ∷ []) steps) machine.old }
    ensures full { result ≡ false → 4096 < length machine.old.state.bus.devices.keys + length (keys_at (stroke ∷ []) steps) }
{
    if stroke.steps != steps {
        return true;
    }
    machine.type_keys(&Keys::one(stroke.key)).is_ok()
}

/// Types the keys of these steps, if there is room for all of them. Returns whether there was.
pub(crate) fn type_due<A: Allocator + Copy>(
    machine: &mut Machine<A>,
    typed: &[Typed],
    steps: u64,
) -> bool
    requires { All (λ t. t.key < 128) typed.now }
    ensures typed { result ≡ true → machine.new ≡ with_keys (keys_at typed.now steps) machine.old }
    ensures room { result ≡ true → length machine.new.state.bus.devices.keys ≤ 4096 }
    ensures full { result ≡ false → 4096 < length machine.old.state.bus.devices.keys + length (keys_at typed.now steps) }
    ensures before { length machine.old.state.bus.devices.keys ≤ 4096 }
{
    // For the prover alone: a law of every machine, that no more keys wait.
    let _ = machine.space().waiting();
    for stroke in typed {
        if !type_stroke(machine, *stroke, steps) {
            return false;
        }
    }
    let _ = machine.space().waiting();
    true
}

// Returns the steps of a key if they are more than `made` and fewer than `until`, and otherwise `until`.
fn sooner(stroke: Typed, made: u64, until: u64) -> u64
    requires { made < until }
    ensures more { made < result }
    ensures within { result ≤ until }
    ensures none { (k : ℕ) → made < k → k < result → keys_at (stroke ∷ []) k ≡ [] }
{
    if stroke.steps <= made {
        return until;
    }
    if stroke.steps >= until {
        return until;
    }
    stroke.steps
}

/// Returns the greatest number of steps, more than `made` and at most `end`, before which no key is typed.
pub fn next_due(typed: &[Typed], made: u64, end: u64) -> u64
    requires { made < end }
    ensures more { made < result }
    ensures within { result ≤ end }
    ensures none { (k : ℕ) → made < k → k < result → keys_at typed.now k ≡ [] }
{
    let mut until = end;
    for stroke in typed {
        until = sooner(*stroke, made, until);
    }
    until
}

impl<A: Allocator + Copy> Strokes<A> {
    /// Returns an empty list.
    pub fn new(alloc: A) -> Strokes<A>
        ensures { result ≡ [] }
    {
        Strokes {
            typed: Vec::new(alloc),
        }
    }

    /// Adds keys that are typed after so many steps, and after keys that were added for the same steps. Fails only if there is not
    /// enough memory.
    pub fn add(&mut self, steps: u32, keys: &Keys) -> Result<(), AllocError>
        ensures { OnOk result (self.new ≡ self.old ++ typed_after steps keys.now) }
    {
        note_keys(&mut self.typed, u64::from(steps), keys.bytes())
    }

    /// Adds a key, after keys that were added for the same steps. Fails only if there is not enough memory.
    pub(crate) fn note(&mut self, typed: Typed) -> Result<(), AllocError>
        requires { typed.key < 128 }
        ensures { OnOk result (self.new ≡ self.old ++ typed ∷ []) }
    {
        self.typed.push(typed)?;
        Ok(())
    }

    /// Returns the keys in the order in which they were added, each from 0 to 127.
    pub fn as_slice(&self) -> &[Typed]
        ensures keys { result.now ≡ self.now }
        ensures codes { All (λ t. t.key < 128) self.now }
    {
        self.typed.as_slice()
    }
}
