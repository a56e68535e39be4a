//! The log of typed keys.

ghost use Rattle.std.specs.Prelude.{◌≡◌, ◌+◌, ◌≤◌, ◌++◌, length, take, drop, vec_len, vec_capacity};
ghost use Rattle.a2_debug_script.specs.Stored.{typed_at, up_to, InOrder, AllBelow, NoneBelow};

use crate::Typed;
use std::alloc::Allocator;

/// Records keys that are typed at a count.
pub fn note_keys<A: Allocator + Copy>(log: &mut Vec<Typed, A>, count: u32, keys: &[u8])
    requires { vec_len log.old + length keys.now ≤ vec_capacity log.old }
    ensures items { log.new.items ≡ log.old.items ++ typed_at count keys.now }
    ensures capacity { vec_capacity log.old ≤ vec_capacity log.new }
{
    for key in keys {
        log.push_reserved(Typed { count, key: *key });
    }
}

/// Forgets the keys that were typed at counts above this one.
pub fn forget_after<A: Allocator + Copy>(log: &mut Vec<Typed, A>, count: u32)
    ensures items { log.new.items ≡ up_to count log.old.items }
    ensures capacity { vec_capacity log.new ≡ vec_capacity log.old }
{
    log.retain(|typed| typed.count <= count);
}

/// Returns how many keys were typed at counts below this one.
pub fn typed_below(log: &[Typed], count: u32) -> usize
    requires { InOrder log.now }
    ensures known { result ≤ length log.now }
    ensures under { AllBelow count (take result log.now) }
    ensures later { NoneBelow count (drop result log.now) }
{
    let mut typed = 0;
    while typed < log.len() && log[typed].count < count {
        typed += 1;
    }
    typed
}
