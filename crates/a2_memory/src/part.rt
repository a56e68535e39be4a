//! A part of RAM.

ghost use Rattle.std.specs.Prelude.{◌<◌, ◌≤◌};
ghost use Rattle.a2_bus.specs.Memory.{ram_end};

/// A range of RAM addresses, created by [`Part::of`].
#[derive(Clone, Copy, Debug)]
pub struct Part {
    pub(crate) first: u16,
    pub(crate) last: u16,
    ghost ordered: { first ≤ last },
    ghost inside: { last < ram_end },
}
