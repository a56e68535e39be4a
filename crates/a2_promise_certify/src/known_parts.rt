//! Records which registers and flags are known at a point of a routine.

ghost use Rattle.std.specs.Prelude.{◌≡◌};
ghost use Rattle.std.specs.List.{list_all};
ghost use Rattle.a2_footprint.specs.declared.Part.{Part as DeclaredPart};
ghost use Rattle.a2_footprint.specs.Parts.{with_parts};
ghost use Rattle.a2_promise_certify.specs.Walking.{knows_part, with_part};

use a2_footprint::Part;

/// Which registers and flags are known.
#[derive(Clone, Copy)]
pub struct KnownParts {
    a: bool,
    x: bool,
    y: bool,
    n: bool,
    v: bool,
    d: bool,
    i: bool,
    z: bool,
    c: bool,
}

impl KnownParts {
    /// Nothing is known except D, which is clear at the entry.
    pub fn none() -> KnownParts
        ensures { result ≡ Rattle.a2_promise_certify.specs.Walking.no_parts }
    {
        KnownParts {
            a: false,
            x: false,
            y: false,
            n: false,
            v: false,
            d: true,
            i: false,
            z: false,
            c: false,
        }
    }

    /// Returns whether a register or flag is known.
    pub fn has(&self, part: Part) -> bool
        ensures { result ≡ knows_part self.now part }
    {
        match part {
            Part::A => self.a,
            Part::X => self.x,
            Part::Y => self.y,
            Part::N => self.n,
            Part::V => self.v,
            Part::D => self.d,
            Part::I => self.i,
            Part::Z => self.z,
            Part::C => self.c,
        }
    }

    /// Returns whether all of these are known.
    pub fn have(&self, parts: &[Part]) -> bool
        ensures { result ≡ list_all (knows_part self.now) parts.now }
    {
        parts.iter().all(|part| self.has(*part))
    }

    /// Marks a register or flag as known.
    pub fn add(&mut self, part: Part)
        ensures { self.new ≡ with_part part self.old }
    {
        match part {
            Part::A => self.a = true,
            Part::X => self.x = true,
            Part::Y => self.y = true,
            Part::N => self.n = true,
            Part::V => self.v = true,
            Part::D => self.d = true,
            Part::I => self.i = true,
            Part::Z => self.z = true,
            Part::C => self.c = true,
        }
    }

    /// Marks all of these as known.
    pub fn learn(&mut self, parts: &[Part])
        ensures { (part : DeclaredPart) → knows_part self.new part ≡ with_parts parts.now (knows_part self.old) part }
    {
        for part in parts {
            self.add(*part);
        }
    }
}
