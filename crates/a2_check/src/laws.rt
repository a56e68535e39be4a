//! A law about the errors that are reported.

ghost use Rattle.std.specs.Prelude.{◌⊎◌, ◌∷◌, List, ℕ};
ghost use Rattle.a2_syntax.specs.Bare.{BareLine};
ghost use Rattle.a2_syntax.specs.Sources.{IsSource, IsSourceError};
ghost use Rattle.a2_syntax.specs.declared.fault.Fault.{Fault};
ghost use Rattle.a2_asm.specs.Refusals.{IsLayoutError};
ghost use Rattle.a2_check.specs.Refusals.{AreRefusals};

/// A law without code: the first reported error of a text is the error for which the assembler rejects it. It is an error of
/// its size, its grammar or the layout of its lines.
pub fn the_first_is_the_texts_refusal()
    ensures { (text : List ℕ) (fault : Fault) (more : List Fault) → AreRefusals text (fault ∷ more)
        → IsSourceError text fault ⊎ ((source : List BareLine) × IsSource text source × IsLayoutError source fault) }
{}
