//! Theorems about 6502 routines and source texts, each proved for every input, as lessons. The calls do nothing: their
//! contracts are the theorems.
//!
//! CALLING.md shows how to use this crate.
#![tactic(auto)]

ghost use Rattle.a2_theorems.specs.ByteSum.{ByteSumSums};
ghost use Rattle.a2_theorems.specs.Filling.{FillingFills};
ghost use Rattle.a2_theorems.specs.Greeting.{GreetingGreets};
ghost use Rattle.a2_theorems.specs.KeySum.{KeySumSums};
ghost use Rattle.a2_theorems.specs.Larger.{LargerTakes};
ghost use Rattle.a2_theorems.specs.Product.{ProductMultiplies};
ghost use Rattle.a2_theorems.specs.Swap.{SwapSwaps};
ghost use Rattle.a2_theorems.specs.TextLength.{TextLengthMeasures};
ghost use Rattle.a2_theorems.specs.WideSum.{WideSumAdds};

/// A theorem, and no code: `swap` exchanges two bytes.
pub fn swap_swaps()
    ensures { SwapSwaps }
{}

/// A theorem, and no code: `wide_sum` adds any two 16-bit words.
pub fn wide_sum_adds()
    ensures { WideSumAdds }
{}

/// A theorem, and no code: `larger` finds the larger of any two bytes.
pub fn larger_takes()
    ensures { LargerTakes }
{}

/// A theorem, and no code: `byte_sum` sums any three bytes, with a subroutine.
pub fn byte_sum_sums()
    ensures { ByteSumSums }
{}

/// A theorem, and no code: `product` multiplies any two bytes.
pub fn product_multiplies()
    ensures { ProductMultiplies }
{}

/// A theorem, and no code: `filling` fills the given number of cells and no others, for any count and byte.
pub fn filling_fills()
    ensures { FillingFills }
{}

/// A theorem, and no code: `text_length` finds the length of any text of at most 255 bytes.
pub fn text_length_measures()
    ensures { TextLengthMeasures }
{}

/// A theorem, and no code: a run of `key_sum` sums the first two waiting keys, whatever they are.
pub fn key_sum_sums()
    ensures { KeySumSums }
{}

/// A theorem, and no code: a run of `greeting` prints the greeting, whatever keys wait.
pub fn greeting_greets()
    ensures { GreetingGreets }
{}
