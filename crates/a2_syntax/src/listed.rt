//! Laws: text shown in a listing is valid source text. The functions do nothing; their contracts are the laws.

ghost use Rattle.a2_syntax.specs.Listed.{ListedOperandsAreSourceText, ListingLinesAreSourceText};

/// For every addressing mode and each value it can have, the operand text in a listing follows the grammar. It is an
/// operand of the listed form with the listed value.
pub fn a_listed_operand_is_source_text()
    ensures { ListedOperandsAreSourceText }
{}

/// For all bytes that decode to an instruction, their listing line from column 19 on is the source line of that
/// instruction without a label. That is a space, the mnemonic and the operand.
pub fn a_listing_line_is_source_text()
    ensures { ListingLinesAreSourceText }
{}
