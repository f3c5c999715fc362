//! Laws of cuts, and of what is written and what is read.
ghost use Rattle.text_parts.specs.Laws.{BytesAreRead, CutsAreFirst, CutsAreParts, DecimalsAreCanonical, NumbersAreRead};

/// A text is cut where a byte stands first, and into its parts between such bytes.
pub fn cuts_are_parts()
    ensures first { CutsAreFirst }
    ensures parts { CutsAreParts }
{}

/// The texts of numbers are read as these, and so is what is written of a number.
pub fn numbers_are_read_back()
    ensures { NumbersAreRead }
{}

/// A number has one decimal text.
pub fn decimals_are_canonical()
    ensures { DecimalsAreCanonical }
{}

/// What is written of bytes is read as these.
pub fn bytes_are_read_back()
    ensures { BytesAreRead }
{}
