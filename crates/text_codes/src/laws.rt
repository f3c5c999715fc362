//! Laws of what is read. The function does nothing; its contract is the laws.
ghost use Rattle.text_codes.specs.Laws.{PartsAreRead};

/// Words, numbers, numbers with a sign, and names none of which begins another are read rightly: as the
/// one value whose text stands at the front, or else up to the first byte with which no such text goes on.
pub fn parts_are_read()
    ensures { PartsAreRead }
{}
