//! Laws of the rows of nodes. The functions do nothing; their contracts are the laws.
ghost use Rattle.row_values.specs.RowValues.{RowsSayTheirValues, RowsStayInPlace};

/// For some values of its helpers, and for one alone, the row of a node is met exactly where the number of its bits is
/// what its operator makes of the numbers of its arguments, whichever operator it has.
pub fn rows_say_their_values()
    ensures { RowsSayTheirValues }
{}

/// Two assignments that agree at the bits and the helpers of a node and at the bits of its arguments meet its row
/// alike.
pub fn rows_stay_in_place()
    ensures { RowsStayInPlace }
{}
