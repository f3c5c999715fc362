//! Laws of rows. The functions do nothing; their contracts are the laws.
ghost use Rattle.std.specs.Prelude.{◌≡◌, ◌-◌, ◌<◌, ℕ, Bool};
ghost use Rattle.insn_semantics.specs.Words as words;
ghost use Rattle.clause_words.specs.Numbers.{SayWithHelpers, StandsBefore, word_value};
ghost use Rattle.clause_words.specs.Products.{product_helpers, product_row};
ghost use Rattle.clause_words.specs.Rows.{equal_row, row_clauses};
ghost use Rattle.clause_words.specs.declared.row.Row.TheVariants.{Less, SignedLess, Sum};

/// For some values of the carries, and for one alone, the row of a sum is met exactly where the number of the
/// result is the sum modulo 2^w; with the result and the first argument exchanged, where it is the difference.
pub fn sums_and_differences()
    ensures sum { (v : ℕ → Bool) (w r a b carry : ℕ) → StandsBefore carry w r → StandsBefore carry w a → StandsBefore carry w b
        → SayWithHelpers v carry (w - 1) (row_clauses w (Sum w r a b carry))
        (word_value v w r ≡ words.plus w (word_value v w a) (word_value v w b)) }
    ensures difference { (v : ℕ → Bool) (w r a b carry : ℕ) → StandsBefore carry w r → StandsBefore carry w a → StandsBefore carry w b
        → SayWithHelpers v carry (w - 1) (row_clauses w (Sum w a r b carry))
        (word_value v w r ≡ words.minus w (word_value v w a) (word_value v w b)) }
{}

/// For some values of its helpers, and for one alone, the row of an order is met exactly where the result tells
/// whether the first number is below the second, as whole numbers and by the sign.
pub fn orders()
    ensures below { (v : ℕ → Bool) (w r a b lower : ℕ) → 0 < w
        → StandsBefore lower 1 r → StandsBefore lower w a → StandsBefore lower w b
        → SayWithHelpers v lower (w - 1) (row_clauses w (Less w r a b lower))
        (word_value v 1 r ≡ words.below (word_value v w a) (word_value v w b)) }
    ensures signed { (v : ℕ → Bool) (w r a b lower : ℕ) → 0 < w
        → StandsBefore lower 1 r → StandsBefore lower w a → StandsBefore lower w b
        → SayWithHelpers v lower (w - 1) (row_clauses w (SignedLess w r a b lower))
        (word_value v 1 r ≡ words.signed_below w (word_value v w a) (word_value v w b)) }
{}

/// For some values of its helpers, and for one alone, the row of an equality is met exactly where the result tells
/// whether the numbers are equal.
pub fn equalities()
    ensures { (v : ℕ → Bool) (w r a b alike : ℕ)
        → StandsBefore alike 1 r → StandsBefore alike w a → StandsBefore alike w b
        → SayWithHelpers v alike w (equal_row w r a b alike)
        (word_value v 1 r ≡ words.equal (word_value v w a) (word_value v w b)) }
{}

/// For some values of its helpers, and for one alone, the row of a product is met exactly where the number of the
/// result is the product modulo 2^w.
pub fn products()
    ensures { (v : ℕ → Bool) (w r a b h : ℕ) → 0 < w → StandsBefore h w r → StandsBefore h w a → StandsBefore h w b
        → SayWithHelpers v h (product_helpers w) (product_row w r a b h)
        (word_value v w r ≡ words.times w (word_value v w a) (word_value v w b)) }
{}
