//! Words that are chosen by comparisons, and saturation.
ghost use Rattle.std.specs.Prelude.{◌≡◌, ◌-◌, ◌^◌, ◌<◌, ◌≤◌, nat_lt};
ghost use Rattle.insn_semantics.specs.Exprs.{Leaf, value};
ghost use Rattle.insn_semantics.specs.Words.{bit, choice, plus, sign_extension};
ghost use Rattle.lane_semantics.specs.LaneRows.{signed_saturation, unsigned_saturation};

use scalar_ops::{low_bits, word_add, word_sub, word_sx};

/// The word whose highest bit alone is set.
fn sign_bit(width: u32) -> u64
    requires { (0 < width) × (width < 65) }
    ensures value { result ≡ 2 ^ (width - 1) }
    ensures below { result < 2 ^ width }
{
    1 << (width - 1)
}

/// Whether a word is below another by the sign.
pub fn is_signed_below(width: u32, a: u64, b: u64) -> bool
    requires { (0 < width) × (width < 65) }
    ensures { result ≡ nat_lt (plus width a (2 ^ (width - 1))) (plus width b (2 ^ (width - 1))) }
{
    let sign = sign_bit(width);
    word_add(width, a, sign) < word_add(width, b, sign)
}

/// The first word where the test holds, else the second.
pub fn chosen(width: u32, test: bool, a: u64, b: u64) -> u64
    requires { (a < 2 ^ width) × (b < 2 ^ width) }
    ensures value { result ≡ choice (bit test) a b }
    ensures below { result < 2 ^ width }
{
    if test { a } else { b }
}

/// All ones where the test holds, else all zeros.
pub fn spread(width: u32, test: bool) -> u64
    requires { (0 < width) × (width < 65) }
    ensures value { result ≡ sign_extension 1 width (bit test) }
    ensures below { result < 2 ^ width }
{
    if test {
        word_sx(1, width, 1)
    } else {
        word_sx(1, width, 0)
    }
}

/// The word of ones.
fn ones(width: u32) -> u64
    requires { width < 64 }
    ensures value { result ≡ 2 ^ width - 1 }
    ensures below { result < 2 ^ width }
{
    (1 << width) - 1
}

/// Signed saturation.
pub fn signed_saturated(from: u32, to: u32, a: u64) -> u64
    requires { (0 < to) × (to < from) × (from < 65) }
    ensures value { result ≡ value (λ k. a) (signed_saturation from to (Leaf 0)) }
    ensures below { result < 2 ^ to }
{
    let least = sign_bit(to);
    let greatest = least - 1;
    let is_above = is_signed_below(from, greatest, a);
    let is_below = is_signed_below(from, a, word_sub(from, 0, least));
    let inside = chosen(to, is_below, least, low_bits(to, a));
    chosen(to, is_above, greatest, inside)
}

/// Unsigned saturation of a signed word.
pub fn unsigned_saturated(from: u32, to: u32, a: u64) -> u64
    requires { (0 < to) × (to < from) × (from < 65) }
    ensures value { result ≡ value (λ k. a) (unsigned_saturation from to (Leaf 0)) }
    ensures below { result < 2 ^ to }
{
    let greatest = ones(to);
    let is_below = is_signed_below(from, a, 0);
    let is_above = is_signed_below(from, greatest, a);
    let inside = chosen(to, is_above, greatest, low_bits(to, a));
    chosen(to, is_below, 0, inside)
}
