//! The arithmetic of words of a width from 1 to 64 bits.

ghost use Rattle.std.specs.Prelude.{◌≡◌, ◌-◌, ◌/◌, ◌%◌, ◌^◌, ◌<◌, ◌≤◌};
ghost use Rattle.insn_semantics.specs.Words.{plus, minus, times, complement, top, sign_extension, left_shift, right_shift, signed_shift};

/// The greatest word of `width` bits.
fn mask(width: u32) -> u64
    requires { (0 < width) × (width < 65) }
    ensures { result ≡ 2 ^ width - 1 }
{
    u64::MAX >> (64 - width)
}

/// The low bits of a number.
#[tactic(auto, using(crate::proofs::Masks::masks))]
pub fn low_bits(width: u32, a: u64) -> u64
    requires { (0 < width) × (width < 65) }
    ensures value { result ≡ a % 2 ^ width }
    ensures below { result < 2 ^ width }
{
    a & mask(width)
}

/// The sum modulo 2^width.
#[tactic(auto, using(crate::proofs::Masks::masks))]
pub fn word_add(width: u32, a: u64, b: u64) -> u64
    requires { (0 < width) × (width < 65) }
    ensures value { result ≡ plus width a b }
    ensures below { result < 2 ^ width }
{
    low_bits(width, a.wrapping_add(b))
}

/// The difference modulo 2^width.
#[tactic(auto, using(crate::proofs::Masks::masks))]
pub fn word_sub(width: u32, a: u64, b: u64) -> u64
    requires width { (0 < width) × (width < 65) }
    requires subtrahend { b < 2 ^ width }
    ensures value { result ≡ minus width a b }
    ensures below { result < 2 ^ width }
{
    low_bits(width, a.wrapping_sub(b))
}

/// The product modulo 2^width.
#[tactic(auto, using(crate::proofs::Masks::masks))]
pub fn word_mul(width: u32, a: u64, b: u64) -> u64
    requires { (0 < width) × (width < 65) }
    ensures value { result ≡ times width a b }
    ensures below { result < 2 ^ width }
{
    low_bits(width, a.wrapping_mul(b))
}

/// Each bit turned.
#[tactic(auto, using(crate::proofs::Masks::masks))]
pub fn word_not(width: u32, a: u64) -> u64
    requires width { (0 < width) × (width < 65) }
    requires word { a < 2 ^ width }
    ensures value { result ≡ complement width a }
    ensures below { result < 2 ^ width }
{
    mask(width) - a
}

/// The shift to the left.
#[tactic(auto, using(crate::proofs::Masks::masks))]
pub fn word_shl(width: u32, a: u64, count: u64) -> u64
    requires { (count < width) × (width < 65) }
    ensures value { result ≡ left_shift width a count }
    ensures below { result < 2 ^ width }
{
    low_bits(width, a << count)
}

/// The shift to the right, with zeros.
#[tactic(auto, using(crate::proofs::Masks::masks))]
pub fn word_shr(width: u32, a: u64, count: u64) -> u64
    requires count { (count < width) × (width < 65) }
    requires word { a < 2 ^ width }
    ensures value { result ≡ right_shift a count }
    ensures below { result < 2 ^ (width - count) }
{
    a >> count
}

/// The shift to the right, with copies of the sign.
#[tactic(auto, using(crate::proofs::Masks::masks))]
pub fn word_sar(width: u32, a: u64, count: u64) -> u64
    requires count { (count < width) × (width < 65) }
    requires word { a < 2 ^ width }
    ensures value { result ≡ signed_shift width a count }
    ensures below { result < 2 ^ width }
{
    word_sx(width - count as u32, width, word_shr(width, a, count))
}

/// The highest bit.
#[tactic(auto, using(crate::proofs::Masks::masks))]
pub fn top_bit(width: u32, a: u64) -> u64
    requires { (0 < width) × (width < 65) }
    ensures value { result ≡ top width a }
    ensures below { result < 2 }
{
    (a >> (width - 1)) & 1
}

/// From `from` bits to `width` by the sign.
#[tactic(auto, using(crate::proofs::Masks::masks))]
pub fn word_sx(from: u32, width: u32, a: u64) -> u64
    requires widths { (0 < from) × (from ≤ width) × (width < 65) }
    requires word { a < 2 ^ from }
    ensures value { result ≡ sign_extension from width a }
    ensures below { result < 2 ^ width }
{
    top_bit(from, a) * (mask(width) - mask(from)) + a
}
