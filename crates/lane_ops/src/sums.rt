//! The rows that compute a lane of several lanes of each argument.
ghost use Rattle.std.specs.Prelude.{◌≡◌, ◌^◌, ◌<◌, ◌≤◌};
ghost use Rattle.insn_ops.specs.declared.vector_op.VectorOp.TheVariants as ops;
ghost use Rattle.insn_semantics.specs.Words.{below, choice, minus, sign_extension, times};
ghost use Rattle.lane_views.specs.Lanes.{lane};
ghost use Rattle.lane_semantics.specs.Sources.{tops};
ghost use Rattle.lane_semantics.specs.Vectors.{lane_value};

use lane_views::Bytes32;
use scalar_ops::{word_add, word_mul, word_sub, word_sx};

/// The product of two signed words of 16 bits.
fn signed_product(x: u64, y: u64) -> u64
    requires { (x < 2 ^ 16) × (y < 2 ^ 16) }
    ensures value { result ≡ times 32 (sign_extension 16 32 x) (sign_extension 16 32 y) }
    ensures below { result < 2 ^ 32 }
{
    word_mul(32, word_sx(16, 32, x), word_sx(16, 32, y))
}

/// `pmaddwd`: the sum of the products of two words, the low ones first.
pub fn product_sum(first: &Bytes32, second: &Bytes32, i: u32) -> u64
    requires { i < 8 }
    ensures value { result ≡ lane_value ops.Pmaddwd 0 0 first.now.bytes second.now.bytes i }
    ensures below { result < 2 ^ 32 }
{
    let low = signed_product(first.lane(16, 2 * i), second.lane(16, 2 * i));
    let high = signed_product(first.lane(16, 2 * i + 1), second.lane(16, 2 * i + 1));
    word_add(32, low, high)
}

/// How far two bytes are apart.
fn distance(x: u64, y: u64) -> u64
    requires { (x < 2 ^ 8) × (y < 2 ^ 8) }
    ensures { result ≡ choice (below x y) (minus 8 y x) (minus 8 x y) }
{
    if x < y {
        word_sub(8, y, x)
    } else {
        word_sub(8, x, y)
    }
}

/// `psadbw`: the sum of the distances of eight bytes.
pub fn distance_sum(first: &Bytes32, second: &Bytes32, i: u32) -> u64
    requires { i < 4 }
    ensures { result ≡ lane_value ops.Psadbw 0 0 first.now.bytes second.now.bytes i }
{
    let mut sum = distance(first.lane(8, 8 * i), second.lane(8, 8 * i));
    for k in 1..8 {
        let more = distance(first.lane(8, 8 * i + k), second.lane(8, 8 * i + k));
        sum = word_add(64, sum, more);
    }
    sum
}

/// `pshufb`: the byte of the half that a byte numbers, or zero.
pub fn shuffled_byte(first: &Bytes32, second: &Bytes32, i: u32) -> u64
    requires { i < 32 }
    ensures value { result ≡ lane_value ops.Pshufb 0 0 first.now.bytes second.now.bytes i }
    ensures below { result < 2 ^ 8 }
{
    let control = second.lane(8, i);
    if control >= 128 {
        0
    } else {
        first.lane(8, 16 * (i / 16) + (control % 16) as u32)
    }
}

/// `pmovmskb`: the highest bits of the first bytes.
pub fn byte_mask(bytes: &Bytes32, count: u32) -> u64
    requires { count ≤ 32 }
    ensures value { result ≡ tops (λ j. lane 8 j bytes.now.bytes) count }
    ensures below { result < 2 ^ count }
{
    let mut mask: u64 = 0;
    for k in 0..count {
        mask += (bytes.lane(8, k) >> 7) << k;
    }
    mask
}
