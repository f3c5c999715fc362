//! Inverses of odd numbers modulo 2^64.
ghost use Rattle.std.specs.Prelude.{◌≡◌, ◌*◌, ◌%◌};
ghost use Rattle.node_forms.specs.Sums.{SameWord};

/// The number that an odd number is to be multiplied by to give 1, modulo 2^64.
pub fn inverse(odd: u64) -> u64
    requires { odd % 2 ≡ 1 }
    ensures { SameWord 64 (result * odd) 1 }
{
    let mut power = odd;
    let mut product = 1u64;
    for _bits in 1..64u32 {
        product = product.wrapping_mul(power);
        power = power.wrapping_mul(power);
    }
    product
}
