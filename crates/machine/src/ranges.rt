//! Laws that numbers of machine types are in their ranges. They only go over them.
ghost use Rattle.std.specs.Prelude.{◌≡◌, ℕ, ◌^◌, ◌<◌, length, map, slice_index};
ghost use Rattle.lane_views.specs.declared.Bytes32.{Bytes32};
ghost use Rattle.machine.specs.Machine.{AreRegs, AreVecs};

use lane_views::Bytes32;
use memory_spans::are_bytes;

/// The law that sixteen registers are of 64 bits.
pub fn are_regs(regs: &[u64; 16])
    ensures { AreRegs regs.now }
{
    are_words(regs);
}

fn are_words(words: &[u64])
    ensures { (n : ℕ) → slice_index words.now n < 2 ^ 64 }
{}

/// The law that sixteen vectors are of 32 bytes, each below 256.
pub fn are_vecs(vecs: &[Bytes32; 16])
    ensures { AreVecs (map (λ (v : Bytes32). v.bytes) vecs.now) }
{
    for vec in vecs {
        is_vec(&vec.bytes);
    }
}

fn is_vec(bytes: &[u8; 32])
    ensures length { length bytes.now ≡ 32 }
    ensures below { (at : ℕ) → slice_index bytes.now at < 256 }
{
    are_bytes(bytes);
}
