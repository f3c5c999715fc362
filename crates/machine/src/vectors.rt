//! What a write leaves of a vector register, and words and controls as the code takes them.
ghost use Rattle.std.specs.Prelude.{◌≡◌, length, map, take, drop, ◌++◌};
ghost use Rattle.machine.specs.Vectors as vectors;
ghost use Rattle.lane_views.specs.declared.Bytes32.{Bytes32};

use insn_table::Operand;
use lane_views::Bytes32;
use memory_spans::zeros;

/// A word of 64 bits, and zeros above it.
pub fn word_vector(word: u64) -> Bytes32
    ensures { result.bytes ≡ vectors.word_vector word }
{
    let mut vector = zeros();
    vector.set_lane(64, 0, word);
    vector
}

/// A vector register after a write: without VEX its bits 255 to 128 stay.
pub fn written(vex: bool, old: &Bytes32, new: &Bytes32) -> Bytes32
    ensures { result.bytes ≡ vectors.written_vector vex old.now.bytes new.now.bytes }
{
    if vex {
        *new
    } else {
        Bytes32 {
            bytes: lower_and_upper(&new.bytes, &old.bytes),
        }
    }
}

/// A vector register whose bits 255 to 128 are cleared.
fn cleared_above(old: &Bytes32) -> Bytes32
    ensures { result.bytes ≡ vectors.cleared_above old.now.bytes }
{
    Bytes32 {
        bytes: lower_and_upper(&old.bytes, &[0; 32]),
    }
}

/// Clears bits 255 to 128 of each vector register.
pub fn clear_above(vecs: &mut [Bytes32; 16])
    ensures cleared { map (λ (v : Bytes32). v.bytes) vecs.new ≡ map vectors.cleared_above (map (λ (v : Bytes32). v.bytes) vecs.old) }
    ensures sixteen { length vecs.new ≡ 16 }
{
    for n in 0..16 {
        let vec = cleared_above(&vecs[n]);
        vecs[n] = vec;
    }
}

/// The low 16 bytes of one vector and the high 16 of another.
#[tactic(auto, using(crate::proofs::VectorWrites::next_low))]
fn lower_and_upper(low: &[u8; 32], high: &[u8; 32]) -> [u8; 32]
    ensures { result ≡ take 16 low.now ++ drop 16 high.now }
{
    let mut bytes = *high;
    for k in 0..16 {
        bytes[k] = low[k];
    }
    bytes
}

/// The low eight bits of an immediate, 0 of another operand.
pub fn control(operand: Operand) -> u8
    ensures { result ≡ vectors.control_of operand }
{
    match operand {
        Operand::Imm(v) => (v % 256) as u8,
        _ => 0,
    }
}
