//! The law of reads and writes of a memory, as a contract of a function that does nothing.
ghost use Rattle.std.specs.Prelude.{◌≡◌, ℕ, ◌%◌, ◌^◌, ◌<◌, ◌≤◌, List, length};
ghost use Rattle.memory_spans.specs.Memory.{bytes_at, bytes_of_number, number_of_bytes, offset_from, with_bytes};

/// The law of a memory: bytes that were written are read back, each byte past them stays as it was,
/// and the n low bytes of a number make the number modulo 256^n. It does nothing.
pub fn memory_law()
    ensures read_back { (memory : ℕ → ℕ) (at : ℕ) (bytes : List ℕ) → at < 2 ^ 64 → length bytes ≤ 2 ^ 64
        → bytes_at (with_bytes memory at bytes) at (length bytes) ≡ bytes }
    ensures others { (memory : ℕ → ℕ) (at : ℕ) (bytes : List ℕ) (x : ℕ) → length bytes ≤ offset_from at x
        → with_bytes memory at bytes x ≡ memory x }
    ensures number { (n word : ℕ) → number_of_bytes (bytes_of_number n word) ≡ word % 256 ^ n }
{}
