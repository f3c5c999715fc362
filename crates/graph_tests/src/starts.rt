//! The start states of the tests.
ghost use Rattle.std.specs.Prelude.{◌≡◌, IfOk};

use lane_views::Bytes32;
use machine::{Region, Span, State};
use std::alloc::Global;
use std::test::Fail;

/// The 32-bit words 1 to 8 at 8192, in a region that may be read alone.
const WORDS: [u8; 32] = [
    1, 0, 0, 0, 2, 0, 0, 0, 3, 0, 0, 0, 4, 0, 0, 0, 5, 0, 0, 0, 6, 0, 0, 0, 7, 0, 0, 0, 8, 0, 0, 0,
];

/// The state with 8192 in `%rdi`, 8 in `%rsi`, and the words 1 to 8 from there on. The stack pointer is
/// 4096, and byte k of each vector is k.
pub(crate) fn start(alloc: Global) -> Result<State, Fail>
    ensures { IfOk result (λ s. s.place ≡ 0) }
{
    let mut regs = [0; 16];
    regs[4] = 4096;
    regs[6] = 8;
    regs[7] = 8192;
    let mut bytes = [0; 32];
    for k in 0..32u8 {
        bytes[k as usize] = k;
    }
    let mut spans = Vec::new(alloc);
    spans.push(Span {
        at: 4096,
        bytes: Vec::from_slice(alloc, &[0; 8])?,
    })?;
    spans.push(Span {
        at: 8192,
        bytes: Vec::from_slice(alloc, &WORDS)?,
    })?;
    let region = Region {
        base: 8192,
        len: 32,
        write: false,
    };
    let regions = Vec::from_slice(alloc, &[region])?;
    Ok(State::new(regs, [Bytes32 { bytes }; 16], spans, regions, 0))
}
