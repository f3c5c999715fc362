//! The state that the loop is run from.
ghost use Rattle.std.specs.Prelude.{◌≡◌, IfOk};
ghost use Rattle.step_bench.specs.Start.{IsLoopStart};

use lane_views::Bytes32;
use machine::{Region, Span, State};
use std::alloc::{AllocError, Global};

/// The span of these bytes from an address on.
fn span(alloc: Global, at: u64, bytes: &[u8]) -> Result<Span, AllocError>
    ensures at { IfOk result (λ s. s.at ≡ at) }
    ensures bytes { IfOk result (λ s. s.bytes.items ≡ bytes.now) }
{
    let bytes = Vec::from_slice(alloc, bytes)?;
    Ok(Span { at, bytes })
}

/// A start state: 2048 bytes of 1 from 4096 on, which may be read and written, `%rdi` at their start
/// and `%rsi` in their middle.
pub fn start_state(alloc: Global) -> Result<State, AllocError>
    ensures { IfOk result IsLoopStart }
{
    let mut regs = [0; 16];
    regs[4] = 16384;
    regs[6] = 5120;
    regs[7] = 4096;
    let mut spans = Vec::new(alloc);
    spans.push(span(alloc, 4096, &[1; 2048])?)?;
    spans.push(span(alloc, 16384, &[0; 8])?)?;
    let mut regions = Vec::new(alloc);
    regions.push(Region {
        base: 4096,
        len: 2048,
        write: true,
    })?;
    Ok(State::new(regs, [Bytes32 { bytes: [0; 32] }; 16], spans, regions, 0))
}
