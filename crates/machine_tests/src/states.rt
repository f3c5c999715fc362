//! The start states of the tests.
ghost use Rattle.std.specs.Prelude.{◌≡◌, IfOk};

use lane_views::Bytes32;
use machine::{Region, Span, State};
use std::alloc::Global;
use std::test::Fail;

fn region(base: u64, len: u64, write: bool) -> Region
    ensures { result ≡ record { base = base; len = len; write = write } }
{
    Region { base, len, write }
}

/// The bytes 0x11 in regions, and 16 declared stack bytes, which are 0, below 8192, which is in
/// `%rsp`. From 4096 to 4111 stands one region. From 4128 and from 4136 stand two of 8 bytes side by
/// side, and again from 4160 and from 4168, where a third stands over both. From 4192 to 4207 stands
/// one that may be read alone, and one has the last 16 bytes below 2^64.
pub(crate) fn start(alloc: Global, rax: u64, rcx: u64) -> Result<State, Fail>
    ensures { IfOk result (λ s. s.place ≡ 0) }
{
    let mut regs = [0; 16];
    regs[0] = rax;
    regs[1] = rcx;
    regs[4] = 8192;
    let mut spans = Vec::new(alloc);
    spans.push(Span {
        at: 4096,
        bytes: Vec::from_slice(alloc, &[0x11; 112])?,
    })?;
    spans.push(Span {
        at: 8176,
        bytes: Vec::from_slice(alloc, &[0; 24])?,
    })?;
    spans.push(Span {
        at: 0xFFFF_FFFF_FFFF_FFF0,
        bytes: Vec::from_slice(alloc, &[0x11; 16])?,
    })?;
    let regions = [
        region(4096, 16, true),
        region(4128, 8, true),
        region(4136, 8, true),
        region(4160, 8, true),
        region(4168, 8, true),
        region(4160, 16, true),
        region(4192, 16, false),
        region(0xFFFF_FFFF_FFFF_FFF0, 16, true),
    ];
    let regions = Vec::from_slice(alloc, &regions)?;
    Ok(State::new(regs, [Bytes32 { bytes: [0; 32] }; 16], spans, regions, 16))
}
