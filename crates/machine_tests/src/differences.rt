//! First differences of two states, each worked by hand.
ghost use Rattle.std.specs.Prelude.{◌≡◌, IfOk, length};

use insn_ops::Output;
use lane_views::Bytes32;
use machine::{Difference, Span, State};
use std::alloc::Global;
use std::test::Fail;

const LAST: u64 = 18446744073709551615;

/// 32 bytes, of which the one at a place is 1, where it is one of them.
fn bytes_with(place: u64) -> [u8; 32] {
    let mut bytes = [0; 32];
    if place < 32 {
        bytes[place as usize] = 1;
    }
    bytes
}

/// 32 bytes from an address on, of which the one at another address is 1, where it is one of them.
fn span_with(alloc: Global, at: u64, other: u64) -> Result<Span, Fail>
    ensures at { IfOk result (λ span. span.at ≡ at) }
    ensures bytes { IfOk result (λ span. length span.bytes.items ≡ 32) }
{
    let bytes = Vec::from_slice(alloc, &bytes_with(other.wrapping_sub(at)))?;
    Ok(Span { at, bytes })
}

/// A state with this value of %rax, a byte 1 at a place of %ymm1, and a byte 1 at an address. The stack
/// range is the 16 bytes from 8184 on.
fn state(alloc: Global, rax: u64, place: u64, at: u64) -> Result<State, Fail> {
    let mut regs = [0; 16];
    regs[0] = rax;
    regs[4] = 8192;
    let mut vecs = [Bytes32 { bytes: [0; 32] }; 16];
    vecs[1] = Bytes32 {
        bytes: bytes_with(place),
    };
    let mut spans = Vec::new(alloc);
    spans.push(span_with(alloc, 4096, at)?)?;
    spans.push(span_with(alloc, 8176, at)?)?;
    spans.push(span_with(alloc, LAST - 31, at)?)?;
    Ok(State::new(regs, vecs, spans, Vec::new(alloc), 8))
}

/// The first difference of two states by the low 16 bits of `%rax` and the low half of `%ymm1`, but for
/// the bytes from 4100 to 4103 and the last byte but one.
fn first_difference(s: &State, t: &State) -> Option<Difference> {
    let live = [Output::Reg { n: 0, w: 16 }, Output::Vec { n: 1, w: 128 }];
    s.first_difference(t, &live, &[(4100, 4), (LAST - 1, 1)])
}

#[test]
fn the_first_difference(rt: HostRuntime) -> Result<(), Fail> {
    let alloc = rt.alloc();
    let zero = state(alloc, 0, 32, 0)?;
    for (rax, place, at, first) in [
        // equal states
        (0, 32, 0, None),
        // above the live bits
        (0x1_0000, 32, 0, None),
        (0, 16, 0, None),
        // the first live output, the second, and then bytes
        (0x8000, 15, 4096, Some(Difference::Out(0))),
        (0, 15, 4096, Some(Difference::Out(1))),
        (0, 16, 4096, Some(Difference::Byte(4096))),
        // around the stack range
        (0, 32, 8183, Some(Difference::Byte(8183))),
        (0, 32, 8184, None),
        (0, 32, 8199, None),
        (0, 32, 8200, Some(Difference::Byte(8200))),
        // around a scratch line
        (0, 32, 4099, Some(Difference::Byte(4099))),
        (0, 32, 4100, None),
        (0, 32, 4103, None),
        (0, 32, 4104, Some(Difference::Byte(4104))),
        // the last addresses
        (0, 32, LAST - 1, None),
        (0, 32, LAST, Some(Difference::Byte(LAST))),
    ] {
        let other = state(alloc, rax, place, at)?;
        let both = (
            first_difference(&zero, &other),
            first_difference(&other, &zero),
        );
        assert_eq!(rt; both, (first, first));
    }
    Ok(())
}

#[test]
fn the_least_address(rt: HostRuntime) -> Result<(), Fail> {
    let alloc = rt.alloc();
    let low = state(alloc, 0, 32, 4110)?;
    let high = state(alloc, 0, 32, LAST)?;
    let first = Some(Difference::Byte(4110));
    assert_eq!(rt; low.first_difference(&high, &[], &[]), first);
    assert_eq!(rt; high.first_difference(&low, &[], &[]), first);
    // a scratch line of 16 addresses over the end of memory and one over 4110
    let scratch = [(LAST - 7, 16), (4110, 1)];
    assert_eq!(rt; low.first_difference(&high, &[], &scratch), None);
    // one of all addresses but the last of memory
    let first = Some(Difference::Byte(LAST));
    assert_eq!(rt; low.first_difference(&high, &[], &[(0, LAST)]), first);
    Ok(())
}
