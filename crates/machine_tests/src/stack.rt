//! Runs of `push`, `pop` and `ret` within the declared stack bytes.

use crate::statements::{NO_MORE, NONE, RAX, RCX, RSP, memory_at, none, one, register, two};
use crate::trials::{Sight, Trial, first_wrong};
use insn_table::{Operand, Statement};
use machine::RunEnd;
use std::test::Fail;

const OLD: u64 = 0x0102_0304_0506_0708;

const FAULT: RunEnd = RunEnd::Faulted(3);

const PUSH: Statement<'static> = Statement {
    mnemonic: b"pushq",
    args: [Operand::Reg { n: RAX, w: 64 }, NONE, NONE, NONE],
};

const POP: Statement<'static> = Statement {
    mnemonic: b"popq",
    args: [Operand::Reg { n: RCX, w: 64 }, NONE, NONE, NONE],
};

/// From `%rax` on, and the end, the place, `%rsp` and `%rcx`.
fn row(
    body: [Statement<'static>; 3],
    rax: u64,
    end: RunEnd,
    place: u64,
    rsp: u64,
    rcx: u64,
) -> Trial {
    Trial {
        body,
        rax,
        rcx: 0,
        end,
        seen: [(Sight::Place, place), (Sight::Rsp, rsp), (Sight::Rcx, rcx)],
    }
}

/// A return wants the stack pointer of the entry, and a pop into the stack pointer leaves what it read.
fn returns() -> [Trial; 7] {
    let rsp = register(RSP, 64);
    let up = two(b"leaq", memory_at(RSP, 8), rsp);
    let down = two(b"leaq", memory_at(RSP, -8), rsp);
    let sub = two(b"subq", Operand::Imm(8), rsp);
    let pop_rsp = one(b"popq", rsp);
    let back = RunEnd::Returned(3);
    [
        row([PUSH, POP, NO_MORE], OLD, back, 2, 8192, OLD),
        row([PUSH, none(b"nop"), NO_MORE], 0, FAULT, 2, 8184, 0),
        row([sub, none(b"endbr64"), NO_MORE], 0, FAULT, 2, 8184, 0),
        row([up, none(b"nop"), NO_MORE], 0, FAULT, 2, 8200, 0),
        row([up, down, NO_MORE], 0, back, 2, 8192, 0),
        row([PUSH, pop_rsp, NO_MORE], 8192, back, 2, 8192, 0),
        row([PUSH, pop_rsp, NO_MORE], 5, FAULT, 2, 5, 0),
    ]
}

/// One push more than there are bytes for, one pop more, a pop at the entry, and a push of the stack
/// pointer.
fn ends() -> [Trial; 4] {
    let push_rsp = one(b"pushq", register(RSP, 64));
    [
        row([PUSH, PUSH, PUSH], OLD, FAULT, 2, 8176, 0),
        row([PUSH, POP, POP], OLD, FAULT, 2, 8192, OLD),
        row([POP, NO_MORE, NO_MORE], 0, RunEnd::Faulted(1), 0, 8192, 0),
        row(
            [push_rsp, NO_MORE, NO_MORE],
            0,
            RunEnd::Faulted(2),
            1,
            8184,
            0,
        ),
    ]
}

fn stored(body: [Statement<'static>; 3], words: [(Sight, u64); 3], end: RunEnd) -> Trial {
    Trial {
        body,
        rax: OLD,
        rcx: 0,
        end,
        seen: words,
    }
}

/// A push stores the value before, also of the stack pointer, which is 8192 before it.
fn stores() -> [Trial; 2] {
    let push_rsp = one(b"pushq", register(RSP, 64));
    let twice = [
        (Sight::Word(8176), OLD),
        (Sight::Word(8184), OLD),
        (Sight::Word(8192), 0),
    ];
    let once = [
        (Sight::Word(8176), 0),
        (Sight::Word(8184), 8192),
        (Sight::Word(8192), 0),
    ];
    [
        stored([PUSH, PUSH, PUSH], twice, FAULT),
        stored([push_rsp, NO_MORE, NO_MORE], once, RunEnd::Faulted(2)),
    ]
}

#[test]
fn pushes_pops_and_returns(rt: HostRuntime) -> Result<(), Fail> {
    assert_eq!(rt; first_wrong(rt.alloc(), &returns())?, None);
    assert_eq!(rt; first_wrong(rt.alloc(), &ends())?, None);
    assert_eq!(rt; first_wrong(rt.alloc(), &stores())?, None);
    Ok(())
}
