//! Accesses at the ends of regions, addresses, and what is written.

use crate::statements::{
    AT_RCX, COMPARE, EAX, NO_MORE, NONE, RAX, RCX, memory_at, one, register, two,
};
use crate::trials::{Sight, Trial, first_wrong, make_trial, seeing};
use insn_table::{Operand, Statement};
use machine::RunEnd;
use std::test::Fail;

const LAST: u64 = 0xFFFF_FFFF_FFFF_FFFF;

/// The eight bytes 0x11 that each region begins with.
const ELEVENS: u64 = 0x1111_1111_1111_1111;

/// A statement with an address in `%rcx`, and whether its access is allowed.
fn access(statement: Statement<'static>, at: u64, allowed: bool) -> Trial {
    let end = if allowed {
        RunEnd::Returned(2)
    } else {
        RunEnd::Faulted(1)
    };
    make_trial([statement, NO_MORE, NO_MORE], 0, at, end)
}

/// Accesses at the ends of one region, and over regions side by side.
fn accesses() -> [Trial; 10] {
    let add = two(b"addl", EAX, AT_RCX);
    let load = two(b"movl", AT_RCX, EAX);
    [
        access(add, 4096, true),
        access(add, 4108, true),
        access(add, 4095, false),
        access(add, 4109, false),
        access(add, LAST, false),
        // an access wants one region that has all of it
        access(load, 4132, true),
        access(load, 4134, false),
        access(load, 4136, true),
        access(load, 4166, true),
        access(load, 4173, false),
    ]
}

/// A load and a store of so many bits around the last address.
fn around_the_end(mnemonic: &'static [u8], w: u32, at: u64, allowed: bool) -> [Trial; 2] {
    let part = register(RAX, w);
    [
        access(two(mnemonic, AT_RCX, part), at, allowed),
        access(two(mnemonic, part, AT_RCX), at, allowed),
    ]
}

#[test]
fn an_access_lies_in_one_region(rt: HostRuntime) -> Result<(), Fail> {
    assert_eq!(rt; first_wrong(rt.alloc(), &accesses())?, None);
    for (mnemonic, w, at, allowed) in [
        (b"movb", 8, LAST, true),
        (b"movb", 8, 0, false),
        (b"movb", 8, LAST - 16, false),
        (b"movw", 16, LAST - 1, true),
        (b"movw", 16, LAST, false),
        (b"movq", 64, LAST - 7, true),
        (b"movq", 64, LAST - 6, false),
    ] {
        let wrong = first_wrong(rt.alloc(), &around_the_end(mnemonic, w, at, allowed))?;
        assert_eq!(rt; wrong, None, "at {at}");
    }
    Ok(())
}

/// An access to the region that may be read alone, which stays.
fn reads(statement: Statement<'static>, allowed: bool) -> Trial {
    seeing(access(statement, 4192, allowed), Sight::Word(4192), ELEVENS)
}

fn reads_and_writes() -> [Trial; 8] {
    [
        reads(two(b"movl", AT_RCX, EAX), true),
        reads(two(b"addl", AT_RCX, EAX), true),
        reads(two(b"cmpl", EAX, AT_RCX), true),
        reads(two(b"testl", EAX, AT_RCX), true),
        reads(two(b"movl", EAX, AT_RCX), false),
        reads(two(b"addl", EAX, AT_RCX), false),
        reads(one(b"notl", AT_RCX), false),
        reads(one(b"shll", AT_RCX), false),
    ]
}

/// A load of four bytes and the address of a memory operand that names 4096.
fn addresses(from: Operand, rax: u64, rcx: u64) -> [Trial; 2] {
    let load = two(b"movl", from, EAX);
    let address = two(b"leaq", from, register(RAX, 64));
    let loaded = make_trial([load, NO_MORE, NO_MORE], rax, rcx, RunEnd::Returned(2));
    let addressed = make_trial([address, NO_MORE, NO_MORE], rax, rcx, RunEnd::Returned(2));
    [
        seeing(loaded, Sight::Rax, 0x1111_1111),
        seeing(addressed, Sight::Rax, 4096),
    ]
}

#[test]
fn sums_of_addresses_wrap(rt: HostRuntime) -> Result<(), Fail> {
    let scaled = Operand::Mem {
        base: Some(RCX),
        index: Some(RAX),
        scale: 8,
        disp: 8,
    };
    for (from, rax, rcx) in [
        (memory_at(RCX, 4104), 0, LAST - 7),
        (memory_at(RCX, -16), 0, 4112),
        (scaled, 0x2000_0000_0000_0000, 4088),
        (scaled, LAST, 4096),
    ] {
        let wrong = first_wrong(rt.alloc(), &addresses(from, rax, rcx))?;
        assert_eq!(rt; wrong, None);
    }
    Ok(())
}

/// 8(%rcx) into a part of `%rax`.
fn load(mnemonic: &'static [u8], w: u32, rax: u64) -> Trial {
    let load = two(mnemonic, memory_at(RCX, 8), register(RAX, w));
    let ended = make_trial([load, NO_MORE, NO_MORE], LAST, 4096, RunEnd::Returned(2));
    seeing(seeing(ended, Sight::Rax, rax), Sight::EntryRax, LAST)
}

/// A sum of memory, 0x11111111 + 0xFF, which is 0x11111210.
fn sum(sight: Sight, value: u64) -> Trial {
    let add = two(b"addl", EAX, AT_RCX);
    let rax = 0x1_0000_00FF;
    let ended = make_trial([add, NO_MORE, NO_MORE], rax, 4108, RunEnd::Returned(2));
    seeing(seeing(ended, Sight::Rax, rax), sight, value)
}

fn writes() -> [Trial; 7] {
    [
        load(b"movb", 8, 0xFFFF_FFFF_FFFF_FF11),
        load(b"movw", 16, 0xFFFF_FFFF_FFFF_1111),
        load(b"movl", 32, 0x1111_1111),
        load(b"movq", 64, ELEVENS),
        sum(Sight::Word(4104), 0x1111_1210_1111_1111),
        sum(Sight::Word(4112), ELEVENS),
        sum(Sight::Place, 1),
    ]
}

#[test]
fn what_is_written_and_what_stays(rt: HostRuntime) -> Result<(), Fail> {
    assert_eq!(rt; first_wrong(rt.alloc(), &reads_and_writes())?, None);
    assert_eq!(rt; first_wrong(rt.alloc(), &writes())?, None);
    Ok(())
}

/// Statements that have an operand in memory, and its bytes.
type Classes = [(Statement<'static>, u64); 13];

/// Moves, sums and tests.
fn moves_and_sums() -> Classes {
    let one_more = Operand::Imm(1);
    [
        (two(b"movb", AT_RCX, register(RAX, 8)), 1),
        (two(b"movw", register(RAX, 16), AT_RCX), 2),
        (two(b"movl", one_more, AT_RCX), 4),
        (two(b"movq", AT_RCX, register(RAX, 64)), 8),
        (two(b"addl", AT_RCX, EAX), 4),
        (two(b"subq", register(RAX, 64), AT_RCX), 8),
        (two(b"andb", one_more, AT_RCX), 1),
        (two(b"orw", AT_RCX, register(RAX, 16)), 2),
        (two(b"xorl", EAX, AT_RCX), 4),
        (two(b"cmpq", one_more, AT_RCX), 8),
        (two(b"testb", register(RAX, 8), AT_RCX), 1),
        (one(b"incw", AT_RCX), 2),
        (one(b"decb", AT_RCX), 1),
    ]
}

/// Shifts, products, extensions and choices.
fn other_rows() -> Classes {
    let rax = register(RAX, 64);
    let product = Statement {
        mnemonic: b"imulq",
        args: [Operand::Imm(1), AT_RCX, rax, NONE],
    };
    [
        (one(b"negq", AT_RCX), 8),
        (one(b"notl", AT_RCX), 4),
        (two(b"shll", Operand::Imm(3), AT_RCX), 4),
        (one(b"shrq", AT_RCX), 8),
        (one(b"sarw", AT_RCX), 2),
        (two(b"imulw", AT_RCX, register(RAX, 16)), 2),
        (product, 8),
        (two(b"movzbl", AT_RCX, EAX), 1),
        (two(b"movzwq", AT_RCX, rax), 2),
        (two(b"movslq", AT_RCX, rax), 4),
        (two(b"cmove", AT_RCX, EAX), 4),
        (two(b"cmovneq", AT_RCX, rax), 8),
        (one(b"setne", AT_RCX), 1),
    ]
}

/// An access of so many bytes around the ends of the region from 4096 to 4111, behind a comparison.
fn at_the_ends(statement: Statement<'static>, bytes: u64) -> [Trial; 4] {
    let body = [COMPARE, statement, NO_MORE];
    [
        make_trial(body, 0, 4095, RunEnd::Faulted(2)),
        make_trial(body, 0, 4096, RunEnd::Returned(3)),
        make_trial(body, 0, 4112u64.wrapping_sub(bytes), RunEnd::Returned(3)),
        make_trial(body, 0, 4113u64.wrapping_sub(bytes), RunEnd::Faulted(2)),
    ]
}

#[test]
fn memory_of_each_class_at_the_ends_of_a_region(rt: HostRuntime) -> Result<(), Fail> {
    for classes in [moves_and_sums(), other_rows()] {
        for (statement, bytes) in classes {
            let wrong = first_wrong(rt.alloc(), &at_the_ends(statement, bytes))?;
            assert_eq!(rt; wrong, None);
        }
    }
    // lea makes no access
    let address = access(two(b"leal", AT_RCX, EAX), 5, true);
    assert_eq!(rt;
        first_wrong(rt.alloc(), &[seeing(address, Sight::Rax, 5)])?,
        None
    );
    Ok(())
}
