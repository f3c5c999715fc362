//! Runs that read flags, set and unset.

use crate::statements::{AT_RCX, COMPARE, EAX, NO_MORE, NONE, RAX, RCX, one, register, two};
use crate::trials::{Sight, Trial, first_wrong, make_trial, seeing};
use insn_table::{Operand, Statement};
use machine::RunEnd;
use std::test::Fail;

const CONDITIONAL_JUMPS: [&[u8]; 16] = [
    b"jo", b"jno", b"jb", b"jae", b"je", b"jne", b"jbe", b"ja", b"js", b"jns", b"jp", b"jnp",
    b"jl", b"jge", b"jle", b"jg",
];

const FACTORS: [Operand; 4] = [
    Operand::Reg { n: 6, w: 32 },
    Operand::Reg { n: 7, w: 32 },
    NONE,
    NONE,
];

/// `cmpl %esi,%edi`
const COMPARE_FACTORS: Statement<'static> = Statement {
    mnemonic: b"cmpl",
    args: FACTORS,
};

/// `imull %esi,%edi`, which leaves each flag unset.
const PRODUCT: Statement<'static> = Statement {
    mnemonic: b"imull",
    args: FACTORS,
};

/// A jump whose ways lead to the same place, the return: at the entry, where no flag is set, behind a
/// comparison, behind a comparison and a product, and behind a product.
fn jumps_to_the_return(mnemonic: &'static [u8]) -> [Trial; 4] {
    let [to_1, to_2, to_3] = [1, 2, 3].map(|place| one(mnemonic, Operand::Target(place)));
    let at_entry = make_trial([to_1, NO_MORE, NO_MORE], 0, 0, RunEnd::Unset(1));
    let behind_both = make_trial([COMPARE_FACTORS, PRODUCT, to_3], 0, 0, RunEnd::Unset(3));
    let behind_product = make_trial([PRODUCT, to_2, NO_MORE], 0, 0, RunEnd::Unset(2));
    [
        seeing(at_entry, Sight::Place, 0),
        make_trial([COMPARE, to_2, NO_MORE], 0, 0, RunEnd::Returned(3)),
        seeing(behind_both, Sight::Place, 2),
        seeing(behind_product, Sight::Place, 1),
    ]
}

#[test]
fn a_jump_reads_its_flags_where_both_ways_are_one(rt: HostRuntime) -> Result<(), Fail> {
    for mnemonic in CONDITIONAL_JUMPS {
        let wrong = first_wrong(rt.alloc(), &jumps_to_the_return(mnemonic))?;
        assert_eq!(rt; wrong, None);
    }
    Ok(())
}

/// `cmpl $5,%eax`, a jump to the return, and `incq %rcx`, from 7 in `%rcx`.
fn jump(mnemonic: &'static [u8], rax: u64, jumps: bool) -> Trial {
    let body = [
        two(b"cmpl", Operand::Imm(5), EAX),
        one(mnemonic, Operand::Target(3)),
        one(b"incq", register(RCX, 64)),
    ];
    let (steps, rcx) = if jumps { (3, 7) } else { (4, 8) };
    let ended = make_trial(body, rax, 7, RunEnd::Returned(steps));
    seeing(seeing(ended, Sight::Place, 3), Sight::Rcx, rcx)
}

fn jumps() -> [Trial; 11] {
    [
        jump(b"je", 5, true),
        jump(b"je", 4, false),
        jump(b"jb", 4, true),
        jump(b"jb", 5, false),
        jump(b"ja", 0xFFFF_FFFF, true),
        jump(b"jg", 0xFFFF_FFFF, false),
        jump(b"jg", 6, true),
        jump(b"jo", 0x8000_0000, true),
        jump(b"jo", 0x7FFF_FFFF, false),
        // 8 - 5 has two bits set, 6 - 5 one
        jump(b"jp", 8, true),
        jump(b"jp", 6, false),
    ]
}

const OLD: u64 = 0xFFFF_FFFF_0000_0005;

/// A move from 7 behind a comparison of equal operands: ne does not hold, and e does.
fn choice(mnemonic: &'static [u8], w: u32, rax: u64) -> Trial {
    let choice = two(mnemonic, register(RCX, w), register(RAX, w));
    let ended = make_trial([COMPARE, choice, NO_MORE], OLD, 7, RunEnd::Returned(3));
    seeing(ended, Sight::Rax, rax)
}

fn choices() -> [Trial; 7] {
    [
        choice(b"cmovne", 32, 5),
        choice(b"cmovnel", 32, 5),
        choice(b"cmovnew", 16, OLD),
        choice(b"cmovneq", 64, OLD),
        choice(b"cmove", 32, 7),
        choice(b"cmovew", 16, 0xFFFF_FFFF_0000_0007),
        choice(b"cmoveq", 64, 7),
    ]
}

/// A move whose condition is false reads its memory too, and an unset flag wins over a fault.
fn reads() -> [Trial; 6] {
    let choice = two(b"cmovne", AT_RCX, EAX);
    let set = one(b"sete", AT_RCX);
    let read = make_trial([COMPARE, choice, NO_MORE], OLD, 4096, RunEnd::Returned(3));
    let fault = make_trial([COMPARE, choice, NO_MORE], OLD, 0, RunEnd::Faulted(2));
    [
        seeing(read, Sight::Rax, 5),
        seeing(seeing(fault, Sight::Rax, OLD), Sight::Place, 1),
        make_trial([choice, NO_MORE, NO_MORE], 0, 0, RunEnd::Unset(1)),
        make_trial([COMPARE, choice, NO_MORE], 0, 0, RunEnd::Faulted(2)),
        make_trial([set, NO_MORE, NO_MORE], 0, 0, RunEnd::Unset(1)),
        make_trial([COMPARE, set, NO_MORE], 0, 0, RunEnd::Faulted(2)),
    ]
}

#[test]
fn jumps_and_moves_by_condition(rt: HostRuntime) -> Result<(), Fail> {
    assert_eq!(rt; first_wrong(rt.alloc(), &jumps())?, None);
    assert_eq!(rt; first_wrong(rt.alloc(), &choices())?, None);
    assert_eq!(rt; first_wrong(rt.alloc(), &reads())?, None);
    Ok(())
}
