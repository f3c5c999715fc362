//! Each public call of `insn_table` once, and the kinds and ranges of operands, in tables.
use align_base::Word;
use insn_ops::{LaneOp, LaneWidth, MoveOp, VectorOp};
use insn_table::{
    BuildError, Cond, Function, FunctionBuilder, Insn, Misfit, Op, Operand, Shape, Statement,
    assemble_function, fits, look_up,
};
use std::alloc::Global;
use std::test::Fail;

const MEMORY: Operand = Operand::Mem {
    base: Some(7),
    index: None,
    scale: 1,
    disp: 8,
};

const POOL: Operand = Operand::Pool(16);

const NOTHING: Operand = Operand::Nothing;

fn register(w: u32) -> Operand {
    Operand::Reg { n: 3, w }
}

/// The number `v` below 0.
fn below(v: u64) -> Operand {
    Operand::Imm(0u64.wrapping_sub(v))
}

/// An instruction, by its parts.
fn insn(op: Op, w: u32, args: [Operand; 4], line: u32) -> Insn {
    Insn {
        op,
        w,
        vex: false,
        args,
        line,
    }
}

/// Why this operation of `w` bits doesn't take the operands: None where it does.
fn misfit(op: Op, w: u32, first: Operand, second: Operand, third: Operand) -> Option<Misfit> {
    let shape = Shape { op, w, vex: false };
    fits(shape, [first, second, third, NOTHING], 7).err()
}

#[test]
fn mnemonics_name_shapes(rt: HostRuntime) {
    for (mnemonic, op, w) in [
        (b"salw".as_slice(), Op::Shl, 16),
        (b"jnae".as_slice(), Op::Jump(Cond::B), 64),
        (b"cmovnel".as_slice(), Op::Cmov(Cond::Ne), 32),
        (b"cmovl".as_slice(), Op::Cmov(Cond::L), 0),
        (b"setnle".as_slice(), Op::Set(Cond::G), 8),
        (b"movslq".as_slice(), Op::Movsx(32), 64),
        (b"movzbw".as_slice(), Op::Movzx(8), 16),
        (b"retq".as_slice(), Op::Ret, 64),
    ] {
        assert_eq!(rt; look_up(mnemonic), Some(Shape { op, w, vex: false }));
    }
    for mnemonic in [
        b"mov".as_slice(),
        b"retl".as_slice(),
        b"Addb".as_slice(),
        b"jo ".as_slice(),
        b"".as_slice(),
        b"leab".as_slice(),
        b"cmovneb".as_slice(),
    ] {
        assert_eq!(rt; look_up(mnemonic), None);
    }
}

#[test]
fn forms_take_their_kinds(rt: HostRuntime) {
    let one = Operand::Imm(1);
    for (op, w, first, second, third) in [
        (Op::Mov, 8, register(8), MEMORY, NOTHING),
        (Op::Add, 32, POOL, register(32), NOTHING),
        (Op::Cmp, 32, one, POOL, NOTHING),
        (Op::Imul, 64, POOL, register(64), NOTHING),
        (Op::Imul, 64, one, register(64), NOTHING),
        (Op::Imul, 64, one, MEMORY, register(64)),
        (Op::Lea, 32, MEMORY, register(32), NOTHING),
        (Op::Movsx(8), 64, register(8), register(64), NOTHING),
        (Op::Cltq, 64, NOTHING, NOTHING, NOTHING),
        (Op::Jmp, 64, Operand::Target(3), NOTHING, NOTHING),
        (Op::Push, 64, register(64), NOTHING, NOTHING),
    ] {
        assert_eq!(rt; misfit(op, w, first, second, third), None);
    }
    for (op, w, first, second, third) in [
        (Op::Mov, 8, MEMORY, MEMORY, NOTHING),
        (Op::Cmp, 32, MEMORY, POOL, NOTHING),
        (Op::Add, 32, register(32), POOL, NOTHING),
        (Op::Add, 32, register(64), register(32), NOTHING),
        (Op::Imul, 64, register(64), MEMORY, NOTHING),
        (Op::Lea, 64, POOL, register(64), NOTHING),
        (Op::Shl, 64, register(8), register(64), NOTHING),
        (Op::Shl, 64, one, NOTHING, NOTHING),
        (Op::Ret, 64, one, NOTHING, NOTHING),
        (Op::Jmp, 64, one, NOTHING, NOTHING),
        (Op::Push, 64, MEMORY, NOTHING, NOTHING),
    ] {
        assert_eq!(rt;
            misfit(op, w, first, second, third),
            Some(Misfit::BadOperand)
        );
    }
}

/// A vector register of `w` bits.
fn vector(w: u32) -> Operand {
    Operand::Vec { n: 3, w }
}

fn lanes(op: LaneOp) -> Op {
    Op::Vector(VectorOp::Lanewise(op))
}

fn moving(op: MoveOp) -> Op {
    Op::Vector(VectorOp::Moving(op))
}

#[test]
fn mnemonics_name_shapes_of_vectors(rt: HostRuntime) {
    for (mnemonic, op, w, vex) in [
        (
            b"paddd".as_slice(),
            lanes(LaneOp::Padd(LaneWidth::Doubleword)),
            128,
            false,
        ),
        (
            b"vpaddd".as_slice(),
            lanes(LaneOp::Padd(LaneWidth::Doubleword)),
            0,
            true,
        ),
        (b"andnps".as_slice(), lanes(LaneOp::Pandn), 128, false),
        (b"vxorps".as_slice(), lanes(LaneOp::Pxor), 0, true),
        (
            b"vpmulld".as_slice(),
            lanes(LaneOp::Pmull(LaneWidth::Doubleword)),
            0,
            true,
        ),
        (b"vmovq".as_slice(), moving(MoveOp::Movq), 0, true),
        (b"movq".as_slice(), Op::Mov, 64, false),
        (
            b"vzeroupper".as_slice(),
            Op::Vector(VectorOp::Vzeroupper),
            256,
            true,
        ),
    ] {
        assert_eq!(rt; look_up(mnemonic), Some(Shape { op, w, vex }));
    }
    for mnemonic in [
        b"pmulld".as_slice(),
        b"pshufb".as_slice(),
        b"vpmulq".as_slice(),
        b"zeroupper".as_slice(),
        b"vpermd".as_slice(),
    ] {
        assert_eq!(rt; look_up(mnemonic), None);
    }
}

/// Why this operation on vectors, with VEX, doesn't take the operands: None where it does.
fn misfit_with_vex(op: Op, args: [Operand; 4]) -> Option<Misfit> {
    fits(
        Shape {
            op,
            w: 0,
            vex: true,
        },
        args,
        7,
    )
    .err()
}

#[test]
fn forms_with_vex_tell_their_width(rt: HostRuntime) {
    let add = lanes(LaneOp::Padd(LaneWidth::Byte));
    let (low, whole) = (vector(128), vector(256));
    let one = Operand::Imm(1);
    for (op, args) in [
        (add, [low, low, low, NOTHING]),
        (add, [MEMORY, whole, whole, NOTHING]),
        (add, [POOL, whole, whole, NOTHING]),
        (moving(MoveOp::Inserti128), [one, low, whole, whole]),
        (moving(MoveOp::Extracti128), [one, whole, MEMORY, NOTHING]),
        (moving(MoveOp::Movd), [register(32), low, NOTHING, NOTHING]),
    ] {
        assert_eq!(rt; misfit_with_vex(op, args), None);
    }
    for (op, args) in [
        (add, [low, whole, whole, NOTHING]),
        (add, [low, low, NOTHING, NOTHING]),
        (add, [low, MEMORY, low, NOTHING]),
        (moving(MoveOp::Inserti128), [one, low, low, low]),
        (moving(MoveOp::Movd), [register(64), low, NOTHING, NOTHING]),
        (moving(MoveOp::Permq), [one, low, low, NOTHING]),
    ] {
        assert_eq!(rt; misfit_with_vex(op, args), Some(Misfit::BadOperand));
    }
    let beyond = [Operand::Imm(256), low, low, NOTHING];
    assert_eq!(rt;
        misfit_with_vex(moving(MoveOp::Pshufd), beyond),
        Some(Misfit::BadNumber)
    );
}

#[test]
fn a_quadword_moves_by_its_operands(rt: HostRuntime) {
    let shape = Shape {
        op: Op::Mov,
        w: 64,
        vex: false,
    };
    let args = [register(64), vector(128), NOTHING, NOTHING];
    let moved = insn(moving(MoveOp::Movq), 128, args, 7);
    assert_eq!(rt; fits(shape, args, 7), Ok(moved));
    let args = [register(64), register(64), NOTHING, NOTHING];
    assert_eq!(rt; fits(shape, args, 7), Ok(insn(Op::Mov, 64, args, 7)));
}

#[test]
fn shapes_that_no_mnemonic_names_take_nothing(rt: HostRuntime) {
    let args = [register(8), register(8), NOTHING, NOTHING];
    for (op, w, vex) in [
        (Op::Add, 8, true),
        (Op::Imul, 8, false),
        (Op::Mov, 0, false),
        (lanes(LaneOp::Pabs(LaneWidth::Byte)), 128, false),
        (moving(MoveOp::Movq), 128, false),
    ] {
        assert_eq!(rt;
            fits(Shape { op, w, vex }, args, 7),
            Err(Misfit::BadOperand)
        );
    }
}

#[test]
fn immediates_have_ranges(rt: HostRuntime) {
    for (w, first, last, least, beyond) in [
        (8, 255, 256, 128, 129),
        (16, 65535, 65536, 32768, 32769),
        (32, 4294967295, 4294967296, 2147483648, 2147483649),
        (64, 2147483647, 2147483648, 2147483648, 2147483649),
    ] {
        let target = register(w);
        for (source, wrong) in [
            (Operand::Imm(first), None),
            (Operand::Imm(last), Some(Misfit::BadNumber)),
            (below(least), None),
            (below(beyond), Some(Misfit::BadNumber)),
        ] {
            assert_eq!(rt; misfit(Op::And, w, source, target, NOTHING), wrong);
        }
    }
    let middle = Operand::Imm(9223372036854775808);
    assert_eq!(rt; misfit(Op::Movabs, 64, middle, register(64), NOTHING), None);
    for (count, wrong) in [
        (0, Some(Misfit::BadNumber)),
        (1, None),
        (15, None),
        (16, Some(Misfit::BadNumber)),
    ] {
        assert_eq!(rt;
            misfit(Op::Sar, 16, Operand::Imm(count), MEMORY, NOTHING),
            wrong
        );
    }
}

#[test]
fn what_is_left_out_is_written_out(rt: HostRuntime) {
    let shape = Shape {
        op: Op::Shr,
        w: 8,
        vex: false,
    };
    let args = [Operand::Imm(1), register(8), NOTHING, NOTHING];
    assert_eq!(rt;
        fits(shape, [register(8), NOTHING, NOTHING, NOTHING], 7),
        Ok(insn(Op::Shr, 8, args, 7))
    );
    for (w, widths) in [(16, Some(16)), (32, Some(32)), (64, Some(64)), (8, None)] {
        let op = Op::Cmov(Cond::E);
        let shape = Shape {
            op,
            w: 0,
            vex: false,
        };
        let args = [register(w), register(w), NOTHING, NOTHING];
        assert_eq!(rt; fits(shape, args, 7).ok().map(|i| i.w), widths);
    }
}

/// The function of these statements, or why there is none.
fn built(alloc: Global, statements: &[Statement]) -> Result<Function, BuildError> {
    assemble_function(alloc, b"f", statements)
}

#[test]
fn statements_make_a_closed_function(rt: HostRuntime) -> Result<(), Fail> {
    let eax = register(32);
    let function = built(
        rt.alloc(),
        &[
            Statement::new(b"addl", &[MEMORY, eax]),
            Statement::new(b"jne", &[Operand::Target(0)]),
            Statement::new(b"shrl", &[eax]),
            Statement::new(b"jmp", &[Operand::Target(3)]),
        ],
    )?;
    assert_eq!(rt; function.name.bytes(), b"f".as_slice());
    assert!(rt; function.pool.is_empty());
    assert!(rt; !function.insns.is_empty());
    let wanted = [
        insn(Op::Add, 32, [MEMORY, eax, NOTHING, NOTHING], 1),
        insn(
            Op::Jump(Cond::Ne),
            64,
            [Operand::Target(0), NOTHING, NOTHING, NOTHING],
            2,
        ),
        insn(Op::Shr, 32, [Operand::Imm(1), eax, NOTHING, NOTHING], 3),
        insn(
            Op::Jmp,
            64,
            [Operand::Target(3), NOTHING, NOTHING, NOTHING],
            4,
        ),
    ];
    assert_eq!(rt; function.insns.as_slice(), wanted.as_slice());
    Ok(())
}

#[test]
fn each_fault_is_told(rt: HostRuntime) {
    let ret = Statement::new(b"ret", &[]);
    let out = Statement::new(b"jmp", &[Operand::Target(2)]);
    let wide = Operand::Reg { n: 16, w: 64 };
    let thrice = Operand::Mem {
        base: Some(7),
        index: Some(1),
        scale: 3,
        disp: 0,
    };
    for (first, last, fault) in [
        (
            Statement::new(b"pushl", &[register(32)]),
            ret,
            BuildError::UnknownMnemonic,
        ),
        (
            Statement::new(b"addl", &[MEMORY, POOL]),
            ret,
            BuildError::Unfit(Misfit::BadOperand),
        ),
        (
            Statement::new(b"addb", &[Operand::Imm(256), MEMORY]),
            ret,
            BuildError::Unfit(Misfit::BadNumber),
        ),
        (
            Statement::new(b"pushq", &[wide]),
            ret,
            BuildError::BadRegister,
        ),
        (
            Statement::new(b"incl", &[thrice]),
            ret,
            BuildError::BadRegister,
        ),
        (out, ret, BuildError::TargetOutside),
        (ret, Statement::new(b"nop", &[]), BuildError::FallsOff),
    ] {
        assert_eq!(rt; built(rt.alloc(), &[first, last]).err(), Some(fault));
    }
    assert_eq!(rt; built(rt.alloc(), &[]).err(), Some(BuildError::Empty));
}

#[test]
fn a_builder_goes_on_behind_an_error(rt: HostRuntime) -> Result<(), Fail> {
    let mut builder = FunctionBuilder::new(rt.alloc());
    assert_eq!(rt; builder.push(b"no", &[]), Err(BuildError::UnknownMnemonic));
    assert_eq!(rt;
        builder.push(b"ret", &[NOTHING; 5]),
        Err(BuildError::Unfit(Misfit::BadOperand))
    );
    builder.push(b"ret", &[])?;
    let function = builder.finish(Word::new(rt.alloc(), b"f")?)?;
    assert_eq!(rt; function.insns.len(), 1);
    Ok(())
}

#[test]
fn errors_are_plain_words(rt: HostRuntime) -> Result<(), Fail> {
    let error = BuildError::Unfit(Misfit::BadNumber);
    let text = format!(in rt.alloc(); "{error}")?;
    assert_eq!(rt; text.as_str(), "an immediate or a count is out of range");
    Ok(())
}
