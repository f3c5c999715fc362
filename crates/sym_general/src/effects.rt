//! What an operation does to each flag.
ghost use Rattle.std.specs.Prelude.{◌≡◌, ℕ};
ghost use Rattle.insn_semantics.specs.FlagRules.{carry_rule, overflow_rule, result_rule};
ghost use Rattle.insn_semantics.specs.Exprs.{Expr};
ghost use Rattle.sym_rows.specs.FlagExprs.{flag_rule};
ghost use Rattle.sym_general.specs.Applied.{flag_by};
ghost use Rattle.sym_general.specs.Applied as applied;
ghost use Rattle.sym_general.specs.PathFlags as flags;
ghost use Rattle.sym_general.specs.Effects.{effect_of};

use crate::conditions::flag_of;
use insn_ops::Op;
use sym_rows::lazy_flags::SymFlag;
use sym_rows::operands::Flag;

/// What becomes of a flag.
#[derive(Clone, Copy, Debug, PartialEq, Eq)]
pub enum Effect {
    Keeps,
    Unsets,
    Sets,
}

/// What an operation does to the carry flag.
fn carry_effect(op: Op) -> Effect
    ensures { (w k : ℕ) → result ≡ effect_of (carry_rule op w k) }
{
    match op {
        Op::Add
        | Op::Sub
        | Op::Cmp
        | Op::Neg
        | Op::Test
        | Op::And
        | Op::Or
        | Op::Xor
        | Op::Shl
        | Op::Shr
        | Op::Sar => Effect::Sets,
        Op::Imul => Effect::Unsets,
        _ => Effect::Keeps,
    }
}

/// What an operation, a shift by k, does to the overflow flag.
fn overflow_effect(op: Op, k: u32) -> Effect
    ensures { (w : ℕ) → result ≡ effect_of (overflow_rule op w k) }
{
    match op {
        Op::Add
        | Op::Inc
        | Op::Sub
        | Op::Cmp
        | Op::Dec
        | Op::Neg
        | Op::Test
        | Op::And
        | Op::Or
        | Op::Xor => Effect::Sets,
        Op::Shl | Op::Shr | Op::Sar if k == 1 => Effect::Sets,
        Op::Shl | Op::Shr | Op::Sar | Op::Imul => Effect::Unsets,
        _ => Effect::Keeps,
    }
}

/// What an operation does to the zero, the sign and the parity flag.
fn result_effect(op: Op) -> Effect
    ensures { (x : Expr) → result ≡ effect_of (result_rule op x) }
{
    match op {
        Op::Add
        | Op::Sub
        | Op::Cmp
        | Op::Inc
        | Op::Dec
        | Op::Neg
        | Op::Test
        | Op::And
        | Op::Or
        | Op::Xor
        | Op::Shl
        | Op::Shr
        | Op::Sar => Effect::Sets,
        Op::Imul => Effect::Unsets,
        _ => Effect::Keeps,
    }
}

/// What an operation, a shift by k, does to a flag.
fn flag_effect(which: Flag, op: Op, k: u32) -> Effect
    ensures { (w : ℕ) → result ≡ effect_of (flag_rule which op w k) }
{
    match which {
        Flag::Carry => carry_effect(op),
        Flag::Parity | Flag::Zero | Flag::Sign => result_effect(op),
        Flag::Overflow => overflow_effect(op, k),
    }
}

/// A flag after an operation, a shift by k.
fn flag_after(which: Flag, op: Op, k: u32, before: SymFlag, new: SymFlag) -> SymFlag
    ensures { (w : ℕ) → result ≡ flag_by (flag_rule which op w k) before new }
{
    match flag_effect(which, op, k) {
        Effect::Keeps => before,
        Effect::Unsets => SymFlag::Unset,
        Effect::Sets => new,
    }
}

/// The five flags after an operation, a shift by k.
pub fn flags_after(op: Op, k: u32, before: [SymFlag; 5], new: SymFlag) -> [SymFlag; 5]
    ensures { (w : ℕ) → result ≡ applied.flags_by op w k before new }
{
    let carry = flag_after(Flag::Carry, op, k, flag_of(&before, 0), new);
    let parity = flag_after(Flag::Parity, op, k, flag_of(&before, 1), new);
    let zero = flag_after(Flag::Zero, op, k, flag_of(&before, 2), new);
    let sign = flag_after(Flag::Sign, op, k, flag_of(&before, 3), new);
    let overflow = flag_after(Flag::Overflow, op, k, flag_of(&before, 4), new);
    [carry, parity, zero, sign, overflow]
}
