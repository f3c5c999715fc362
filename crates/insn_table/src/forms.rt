//! Which operands each operation takes.
ghost use Rattle.std.specs.Prelude.{◌≡◌, [], ◌∷◌, if◌then◌else◌};
ghost use Rattle.insn_table.specs.Classes.{two};
ghost use Rattle.insn_table.specs.Forms.{forms, general_forms};
ghost use Rattle.insn_spellings.specs.Widths.{is_wide};
ghost use Rattle.insn_table.specs.declared.classes.Class.TheVariants.{Readable, Register};

use crate::classes::Class;
use crate::form::{Forms, no_operand, one, three, two};
use crate::vector_forms::vector_forms;
use insn_ops::Op;
use insn_spellings::is_wide;

/// The forms of an operation of `w` bits, with VEX or without.
pub fn forms_of(op: Op, vex: bool, w: u32) -> Forms
    ensures { result ≡ forms op vex w }
{
    match op {
        Op::Vector(op) => vector_forms(op, vex, w),
        _ => general_forms(op, w),
    }
}

/// The forms of a general operation of `w` bits.
fn general_forms(op: Op, w: u32) -> Forms
    ensures { result ≡ general_forms op w }
{
    match op {
        Op::Mov | Op::Add | Op::Sub | Op::And | Op::Or | Op::Xor => {
            Forms::one(two(Class::Source(w), Class::Writable(w)))
        }
        Op::Cmp | Op::Test => Forms::one(two(Class::Source(w), Class::Readable(w))),
        Op::Movabs => Forms::one(two(Class::Wide, Class::Register(w))),
        Op::Inc | Op::Dec | Op::Neg | Op::Not | Op::Set(_) => Forms::one(one(Class::Writable(w))),
        Op::Shl | Op::Shr | Op::Sar => Forms::one(two(Class::Count(w), Class::Writable(w))),
        Op::Imul => Forms::three(
            two(Class::Readable(w), Class::Register(w)),
            two(Class::Immediate(w), Class::Register(w)),
            three(Class::Immediate(w), Class::Readable(w), Class::Register(w)),
        ),
        Op::Lea => Forms::one(two(Class::Address, Class::Register(w))),
        Op::Movzx(from) | Op::Movsx(from) => {
            Forms::one(two(Class::Readable(from), Class::Register(w)))
        }
        Op::Cmov(_) => move_by_condition(w),
        Op::Jump(_) | Op::Jmp => Forms::one(one(Class::Label)),
        Op::Push | Op::Pop => Forms::one(one(Class::Register(w))),
        Op::Cltq | Op::Ret | Op::Nop | Op::Endbr64 => Forms::one(no_operand()),
        Op::Vector(_) => Forms::none(),
    }
}

fn move_by_condition(w: u32) -> Forms
    ensures { result ≡ (if is_wide w then two (Readable w) (Register w) ∷ [] else []) }
{
    if is_wide(w) {
        Forms::one(two(Class::Readable(w), Class::Register(w)))
    } else {
        Forms::none()
    }
}
