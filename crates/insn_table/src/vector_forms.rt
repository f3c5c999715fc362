//! Which operands each operation on vectors takes.
ghost use Rattle.std.specs.Prelude.{◌≡◌, [], ◌∷◌};
ghost use Rattle.insn_table.specs.VectorForms.{computed, shifted, taken_from, shuffled, joined, extracted, copied, exchanged, moved_quadword, lane_form, only_wide, only_low, move_forms, forms_at, is_vector_width, vector_forms};

use crate::classes::Class;
use crate::form::{Forms, four, no_operand, three, two};
use insn_ops::{LaneOp, MoveOp, VectorOp};

/// The forms of an operation on vectors of `w` bits, with VEX or without.
pub fn vector_forms(op: VectorOp, vex: bool, w: u32) -> Forms
    ensures { result ≡ vector_forms op vex w }
{
    if is_vector_width(vex, w) {
        forms_at(op, vex, w)
    } else {
        Forms::none()
    }
}

fn is_vector_width(vex: bool, w: u32) -> bool
    ensures { result ≡ is_vector_width vex w }
{
    w == 128 || (vex && w == 256)
}

fn forms_at(op: VectorOp, vex: bool, w: u32) -> Forms
    ensures { result ≡ forms_at op vex w }
{
    match op {
        VectorOp::Lanewise(op) => Forms::one(lane_form(op, vex, w)),
        VectorOp::Moving(op) => move_forms(op, vex, w),
        VectorOp::Pmaddwd | VectorOp::Psadbw | VectorOp::Pshufb => Forms::one(computed(vex, w)),
        VectorOp::Pmovmskb => Forms::one(two(Class::VectorRegister(w), Class::Register(32))),
        VectorOp::Vzeroupper => Forms::one(no_operand()),
    }
}

/// The form of an operation by lane.
fn lane_form(op: LaneOp, vex: bool, w: u32) -> [Class; 4]
    ensures { result ≡ lane_form op vex w }
{
    match op {
        LaneOp::Psll(_) | LaneOp::Psrl(_) | LaneOp::Psra(_) => shifted(vex, w),
        LaneOp::Pabs(_) => taken_from(w, w),
        _ => computed(vex, w),
    }
}

/// The forms of an operation that moves lanes.
fn move_forms(op: MoveOp, vex: bool, w: u32) -> Forms
    ensures { result ≡ move_forms op vex w }
{
    match op {
        MoveOp::Pslldq | MoveOp::Psrldq => Forms::one(shifted(vex, w)),
        MoveOp::Punpckl(_) | MoveOp::Punpckh(_) | MoveOp::Packss(_) | MoveOp::Packuswb => {
            Forms::one(computed(vex, w))
        }
        MoveOp::Pshufd | MoveOp::Pshuflw | MoveOp::Pshufhw => Forms::one(shuffled(w)),
        MoveOp::Movd => only_low(w, exchanged(32)),
        MoveOp::Movq => only_low(w, moved_quadword()),
        MoveOp::Movdqa | MoveOp::Movdqu | MoveOp::Movaps | MoveOp::Movups => copied(w),
        MoveOp::Pbroadcast(_) | MoveOp::Pmovzx(_, _) | MoveOp::Pmovsx(_, _) => {
            Forms::one(taken_from(128, w))
        }
        MoveOp::Extracti128 => only_wide(w, extracted()),
        MoveOp::Inserti128 => only_wide(w, Forms::one(joined(128))),
        MoveOp::Perm2i128 => only_wide(w, Forms::one(joined(256))),
        MoveOp::Permq => only_wide(w, Forms::one(shuffled(256))),
    }
}

/// Forms of vectors of 256 bits alone.
fn only_wide(w: u32, forms: Forms) -> Forms
    ensures { result ≡ only_wide w forms }
{
    if w == 256 { forms } else { Forms::none() }
}

/// Forms of vectors of 128 bits alone.
fn only_low(w: u32, forms: Forms) -> Forms
    ensures { result ≡ only_low w forms }
{
    if w == 128 { forms } else { Forms::none() }
}

/// Two sources: without VEX the destination is the other one.
fn computed(vex: bool, w: u32) -> [Class; 4]
    ensures { result ≡ computed vex w }
{
    let (source, register) = (Class::VectorSource(w), Class::VectorRegister(w));
    if vex {
        three(source, register, register)
    } else {
        two(source, register)
    }
}

/// A shift by an immediate: without VEX of the destination.
fn shifted(vex: bool, w: u32) -> [Class; 4]
    ensures { result ≡ shifted vex w }
{
    let register = Class::VectorRegister(w);
    if vex {
        three(Class::Control, register, register)
    } else {
        two(Class::Control, register)
    }
}

/// One source of `v` bits.
fn taken_from(v: u32, w: u32) -> [Class; 4]
    ensures { result ≡ taken_from v w }
{
    two(Class::VectorSource(v), Class::VectorRegister(w))
}

/// One source, and an immediate that says how it is shuffled.
fn shuffled(w: u32) -> [Class; 4]
    ensures { result ≡ shuffled w }
{
    three(
        Class::Control,
        Class::VectorSource(w),
        Class::VectorRegister(w),
    )
}

/// A source of `v` bits and one of 256, and an immediate that says how they are joined.
fn joined(v: u32) -> [Class; 4]
    ensures { result ≡ joined v }
{
    let register = Class::VectorRegister(256);
    four(Class::Control, Class::VectorSource(v), register, register)
}

/// A half, which an immediate names, to a register or to memory.
fn extracted() -> Forms
    ensures { result ≡ extracted }
{
    let whole = Class::VectorRegister(256);
    Forms::two(
        three(Class::Control, whole, Class::VectorRegister(128)),
        three(Class::Control, whole, Class::Address),
    )
}

/// A copy to a register, or from one to memory.
fn copied(w: u32) -> Forms
    ensures { result ≡ copied w }
{
    Forms::two(
        two(Class::VectorSource(w), Class::VectorRegister(w)),
        two(Class::VectorRegister(w), Class::Address),
    )
}

/// `v` bits between a general register or memory and a vector register.
fn exchanged(v: u32) -> Forms
    ensures { result ≡ exchanged v }
{
    let register = Class::VectorRegister(128);
    Forms::two(
        two(Class::Readable(v), register),
        two(register, Class::Writable(v)),
    )
}

/// The low 64 bits of a vector register, or 64 bits of a general register or of memory.
fn moved_quadword() -> Forms
    ensures { result ≡ moved_quadword }
{
    let register = Class::VectorRegister(128);
    Forms::three(
        two(register, register),
        two(Class::Readable(64), register),
        two(register, Class::Writable(64)),
    )
}
