//! Which instruction a shape and its operands make.
ghost use Rattle.std.specs.Prelude.{◌≡◌, ◌↔◌, ℕ, List, false, length, Option, Some, None, Ok, Err, IfOk, max, slice_get};
ghost use Rattle.std.specs.List.{find, count_by, list_any};
ghost use Rattle.std.specs.Cmp.Lexicographic.{pointwise};
ghost use Rattle.insn_table.specs.Classes.{takes, takes_kind, number_fits, numbers_fit, is_memory};
ghost use Rattle.insn_table.specs.Forms.{is_shift, is_lone, counted_once, completed, register_width, vector_register_width, widest, told_width, width_of, is_quadword_move, is_vector, chosen, insn_with, insn_of, fits_of, found_form, HasForm, HasBadNumber};

use crate::classes::{Class, is_memory, number_fits, takes_kind};
use crate::forms::forms_of;
use crate::insn::{Insn, Operand};
use insn_ops::{MoveOp, Op, VectorOp};
use insn_spellings::{Shape, is_shape};
use thiserror::Error;

/// Why operands make no instruction of a shape.
#[derive(Clone, Copy, Debug, PartialEq, Eq, Error)]
pub enum Misfit {
    /// No mnemonic names the shape, or no form takes these kinds of operands.
    #[error("the instruction takes no such operands")]
    BadOperand,
    /// A form takes these kinds of operands, and an immediate or a count is out of range.
    #[error("an immediate or a count is out of range")]
    BadNumber,
}

/// The instruction that this shape makes with these operands, or why it makes none. A width that was
/// left out, and the count of a shift that has none, are written out in it; `movq` with a vector
/// register is the move of vectors. `line` is kept as it is.
///
/// Which operands an instruction takes, and the ranges of immediates, are in the instruction's section
/// of Intel's SDM, volume 2; that no two operands are in memory is in section 2.1.3, "ModR/M and SIB
/// Bytes".
pub fn fits(shape: Shape, args: [Operand; 4], line: u32) -> Result<Insn, Misfit>
    ensures is { result ≡ fits_of shape args line }
    ensures ok { IfOk result (λ i. i ≡ insn_of shape args line) }

    // No mnemonic names the shape, or no form takes these kinds of operands; and one does, but not these numbers.
    ensures bad_operand { (result ≡ Err Misfit.BadOperand) ↔ (HasForm shape (insn_of shape args line) → ⊥) }
    ensures bad_number { (result ≡ Err Misfit.BadNumber) ↔ HasBadNumber shape (insn_of shape args line) }
{
    let insn = insn_of(shape, args, line);
    match found_form(shape, &insn) {
        None => Err(Misfit::BadOperand),
        Some(form) => {
            if numbers_fit(&form, &insn.args) {
                Ok(insn)
            } else {
                Err(Misfit::BadNumber)
            }
        }
    }
}

/// The instruction of this shape with these operands, whether there is one or not.
fn insn_of(shape: Shape, args: [Operand; 4], line: u32) -> Insn
    ensures { result ≡ insn_of shape args line }
{
    let row = chosen(shape, &args);
    Insn {
        op: row.op,
        w: width(row, &args),
        vex: row.vex,
        args: completed(row.op, args),
        line,
    }
}

/// The shape of the row that the operands choose.
fn chosen(shape: Shape, args: &[Operand; 4]) -> Shape
    ensures { result ≡ chosen shape args.now }
{
    if is_quadword_move(shape.op, shape.w, shape.vex) && has_vector(args) {
        Shape {
            op: Op::Vector(VectorOp::Moving(MoveOp::Movq)),
            w: 128,
            vex: false,
        }
    } else {
        shape
    }
}

fn is_quadword_move(op: Op, w: u32, vex: bool) -> bool
    ensures { result ≡ is_quadword_move op w vex }
{
    match op {
        Op::Mov => !vex && w == 64,
        _ => false,
    }
}

fn has_vector(args: &[Operand]) -> bool
    ensures { result ≡ list_any is_vector args.now }
{
    args.iter().any(|arg| is_vector(*arg))
}

fn is_vector(operand: Operand) -> bool
    ensures { result ≡ is_vector operand }
{
    matches!(operand, Operand::Vec { .. })
}

/// The width of the form.
fn width(shape: Shape, args: &[Operand; 4]) -> u32
    ensures { result ≡ width_of shape args.now }
{
    if shape.w != 0 {
        return shape.w;
    }
    if shape.vex {
        return widest(args);
    }
    match args[1] {
        Operand::Reg { w, .. } => w,
        _ => 0,
    }
}

/// The width of the widest vector register among the operands, 0 where there is none.
fn widest(args: &[Operand]) -> u32
    ensures { result ≡ widest args.now }
{
    match args {
        [] => 0,
        [arg, rest @ ..] => vector_register_width(*arg).max(widest(rest)),
    }
}

fn vector_register_width(operand: Operand) -> u32
    ensures { result ≡ vector_register_width operand }
{
    match operand {
        Operand::Vec { w, .. } => w,
        _ => 0,
    }
}

/// The first form that takes the instruction's kinds of operands, where a mnemonic names the shape.
fn found_form(shape: Shape, insn: &Insn) -> Option<[Class; 4]>
    ensures { result ≡ found_form shape insn.now }
{
    if is_shape(shape) {
        let forms = forms_of(insn.op, insn.vex, insn.w);
        first_form(forms.as_slice(), &insn.args)
    } else {
        None
    }
}

fn is_shift(op: Op) -> bool
    ensures { result ≡ is_shift op }
{
    matches!(op, Op::Shl | Op::Shr | Op::Sar)
}

/// The operands with the count 1 before the lone operand of a shift.
fn completed(op: Op, args: [Operand; 4]) -> [Operand; 4]
    ensures { result ≡ completed op args }
{
    if is_shift(op) && is_lone(&args) {
        counted_once(args)
    } else {
        args
    }
}

/// Whether the operands are a register or memory, and nothing else.
fn is_lone(args: &[Operand]) -> bool
    ensures { result ≡ is_lone args.now }
{
    match args {
        [
            Operand::Reg { .. } | Operand::Mem { .. },
            Operand::Nothing,
            ..
        ] => true,
        _ => false,
    }
}

fn counted_once(args: [Operand; 4]) -> [Operand; 4]
    ensures { result ≡ counted_once args }
{
    [Operand::Imm(1), args[0], args[2], args[3]]
}

/// The first form that takes these kinds of operands.
fn first_form(forms: &[[Class; 4]], args: &[Operand; 4]) -> Option<[Class; 4]>
    ensures { result ≡ find (takes args.now) forms.now }
{
    let mut rest = forms;
    while let [form, after @ ..] = rest {
        if takes(form, args) {
            return Some(*form);
        }
        rest = after;
    }
    None
}

/// Whether the form takes these kinds of operands, of which no two are in memory.
fn takes(form: &[Class; 4], args: &[Operand; 4]) -> bool
    ensures { result ≡ takes args.now form.now }
{
    each_takes(form, args) && memories(args) <= 1
}

fn each_takes(form: &[Class], args: &[Operand]) -> bool
    ensures { result ≡ pointwise takes_kind form.now args.now }
{
    match (form, args) {
        ([], []) => true,
        ([class, classes @ ..], [arg, rest @ ..]) => {
            takes_kind(*class, *arg) && each_takes(classes, rest)
        }
        _ => false,
    }
}

/// How many operands are in memory.
fn memories(args: &[Operand]) -> usize
    ensures { result ≡ count_by is_memory args.now }
{
    let mut count = 0;
    for arg in args {
        if is_memory(*arg) {
            count += 1;
        }
    }
    count
}

/// Whether the numbers of the operands are in the ranges of the form.
fn numbers_fit(form: &[Class], args: &[Operand]) -> bool
    ensures { result ≡ numbers_fit args.now form.now }
{
    match (form, args) {
        ([], []) => true,
        ([class, classes @ ..], [arg, rest @ ..]) => {
            number_fits(*class, *arg) && numbers_fit(classes, rest)
        }
        _ => false,
    }
}
