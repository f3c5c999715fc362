//! Reads statements.
ghost use Rattle.std.specs.Prelude.{◌≡◌, ◌==◌, length};
ghost use Rattle.std.specs.List.{list_all, list_any};
ghost use Rattle.std.specs.Option.{option_map};
ghost use Rattle.insn_table.specs.Forms.{fits_of};
ghost use Rattle.text_lines.specs.Bytes.{is_blank};
ghost use Rattle.att_statements.specs.ReadingOperands.{parts_left, is_pool_part};
ghost use Rattle.att_statements.specs.ReadingStatements.{is_repeated_return, shown_of, operands_of, next_part, four_in, answered_by, insn_with, statement_of};

use crate::cuts::{are_none, cut_part};
use crate::memory::is_pool_part;
use crate::operand::{gathered, no_part, part_in};
use crate::part::{Operands, Part};
use insn_table::{Insn, Misfit, Op, Shape, fits, look_up};
use text_lines::{Labels, ReadKind, is_blank, split_word, trim};

/// Whether the statement is `rep` and then `ret` alone.
#[tactic(auto, unfolding(crate::specs::ReadingStatements::is_repeated_return))]
fn is_repeated_return(text: &[u8]) -> bool
    ensures { result ≡ is_repeated_return text.now }
{
    let (word, rest) = split_word(text);
    word == b"rep".as_slice() && trim(rest) == b"ret".as_slice()
}

/// What the statement is read as: `ret` for `rep ret`, and itself else.
#[tactic(auto, unfolding(crate::specs::ReadingStatements::shown_of))]
fn shown_of(text: &[u8]) -> &[u8]
    ensures { result.now ≡ shown_of text.now }
{
    if is_repeated_return(text) {
        b"ret"
    } else {
        text
    }
}

/// Whether each byte is a blank.
fn are_blank(text: &[u8]) -> bool
    ensures { result ≡ list_all is_blank text.now }
{
    let mut rest = text;
    while let [byte, after @ ..] = rest {
        if !is_blank(*byte) {
            return false;
        }
        rest = after;
    }
    true
}

/// The operands behind a mnemonic, if there are any.
#[tactic(auto, unfolding(crate::specs::ReadingStatements::operands_of))]
fn operands_of(text: &[u8]) -> Option<&[u8]>
    ensures { parts_left (option_map (λ t. t.now) result) ≡ operands_of text.now }
{
    if are_blank(text) { None } else { Some(text) }
}

/// Whether an operand is a symbol and `(%rip)`.
fn has_pool_part(operands: Option<&[u8]>) -> bool
    ensures { result ≡ list_any is_pool_part (parts_left (option_map (λ t. t.now) operands.entry)) }
{
    let mut rest = operands;
    while let Some(text) = rest {
        let (part, more) = cut_part(text);
        if is_pool_part(part) {
            return true;
        }
        rest = more;
    }
    false
}

/// The first operand, or none where there is none, and what follows it.
#[tactic(auto, unfolding(crate::specs::ReadingStatements::next_part))]
fn next_part<'t, L: Labels>(
    operands: Option<&'t [u8]>,
    op: Op,
    labels: &L,
) -> Option<(Part, Option<&'t [u8]>)>
    ensures { option_map (λ next. (next.0, parts_left (option_map (λ t. t.now) next.1))) result
        ≡ next_part (L.target labels.now) op (parts_left (option_map (λ t. t.now) operands.entry)) }
{
    let Some(text) = operands else {
        return Some((no_part(), None));
    };
    let (first, rest) = cut_part(text);
    let part = part_in(first, op, labels)?;
    Some((part, rest))
}

/// The operands of a statement, at most four.
#[tactic(auto, unfolding(crate::specs::ReadingStatements::four_in))]
fn four_in<L: Labels>(operands: Option<&[u8]>, op: Op, labels: &L) -> Option<Operands>
    ensures { result ≡ four_in (L.target labels.now) op (parts_left (option_map (λ t. t.now) operands.entry)) }
{
    let (first, rest) = next_part(operands, op, labels)?;
    let (second, rest) = next_part(rest, op, labels)?;
    let (third, rest) = next_part(rest, op, labels)?;
    let (fourth, rest) = next_part(rest, op, labels)?;
    if are_none(rest) {
        Some(gathered(first, second, third, fourth))
    } else {
        None
    }
}

/// The instruction that the table makes of these operands, or why it is none.
fn judged(shape: Shape, operands: Operands, line: u32) -> Result<Insn, ReadKind>
    ensures { result ≡ answered_by operands (fits_of shape operands.args line) }
{
    match fits(shape, operands.args, line) {
        Err(Misfit::BadOperand) => Err(ReadKind::BadOperand),
        Err(Misfit::BadNumber) => Err(ReadKind::BadNumber),
        Ok(insn) => {
            if operands.beyond {
                Err(ReadKind::BadNumber)
            } else if operands.lost {
                Err(ReadKind::UnknownLabel)
            } else {
                Ok(insn)
            }
        }
    }
}

/// The instruction of this shape with these operands.
#[tactic(auto, unfolding(crate::specs::ReadingStatements::insn_with))]
fn insn_with<L: Labels>(
    operands: Option<&[u8]>,
    shape: Shape,
    line: u32,
    labels: &L,
) -> Result<Insn, ReadKind>
    ensures { result
        ≡ insn_with (L.target labels.now) shape (parts_left (option_map (λ t. t.now) operands.entry)) line }
{
    if has_pool_part(operands) {
        return Err(ReadKind::PoolRefused);
    }
    match four_in(operands, shape.op, labels) {
        Some(read) => judged(shape, read, line),
        None => Err(ReadKind::BadOperand),
    }
}

/// The instruction of a statement, which has no blanks at its ends and is no directive, on this line of
/// a text; or the first kind of fault that it has. Labels lead to the places that `labels` says.
#[tactic(auto, unfolding(crate::specs::ReadingStatements::statement_of))]
pub fn statement<L: Labels>(text: &[u8], line: u32, labels: &L) -> Result<Insn, ReadKind>
    ensures { result ≡ statement_of (L.target labels.now) text.now line }
{
    let (mnemonic, rest) = split_word(shown_of(text));
    match look_up(mnemonic) {
        Some(shape) => insn_with(operands_of(rest), shape, line, labels),
        None => Err(ReadKind::UnknownInstruction),
    }
}
