//! Reads single operands.
ghost use Rattle.std.specs.Prelude.{◌≡◌, ◌||◌, false, [], ◌∷◌, is_some};
ghost use Rattle.std.specs.Option.{option_map};
ghost use Rattle.att_statements.specs.Statements.{word_of, greatest_written};
ghost use Rattle.insn_ops.specs.declared.op.Op.{Op};
ghost use Rattle.att_statements.specs.ReadingStatements.{is_beyond, no_part, immediate_part, part_of, part_in, gathered};
ghost use Rattle.text_parts.specs.Cuts.{after_byte};
ghost use Rattle.text_parts.specs.Numbers.{capped, digits_of};
ghost use Rattle.att_statements.specs.ReadingOperands.{number_of, label_of, dollar_by, bare_by, written_of};

use crate::cuts::parenthesised;
use crate::memory::memory_of;
use crate::numbers::number_of;
use crate::part::{Operands, Part};
use crate::registers::operand_named;
use insn_table::{Op, Operand};
use text_lines::{Labels, is_name, trim};
use text_parts::{after_byte, capped_digits};

/// An operand with nothing wrong in it.
fn plain(operand: Operand) -> Part
    ensures { result ≡ record { operand = operand; beyond = false; lost = false } }
{
    Part {
        operand,
        beyond: false,
        lost: false,
    }
}

/// No operand.
pub(crate) fn no_part() -> Part
    ensures { result ≡ no_part }
{
    plain(Operand::Nothing)
}

/// The word of 64 bits that holds a number, modulo 2^64, and 0 for a number that none holds.
fn word_of(negative: bool, amount: u128) -> u64
    ensures { result ≡ word_of negative amount }
{
    if negative {
        if amount <= 1 << 63 {
            (amount as u64).wrapping_neg()
        } else {
            0
        }
    } else if amount < 1 << 64 {
        amount as u64
    } else {
        0
    }
}

/// The greatest number that is written as an immediate.
fn greatest_written(op: Op) -> u64
    ensures { result ≡ greatest_written op }
{
    match op {
        Op::Movabs => u64::MAX,
        _ => i64::MAX as u64,
    }
}

/// Whether a number is out of the range of immediates.
fn is_beyond(op: Op, negative: bool, amount: u128) -> bool
    ensures { result ≡ is_beyond op negative amount }
{
    if negative {
        amount > 1 << 63
    } else {
        amount > u128::from(greatest_written(op))
    }
}

/// An immediate.
fn number_part(op: Op, negative: bool, amount: u128) -> Part
    ensures { result ≡ immediate_part op negative amount }
{
    Part {
        operand: Operand::Imm(word_of(negative, amount)),
        beyond: is_beyond(op, negative, amount),
        lost: false,
    }
}

/// A label, if the text is a name.
fn label_part<L: Labels>(text: &[u8], labels: &L) -> Option<Part>
    ensures { (op : Op) → result ≡ option_map (part_of (L.target labels.now) op) (label_of text.now) }
{
    if !is_name(text) {
        return None;
    }
    let target = labels.target(text);
    Some(Part {
        operand: Operand::Target(target.unwrap_or(0)),
        beyond: false,
        lost: target.is_none(),
    })
}

/// An immediate, or a label whose name begins with `$`. A decimal number with leading zeros is neither.
fn dollar_part<L: Labels>(number: &[u8], text: &[u8], op: Op, labels: &L) -> Option<Part>
    ensures { result ≡ option_map (part_of (L.target labels.now) op)
        (dollar_by (number_of number.now) (is_some (capped (digits_of 10 number.now))) text.now) }
{
    if let Some((negative, amount)) = number_of(number) {
        return Some(number_part(op, negative, amount));
    }
    if capped_digits(10, number).is_some() {
        return None;
    }
    label_part(text, labels)
}

/// An operand without parentheses.
fn bare_part<L: Labels>(text: &[u8], op: Op, labels: &L) -> Option<Part>
    ensures { result ≡ option_map (part_of (L.target labels.now) op)
        (bare_by (after_byte 36 text.now) (after_byte 37 text.now) text.now) }
{
    if let Some(number) = after_byte(text, b'$') {
        return dollar_part(number, text, op, labels);
    }
    if let Some(name) = after_byte(text, b'%') {
        let operand = operand_named(name)?;
        return Some(plain(operand));
    }
    label_part(text, labels)
}

/// The operand that stands in a text, with blanks around it.
#[tactic(auto, unfolding(crate::specs::ReadingStatements::part_in, crate::specs::ReadingOperands::written_of))]
pub(crate) fn part_in<L: Labels>(text: &[u8], op: Op, labels: &L) -> Option<Part>
    ensures { result ≡ part_in (L.target labels.now) op text.now }
{
    let trimmed = trim(text);
    if let Some((before, inside)) = parenthesised(trimmed) {
        let operand = memory_of(before, inside)?;
        return Some(plain(operand));
    }
    bare_part(trimmed, op, labels)
}

/// Whether one of them is so.
fn is_one(first: bool, second: bool, third: bool, fourth: bool) -> bool
    ensures { result ≡ (first || (second || (third || (fourth || false)))) }
{
    if first {
        return true;
    }
    if second {
        return true;
    }
    if third {
        return true;
    }
    if fourth {
        return true;
    }
    false
}

/// The operands of a statement.
pub(crate) fn gathered(first: Part, second: Part, third: Part, fourth: Part) -> Operands
    ensures { result ≡ gathered (first ∷ second ∷ third ∷ fourth ∷ []) }
{
    Operands {
        args: [first.operand, second.operand, third.operand, fourth.operand],
        beyond: is_one(first.beyond, second.beyond, third.beyond, fourth.beyond),
        lost: is_one(first.lost, second.lost, third.lost, fourth.lost),
    }
}
