//! Memory operands and symbols of a pool.
ghost use Rattle.std.specs.Prelude.{◌≡◌};
ghost use Rattle.text_lines.specs.Bytes.{is_name_byte};
ghost use Rattle.text_lines.specs.Words.{prefix_of, behind_prefix};
ghost use Rattle.att_statements.specs.ReadingOperands.{small_integer, displacement_in, address_register, base_of, index_of, scale_of, address_in, parts_from, memory_of, is_offset, is_symbol, is_pool_part};

use crate::cuts::{are_none, cut_part, parenthesised};
use crate::numbers::number_of;
use insn_table::Operand;
use register_names::register_number;
use text_lines::{is_name, is_name_byte, trim};
use text_parts::{after_byte, capped_decimal};

/// The number of rsp, which is no index (Intel SDM volume 2, 2.1.5).
const STACK_POINTER: u8 = 4;

/// An integer from -2^31 to 2^31 - 1.
fn small_integer(number: (bool, u128)) -> Option<i32>
    ensures { result ≡ small_integer number }
{
    let (negative, amount) = number;
    if negative {
        if amount <= 1 << 31 {
            Some((-(amount as i64)) as i32)
        } else {
            None
        }
    } else if amount < 1 << 31 {
        Some(amount as i32)
    } else {
        None
    }
}

/// A displacement, which may be left out.
#[tactic(auto, unfolding(crate::specs::ReadingOperands::displacement_in))]
fn displacement_in(text: &[u8]) -> Option<i32>
    ensures { result ≡ displacement_in text.now }
{
    if text.is_empty() {
        return Some(0);
    }
    let number = number_of(text)?;
    small_integer(number)
}

/// A 64-bit register, with blanks around it.
#[tactic(auto, unfolding(crate::specs::ReadingOperands::address_register))]
fn address_register(part: &[u8]) -> Option<u8>
    ensures { result ≡ address_register part.now }
{
    let name = after_byte(trim(part), b'%')?;
    register_number(64, name)
}

/// A base, which may be left out.
#[tactic(auto, unfolding(crate::specs::ReadingOperands::base_of))]
fn base_of(part: &[u8]) -> Option<Option<u8>>
    ensures { result ≡ base_of part.now }
{
    if trim(part).is_empty() {
        return Some(None);
    }
    let n = address_register(part)?;
    Some(Some(n))
}

/// An index.
#[tactic(auto, unfolding(crate::specs::ReadingOperands::index_of))]
fn index_of(part: &[u8]) -> Option<Option<u8>>
    ensures { result ≡ index_of part.now }
{
    let n = address_register(part)?;
    if n == STACK_POINTER {
        None
    } else {
        Some(Some(n))
    }
}

/// A scale, with blanks around it.
#[tactic(auto, unfolding(crate::specs::ReadingOperands::scale_of))]
fn scale_of(part: &[u8]) -> Option<u8>
    ensures { result ≡ scale_of part.now }
{
    match trim(part) {
        [b'1'] => Some(1),
        [b'2'] => Some(2),
        [b'4'] => Some(4),
        [b'8'] => Some(8),
        _ => None,
    }
}

/// Base, index and scale, as they stand inside parentheses.
#[tactic(auto, unfolding(crate::specs::ReadingOperands::address_in))]
fn address_in(inside: &[u8]) -> Option<(Option<u8>, Option<u8>, u8)>
    ensures { result ≡ address_in (parts_from 0 inside.now) }
{
    let (base, rest) = cut_part(inside);
    let Some(rest) = rest else {
        let n = address_register(base)?;
        return Some((Some(n), None, 1));
    };
    let (index, rest) = cut_part(rest);
    let Some(rest) = rest else {
        let b = base_of(base)?;
        let i = index_of(index)?;
        return Some((b, i, 1));
    };
    let (scale, rest) = cut_part(rest);
    if !are_none(rest) {
        return None;
    }
    let b = base_of(base)?;
    let i = index_of(index)?;
    let s = scale_of(scale)?;
    Some((b, i, s))
}

/// Memory, by what stands before and inside its parentheses.
#[tactic(auto, unfolding(crate::specs::ReadingOperands::memory_of))]
pub(crate) fn memory_of(before: &[u8], inside: &[u8]) -> Option<Operand>
    ensures { result ≡ memory_of before.now inside.now }
{
    let disp = displacement_in(before)?;
    let (base, index, scale) = address_in(inside)?;
    Some(Operand::Mem {
        base,
        index,
        scale,
        disp,
    })
}

/// The longest prefix of bytes that may stand in a name, and what follows it.
fn split_name(text: &[u8]) -> (&[u8], &[u8])
    ensures name { result.0.now ≡ prefix_of is_name_byte text.now }
    ensures rest { result.1.now ≡ behind_prefix is_name_byte text.now }
{
    let mut end = 0;
    while end < text.len() {
        if is_name_byte(text[end]) {
            end += 1;
        } else {
            return (&text[..end], &text[end..]);
        }
    }
    (&text[..end], &text[end..])
}

/// Whether it may follow the name of a symbol: nothing, or a sign and a decimal number.
fn is_offset(text: &[u8]) -> bool
    ensures { result ≡ is_offset text.now }
{
    match text {
        [] => true,
        [b'+' | b'-', digits @ ..] => capped_decimal(digits).is_some(),
        _ => false,
    }
}

/// Whether it is a symbol.
#[tactic(auto, unfolding(crate::specs::ReadingOperands::is_symbol))]
fn is_symbol(text: &[u8]) -> bool
    ensures { result ≡ is_symbol text.now }
{
    let (name, rest) = split_name(text);
    is_name(name) && is_offset(rest)
}

/// Whether the part is a symbol and `(%rip)`, with blanks around.
#[tactic(auto, unfolding(crate::specs::ReadingOperands::is_pool_part))]
pub(crate) fn is_pool_part(part: &[u8]) -> bool
    ensures { result ≡ is_pool_part part.now }
{
    match parenthesised(trim(part)) {
        Some((symbol, inside)) => is_symbol(symbol) && trim(inside) == b"%rip".as_slice(),
        None => false,
    }
}
