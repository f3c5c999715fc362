//! Bytes, two digits of base 16 each.
ghost use Rattle.std.specs.Prelude.{◌≡◌, ◌/◌, ◌<◌, length, slice_index, true};
ghost use Rattle.std.specs.Char.{is_digit};
ghost use Rattle.std.specs.List.{list_all};
ghost use Rattle.text_parts.specs.Bytes.{decoded, is_hex_text};

use crate::numbers::digit_value;

/// Whether each byte is a digit of base 16.
fn are_hex(text: &[u8]) -> bool
    ensures { result ≡ list_all (λ b. is_digit b 16) text.now }
{
    for byte in text {
        if digit_value(*byte) >= 16 {
            return false;
        }
    }
    true
}

/// Whether it is digits of base 16, an even number of them.
pub fn is_hex_text(text: &[u8]) -> bool
    ensures { result ≡ is_hex_text text.now }
{
    text.len() % 2 == 0 && are_hex(text)
}

/// The byte that the two digits from `2 * i` on spell.
pub fn byte_at(text: &[u8], i: usize) -> u8
    requires hex { is_hex_text text.now ≡ true }
    requires inside { i < length text.now / 2 }
    ensures { result ≡ slice_index (decoded text.now) i }
{
    16 * digit_value(text[2 * i]) + digit_value(text[2 * i + 1])
}
