//! Numbers and bytes that are written.
ghost use Rattle.std.specs.Prelude.{◌≡◌, ◌++◌, OnOk, decimal, string_bytes};
ghost use Rattle.text_parts.specs.Bytes.{byte_text, bytes_text};
ghost use Rattle.text_parts.specs.Numbers.{value_text};

use std::alloc::AllocError;

/// Appends a number in decimal.
pub fn push_decimal(out: &mut String, number: u64) -> Result<(), AllocError>
    ensures { OnOk result (string_bytes out.new ≡ string_bytes out.old ++ decimal number) }
{
    write!(out, "{number}")
}

/// Appends a value or an address: `0x` and digits of base 16.
#[tactic(auto, unfolding(crate::specs::Numbers::value_text))]
pub fn push_value(out: &mut String, value: u64) -> Result<(), AllocError>
    ensures { OnOk result (string_bytes out.new ≡ string_bytes out.old ++ value_text value) }
{
    write!(out, "0x{value:x}")
}

/// Appends a byte.
pub fn push_byte(out: &mut String, byte: u8) -> Result<(), AllocError>
    ensures { OnOk result (string_bytes out.new ≡ string_bytes out.old ++ byte_text byte) }
{
    write!(out, "{byte:02x}")
}

/// Appends bytes, one after another.
pub fn push_bytes(out: &mut String, bytes: &[u8]) -> Result<(), AllocError>
    ensures { OnOk result (string_bytes out.new ≡ string_bytes out.old ++ bytes_text bytes.now) }
{
    for byte in bytes {
        push_byte(out, *byte)?;
    }
    Ok(())
}
