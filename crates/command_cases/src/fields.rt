//! The fields of a line, and their escapes.
use outcomes::Memory;
use std::alloc::Global;

/// Where an escape stands.
#[derive(Clone, Copy)]
enum Escape {
    /// In none.
    Outside,
    /// Behind a backslash.
    Opened,
    /// In `\#N;`, N line ends, with this number so far.
    Count(u32),
}

/// The bytes that a field spells: `\n`, `\r`, `\s` (a space), `\\`, `\-` (the byte 255, which is no
/// text) and `\#N;`, N line ends. All other bytes spell themselves.
pub(crate) fn spelled(alloc: Global, field: &str) -> Result<Vec<u8>, Memory> {
    let mut bytes = Vec::new(alloc);
    let mut escape = Escape::Outside;
    for byte in field.as_bytes() {
        escape = spell(&mut bytes, escape, *byte)?;
    }
    Ok(bytes)
}

/// Goes over one byte of a field.
fn spell(bytes: &mut Vec<u8>, escape: Escape, byte: u8) -> Result<Escape, Memory> {
    match (escape, byte) {
        (Escape::Outside, b'\\') => return Ok(Escape::Opened),
        (Escape::Outside, _) => bytes.push(byte)?,
        (Escape::Opened, b'#') => return Ok(Escape::Count(0)),
        (Escape::Opened, _) => bytes.push(escaped(byte))?,
        (Escape::Count(count), b'0'..=b'9') => {
            let digit = u32::from(byte - b'0');
            return Ok(Escape::Count(count.saturating_mul(10).saturating_add(digit)));
        }
        (Escape::Count(count), _) => {
            for _ in 0..count {
                bytes.push(b'\n')?;
            }
        }
    }
    Ok(Escape::Outside)
}

/// The byte that an escape of one letter spells.
fn escaped(letter: u8) -> u8 {
    match letter {
        b'n' => b'\n',
        b'r' => b'\r',
        b's' => b' ',
        b'-' => 255,
        other => other,
    }
}
