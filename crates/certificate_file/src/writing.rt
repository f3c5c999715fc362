//! Writing a certificate.
ghost use Rattle.std.specs.Prelude.{◌≡◌, ◌++◌, ◌∷◌, [], ◌<◌, OnOk, decimal, length, get_or};
ghost use Rattle.std.specs.Fmt.{signed_decimal};
ghost use Rattle.certificate_file.specs.Numbers.{integer_text, number_text};
ghost use Rattle.text_codes.specs.Lists.{line_of, texts_of};
ghost use Rattle.certificate_file.specs.Products as products;

use insn_ops::Side;
use itoa::Buffer;
use product_automaton::{Atom, Bound1};
use register_names::register_name;
use std::alloc::AllocError;

/// Appends a number and the byte that ends it.
pub(crate) fn push_number(out: &mut Vec<u8>, n: u64, end: u8) -> Result<(), AllocError>
    ensures { OnOk result (out.new.items ≡ out.old.items ++ number_text end n) }
{
    let mut buffer = Buffer::new();
    out.extend_from_slice(buffer.format(n).as_bytes())?;
    out.push(end)?;
    Ok(())
}

/// Appends a signed number and the byte that ends it.
pub(crate) fn push_integer(out: &mut Vec<u8>, n: i64, end: u8) -> Result<(), AllocError>
    ensures { OnOk result (out.new.items ≡ out.old.items ++ integer_text end n) }
{
    let mut buffer = Buffer::new();
    out.extend_from_slice(buffer.format(n).as_bytes())?;
    out.push(end)?;
    Ok(())
}

/// Appends the letter of a side.
fn push_side(out: &mut Vec<u8>, side: Side) -> Result<(), AllocError>
    ensures { OnOk result (out.new.items ≡ out.old.items ++ products.side_text side) }
{
    out.push(match side {
        Side::Left => b'l',
        Side::Right => b'r',
    })?;
    Ok(())
}

/// Appends the name of a register, where it has one, and the byte that ends it.
fn push_register(out: &mut Vec<u8>, n: u8, end: u8) -> Result<(), AllocError>
    ensures { OnOk result (out.new.items ≡ out.old.items ++ (products.register n ++ end ∷ [])) }
{
    if let Some(name) = register_name(64, n) {
        out.extend_from_slice(name.as_bytes())?;
    }
    out.push(end)?;
    Ok(())
}

/// Appends an atom and the byte that ends it.
pub(crate) fn push_atom(out: &mut Vec<u8>, atom: Atom, end: u8) -> Result<(), AllocError>
    ensures { OnOk result (out.new.items ≡ out.old.items ++ products.atom_text end atom) }
{
    match atom {
        Atom::Reg(side, n) => {
            push_side(out, side)?;
            out.extend_from_slice(b".")?;
            push_register(out, n, end)
        }
        Atom::Entry(n) => {
            out.extend_from_slice(b"e.")?;
            push_register(out, n, end)
        }
        Atom::Lane(side, v, lane) => {
            push_side(out, side)?;
            out.extend_from_slice(b".y")?;
            push_number(out, u64::from(v), b'.')?;
            push_number(out, u64::from(lane), end)
        }
    }
}

/// Appends a side of a comparison and the byte that ends it.
pub(crate) fn push_bound(out: &mut Vec<u8>, bound: Bound1, end: u8) -> Result<(), AllocError>
    ensures { OnOk result (out.new.items ≡ out.old.items ++ products.bound_text end bound) }
{
    match bound {
        Bound1::Of(atom) => push_atom(out, atom, end),
        Bound1::Num(n) => {
            out.extend_from_slice(b"#")?;
            push_number(out, n, end)
        }
    }
}

/// What has a text of its own that is written.
pub(crate) trait Written {
    ghost use Rattle.std.specs.Prelude.{ℕ, List};

    /// Its text.
    ghost text_of: { Self → List ℕ };

    /// Appends its text.
    fn write(&self, out: &mut Vec<u8>) -> Result<(), AllocError>
        ensures { OnOk result (out.new.items ≡ out.old.items ++ text_of self.now) };
}

/// What has a text with the byte that ends it.
pub(crate) trait WrittenEnded {
    ghost use Rattle.std.specs.Prelude.{ℕ, List};

    /// Its text with this byte behind it.
    ghost text_of: { ℕ → Self → List ℕ };

    /// Appends its text with this byte behind it.
    fn write(&self, out: &mut Vec<u8>, end: u8) -> Result<(), AllocError>
        ensures { OnOk result (out.new.items ≡ out.old.items ++ text_of end self.now) };
}

/// Appends values, one behind another.
#[tactic(auto, unfolding(text_codes::specs::Lists::texts_of))]
pub(crate) fn push_all<T: Written>(out: &mut Vec<u8>, values: &[T]) -> Result<(), AllocError>
    ensures { OnOk result (out.new.items ≡ out.old.items ++ texts_of T.text_of values.now) }
{
    let mut rest = values;
    while let [first, after @ ..] = rest {
        first.write(out)?;
        rest = after;
    }
    Ok(())
}

/// Appends values up to the end of a line.
#[tactic(auto, unfolding(text_codes::specs::Lists::line_of))]
pub(crate) fn push_line<T: WrittenEnded>(out: &mut Vec<u8>, values: &[T]) -> Result<(), AllocError>
    ensures { OnOk result (out.new.items ≡ out.old.items ++ line_of T.text_of values.now) }
{
    let mut rest = values;
    while let [first, after @ ..] = rest {
        first.write(out, if after.is_empty() { b'\n' } else { b' ' })?;
        rest = after;
    }
    Ok(())
}
