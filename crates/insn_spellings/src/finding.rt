//! Finds a mnemonic among rows.
ghost use Rattle.std.specs.Prelude.{◌≡◌, map};
ghost use Rattle.insn_spellings.specs.Rows.{named};

use crate::shape::Shape;
use insn_ops::Op;

/// The shape of the first of these rows with this mnemonic. A row is a mnemonic, its operation and the
/// width of its form in bits; `vex` says whether the forms are VEX ones.
pub fn find(rows: &[(&str, Op, u32)], vex: bool, mnemonic: &[u8]) -> Option<Shape>
    ensures { result ≡ named (map (λ row. (row.0.now, record { op = row.1; w = row.2; vex = vex })) rows.now) mnemonic.now }
{
    let mut rest = rows;
    while let [row, after @ ..] = rest {
        if row.0.as_bytes() == mnemonic {
            return Some(Shape {
                op: row.1,
                w: row.2,
                vex,
            });
        }
        rest = after;
    }
    None
}
