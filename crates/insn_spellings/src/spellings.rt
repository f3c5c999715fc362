//! The mnemonics of the instruction table and what they name: one row each, in byte order, as in
//! `specs/Spellings`.
ghost use Rattle.std.specs.Prelude.{◌≡◌, ℕ, List, true, Some, slice_get};
ghost use Rattle.insn_spellings.specs.Rows.{Row, named, in_order, IsRowOf};
ghost use Rattle.insn_spellings.specs.Spellings.{last_rows, table_rows};
ghost use Rattle.insn_spellings.specs.Widths.{is_shape};
ghost use Rattle.insn_spellings.specs.declared.shape.Shape.{Shape};

use crate::legacy_rows::{
    add_to_cltq, cmova_to_cmovnc, cmovne_to_cmovz, cmp_to_lea, mov_to_or, packss_to_pop,
    por_to_sar, set_rows, shl_to_test, xor_rows,
};
use crate::shape::Shape;
use crate::vex_rows::{vand_to_vpbroadcast, vpcmp_to_vpmul, vpor_to_vzeroupper};

/// The shape that this mnemonic names: None where it names no instruction.
#[tactic(auto, using(crate::proofs::Rows::found), unfolding(crate::specs::Spellings::table_rows))]
pub fn look_up(mnemonic: &[u8]) -> Option<Shape>
    ensures { result ≡ named table_rows mnemonic.now }
{
    if let Some(shape) = add_to_cltq(mnemonic) {
        return Some(shape);
    }
    if let Some(shape) = cmova_to_cmovnc(mnemonic) {
        return Some(shape);
    }
    if let Some(shape) = cmovne_to_cmovz(mnemonic) {
        return Some(shape);
    }
    if let Some(shape) = cmp_to_lea(mnemonic) {
        return Some(shape);
    }
    if let Some(shape) = mov_to_or(mnemonic) {
        return Some(shape);
    }
    if let Some(shape) = packss_to_pop(mnemonic) {
        return Some(shape);
    }
    if let Some(shape) = por_to_sar(mnemonic) {
        return Some(shape);
    }
    if let Some(shape) = set_rows(mnemonic) {
        return Some(shape);
    }
    if let Some(shape) = shl_to_test(mnemonic) {
        return Some(shape);
    }
    look_up_last(mnemonic)
}

/// The same of the rows with VEX and of those of `xor`.
#[tactic(auto, using(crate::proofs::Rows::found))]
fn look_up_last(mnemonic: &[u8]) -> Option<Shape>
    ensures { result ≡ named last_rows mnemonic.now }
{
    if let Some(shape) = vand_to_vpbroadcast(mnemonic) {
        return Some(shape);
    }
    if let Some(shape) = vpcmp_to_vpmul(mnemonic) {
        return Some(shape);
    }
    if let Some(shape) = vpor_to_vzeroupper(mnemonic) {
        return Some(shape);
    }
    xor_rows(mnemonic)
}

/// A law: the mnemonics of the rows rise strictly in byte order, so no mnemonic stands twice.
#[tactic(auto, using(crate::proofs::Rows::once))]
pub fn mnemonics_stand_once()
    ensures in_order { in_order table_rows ≡ true }
    ensures once { (i j : ℕ) (row other : Row) → slice_get table_rows i ≡ Some row
        → slice_get table_rows j ≡ Some other → row.0 ≡ other.0 → i ≡ j }
{}

/// A law: the mnemonic of each row names the row's shape, and only those mnemonics name anything.
#[tactic(auto, using(crate::proofs::Rows::naming))]
pub fn rows_are_named()
    ensures named { (k : ℕ) (row : Row) → slice_get table_rows k ≡ Some row
        → named table_rows row.0 ≡ Some row.1 }
    ensures row { (mnemonic : List ℕ) (shape : Shape) → named table_rows mnemonic ≡ Some shape
        → IsRowOf table_rows mnemonic shape }
{}

/// A law: the shape of each row has an operation, a width and lanes that the operations have.
#[tactic(auto, using(crate::proofs::Shapes::shapes))]
pub fn rows_have_shapes()
    ensures { (mnemonic : List ℕ) (shape : Shape) → named table_rows mnemonic ≡ Some shape
        → is_shape shape ≡ true }
{}
