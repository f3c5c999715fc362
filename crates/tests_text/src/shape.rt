//! Objects by the names of their members.
ghost use Rattle.std.specs.Prelude.{◌≡◌, length, map, option_map};
ghost use Rattle.serde_json.specs.View.{members_view, view};
ghost use Rattle.register_names.specs.Names.{register_names};
ghost use Rattle.tests_text.specs.Shapes as shapes;

use register_names::register_number;
use serde_json::{Map, Value};
use text_parts::place_in;

/// What an object is of: the whole file, a test, a test's registers or vectors, or a piece of memory.
#[derive(Clone, Copy, Debug, PartialEq, Eq)]
pub enum Kind {
    File,
    Test,
    Registers,
    Vectors,
    Piece,
}

/// 0 to 15 in decimal.
pub(crate) fn numerals() -> &'static [&'static str]
    ensures all { map (λ name. name.now) result.now ≡ shapes.numerals }
    ensures sixteen { length result.now ≡ 16 }
{
    &[
        "0", "1", "2", "3", "4", "5", "6", "7", "8", "9", "10", "11", "12", "13", "14", "15",
    ]
}

// Whether it names a general register of 64 bits.
fn is_register(name: &[u8]) -> bool
    ensures { result ≡ shapes.is_among (register_names 64) name.now }
{
    register_number(64, name).is_some()
}

// Whether it is a number from 0 to 15.
fn is_numeral(name: &[u8]) -> bool
    ensures { result ≡ shapes.is_among shapes.numerals name.now }
{
    place_in(numerals(), name).is_some()
}

// Whether a member of an object of this kind may have the name.
fn is_named(kind: Kind, name: &[u8]) -> bool
    ensures { result ≡ shapes.is_among (shapes.names kind) name.now }
{
    match kind {
        Kind::File => matches!(name, b"tests"),
        Kind::Test => matches!(name, b"regs" | b"ymm" | b"mem"),
        Kind::Registers => is_register(name),
        Kind::Vectors => is_numeral(name),
        Kind::Piece => matches!(name, b"at" | b"hex"),
    }
}

// Whether each member has a name of its kind.
fn are_named(kind: Kind, members: &Map<String, Value>) -> bool
    ensures { result ≡ shapes.are_named (shapes.names kind) (members_view members.now.entries) }
{
    for (name, _member) in members.iter() {
        if !is_named(kind, name.as_str().as_bytes()) {
            return false;
        }
    }
    true
}

/// Whether it is an object whose members are among those of its kind.
pub fn is_object(kind: Kind, value: &Value) -> bool
    ensures { result ≡ shapes.is_object kind (view value.now) }
{
    match value.as_object() {
        Some(members) => are_named(kind, members),
        None => false,
    }
}

/// The member of this name, where there are both the object and the member.
pub fn member_of<'v>(found: Option<&'v Value>, name: &str) -> Option<&'v Value>
    ensures { option_map (λ v. view v.now) result ≡ shapes.member_of (option_map (λ v. view v.now) found.entry) name.now }
{
    found?.get(name)
}
