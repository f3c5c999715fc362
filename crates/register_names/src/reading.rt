//! Registers by name.
ghost use Rattle.std.specs.Prelude.{◌≡◌};
ghost use Rattle.register_names.specs.Reading.{register_by, register_named, register_number};

use crate::names::names_at;
use text_parts::place_in;

/// The number of the register of `w` bits with this name.
#[tactic(auto, unfolding(crate::specs::Reading::register_number))]
pub fn register_number(w: u32, name: &[u8]) -> Option<u8>
    ensures { result ≡ register_number w name.now }
{
    place_in(names_at(w), name)
}

/// The same, with the width.
fn register_by(w: u32, name: &[u8]) -> Option<(u32, u8)>
    ensures { result ≡ register_by w name.now }
{
    let n = register_number(w, name)?;
    Some((w, n))
}

/// The width and the number of the register with this name.
#[tactic(auto, unfolding(crate::specs::Reading::register_named))]
pub fn register_named(name: &[u8]) -> Option<(u32, u8)>
    ensures { result ≡ register_named name.now }
{
    register_by(64, name)
        .or(register_by(32, name))
        .or(register_by(16, name))
        .or(register_by(8, name))
        .or(register_by(128, name))
        .or(register_by(256, name))
}
