//! Why reading ends with no value.

use std::alloc::AllocError;

/// Why no value was read.
#[derive(Clone, Copy, Debug)]
pub enum Stop<'t> {
    /// Out of memory.
    Memory,
    /// What is left of the text from the first wrong byte on: nothing where the text is too short.
    At(&'t [u8]),
}

impl From<AllocError> for Stop<'_> {
    ghost use Rattle.std.specs.Prelude.{◌≡◌};
    ghost use Rattle.text_codes.specs.declared.stop.Stop.TheVariants as stops;

    ghost from_gives = { λ _ stop. stop ≡ stops.Memory };

    fn from(_error: AllocError) -> Self {
        Stop::Memory
    }
}

impl<'t> From<&'t [u8]> for Stop<'t> {
    ghost use Rattle.std.specs.Prelude.{◌≡◌};
    ghost use Rattle.text_codes.specs.declared.stop.Stop.TheVariants.{At};

    ghost from_gives = { λ left stop. stop ≡ At left };

    fn from(left: &'t [u8]) -> Self {
        Stop::At(left)
    }
}
