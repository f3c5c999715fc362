//! Views of bytes.
ghost use Rattle.std.specs.Prelude.{◌≡◌, ◌^◌, ◌<◌, ◌≤◌, length, slice_range};
ghost use Rattle.lane_views.specs.Lanes.{IsLane, lane};

use crate::numbers::number;
use std::marker::Model;

/// Bytes that are elsewhere, seen as a list of them.
#[derive(Drop)]
pub struct View<'a> {
    bytes: &'a [u8],
}

impl<'a> Model for View<'a> {
    ghost use Rattle.std.specs.Prelude.{ℕ, List};

    ghost Value = { List ℕ };

    ghost view = { λ v. v.bytes.now };
}

impl<'a> View<'a> {
    /// The view of these bytes.
    pub fn of(bytes: &'a [u8]) -> View<'a>
        ensures { result ≡ bytes.now }
    {
        View { bytes }
    }

    /// How many bytes it sees.
    pub fn len(&self) -> usize
        ensures { result ≡ length self.now }
    {
        self.bytes.len()
    }

    /// Lane `i` of `w` bits.
    pub fn lane(&self, w: u32, i: u32) -> u64
        requires { IsLane w i (length self.now) }
        ensures value { result ≡ lane w i self.now }
        ensures below { result < 2 ^ w }
    {
        let size = w as usize / 8;
        let from = i as usize * size;
        number(&self.bytes[from..from + size])
    }

    /// The view of the bytes at the places from `from` on, below `to`.
    pub fn part(&self, from: usize, to: usize) -> View<'a>
        requires { (from ≤ to) × (to ≤ length self.now) }
        ensures { result ≡ slice_range self.now from to }
    {
        View {
            bytes: &self.bytes[from..to],
        }
    }
}
