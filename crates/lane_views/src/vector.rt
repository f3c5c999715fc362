//! The bytes of a vector register.
ghost use Rattle.std.specs.Prelude.{◌≡◌, ◌^◌, ◌<◌, length};
ghost use Rattle.lane_views.specs.Lanes.{IsLane, lane, with_lane};

use crate::numbers::put_number;
use crate::view::View;

/// The bytes of a vector register, the lowest first.
#[derive(Clone, Copy, Debug, PartialEq, Eq)]
pub struct Bytes32 {
    pub bytes: [u8; 32],
}

impl Bytes32 {
    /// Lane `i` of `w` bits.
    pub fn lane(&self, w: u32, i: u32) -> u64
        requires { IsLane w i 32 }
        ensures value { result ≡ lane w i self.now.bytes }
        ensures below { result < 2 ^ w }
    {
        self.view().lane(w, i)
    }

    /// Sets lane `i` of `w` bits, and leaves all other bytes.
    pub fn set_lane(&mut self, w: u32, i: u32, v: u64)
        requires lane { IsLane w i 32 }
        requires word { v < 2 ^ w }
        ensures bytes { self.new.bytes ≡ with_lane w i v self.old.bytes }
        ensures whole { length self.new.bytes ≡ 32 }
    {
        let size = w as usize / 8;
        let from = i as usize * size;
        put_number(&mut self.bytes[from..from + size], v);
    }

    /// The view of all its bytes.
    pub fn view(&self) -> View<'_>
        ensures { result ≡ self.now.bytes }
    {
        View::of(&self.bytes)
    }
}
