//! Laws of lanes. The functions do nothing; their contracts are the laws.
ghost use Rattle.std.specs.Prelude.{◌≡◌, ℕ, ◌^◌, ◌<◌, List, length};
ghost use Rattle.lane_views.specs.Lanes.{IsLane, lane, with_lane};

/// A lane that was set has its word.
pub fn set_lanes_are_read_back()
    ensures { (w i v : ℕ) (bs : List ℕ) → IsLane w i (length bs) → v < 2 ^ w → lane w i (with_lane w i v bs) ≡ v }
{}
