//! An environment in which a sheet is evaluated.
ghost use Rattle.std.specs.Prelude.{◌≡◌, [], replicate};
ghost use Rattle.lane_views.specs.declared.Bytes32.{Bytes32};

use lane_views::Bytes32;
use node_values::{Both, Env};
use sqlite_items::Items;
use std::alloc::Global;

/// Every register was 1 at the entry, and all else is 0.
pub fn environment(alloc: Global) -> Env
    ensures regs { result.regs ≡ record { left = replicate 16 0; right = replicate 16 0 } }
    ensures entry { result.entry ≡ replicate 16 1 }
    ensures left_vecs { result.vecs.left ≡ replicate 16 (record { bytes = replicate 32 0 }) }
    ensures right_vecs { result.vecs.right ≡ replicate 16 (record { bytes = replicate 32 0 }) }
    ensures left_memory { result.mem.left ≡ [] }
    ensures right_memory { result.mem.right ≡ [] }
    ensures probe { result.probe ≡ 0 }
{
    Env {
        regs: Both {
            left: [0; 16],
            right: [0; 16],
        },
        entry: [1; 16],
        vecs: Both {
            left: [Bytes32 { bytes: [0; 32] }; 16],
            right: [Bytes32 { bytes: [0; 32] }; 16],
        },
        mem: Both {
            left: Items::new(alloc),
            right: Items::new(alloc),
        },
        probe: 0,
    }
}
