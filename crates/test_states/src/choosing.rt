//! Whether regions are too large, and which named byte lies in none.
ghost use Rattle.std.specs.Prelude.{◌≡◌, ◌+◌, ◌-◌, ◌≤◌, nat_le, nat_lt, None, sum_by};
ghost use Rattle.std.specs.List.{list_any};
ghost use Rattle.memory_spans.specs.declared.region.Region.{Region};
ghost use Rattle.test_states.specs.Choosing as choosing;

use memory_spans::Region;

// How many bytes regions and the declared stack bytes may have together.
const MOST_BYTES: u64 = 65536;

/// Whether regions, each counted for itself, and the declared stack bytes are more than 65,536 bytes.
pub fn is_large(regions: &[Region], stack: u64) -> bool
    requires { stack ≤ 65536 }
    ensures { result ≡ nat_lt 65536 (sum_by (λ (r : Region). r.len) regions.now + stack) }
{
    let mut room = MOST_BYTES - stack;
    for region in regions {
        if region.len > room {
            return true;
        }
        room -= region.len;
    }
    false
}

// Whether the address is one of a region.
fn is_inside(regions: &[Region], at: u64) -> bool
    ensures { result ≡ list_any (choosing.region_has at) regions.now }
{
    regions.iter().any(|region| region.base <= at && at - region.base < region.len)
}

/// The least of the addresses that are named and lie in no region.
pub fn least_outside(regions: &[Region], named: &[(u64, u8)]) -> Option<u64>
    ensures { result ≡ choosing.least_outside regions.now None named.now }
{
    let mut found: Option<u64> = None;
    for (at, _byte) in named {
        if !is_inside(regions, *at) {
            found = Some(match found {
                None => *at,
                Some(least) => least.min(*at),
            });
        }
    }
    found
}
