//! The variables of a duty's nodes.
ghost use Rattle.std.specs.Prelude.{◌≡◌, ℕ, ◌<◌, ◌≤◌, true, IfOk, length, map};
ghost use Rattle.std.specs.List.{range_with_len};
ghost use Rattle.node_reach.specs.Reached.{is_marked as is_marked_in};
ghost use Rattle.node_values.specs.Sheets.{width_at};
ghost use Rattle.duty_claims.specs.Whole.{IsWhole};
ghost use Rattle.clause_rows.specs.Numbering.{AreReachWidths, HaveRowRoom, IsNumberingOf, first_variable, variable_count as variables_of};
ghost use Rattle.clause_rows.specs.Reach.{is_in_reach, needed_pairs as pairs_needed};

use crate::reach::{is_marked, needed_pairs, reach_of};
use duty_claims::{Duty, StartPair};
use node_rows::helper_count;
use outcomes::Memory;
use std::alloc::Global;
use terms::NodeId;

/// The variables of the nodes of a duty's reach: lists by number of node, up to the last of the reach.
#[derive(Drop)]
pub struct Numbering {
    /// Whether a node is in the reach.
    pub reach: Vec<bool>,
    /// The variable of its lowest bit. A node outside the reach has none: it has the number of the next that has.
    pub firsts: Vec<u32>,
    /// How many bits it has; 1 where it is outside the reach.
    pub widths: Vec<u32>,
}

/// Numbers the variables of a duty.
pub fn number_variables(alloc: Global, duty: &Duty) -> Result<Numbering, Memory>
    requires { IsWhole duty.now }
    ensures { IfOk result (IsNumberingOf duty.now) }
{
    let pairs = needed_pairs(alloc, duty)?;
    let numbering = numbering_with(alloc, duty, pairs.as_slice())?;
    Ok(numbering)
}

/// The numbering of a duty whose needed pairs these are.
pub(crate) fn numbering_with(
    alloc: Global,
    duty: &Duty,
    pairs: &[StartPair],
) -> Result<Numbering, Memory>
    requires whole { IsWhole duty.now }
    requires pairs { pairs.now ≡ pairs_needed duty.now }
    ensures numbering { IfOk result (IsNumberingOf duty.now) }
    ensures room { IfOk result (λ numbering. HaveRowRoom numbering.firsts.items) }
{
    let reach = reach_of(alloc, duty, pairs)?;
    let widths = reach_widths(alloc, duty, reach.as_slice())?;
    let firsts = first_variables(alloc, duty, reach.as_slice(), widths.as_slice())?;
    Ok(Numbering {
        reach,
        firsts,
        widths,
    })
}

/// The widths of the nodes of a duty's reach, 1 for others.
fn reach_widths(alloc: Global, duty: &Duty, reach: &[bool]) -> Result<Vec<u32>, Memory>
    requires whole { IsWhole duty.now }
    requires reach { (k : ℕ) → is_marked_in reach.now k ≡ is_in_reach duty.now k }
    ensures { IfOk result (λ widths. AreReachWidths duty.now reach.now widths.items) }
{
    duty.sheet.in_order();
    let mut widths = Vec::new(alloc);
    for i in 0..reach.len() {
        widths.push(reach_width(duty, reach, i))?;
    }
    Ok(widths)
}

/// The width of node `i`, 1 where it is outside the reach.
fn reach_width(duty: &Duty, reach: &[bool], i: usize) -> u32
    requires whole { IsWhole duty.now }
    requires reach { (k : ℕ) → is_marked_in reach.now k ≡ is_in_reach duty.now k }
    ensures value { is_marked_in reach.now i ≡ true → result ≡ width_at duty.now.sheet.now i }
    ensures range { (0 < result) × (result ≤ 64) }
{
    duty.sheet.in_order();
    if is_marked(reach, i) {
        duty.sheet.width(NodeId(i as u32))
    } else {
        1
    }
}

/// The variable of the lowest bit of each node, up to the last of a duty's reach.
fn first_variables(
    alloc: Global,
    duty: &Duty,
    reach: &[bool],
    widths: &[u32],
) -> Result<Vec<u32>, Memory>
    requires whole { IsWhole duty.now }
    requires reach { (k : ℕ) → is_marked_in reach.now k ≡ is_in_reach duty.now k }
    requires widths { AreReachWidths duty.now reach.now widths.now }
    ensures value { IfOk result (λ firsts. firsts.items
        ≡ map (first_variable duty.now) (range_with_len 0 (length reach.now))) }
    ensures room { IfOk result (λ firsts. HaveRowRoom firsts.items) }
{
    duty.sheet.in_order();
    let mut firsts = Vec::new(alloc);
    let mut next = 1;
    for i in 0..reach.len() {
        firsts.push(next)?;
        next += variable_count(duty, reach, widths, i);
    }
    Ok(firsts)
}

/// How many variables node `i` has.
fn variable_count(duty: &Duty, reach: &[bool], widths: &[u32], i: usize) -> u32
    requires whole { IsWhole duty.now }
    requires reach { (k : ℕ) → is_marked_in reach.now k ≡ is_in_reach duty.now k }
    requires widths { AreReachWidths duty.now reach.now widths.now }
    requires place { i < length reach.now }
    ensures value { result ≡ variables_of duty.now i }
    ensures few { result ≤ 12416 }
    ensures outside { 65536 ≤ i → result ≡ 0 }
{
    duty.sheet.in_order();
    if !is_marked(reach, i) {
        return 0;
    }
    let node = duty.sheet.node(NodeId(i as u32));
    widths[i] + helper_count(node, widths)
}
