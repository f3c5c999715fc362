//! Where the labels of a body lead.
ghost use Rattle.std.specs.Prelude.{◌≡◌, ℕ, true, false, List, [], map, take, IsTrue, OnOk, IfOk, IfErr, bytes_eq, if◌then◌else◌};
ghost use Rattle.std.specs.List.{list_any, count_by};
ghost use Rattle.std.specs.Option.{option_or};
ghost use Rattle.std.specs.BTreeMap.{get_by};
ghost use Rattle.std.specs.Ordering.{nat_cmp};
ghost use Rattle.std.specs.Cmp.Lexicographic.{slice_cmp};
ghost use Rattle.text_lines.specs.Views.{seen};
ghost use Rattle.text_lines.specs.Kinds.{out_of_memory};
ghost use Rattle.att_bodies.specs.Body.{is_label, is_code};
ghost use Rattle.att_bodies.specs.Firsts.{first_from, AreDistinct};

use crate::body::{count_of, is_label};
use std::alloc::Global;
use std::collections::BTreeMap;
use text_lines::{Item, Labels, ReadRefusal, saturated};

/// The first label of a name: its place among the items of the body, and how many instructions stand
/// before it.
#[derive(Clone, Copy, Debug)]
pub struct First {
    pub item: usize,
    pub insns: usize,
}

/// The labels of a body. Among its first items, as many as `distinct` says, no name stands twice.
#[derive(Drop)]
pub struct BodyLabels<'i, 't> {
    body: &'i [Item<'t>],
    firsts: BTreeMap<&'t [u8], First>,
    insns: usize,
    distinct: usize,
    ghost kept: { (name : List ℕ) → get_by (λ key. slice_cmp nat_cmp name key.now) firsts
        ≡ first_from 0 0 (map seen body.now) name },
    ghost counted: { insns ≡ count_by is_code (map seen body.now) },
    ghost once: { AreDistinct distinct (map seen body.now) },
}

/// Puts the first label of a name into a map, unless it has one: whether it had none.
fn add_first<'t>(
    firsts: &mut BTreeMap<&'t [u8], First>,
    name: &'t [u8],
    first: First,
) -> Result<bool, ReadRefusal>
    ensures added { OnOk result ((other : List ℕ) → get_by (λ key. slice_cmp nat_cmp other key.now) firsts.new
        ≡ option_or (get_by (λ key. slice_cmp nat_cmp other key.now) firsts.old)
        (if bytes_eq name.now other then Some first else None)) }
    ensures new { IfOk result (λ new. IsTrue new
        → get_by (λ key. slice_cmp nat_cmp name.now key.now) firsts.old ≡ None) }
    ensures memory { IfErr result (λ e. e ≡ out_of_memory) }
{
    // One look-up, where the name is new.
    match firsts.insert(name, first)? {
        None => Ok(true),
        Some(earlier) => {
            firsts.insert(name, earlier)?;
            Ok(false)
        }
    }
}

/// Puts the label of an item into a map as the first of its name, unless the map has one: whether the
/// item is no label whose name the map had.
fn add_item<'t>(
    firsts: &mut BTreeMap<&'t [u8], First>,
    item: &Item<'t>,
    first: First,
) -> Result<bool, ReadRefusal>
    ensures added { OnOk result ((name : List ℕ) → get_by (λ key. slice_cmp nat_cmp name key.now) firsts.new
        ≡ option_or (get_by (λ key. slice_cmp nat_cmp name key.now) firsts.old)
        (if is_label name (seen item.now) then Some first else None)) }
    ensures new { IfOk result (λ new. IsTrue new → (name : List ℕ) → is_label name (seen item.now) ≡ true
        → get_by (λ key. slice_cmp nat_cmp name key.now) firsts.old ≡ None) }
    ensures memory { IfErr result (λ e. e ≡ out_of_memory) }
{
    match item {
        Item::Label { name, .. } => add_first(firsts, name, first),
        Item::Statement { .. } => Ok(true),
    }
}

impl<'i, 't> BodyLabels<'i, 't> {
    ghost use Rattle.att_bodies.specs.Labelled.{labelled};

    /// The labels of this body.
    pub fn of(alloc: Global, body: &'i [Item<'t>]) -> Result<BodyLabels<'i, 't>, ReadRefusal>
        ensures of { IfOk result (λ labels. labelled labels ≡ map seen body.now) }
        ensures memory { IfErr result (λ e. e ≡ out_of_memory) }
    {
        let mut firsts = BTreeMap::new(alloc);
        let mut insns = 0;
        let mut distinct = 0;
        for place in 0..body.len() {
            let item = &body[place];
            let new = add_item(&mut firsts, item, First { item: place, insns })?;
            if new && distinct == place {
                distinct = place + 1;
            }
            insns += count_of(item);
        }
        Ok(BodyLabels {
            body,
            firsts,
            insns,
            distinct,
        })
    }

    /// Whether the label of this name at this place is known to be the first, with no look-up.
    fn is_known_first(&self, name: &[u8], place: usize) -> bool
        ensures { IsTrue result → list_any (is_label name.now) (take place (labelled self.now)) ≡ false }
    {
        match self.body.get(place) {
            Some(item) => place < self.distinct && is_label(name, item),
            None => false,
        }
    }

    /// Whether a label of this name stands before this place of the body.
    pub fn stands_before(&self, name: &[u8], place: usize) -> bool
        ensures { result ≡ list_any (is_label name.now) (take place (labelled self.now)) }
    {
        if self.is_known_first(name, place) {
            return false;
        }
        match self.firsts.get(name) {
            Some(first) => first.item < place,
            None => false,
        }
    }
}

impl Labels for BodyLabels<'_, '_> {
    ghost use Rattle.att_bodies.specs.Labelled.{labelled};
    ghost use Rattle.att_bodies.specs.Reading.{target_of};

    ghost target = { λ labels name. target_of (labelled labels) name };

    fn target(&self, name: &[u8]) -> Option<u32> {
        let first = self.firsts.get(name)?;
        if first.insns < self.insns {
            Some(saturated(first.insns))
        } else {
            None
        }
    }
}
