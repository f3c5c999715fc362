//! Reads the instructions of a function's body.
ghost use Rattle.std.specs.Prelude.{◌≡◌, ◌⊎◌, map, take, OnOk, IfErr, vec_len};
ghost use Rattle.std.specs.List.{count_by};
ghost use Rattle.outcomes.specs.Answering.{Gives};
ghost use Rattle.text_lines.specs.Kinds.{out_of_memory, refusal};
ghost use Rattle.text_lines.specs.Views.{seen};
ghost use Rattle.att_bodies.specs.Body.{is_code};
ghost use Rattle.att_bodies.specs.Labelled.{labelled};
ghost use Rattle.att_bodies.specs.Reading.{target_of};
ghost use Rattle.att_reader.specs.Reading.{told, listed, single, insn_on, item_in, body_in, Grows};

use att_bodies::{BodyLabels, is_data, is_directive};
use att_statements::statement;
use insn_table::{Insn, Insns};
use std::alloc::Global;
use text_lines::{Item, ReadKind, ReadRefusal, saturated};

/// The most instructions that a function may have.
const INSN_LIMIT: usize = 4096;

/// The refusal at this line.
pub(crate) fn refused(line: usize, kind: ReadKind) -> ReadRefusal
    ensures { result ≡ refusal line kind }
{
    ReadRefusal {
        line: saturated(line),
        kind,
    }
}

/// The instruction of a statement on this line, where `count` others stand before it.
fn read_insn(
    text: &[u8],
    line: usize,
    count: usize,
    labels: &BodyLabels<'_, '_>,
) -> Result<Insn, ReadRefusal>
    ensures { single result ≡ told (insn_on (target_of (labelled labels.now)) count line text.now) }
{
    match statement(text, saturated(line), labels) {
        Ok(insn) => {
            if count < INSN_LIMIT {
                Ok(insn)
            } else {
                Err(refused(line, ReadKind::TooManyInsns))
            }
        }
        Err(kind) => Err(refused(line, kind)),
    }
}

/// What the item at this place of a body gives, where `count` instructions stand before it.
#[tactic(auto, unfolding(crate::specs::Reading::item_in))]
fn read_item(
    item: &Item<'_>,
    place: usize,
    count: usize,
    labels: &BodyLabels<'_, '_>,
) -> Result<Option<Insn>, ReadRefusal>
    requires { count ≡ count_by is_code (take place (labelled labels.now)) }
    ensures { listed result ≡ told (item_in (labelled labels.now) (take place (labelled labels.now)) (seen item.now)) }
{
    match item {
        Item::Label { name, line } => {
            if labels.stands_before(name, place) {
                Err(refused(*line, ReadKind::TwiceLabel))
            } else {
                Ok(None)
            }
        }
        Item::Statement { text, line } => {
            if !is_directive(text) {
                let insn = read_insn(text, *line, count, labels)?;
                return Ok(Some(insn));
            }
            if is_data(text) {
                Err(refused(*line, ReadKind::DataInBody))
            } else {
                Ok(None)
            }
        }
    }
}

/// Puts what the item at this place gives behind the instructions before it.
fn read_next(
    insns: &mut Vec<Insn>,
    item: &Item<'_>,
    place: usize,
    labels: &BodyLabels<'_, '_>,
) -> Result<(), ReadRefusal>
    requires { vec_len insns.old ≡ count_by is_code (take place (labelled labels.now)) }
    ensures grows { OnOk result (Grows (item_in (labelled labels.now) (take place (labelled labels.now)) (seen item.now))
        insns.old.items insns.new.items) }
    ensures stops { IfErr result (λ e. (e ≡ out_of_memory)
        ⊎ (told (item_in (labelled labels.now) (take place (labelled labels.now)) (seen item.now)) ≡ Err e)) }
{
    if let Some(insn) = read_item(item, place, insns.len(), labels)? {
        insns.push(insn)?;
    }
    Ok(())
}

/// The instructions of a body, or its first fault.
pub(crate) fn read_body(alloc: Global, body: &[Item<'_>]) -> Result<Insns, ReadRefusal>
    ensures { Gives out_of_memory result (told (body_in (map seen body.now))) }
{
    let labels = BodyLabels::of(alloc, body)?;
    let mut insns = Vec::new(alloc);
    for place in 0..body.len() {
        read_next(&mut insns, &body[place], place, &labels)?;
    }
    Ok(Insns::from_vec(insns))
}
