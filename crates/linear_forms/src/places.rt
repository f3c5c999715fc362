//! The places at which forms have words.
ghost use Rattle.std.specs.Prelude.{◌≡◌, ℕ, OnOk, IfOk, length, slice_index};
ghost use Rattle.std.specs.List.{AllByRecursion};
ghost use Rattle.node_forms.specs.Sums.{listed_coefficient};
ghost use Rattle.linear_forms.specs.Places.{HasAtoms, IsAmong, word_at};

use indexmap::IndexSet;
use node_forms::Form;
use node_values::NodeId;
use outcomes::Memory;
use std::alloc::Global;

/// A place of a form: one of its atoms, or the constant.
#[derive(Clone, Copy, Debug, PartialEq, Eq, Hash)]
pub enum Place {
    Atom(NodeId),
    Constant,
}

/// What has a form: the form itself, or a form with its weight.
pub trait HasLinearForm {
    ghost use Rattle.node_forms.specs.declared.form.Form.{Form};

    ghost part_form: { Self → Form };

    fn form(&self) -> &Form
        ensures { result.now ≡ part_form self.now };
}

impl HasLinearForm for Form {
    ghost part_form = { λ form. form };

    fn form(&self) -> &Form {
        self
    }
}

impl HasLinearForm for (u64, Form) {
    ghost part_form = { λ part. part.1 };

    fn form(&self) -> &Form {
        let (_, form) = self;
        form
    }
}

/// The places of the target and of the parts.
pub fn places_of<P: HasLinearForm>(
    alloc: Global,
    target: &Form,
    parts: &[P],
) -> Result<IndexSet<Place>, Memory>
    ensures constant { IfOk result (λ places. IsAmong places.keys Place.Constant) }
    ensures target { IfOk result (λ places. HasAtoms places.keys target.now) }
    ensures parts { IfOk result (λ places. AllByRecursion (λ part. HasAtoms places.keys (P.part_form part)) parts.now) }
{
    let mut places = IndexSet::new(alloc);
    places.insert(Place::Constant)?;
    add_atoms(&mut places, target)?;
    for part in parts {
        add_atoms(&mut places, part.form())?;
    }
    Ok(places)
}

/// The word of a form at a place: the coefficient of the atom, or the constant.
pub fn word_of(form: &Form, place: Place) -> u64
    ensures { result ≡ word_at place form.now }
{
    match place {
        Place::Atom(atom) => coefficient(form.atoms.as_slice(), atom),
        Place::Constant => form.c,
    }
}

/// The coefficient of an atom, 0 where it is not listed.
fn coefficient(atoms: &[(NodeId, u64)], atom: NodeId) -> u64
    ensures { result ≡ listed_coefficient atoms.now atom.0 }
{
    for (node, weight) in atoms {
        if atom == *node {
            return *weight;
        }
    }
    0
}

/// Adds the atoms of a form to the places.
fn add_atoms(places: &mut IndexSet<Place>, form: &Form) -> Result<(), Memory>
    ensures kept { OnOk result ((place : Place) → IsAmong places.old.keys place → IsAmong places.new.keys place) }
    ensures atoms { OnOk result (HasAtoms places.new.keys form.now) }
{
    for (atom, _) in form.atoms.as_slice() {
        places.insert(Place::Atom(*atom))?;
    }
    Ok(())
}
