//! Forms of nodes, each made once for a width.
ghost use Rattle.std.specs.Prelude.{◌≡◌, ◌<◌, ◌≤◌, ◌↔◌, [], IfOk, OnErr, Some, length, slice_get};
ghost use Rattle.node_values.specs.Sheets.{AreWidths, IsSheet, width_at};
ghost use Rattle.form_sums.specs.Made.{AreForms, HasForm, MadeForms};

use indexmap::IndexSet;
use node_forms::{Form, form_of};
use node_values::{Node, NodeId};
use outcomes::Memory;
use std::alloc::Global;
use std::marker::Model;

/// The forms of some nodes at some widths, which are made where they are asked for.
///
/// Contracts see them as the list of forms, and that of their nodes and widths.
#[derive(Drop)]
pub struct Forms {
    keys: IndexSet<(NodeId, u32)>,
    forms: Vec<Form>,
    alloc: Global,
}

impl Model for Forms {
    ghost use Rattle.std.specs.Prelude.{◌≡◌, length};
    ghost use Rattle.form_sums.specs.Made.{MadeForms};

    ghost Value = { MadeForms };

    ghost view = { λ f. record { keys = f.keys.keys; forms = f.forms.items } };

    ghost invariant = { λ f. length f.keys.keys ≡ length f.forms.items };
}

impl Forms {
    /// No forms. It takes no memory.
    pub fn new(alloc: Global) -> Forms
        ensures { result ≡ record { keys = []; forms = [] } }
    {
        Forms {
            keys: IndexSet::new(alloc),
            forms: Vec::new(alloc),
            alloc,
        }
    }

    /// The form in a place.
    pub fn at(&self, place: usize) -> &Form
        requires { place < length self.now.forms }
        ensures { slice_get self.now.forms place ≡ Some result.now }
    {
        &self.forms[place]
    }

    /// The place of the form of a node at `w`, which is at most its width. The form is made where it isn't there.
    pub fn place(
        &mut self,
        nodes: &[Node],
        widths: &[u32],
        w: u32,
        node: NodeId,
    ) -> Result<usize, Memory>
        requires sheet { IsSheet nodes.now }
        requires widths { AreWidths nodes.now widths.now }
        requires width { (0 < w) × (w ≤ width_at nodes.now node.0) }
        requires node { node.0 < length nodes.now }
        requires forms { AreForms nodes.now self.old }
        ensures form { IfOk result (HasForm nodes.now self.new w node.0) }
        ensures forms { AreForms nodes.now self.new }
    {
        let key = (node, w);
        if let Some(place) = self.keys.get_index_of(&key) {
            return Ok(place);
        }
        let form = form_of(self.alloc, nodes, widths, w, node)?;
        let place = self.keys.len();
        self.forms.push(form)?;
        match self.keys.insert(key) {
            Ok(_) => Ok(place),
            Err(_) => {
                self.forms.pop();
                Err(Memory)
            }
        }
    }
}
