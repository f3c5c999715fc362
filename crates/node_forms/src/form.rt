//! Linear forms, gathered from the highest node down.
ghost use Rattle.std.specs.Prelude.{◌≡◌, ℕ, ◌+◌, ◌*◌, ◌%◌, ◌<◌, ◌^◌, ◌≤◌, List, ◌++◌, length, slice_index, IfOk, OnOk};
ghost use Rattle.std.specs.List.{AllByRecursion};
ghost use Rattle.node_forms.specs.Gathering.{AreParts, replaced};
ghost use Rattle.node_forms.specs.Forms.{form_at};
ghost use Rattle.node_forms.specs.Listed.{IsListed, difference_of_forms};
ghost use Rattle.node_forms.specs.Sums.{AreAtoms, AreFalling, AreRising, IsLinear, SameWord, top_of, weighted_sum, with_weight};
ghost use Rattle.node_forms.specs.Linearity.{linearity};
ghost use Rattle.insn_semantics.specs.Words as words;
ghost use Rattle.node_values.specs.Nodes.{AreAlike, AreWordWidths, IsNode};
ghost use Rattle.node_values.specs.Sheets.{AreWidths, IsSheet, node_at, value_at, width_at};
ghost use Rattle.node_values.specs.Values.{Environment};

use crate::linear::{Linear, linearity_of};
use insn_ops::Op;
use node_values::{Node, NodeId};
use outcomes::Memory;
use scalar_ops::scalar;
use sqlite_items::Items;
use std::alloc::Global;

/// A linear form: the sum of the atoms, each times its coefficient, and of `c`, modulo 2^w.
///
/// An atom stands at most once, no coefficient is 0, and the atoms with higher numbers stand first.
#[derive(Debug, Drop)]
pub struct Form {
    pub w: u32,
    pub atoms: Items<(NodeId, u64)>,
    pub c: u64,
}

/// The form of a node at `w`, which is at most its width.
pub fn form_of(
    alloc: Global,
    nodes: &[Node],
    widths: &[u32],
    w: u32,
    at: NodeId,
) -> Result<Form, Memory>
    requires sheet { IsSheet nodes.now }
    requires widths { AreWidths nodes.now widths.now }
    requires width { (0 < w) × (w ≤ width_at nodes.now at.0) }
    requires place { at.0 < length nodes.now }
    ensures form { IfOk result (IsListed (length nodes.now) w (form_at nodes.now w at.0)) }
    ensures value { IfOk result (λ form. (e : Environment)
        → SameWord w (value_at e nodes.now at.0) (weighted_sum (value_at e nodes.now) form.atoms + form.c)) }
{
    let mut pending = Vec::new(alloc);
    pending.push((at, 1))?;
    let form = gather(alloc, nodes, widths, w, pending)?;
    Ok(form)
}

/// The number by which the form of `a` is above that of `b`, modulo 2^w, where the forms of two nodes of
/// `w` bits differ by a constant. None where they differ otherwise.
pub fn constant_difference(
    alloc: Global,
    nodes: &[Node],
    widths: &[u32],
    a: NodeId,
    b: NodeId,
) -> Result<Option<u64>, Memory>
    requires sheet { IsSheet nodes.now }
    requires widths { AreWidths nodes.now widths.now }
    requires alike { AreAlike (width_at nodes.now) (length nodes.now) a.0 b.0 }
    ensures { IfOk result (λ told. told ≡ difference_of_forms nodes.now (width_at nodes.now a.0) a.0 b.0) }
{
    let w = widths[a.0 as usize];
    let mut pending = Vec::new(alloc);
    pending.push((a, 1))?;
    add_weight(&mut pending, w, b, scalar(Op::Sub, w, 0, 1))?;
    let form = gather(alloc, nodes, widths, w, pending)?;
    Ok(if form.atoms.is_empty() {
        Some(form.c)
    } else {
        None
    })
}

/// The form of a weighted sum of nodes at `w`. `pending` has them by rising numbers.
fn gather(
    alloc: Global,
    nodes: &[Node],
    widths: &[u32],
    w: u32,
    mut pending: Vec<(NodeId, u64)>,
) -> Result<Form, Memory>
    requires sheet { IsSheet nodes.now }
    requires widths { AreWidths nodes.now widths.now }
    requires width { (0 < w) × (w ≤ 64) }
    requires parts { AreParts nodes.now w pending.items }
    requires rising { AreRising 0 pending.items }
    ensures width { IfOk result (λ form. form.w ≡ w) }
    ensures falling { IfOk result (λ form. AreFalling (length nodes.now) form.atoms) }
    ensures atoms { IfOk result (λ form. AreAtoms nodes.now w form.atoms) }
    ensures constant { IfOk result (λ form. form.c < 2 ^ w) }
    ensures sum { IfOk result (λ form. (k : ℕ) (f : ℕ → ℕ) → IsLinear nodes.now w k f
        → SameWord w (weighted_sum f form.atoms + k * form.c) (weighted_sum f pending.items)) }
{
    let mut atoms = Vec::new(alloc);
    let mut c = 0;
    while let Some((node, q)) = pending.pop() {
        if q != 0 {
            c = step(nodes, widths, w, node, q, c, &mut pending, &mut atoms)?;
        }
    }
    Ok(Form {
        w,
        atoms: Items::from_vec(atoms),
        c,
    })
}

/// Replaces `q` times a node by what it is made from, and answers the constant after it.
fn step(
    nodes: &[Node],
    widths: &[u32],
    w: u32,
    node: NodeId,
    q: u64,
    c: u64,
    pending: &mut Vec<(NodeId, u64)>,
    atoms: &mut Vec<(NodeId, u64)>,
) -> Result<u64, Memory>
    requires node { IsNode (slice_index widths.now) (length widths.now) (node_at nodes.now node.0) }
    requires place { node.0 < length nodes.now }
    requires widths { AreWordWidths widths.now }
    requires count { length widths.now ≡ length nodes.now }
    requires width { (0 < w) × (w ≤ 64) }
    requires weight { q < 2 ^ w }
    requires constant { c < 2 ^ w }
    requires words { AllByRecursion (λ p. p.1 < 2 ^ w) pending.old.items }
    ensures { IfOk result (λ after.
        replaced w node q (linearity nodes.now (slice_index widths.now) w (node_at nodes.now node.0))
        (record { pending = pending.old.items; atoms = atoms.old.items; constant = c })
        ≡ record { pending = pending.new.items; atoms = atoms.new.items; constant = after }) }
{
    match linearity_of(nodes, widths, w, nodes[node.0 as usize]) {
        Linear::Atom => atoms.push((node, q))?,
        Linear::Number(v) => return Ok(scalar(Op::Add, w, c, times(w, q, v))),
        Linear::Times(a, v) => add_weight(pending, w, a, times(w, q, v))?,
        Linear::Plus(a, b) => {
            add_weight(pending, w, a, q)?;
            add_weight(pending, w, b, q)?;
        }
        Linear::Minus(a, b) => {
            add_weight(pending, w, a, q)?;
            add_weight(pending, w, b, scalar(Op::Sub, w, 0, q))?;
        }
    }
    Ok(c)
}

/// A product modulo 2^w.
fn times(w: u32, q: u64, v: u64) -> u64
    requires width { (0 < w) × (w ≤ 64) }
    requires weight { q < 2 ^ w }
    ensures value { result ≡ words.times w q (v % 2 ^ w) }
    ensures below { result < 2 ^ w }
{
    scalar(Op::Imul, w, q, scalar(Op::Lea, w, 0, v))
}

/// Adds `q` to the coefficient of a node.
fn add_weight(pending: &mut Vec<(NodeId, u64)>, w: u32, a: NodeId, q: u64) -> Result<(), Memory>
    requires width { (0 < w) × (w ≤ 64) }
    requires weight { q < 2 ^ w }
    requires words { AllByRecursion (λ p. p.1 < 2 ^ w) pending.old.items }
    ensures { OnOk result (pending.new.items ≡ with_weight w a q pending.old.items) }
{
    let number = a.0;
    for at in 0..pending.len() {
        let (node, weight) = pending[at];
        let other = node.0;
        if a == node {
            pending[at] = (node, scalar(Op::Add, w, weight, q));
            return Ok(());
        }
        if number < other {
            pending.insert(at, (a, q))?;
            return Ok(());
        }
    }
    pending.push((a, q))?;
    Ok(())
}
