//! Trees and whole certificates, written.
ghost use Rattle.std.specs.Prelude.{◌≡◌, ◌++◌, OnOk, IfOk};
ghost use Rattle.certificate_file.specs.Texts.{certificate_text, nodes_text, trees_text};
ghost use Rattle.certificate_file.specs.Trees.{tree_text};

use crate::certificate::Certificate;
use crate::writing::{Written, push_number};
use crate::written_lines::{push_lines, push_nodes, push_split};
use outcomes::Memory;
use product_automaton::PNode;
use refutations::Tree;
use std::alloc::{AllocError, Global};

/// Appends a tree.
fn push_tree(out: &mut Vec<u8>, tree: &Tree) -> Result<(), AllocError>
    ensures { OnOk result (out.new.items ≡ out.old.items ++ tree_text tree.now) }
{
    match tree {
        Tree::Leaf(shown) => {
            out.extend_from_slice(b"leaf ")?;
            push_lines(out, shown.steps.as_slice())
        }
        Tree::Split {
            i,
            j,
            rels,
            proof,
            kids,
        } => {
            push_split(out, *i, *j, rels.as_slice(), proof.steps.as_slice())?;
            for kid in kids.as_slice() {
                push_tree(out, kid)?;
            }
            Ok(())
        }
    }
}

impl Written for Tree {
    ghost text_of = { tree_text };

    fn write(&self, out: &mut Vec<u8>) -> Result<(), AllocError> {
        push_tree(out, self)
    }
}

/// Appends the nodes of a product, behind their count.
fn push_counted_nodes(out: &mut Vec<u8>, nodes: &[PNode]) -> Result<(), AllocError>
    ensures { OnOk result (out.new.items ≡ out.old.items ++ nodes_text nodes.now) }
{
    push_number(out, nodes.len() as u64, b'\n')?;
    push_nodes(out, nodes)
}

/// Appends the trees, behind their count, and the last line.
fn push_duties(out: &mut Vec<u8>, trees: &[Tree]) -> Result<(), AllocError>
    ensures { OnOk result (out.new.items ≡ out.old.items ++ trees_text trees.now) }
{
    out.extend_from_slice(b"duties ")?;
    push_lines(out, trees)?;
    out.extend_from_slice(b"end\n")
}

/// The text of a certificate.
pub fn write_certificate(alloc: Global, certificate: &Certificate) -> Result<Vec<u8>, Memory>
    ensures { IfOk result (λ text. text.items ≡ certificate_text certificate.now) }
{
    let product = &certificate.product;
    let mut out = Vec::new(alloc);
    out.extend_from_slice(b"align-certificate 1\nnodes ")?;
    push_counted_nodes(&mut out, product.nodes.as_slice())?;
    out.extend_from_slice(b"edges ")?;
    push_lines(&mut out, product.edges.as_slice())?;
    push_duties(&mut out, certificate.trees.as_slice())?;
    Ok(out)
}
