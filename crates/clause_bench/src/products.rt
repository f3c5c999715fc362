//! A duty with many products.
use clause_rows::clauses;
use clauses::Clause;
use duty_trials::Trial;
use node_values::{Node, NodeId};
use std::alloc::{AllocError, Global};

/// How many products the duty has.
const PRODUCTS: u32 = 100;

/// How many clauses were made, and how many literals they have.
#[derive(Clone, Copy)]
pub struct Made {
    pub clauses: u64,
    pub literals: u64,
}

/// Makes the clauses so often; None where memory runs out.
pub fn clauses_of_products(alloc: Global, times: u32) -> Option<Made> {
    let nodes = product_nodes(alloc).ok()?;
    let trial = Trial::of(alloc, nodes.as_slice(), &[]).ok()?;
    let goal = NodeId(u32::try_from(nodes.len()).ok()?.checked_sub(1)?);
    let duty = trial.duty(alloc, &[], goal, &[]).ok()??;
    let mut made = Made {
        clauses: 0,
        literals: 0,
    };
    for _ in 0..times {
        let clauses = clauses(alloc, &duty).ok()?;
        made = counted(clauses.as_slice());
    }
    Some(made)
}

/// The nodes of the products, each of a register and the one before, and that the last is the register.
fn product_nodes(alloc: Global) -> Result<Vec<Node>, AllocError> {
    let mut nodes = Vec::new(alloc);
    nodes.push(Node::Entry { n: 0 })?;
    nodes.push(Node::Entry { n: 1 })?;
    for product in 0..PRODUCTS {
        nodes.push(Node::Mul(NodeId(0), NodeId(product + 1)))?;
    }
    nodes.push(Node::Eq(NodeId(0), NodeId(PRODUCTS + 1)))?;
    Ok(nodes)
}

/// How many clauses and literals there are.
fn counted(clauses: &[Clause]) -> Made {
    let mut literals = 0u64;
    for clause in clauses {
        literals = literals.saturating_add(clause.lits().len() as u64);
    }
    Made {
        clauses: clauses.len() as u64,
        literals,
    }
}
