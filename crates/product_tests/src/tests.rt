//! The numbers of small products, and of chains.

use product_automaton::{PEdge, PNode, Product, compose};
use sqlite_items::Items;
use std::alloc::Global;
use std::test::Fail;

/// A node with these places and this left rank.
fn node(alloc: Global, left: u32, right: u32, rank: u32) -> PNode {
    PNode {
        left,
        right,
        invs: Items::new(alloc),
        rank_left: rank,
        rank_right: 0,
    }
}

/// An edge with these paths.
fn edge(alloc: Global, from: u32, to: u32, left: &[u32], right: &[u32]) -> Result<PEdge, Fail> {
    Ok(PEdge {
        from,
        to,
        left: Items::from_slice(alloc, left)?,
        right: Items::from_slice(alloc, right)?,
    })
}

/// The right function goes on along three edges, the left one along the last alone, where `last` is
/// the left rank of the node before the exit.
fn waiting_product(alloc: Global, last: u32) -> Result<Product, Fail> {
    let nodes = vec![in alloc;
        node(alloc, 0, 0, 2),
        node(alloc, 0, 0, 0),
        node(alloc, 0, 1, 1),
        node(alloc, 0, 2, last),
    ]?;
    let edges = vec![in alloc;
        edge(alloc, 0, 2, &[], &[0])?,
        edge(alloc, 2, 3, &[], &[1])?,
        edge(alloc, 3, 1, &[0], &[2])?,
    ]?;
    Ok(Product {
        nodes: Items::from_vec(nodes),
        edges: Items::from_vec(edges),
    })
}

#[test]
fn the_bound_counts_nodes(rt: HostRuntime) -> Result<(), Fail> {
    let product = waiting_product(rt.alloc(), 0)?;
    assert_eq!(rt; product.longest(), 1);
    assert_eq!(rt; product.nodes.len(), 4);
    assert_eq!(rt; product.bound(), 4);
    assert!(rt; product.ranks_fall());
    Ok(())
}

#[test]
fn equal_ranks_do_not_fall(rt: HostRuntime) -> Result<(), Fail> {
    assert!(rt; !waiting_product(rt.alloc(), 1)?.ranks_fall());
    Ok(())
}

#[test]
fn chains_compose(rt: HostRuntime) -> Result<(), Fail> {
    assert_eq!(rt; compose(&[6]), 6);
    assert_eq!(rt; compose(&[6, 6]), 42);
    assert_eq!(rt; compose(&[2, 3, 4]), 45);
    Ok(())
}
