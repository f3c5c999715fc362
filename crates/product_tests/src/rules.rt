//! The rules of products, over two loops that never end: `jmp` to itself, and a sum with a `jmp` back.
//! The first breach of each product is worked out by hand.
ghost use Rattle.std.specs.Prelude.{IfOk};
ghost use Rattle.insn_table.specs.Closed.{IsClosed};

use align_base::Word;
use att_reader::read_function;
use flow_graph::{Graph, graph};
use insn_ops::Side;
use insn_table::Function;
use product_automaton::{Atom, Bound1, Breach, Invariant, PEdge, PNode, Product};
use sqlite_items::Items;
use std::alloc::Global;
use std::test::Fail;

const STANDING: &str = "f: .L1: jmp .L1";

const ADDING: &str = "f:\n.L2:\n addq $1,%rax\n jmp .L2";

const RETURNING: &str = "f: ret";

/// The function `f` of a text.
fn function(alloc: Global, text: &str) -> Result<Function, Fail>
    ensures { IfOk result (λ f. IsClosed f.insns) }
{
    let name = Word::new(alloc, b"f")?;
    Ok(read_function(alloc, text.as_bytes(), &name)?)
}

fn graph_of(alloc: Global, text: &str) -> Result<Graph, Fail> {
    let f = function(alloc, text)?;
    Ok(graph(alloc, &f)?)
}

/// A node with these places and ranks, and no invariant.
fn node(alloc: Global, left: u32, right: u32, rank_left: u32, rank_right: u32) -> PNode {
    PNode {
        left,
        right,
        invs: Items::new(alloc),
        rank_left,
        rank_right,
    }
}

/// A node with places and ranks 0 and these invariants.
fn node_with(alloc: Global, invs: Vec<Invariant>) -> PNode {
    PNode {
        left: 0,
        right: 0,
        invs: Items::from_vec(invs),
        rank_left: 0,
        rank_right: 0,
    }
}

/// An edge with these paths.
fn edge(alloc: Global, from: u32, to: u32, left: &[u32], right: &[u32]) -> Result<PEdge, Fail> {
    Ok(PEdge {
        from,
        to,
        left: Items::from_slice(alloc, left)?,
        right: Items::from_slice(alloc, right)?,
    })
}

/// A path that stands at place 0 as often as this.
fn zeros(alloc: Global, count: usize) -> Result<Vec<u32>, Fail> {
    let mut path = Vec::new(alloc);
    for _ in 0..count {
        path.push(0)?;
    }
    Ok(path)
}

/// As many invariants as this, of no term.
fn equations(alloc: Global, count: usize) -> Result<Vec<Invariant>, Fail> {
    let mut invs = Vec::new(alloc);
    for _ in 0..count {
        invs.push(equation(alloc, 64, &[], 0)?)?;
    }
    Ok(invs)
}

/// The equation of these terms and this constant.
fn equation(alloc: Global, w: u32, terms: &[(u64, Atom)], c: u64) -> Result<Invariant, Fail> {
    Ok(Invariant::Lin {
        w,
        terms: Items::from_slice(alloc, terms)?,
        c,
    })
}

/// The entry, the exit, and a node at which both loops go on.
fn nodes(alloc: Global, entry: PNode, around: PNode) -> Result<Vec<PNode>, Fail> {
    Ok(vec![in alloc; entry, node(alloc, 0, 0, 0, 0), around]?)
}

/// An edge into node 2, on which both sides wait, and one around it.
fn edges(alloc: Global, into: PEdge, around: PEdge) -> Result<Vec<PEdge>, Fail> {
    Ok(vec![in alloc; into, around]?)
}

fn product(nodes: Vec<PNode>, edges: Vec<PEdge>) -> Product {
    Product {
        nodes: Items::from_vec(nodes),
        edges: Items::from_vec(edges),
    }
}

/// The product of the two loops, with this entry, this node in the loops and this edge around it.
fn circling(alloc: Global, entry: PNode, stop: PNode, around: PEdge) -> Result<Product, Fail> {
    let into = edge(alloc, 0, 2, &[], &[])?;
    Ok(product(nodes(alloc, entry, stop)?, edges(alloc, into, around)?))
}

fn entry(alloc: Global) -> PNode {
    node(alloc, 0, 0, 1, 1)
}

fn around(alloc: Global) -> Result<PEdge, Fail> {
    edge(alloc, 2, 2, &[0], &[0, 1])
}

/// The product of the two loops, with this edge around node 2.
fn with_edge(alloc: Global, around: PEdge) -> Result<Product, Fail> {
    circling(alloc, entry(alloc), node(alloc, 0, 0, 0, 0), around)
}

/// The product of the two loops, with these invariants at node 2.
fn with_invariants(alloc: Global, invs: Vec<Invariant>) -> Result<Product, Fail> {
    let around = around(alloc)?;
    circling(alloc, entry(alloc), node_with(alloc, invs), around)
}

/// What is said of a product of the two loops.
fn verdict(alloc: Global, product: &Product) -> Result<Result<(), Breach>, Fail> {
    let left = graph_of(alloc, STANDING)?;
    let right = graph_of(alloc, ADDING)?;
    Ok(product.well_formed(&left, &right))
}

fn breach(rule: u32, first: u32, second: u32) -> Result<(), Breach> {
    Err(Breach {
        rule,
        place: (first, second),
    })
}

#[test]
fn loops_that_never_end_meet_the_rules(rt: HostRuntime) -> Result<(), Fail> {
    let alloc = rt.alloc();
    let product = with_edge(alloc, around(alloc)?)?;
    assert_eq!(rt; verdict(alloc, &product)?, Ok(()));
    assert_eq!(rt; product.longest(), 2);
    Ok(())
}

#[test]
fn one_node_is_too_few(rt: HostRuntime) -> Result<(), Fail> {
    let alloc = rt.alloc();
    let product = product(vec![in alloc; entry(alloc)]?, Vec::new(alloc));
    assert_eq!(rt; verdict(alloc, &product)?, breach(1, 0, 0));
    Ok(())
}

#[test]
fn a_path_of_512_places_is_good(rt: HostRuntime) -> Result<(), Fail> {
    let alloc = rt.alloc();
    let path = zeros(alloc, 512)?;
    let product = with_edge(alloc, edge(alloc, 2, 2, &path, &[0, 1])?)?;
    assert_eq!(rt; verdict(alloc, &product)?, Ok(()));
    assert_eq!(rt; product.longest(), 512);
    Ok(())
}

#[test]
fn a_path_of_513_places_is_not(rt: HostRuntime) -> Result<(), Fail> {
    let alloc = rt.alloc();
    let path = zeros(alloc, 513)?;
    let product = with_edge(alloc, edge(alloc, 2, 2, &path, &[0, 1])?)?;
    assert_eq!(rt; verdict(alloc, &product)?, breach(1, 1, 0));
    Ok(())
}

#[test]
fn the_entry_stands_at_place_0(rt: HostRuntime) -> Result<(), Fail> {
    let alloc = rt.alloc();
    let entry = node(alloc, 1, 0, 1, 1);
    let product = circling(alloc, entry, node(alloc, 0, 0, 0, 0), around(alloc)?)?;
    assert_eq!(rt; verdict(alloc, &product)?, breach(2, 0, 0));
    Ok(())
}

#[test]
fn the_exit_has_no_invariant(rt: HostRuntime) -> Result<(), Fail> {
    let alloc = rt.alloc();
    let exit = node_with(alloc, equations(alloc, 1)?);
    let nodes = vec![in alloc; entry(alloc), exit]?;
    let product = product(nodes, Vec::new(alloc));
    assert_eq!(rt; verdict(alloc, &product)?, breach(2, 1, 0));
    Ok(())
}

#[test]
fn a_node_stands_at_instructions(rt: HostRuntime) -> Result<(), Fail> {
    let alloc = rt.alloc();
    let outside = node(alloc, 0, 2, 0, 0);
    let product = circling(alloc, entry(alloc), outside, around(alloc)?)?;
    assert_eq!(rt; verdict(alloc, &product)?, breach(2, 2, 0));
    Ok(())
}

#[test]
fn an_edge_joins_nodes(rt: HostRuntime) -> Result<(), Fail> {
    let alloc = rt.alloc();
    for (from, to) in [(0, 5), (5, 2), (2, 0), (1, 2)] {
        let nodes = nodes(alloc, entry(alloc), node(alloc, 0, 0, 0, 0))?;
        let into = edge(alloc, from, to, &[], &[])?;
        let product = product(nodes, edges(alloc, into, around(alloc)?)?);
        assert_eq!(rt; verdict(alloc, &product)?, breach(3, 0, 0), "{from} {to}");
    }
    Ok(())
}

#[test]
fn a_path_leads_to_the_target(rt: HostRuntime) -> Result<(), Fail> {
    let alloc = rt.alloc();
    let product = with_edge(alloc, edge(alloc, 2, 2, &[0], &[0])?)?;
    assert_eq!(rt; verdict(alloc, &product)?, breach(3, 1, 1));
    let product = with_edge(alloc, edge(alloc, 2, 2, &[0], &[1])?)?;
    assert_eq!(rt; verdict(alloc, &product)?, breach(3, 1, 1));
    let product = with_edge(alloc, edge(alloc, 2, 2, &[1], &[0])?)?;
    assert_eq!(rt; verdict(alloc, &product)?, breach(3, 1, 0));
    Ok(())
}

#[test]
fn an_empty_path_lowers_the_rank(rt: HostRuntime) -> Result<(), Fail> {
    let alloc = rt.alloc();
    let product = with_edge(alloc, edge(alloc, 2, 2, &[], &[0, 1])?)?;
    assert_eq!(rt; verdict(alloc, &product)?, breach(4, 1, 0));
    let left = graph_of(alloc, STANDING)?;
    let right = graph_of(alloc, RETURNING)?;
    let product = with_edge(alloc, edge(alloc, 2, 2, &[0], &[])?)?;
    assert_eq!(rt; product.well_formed(&left, &right), breach(4, 1, 0));
    Ok(())
}

#[test]
fn ranks_are_below_the_number_of_nodes(rt: HostRuntime) -> Result<(), Fail> {
    let alloc = rt.alloc();
    let entry = node(alloc, 0, 0, 3, 1);
    let product = circling(alloc, entry, node(alloc, 0, 0, 0, 0), around(alloc)?)?;
    assert_eq!(rt; verdict(alloc, &product)?, breach(5, 0, 0));
    Ok(())
}

/// The place of the first invariant of node 2 that does not fit.
fn unfit(alloc: Global, invs: Vec<Invariant>) -> Result<Result<(), Breach>, Fail> {
    verdict(alloc, &with_invariants(alloc, invs)?)
}

#[test]
fn invariants_have_widths_and_numbers(rt: HostRuntime) -> Result<(), Fail> {
    let alloc = rt.alloc();
    let wide = vec![in alloc; equation(alloc, 65, &[], 0)?]?;
    assert_eq!(rt; unfit(alloc, wide)?, breach(6, 2, 0));
    let none = vec![in alloc;
        equation(alloc, 64, &[], u64::MAX)?,
        equation(alloc, 0, &[], 0)?,
    ]?;
    assert_eq!(rt; unfit(alloc, none)?, breach(6, 2, 1));
    let large = vec![in alloc; equation(alloc, 5, &[(31, Atom::Entry(15))], 32)?]?;
    assert_eq!(rt; unfit(alloc, large)?, breach(6, 2, 0));
    let good = vec![in alloc; equation(alloc, 5, &[(31, Atom::Entry(15))], 31)?]?;
    assert_eq!(rt; unfit(alloc, good)?, Ok(()));
    Ok(())
}

#[test]
fn invariants_speak_of_registers_and_lanes(rt: HostRuntime) -> Result<(), Fail> {
    let alloc = rt.alloc();
    let lane = |w: u32, vector: u8, lane: u8| Invariant::Less {
        signed: false,
        strict: true,
        w,
        a: Bound1::Of(Atom::Lane(Side::Left, vector, lane)),
        b: Bound1::Num(1),
    };
    assert_eq!(rt;
        unfit(alloc, vec![in alloc; lane(64, 15, 3), lane(8, 0, 31)]?)?,
        Ok(())
    );
    assert_eq!(rt;
        unfit(alloc, vec![in alloc; lane(64, 15, 3), lane(64, 0, 4)]?)?,
        breach(6, 2, 1)
    );
    assert_eq!(rt;
        unfit(alloc, vec![in alloc; lane(24, 0, 0)]?)?,
        breach(6, 2, 0)
    );
    assert_eq!(rt;
        unfit(alloc, vec![in alloc; lane(64, 16, 0)]?)?,
        breach(6, 2, 0)
    );
    Ok(())
}

#[test]
fn paths_into_the_exit_return(rt: HostRuntime) -> Result<(), Fail> {
    let alloc = rt.alloc();
    let returning = graph_of(alloc, RETURNING)?;
    let adding = graph_of(alloc, ADDING)?;
    let leaving = |left: &[u32], right: &[u32]| -> Result<Product, Fail> {
        let nodes = vec![in alloc; entry(alloc), node(alloc, 0, 0, 0, 0)]?;
        Ok(product(nodes, vec![in alloc; edge(alloc, 0, 1, left, right)?]?))
    };
    assert_eq!(rt;
        leaving(&[0], &[0])?.well_formed(&returning, &returning),
        Ok(())
    );
    assert_eq!(rt;
        leaving(&[0], &[])?.well_formed(&returning, &returning),
        breach(3, 0, 1)
    );
    assert_eq!(rt;
        leaving(&[0], &[0, 1])?.well_formed(&returning, &adding),
        breach(3, 0, 1)
    );
    assert_eq!(rt;
        leaving(&[0], &[0])?.well_formed(&adding, &returning),
        breach(3, 0, 0)
    );
    Ok(())
}

#[test]
fn the_least_number_of_node_or_edge_is_told(rt: HostRuntime) -> Result<(), Fail> {
    let alloc = rt.alloc();
    let path = zeros(alloc, 513)?;
    let many = node_with(alloc, equations(alloc, 513)?);
    let nodes = vec![in alloc;
        entry(alloc),
        node(alloc, 0, 0, 0, 0),
        node(alloc, 0, 0, 0, 0),
        many,
    ]?;
    let edges = vec![in alloc;
        around(alloc)?,
        around(alloc)?,
        edge(alloc, 2, 2, &path, &[])?,
    ]?;
    let few = product(nodes, edges);
    assert_eq!(rt; verdict(alloc, &few)?, breach(1, 2, 0));
    Ok(())
}

#[test]
fn too_many_edges_come_first(rt: HostRuntime) -> Result<(), Fail> {
    let alloc = rt.alloc();
    let nodes = nodes(
        alloc,
        entry(alloc),
        node_with(alloc, equations(alloc, 513)?),
    )?;
    let mut edges = Vec::new(alloc);
    for _ in 0..257 {
        edges.push(around(alloc)?)?;
    }
    let product = product(nodes, edges);
    assert_eq!(rt; verdict(alloc, &product)?, breach(1, 0, 0));
    Ok(())
}
