//! Cut points, heads and paths.
use crate::texts::{SUM, function};
use flow_graph::{Graph, graph};
use std::alloc::Global;
use std::test::Fail;

const ITSELF: &str = "f: .L1: jmp .L1";

const NEXT_LINE: &str = "f:\n jmp .L1\n.L1: ret";

const TWO_RETURNS: &str = "f:\n testq %rdi,%rdi\n je .L1\n ret\n.L1: ret";

const LOOP_IN_A_LOOP: &str = "f:
 xorl %eax,%eax
.L1: xorl %ecx,%ecx
.L2: incq %rcx
 cmpq %rsi,%rcx
 jne .L2
 decq %rdi
 jne .L1
 ret";

const NEVER_REACHED: &str = "f:\n jmp .L2\n.L1: decq %rdi\n jne .L1\n.L2: ret";

const LOOP_AT_THE_ENTRY: &str = "f: .L1: decq %rdi\n jne .L1\n jmp .L1";

fn graph_of(alloc: Global, text: &str) -> Result<Graph, Fail> {
    let f = function(alloc, text)?;
    Ok(graph(alloc, &f)?)
}

/// A text, its cut points and its heads.
type Marked = (&'static str, &'static [u32], &'static [u32]);

fn marks() -> [Marked; 7] {
    [
        (SUM, &[0, 4, 8], &[4]),
        (ITSELF, &[0], &[0]),
        (NEXT_LINE, &[0, 1], &[]),
        (TWO_RETURNS, &[0, 2, 3], &[]),
        (LOOP_IN_A_LOOP, &[0, 1, 2, 7], &[1, 2]),
        (NEVER_REACHED, &[0, 1, 3], &[1]),
        (LOOP_AT_THE_ENTRY, &[0], &[0]),
    ]
}

#[test]
fn cut_points_and_heads(rt: HostRuntime) -> Result<(), Fail> {
    for (text, cuts, heads) in marks() {
        let graph = graph_of(rt.alloc(), text)?;
        assert_eq!(rt; graph.cuts(), cuts, "{text}");
        assert_eq!(rt; graph.heads(), heads, "{text}");
    }
    Ok(())
}

/// A text, places, and whether they are a path.
type Way = (&'static str, &'static [u32], bool);

fn ways() -> [Way; 20] {
    [
        (SUM, &[4, 5, 6, 7, 4], true),
        (SUM, &[3, 5], false),
        (SUM, &[], true),
        (SUM, &[0, 1, 2, 8], true),
        (SUM, &[0, 1, 2, 3, 4], true),
        (SUM, &[7, 8], true),
        (SUM, &[4, 5, 6, 7, 5], false),
        (SUM, &[2, 4], false),
        (SUM, &[8], true),
        (SUM, &[9], false),
        (SUM, &[8, 9], false),
        (SUM, &[8, 0], false),
        (SUM, &[5, 4], false),
        (ITSELF, &[0, 0, 0], true),
        (ITSELF, &[0, 1], false),
        (NEXT_LINE, &[0, 1], true),
        (TWO_RETURNS, &[0, 1, 2, 3], false),
        (NEVER_REACHED, &[0, 3], true),
        (NEVER_REACHED, &[0, 1], false),
        (NEVER_REACHED, &[1, 2, 1, 2, 3], true),
    ]
}

#[test]
fn paths_follow_the_flow(rt: HostRuntime) -> Result<(), Fail> {
    for (text, path, follows) in ways() {
        let graph = graph_of(rt.alloc(), text)?;
        assert_eq!(rt; graph.is_path(path), follows, "{text} {path:?}");
    }
    Ok(())
}

/// A function of 4,096 instructions: 4,094 that do nothing, a jump to the first one, and a return.
fn longest(alloc: Global) -> Result<Graph, Fail> {
    let mut text = String::from_str(alloc, "f: .L1:\n")?;
    for _ in 0..4094 {
        text.push_str(" nop\n")?;
    }
    text.push_str(" jne .L1\n ret\n")?;
    graph_of(alloc, text.as_str())
}

#[test]
fn a_function_of_4096_instructions(rt: HostRuntime) -> Result<(), Fail> {
    let graph = longest(rt.alloc())?;
    assert_eq!(rt; graph.cuts(), [0, 4095].as_slice());
    assert_eq!(rt; graph.heads(), [0].as_slice());
    let places: Vec<u32> = (0..4096u32).collect(rt.alloc())?;
    assert!(rt; graph.is_path(&places));
    assert!(rt; graph.is_path(&[4094, 0]));
    assert!(rt; !graph.is_path(&[4095, 4096]));
    Ok(())
}
