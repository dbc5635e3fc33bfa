// Graphs through `reduce`, `largest` and `classify`.
use crate::cases::{byte, word};
use crate::printing::{print_all, print_outcome};
use clique::Verdict;
use signed_graph::SignedGraph;
use std::io::Result;
use vertex_set::Sides;

// Reduces a graph, and returns the reduced graph.
pub fn reduce(rt: HostRuntime, x: &[u8], g: SignedGraph) -> Result<SignedGraph> {
    let answer = reduction::reduce(g, byte(x, 0));
    let left = reduction::left_by(&answer);
    print_outcome(rt, signed_graph::answer_number(&answer))?;
    print_all(rt, &[left.looks])?;
    Ok(left.graph)
}

// Prints the largest group; no vertices where the call is refused.
pub fn largest(rt: HostRuntime, x: &[u8], g: SignedGraph) -> Result<SignedGraph> {
    let answer = largest::largest(g, byte(x, 0));
    let sides = answer.unwrap_or(Sides { left: 0, right: 0 });
    print_outcome(rt, signed_graph::answer_number(&answer))?;
    print_all(rt, &[sides.left, sides.right])?;
    Ok(g)
}

// The number of a verdict, and its data.
// kept: a trial does not take these numbers from the table that it tries.
fn values(verdict: Verdict) -> [u64; 4] {
    match verdict {
        Verdict::Empty => [1, 0, 0, 0],
        Verdict::OutOfRange(p) => [2, p as u64, 0, 0],
        Verdict::MissingEdge(p, q) => [3, p as u64, q as u64, 0],
        Verdict::Unbalanced(p, q, r) => [4, p as u64, q as u64, r as u64],
        Verdict::TooSmall(l, r) => [5, l, r, 0],
        Verdict::Extensible(p) => [6, p as u64, 0, 0],
        Verdict::Group(l, r) => [7, l, r, 0],
        Verdict::Alone => [8, 0, 0, 0],
        Verdict::Masked(p) => [9, p as u64, 0, 0],
    }
}

// Prints what a set is in a graph.
pub fn classify(rt: HostRuntime, x: &[u8], g: SignedGraph) -> Result<SignedGraph> {
    let answer = clique::classify(g, byte(x, 0), word(x, 1));
    print_outcome(rt, signed_graph::answer_number(&answer))?;
    if let Ok(verdict) = answer {
        print_all(rt, &values(verdict))?;
    }
    Ok(g)
}
