// Nodes of the search for groups: the sides so far, and how they grow.
// kept: over SoundGraph this crate's contracts would ask more: they speak of every sound graph with two tables (`ForSound`).
#![tactic(auto)]

ghost use Rattle.std.specs.Prelude.{◌≡◌, true};
ghost use Rattle.nodes.specs.Nodes as nodes;
ghost use Rattle.signed_graph.specs.Graphs.{vertices};
ghost use Rattle.signed_graph.specs.Tables.{ForSound};
ghost use Rattle.nodes.specs.Nodes.{Conflicts, narrowed, side_with, passed_over, put_in, leave_out, short, group_at, HasPartners, Root};

use signed_graph::{Partners, SignedGraph};

// A side of the groups that a node of the search stands for: the vertices that all of them hold, those that are undecided and
// may still join it, and those left out that would still fit.
#[derive(Clone, Copy)]
pub struct Side {
    pub chosen: u64,
    pub candidates: u64,
    pub excluded: u64,
}

// A node of the search.
#[derive(Clone, Copy)]
pub struct Node {
    pub left: Side,
    pub right: Side,
}

// The vertices still undecided.
pub fn undecided(at: Node) -> u64
    ensures { result ≡ nodes.undecided at }
{
    at.left.candidates | at.right.candidates
}

impl Side {
    // The side once v is chosen, `row` being the partners of v that may be on it.
    fn narrow(self, v: usize, row: u64) -> Side
        ensures { result ≡ narrowed self v row }
    {
        let others = !vertex_set::single(v);
        Side {
            candidates: self.candidates & row & others,
            excluded: self.excluded & row,
            ..self
        }
    }

    // The side with v on it.
    fn join(self, v: usize) -> Side
        ensures { result ≡ side_with self v }
    {
        Side {
            chosen: self.chosen | vertex_set::single(v),
            ..self
        }
    }

    // The side once v is left out.
    fn pass_over(self, v: usize) -> Side
        ensures { result ≡ passed_over self v }
    {
        let alone = vertex_set::single(v);
        Side {
            candidates: self.candidates & !alone,
            excluded: self.excluded | (self.candidates & alone),
            ..self
        }
    }
}

// The node with v, whose partners these are, on the side that it may join.
#[tactic(auto, unfolding(crate::specs::Nodes::put_in))]
pub fn put_in(at: Node, v: usize, of: Partners) -> Node
    ensures { result ≡ put_in at v of.positive of.negative }
{
    let left = at.left;
    let right = at.right;
    if vertex_set::contains(left.candidates, v) {
        Node {
            left: left.narrow(v, of.positive).join(v),
            right: right.narrow(v, of.negative),
        }
    } else {
        Node {
            left: left.narrow(v, of.negative),
            right: right.narrow(v, of.positive).join(v),
        }
    }
}

// The node with v left out.
pub fn leave_out(at: Node, v: usize) -> Node
    ensures { result ≡ leave_out at v }
{
    Node {
        left: at.left.pass_over(v),
        right: at.right.pass_over(v),
    }
}

// True only where the sides are too small for threshold k, even with all their candidates. For k = 0 nothing is looked at.
#[tactic(auto, unfolding(crate::specs::Nodes::short))]
pub fn is_short(at: Node, k: u64) -> bool
    ensures { result ≡ true → short k at ≡ true }
{
    if k == 0 {
        return false;
    }
    let left = at.left;
    let right = at.right;
    !clique::large_enough(
        k,
        left.chosen | left.candidates,
        right.chosen | right.candidates,
    )
}

// Whether the chosen set of a node with nothing undecided is a group for k.
#[tactic(auto, unfolding(crate::specs::Nodes::group_at))]
pub fn is_group(at: Node, k: u64) -> bool
    ensures { result ≡ group_at k at }
{
    let left = at.left;
    let right = at.right;
    if left.excluded | right.excluded != 0 {
        return false;
    }
    clique::large_enough(k, left.chosen, right.chosen)
}

// The partners of the vertices of s, or more.
fn partners(s: u64, g: &SignedGraph) -> u64
    ensures { HasPartners g.now.positive g.now.negative s result }
{
    let mut found: u64 = 0;
    for p in vertex_set::members(s) {
        found = found | g.positive[p] | g.negative[p];
    }
    found
}

// Where the search starts, of all vertices: below this node are all groups. A vertex without an edge is in none, and is left out.
pub fn root(all: u64, g: &SignedGraph) -> Node
    ensures { ForSound g.now.positive g.now.negative (λ h. all ≡ vertices h → Root h result) }
{
    let joined = partners(all, g);
    let side = Side {
        chosen: 0,
        candidates: all & joined,
        excluded: all & !joined,
    };
    Node {
        left: side,
        right: side,
    }
}

// The candidates that a vertex with these partners does not fit beside.
// kept: near and far: which of them is left depends on the caller.
#[tactic(auto, using(crate::proofs::ConflictSets::conflicts_are))]
pub fn conflicts(near: u64, far: u64, of: Partners) -> u64
    ensures { Conflicts near far of.positive of.negative result }
{
    (near & !of.positive) | (far & !of.negative)
}
