// Propagation: what every group below a node holds goes in at once, and a node below which no group is gets seen.
// kept: over SoundGraph this crate's contracts would ask more: they speak of every sound graph with two tables (`ForSound`).
#![tactic(auto)]

ghost use Rattle.std.specs.Prelude.{◌≡◌, IfSome};
ghost use Rattle.vertex_set.specs.Sets.{Subset};
ghost use Rattle.nodes.specs.Nodes as nodes;
ghost use Rattle.nodes.specs.Nodes.{put_in_if_open};
ghost use Rattle.propagation.specs.Propagation.{Beside, beside_one, other_way, FreeSides, Requires, HeldByAll, Settles, Advances};

use nodes::Node;
use signed_graph::{Partners, SignedGraph};

// Vertices that fit on a side beside all candidates; and as a hint where to look, of which nothing is promised, those that fit
// beside all candidates but one at most.
#[derive(Clone, Copy)]
struct Fit {
    pub all: u64,
    pub but_one: u64,
}

// Those that fit on a side, and those that fit on the other.
#[derive(Clone, Copy)]
struct Fitting {
    pub near: Fit,
    pub far: Fit,
}

impl Fit {
    // All of s.
    fn any(s: u64) -> Fit
        ensures { result ≡ record { all = s; but_one = s } }
    {
        Fit { all: s, but_one: s }
    }

    // Those that fit beside one candidate more, next to which the vertices of `row` may be.
    fn beside(self, row: u64) -> Fit
        ensures { result ≡ beside_one self row }
    {
        Fit {
            all: self.all & row,
            but_one: self.but_one & (self.all | row),
        }
    }
}

impl Fitting {
    // With the sides exchanged.
    fn exchanged(self) -> Fitting
        ensures { result ≡ other_way self }
    {
        Fitting {
            near: self.far,
            far: self.near,
        }
    }
}

// Of the vertices in `from`, those that fit beside every candidate of a side: those on that side are positive to all others,
// those on the other side negative to all.
fn beside_all(candidates: u64, from: Fitting, g: &SignedGraph) -> Fitting
    ensures { Beside g.now.positive g.now.negative candidates from result }
{
    let mut near = from.near;
    let mut far = from.far;
    for w in vertex_set::members(candidates) {
        near = near.beside(g.positive[w] | vertex_set::single(w));
        far = far.beside(g.negative[w]);
        if near.but_one | far.but_one == 0 {
            return Fitting {
                near: Fit::any(0),
                far: Fit::any(0),
            };
        }
    }
    Fitting { near, far }
}

// The vertices that fit on the left beside every candidate, and those that fit so on the right.
#[tactic(auto, using(crate::proofs::FreeVertices::both_sides))]
fn free_sides(at: Node, g: &SignedGraph) -> Fitting
    ensures { FreeSides g.now.positive g.now.negative at result }
{
    let left = at.left;
    let right = at.right;
    let open = Fitting {
        near: Fit::any(left.candidates | left.excluded),
        far: Fit::any(right.candidates | right.excluded),
    };
    let first = beside_all(left.candidates, open, g);
    let second = beside_all(right.candidates, first.exchanged(), g);
    second.exchanged()
}

// The candidates that are the only one that some vertex of `excluded` does not fit beside.
// kept: near and far, as in `conflicts`.
fn required(excluded: u64, near: u64, far: u64, g: &SignedGraph) -> u64
    ensures { Requires g.now.positive g.now.negative excluded near far result }
{
    let mut held: u64 = 0;
    for x in vertex_set::members(excluded) {
        held = held | vertex_set::sole_member(nodes::conflicts(near, far, g.partners(x)));
    }
    held
}

// The node with v in, where v is undecided; else the node as it is.
#[tactic(auto, unfolding(nodes::specs::Nodes::put_in_if_open))]
fn put_in_if_open(at: Node, v: usize, of: Partners) -> Node
    ensures { result ≡ put_in_if_open at v of.positive of.negative }
{
    if vertex_set::contains(nodes::undecided(at), v) {
        return nodes::put_in(at, v, of);
    }
    at
}

// The node with those of the vertices `held` in that fit beside one another.
fn settle(at: Node, held: u64, g: &SignedGraph) -> Node
    ensures subset { Subset (nodes.undecided result) (nodes.undecided at) }
    ensures settles { Settles g.now.positive g.now.negative at held result }
{
    let mut node = at;
    for u in vertex_set::members(held) {
        node = put_in_if_open(node, u, g.partners(u));
    }
    node
}

// The candidates that every group below holds: those that fit beside all others, and those that alone keep a vertex that was left
// out from joining.
fn held_by_all(at: Node, free: Fitting, g: &SignedGraph) -> u64
    ensures { FreeSides g.now.positive g.now.negative at free → HeldByAll g.now.positive g.now.negative at result }
{
    let left = at.left;
    let right = at.right;
    let universal = (free.near.all & left.candidates) | (free.far.all & right.candidates);
    let by_left = required(
        left.excluded & free.near.but_one,
        left.candidates,
        right.candidates,
        g,
    );
    let by_right = required(
        right.excluded & free.far.but_one,
        right.candidates,
        left.candidates,
        g,
    );
    universal | by_left | by_right
}

// The node with candidates in that every group below holds. None where it is seen that no group for k is below: where a side is
// too small, or where a vertex that was left out is free, so that it would join every set below.
fn advance(at: Node, k: u64, g: &SignedGraph) -> Option<Node>
    ensures subset { IfSome result (λ node. Subset (nodes.undecided node) (nodes.undecided at)) }
    ensures advances { Advances g.now.positive g.now.negative k at result }
{
    if nodes::is_short(at, k) {
        return None;
    }
    let left = at.left;
    let right = at.right;
    if left.chosen == 0 {
        return Some(at);
    }
    let free = free_sides(at, g);
    let dominating = (free.near.all & left.excluded) | (free.far.all & right.excluded);
    if dominating != 0 {
        return None;
    }
    Some(settle(at, held_by_all(at, free, g), g))
}

// The node that stands for the same groups after steps of `advance`, until one decides nothing or nothing is undecided. None
// where it is seen that no group for k is below.
pub fn propagate(at: Node, k: u64, g: &SignedGraph) -> Option<Node>
    ensures subset { IfSome result (λ node. Subset (nodes.undecided node) (nodes.undecided at)) }
    ensures advances { Advances g.now.positive g.now.negative k at result }
{
    let mut node = at;
    for _ in 0..64 {
        let before = nodes::undecided(node);
        node = advance(node, k, g)?;
        let open = nodes::undecided(node);
        if open == 0 {
            return Some(node);
        }
        if open == before {
            return Some(node);
        }
    }
    Some(node)
}
