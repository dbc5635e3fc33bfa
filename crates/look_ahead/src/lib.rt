// Looking ahead: tests, made where a search has been in vain for a while, whether a branch has no group.
// kept: over SoundGraph this crate's contracts would ask more: they speak of every sound graph with two tables (`ForSound`).
#![tactic(auto)]

ghost use Rattle.std.specs.Prelude.{◌≡◌, ◌⊎◌, true, IsNone, is_some, is_none};
ghost use Rattle.signed_graph.specs.Tables.{ForSound};
ghost use Rattle.nodes.specs.Nodes.{StaysShort};
ghost use Rattle.look_ahead.specs.LookAhead.{SmallerOf, FewestConflicts, Narrowest, FindsBarren};

use bounds::LowestFirst;
use nodes::{Node, Side};
use signed_graph::SignedGraph;
use vertex_set::Sides;

// After this many nodes without a group a branch is tested before it is entered.
pub const PATIENCE: u64 = 512;

// How many times a test may branch.
pub const FUEL: u64 = 2048;

// More than any set of candidates has.
// kept: an Option in place of this first count would be matched at each comparison, and `fewest.count == 0` would stay.
const OVER_ALL: u64 = 65;

// An entry of a table of sizes that bounds nothing.
// kept: an Option in each of 64 entries, for the one caller that has no table, would be matched at every node.
const NO_BOUND: u64 = 128;

// The fewest candidates that a vertex that was left out does not fit beside, and how many they are.
#[derive(Clone, Copy)]
struct Fewest {
    pub count: u64,
    pub candidates: u64,
}

// The smaller of the set of candidates found so far and another.
#[tactic(auto, using(vertex_set::proofs::Sizes::size_none))]
fn smaller_of(found: Fewest, candidates: u64) -> Fewest
    ensures { SmallerOf found candidates result }
{
    let count = vertex_set::size(candidates);
    if count < found.count {
        return Fewest { count, candidates };
    }
    found
}

// The fewest candidates that a vertex that was left out of a side does not fit beside, or what was found so far.
fn fewest_conflicts(near: Side, far: Side, found: Fewest, g: &SignedGraph) -> Fewest
    ensures { FewestConflicts g.now.positive g.now.negative near far found result }
{
    let mut best = found;
    for x in vertex_set::members(near.excluded) {
        let against = nodes::conflicts(near.candidates, far.candidates, g.partners(x));
        best = smaller_of(best, against);
    }
    best
}

// The fewest candidates of a node that a vertex that was left out does not fit beside: every group below holds one of them.
fn narrowest(at: Node, g: &SignedGraph) -> Fewest
    ensures { Narrowest g.now.positive g.now.negative at result }
{
    let unknown = Fewest {
        count: OVER_ALL,
        candidates: 0,
    };
    let first = fewest_conflicts(at.left, at.right, unknown, g);
    fewest_conflicts(at.right, at.left, first, g)
}

// The fuel that is left where no group for k is below the node; None where that was not seen. It branches where fewest candidates
// can keep an excluded vertex from joining, and gives up where the fuel ends.
fn lacks_group(at: Node, k: u64, g: &SignedGraph, fuel: u64) -> Option<u64>
    ensures { FindsBarren g.now.positive g.now.negative k at (is_some result) }
{
    if nodes::is_short(at, k) {
        return Some(fuel);
    }
    let fewest = narrowest(at, g);
    if fewest.count == 0 {
        return Some(fuel);
    }
    let open = fewest.candidates & nodes::undecided(at);
    if open == 0 {
        return None;
    }
    if at.left.chosen == 0 {
        return None;
    }
    if fuel == 0 {
        return None;
    }
    let u = vertex_set::lowest(open);
    let rest = lacks_group(nodes::put_in(at, u, g.partners(u)), k, g, fuel - 1)?;
    lacks_group(nodes::leave_out(at, u), k, g, rest)
}

// True only where the side cannot get k vertices.
fn stays_short(side: Side, k: u64, g: &SignedGraph) -> bool
    ensures { result ≡ true → ForSound g.now.positive g.now.negative (λ g. StaysShort g k side) }
{
    let have = vertex_set::size(side.chosen);
    if k <= have {
        return false;
    }
    let open = Sides {
        left: side.candidates,
        right: 0,
    };
    bounds::at_most::<LowestFirst>(open, k - have - 1, &[NO_BOUND; 64], g, FUEL).is_some()
}

// True only where a side of the node cannot get k vertices, so that no group for k is below.
pub fn has_short_side(at: Node, k: u64, g: &SignedGraph) -> bool
    ensures { FindsBarren g.now.positive g.now.negative k at result }
{
    stays_short(at.left, k, g) || stays_short(at.right, k, g)
}

// None where the branch below a node is pruned: where enough nodes were visited in vain, and a side of the node cannot get k vertices,
// so that no group for k is below, or the test holds. Else the count of nodes visited in vain, which is 0 again behind a test that
// does not hold.
pub fn prune<F: FnOnce() -> bool>(
    at: Node,
    k: u64,
    g: &SignedGraph,
    idle: u64,
    test: F,
) -> Option<u64>
    requires { F.pre test }
    ensures { IsNone result → FindsBarren g.now.positive g.now.negative k at true ⊎ F.post test true }
{
    if idle < PATIENCE {
        return Some(idle + 1);
    }
    if has_short_side(at, k, g) || test() {
        return None;
    }
    Some(0)
}

// None where it was seen that no group for k is below the node; else the count of nodes visited in vain, as `prune` has it.
pub fn look_ahead(at: Node, k: u64, g: &SignedGraph, idle: u64) -> Option<u64>
    ensures { FindsBarren g.now.positive g.now.negative k at (is_none result) }
{
    prune(at, k, g, idle, || lacks_group(at, k, g, FUEL).is_some())
}
