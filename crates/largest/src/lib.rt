// The largest group of a graph.
// kept: over SoundGraph this crate's contracts would ask more: they speak of every sound graph with two tables (`ForSound`).
#![tactic(auto)]

ghost use Rattle.std.specs.Prelude.{◌≡◌, ◌+◌, ℕ, true, IsNone};
ghost use Rattle.vertex_set.specs.Sets.{size};
ghost use Rattle.signed_graph.specs.Calls.{answer_number};
ghost use Rattle.pages.specs.declared.Bookmark.TheVariants as bookmark;
ghost use Rattle.clique.specs.Listing.{listing};
ghost use Rattle.largest.specs.Largest.{largest_of, largest_or_none, largest_group, largest_number};
ghost use Rattle.signed_graph.specs.Tables.{ForSound};
ghost use Rattle.bounds.specs.Bounds.{Tabled, NoneLarger};
ghost use Rattle.nodes.specs.Nodes.{chosen, undecided};
ghost use Rattle.nodes.specs.Below.{leaf_items};
ghost use Rattle.largest.specs.Bests.{most, best_of, Finds};

use bounds::AloneFirst;
use look_ahead::FUEL;
use nodes::Node;
use signed_graph::sound::SoundGraph;
use signed_graph::{Refusal, SignedGraph};
use vertex_set::Sides;

// A group and its size.
#[derive(Clone, Copy)]
struct Best {
    pub size: u64,
    pub sides: Sides,
}

// The largest group met so far, if one was, and how many nodes count as visited in vain since.
#[derive(Clone, Copy)]
struct Hunt {
    pub best: Option<Best>,
    pub idle: u64,
}

// A search for the largest group for k of a graph, with a table of bounds on its balanced sets.
#[derive(Clone, Copy)]
struct Search<'a> {
    pub g: &'a SignedGraph,
    pub k: u64,
    pub table: &'a [u64; 64],
}

// The size of the largest group so far; 1 where there is none, since every group is larger.
fn most(best: Option<Best>) -> u64
    ensures { result ≡ most best }
{
    match best {
        None => 1,
        Some(found) => found.size,
    }
}

// The larger of the largest group so far and the chosen set of a node with nothing undecided, where that is a group.
#[tactic(auto, using(crate::proofs::Bests::finds_other, crate::proofs::Bests::finds_smaller, crate::proofs::Bests::finds_larger))]
fn largest_leaf(at: Node, k: u64, best: Option<Best>) -> Option<Best>
    ensures { result ≡ best_of best (leaf_items k bookmark.Start at) }
{
    if !nodes::is_group(at, k) {
        return best;
    }
    let sides = Sides {
        left: at.left.chosen,
        right: at.right.chosen,
    };
    let size = vertex_set::size(sides.left | sides.right);
    if size <= most(best) {
        return best;
    }
    Some(Best { size, sides })
}

// True only where the chosen vertices of a node leave room for some number of further ones within `most`, and no balanced set with its
// sides within the candidates has more by the test.
fn none_larger<F: FnOnce(Sides, u64) -> bool>(at: Node, most: u64, is_bounded: F) -> bool
    requires { F.IsAlwaysCallable is_bounded }
    ensures { result ≡ true → ((room : ℕ) × (size (chosen at) + room ≡ most)
        × F.post is_bounded (record { left = at.left.candidates; right = at.right.candidates }) room true) }
{
    let open = Sides {
        left: at.left.candidates,
        right: at.right.candidates,
    };
    match most.checked_sub(vertex_set::size(at.left.chosen | at.right.chosen)) {
        None => false,
        Some(room) => is_bounded(open, room),
    }
}

// True only where no group below the node has more than `most` vertices: seen by branching.
#[tactic(auto, using(crate::proofs::SizesBelow::none_larger_room))]
fn none_larger_by_branching(at: Node, most: u64, table: &[u64; 64], g: &SignedGraph) -> bool
    ensures { result ≡ true → ForSound g.now.positive g.now.negative (λ g. Tabled g table.now (undecided at)
        → NoneLarger g (chosen at) at.left.candidates at.right.candidates most) }
{
    none_larger(at, most, |open, room| {
        bounds::at_most::<AloneFirst>(open, room, table, g, FUEL).is_some()
    })
}

impl<'a> Search<'a> {
    // None where it was seen that no group below the node has more vertices than the largest so far; else the count of nodes visited in
    // vain, as `look_ahead::prune` has it.
    fn look_for_larger(&self, at: Node, hunt: &Hunt) -> Option<u64>
        ensures { IsNone result → Finds self.now.table.now self.now.g.now.positive self.now.g.now.negative self.now.k at
            hunt.now.best hunt.now.best }
    {
        let most = most(hunt.best);
        look_ahead::prune(at, self.k, self.g, hunt.idle, || {
            none_larger_by_branching(at, most, self.table, self.g)
        })
    }

    // Finds the largest of the largest group so far and of the groups below a node; of equals, the first.
    fn below(&self, at: Node, hunt: &mut Hunt)
        ensures { Finds self.now.table.now self.now.g.now.positive self.now.g.now.negative self.now.k at hunt.old.best hunt.new.best }
    {
        if none_larger(at, most(hunt.best), |open, room| {
            bounds::is_bounded(open, room, self.table, self.g)
        }) {
            return;
        }
        if nodes::is_short(at, self.k) {
            return;
        }
        let undecided = nodes::undecided(at);
        if undecided == 0 {
            hunt.best = largest_leaf(at, self.k, hunt.best);
            return;
        }
        let v = vertex_set::lowest(undecided);
        self.below(nodes::put_in(at, v, self.g.partners(v)), hunt);
        let rest = nodes::leave_out(at, v);
        if let Some(idle) = self.look_for_larger(rest, hunt) {
            hunt.idle = idle;
            self.below(rest, hunt);
        }
    }
}

// The sides of the largest group for k of a sound graph.
fn largest_sound(g: SoundGraph, k: u64) -> Result<Sides, Refusal>
    ensures { result ≡ largest_or_none (largest_of (listing g.entry.graph.now k)) }
{
    let graph = g.graph;
    let all = signed_graph::vertices(*graph);
    let table = bounds::size_table(graph.n, all, graph);
    let search = Search {
        g: graph,
        k,
        table: &table,
    };
    let mut hunt = Hunt {
        best: None,
        idle: 0,
    };
    search.below(nodes::root(all, graph), &mut hunt);
    match hunt.best {
        None => Err(Refusal::NoGroup),
        Some(found) => Ok(found.sides),
    }
}

// The sides of the group for k with the most vertices; of equals, the first in listing order.
pub fn largest(g: SignedGraph, k: u64) -> Result<Sides, Refusal>
    ensures answer { result ≡ largest_group g k }
    ensures number { answer_number result ≡ largest_number g k }
{
    largest_sound(SoundGraph::check_call(&g, k)?, k)
}
