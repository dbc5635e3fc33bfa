// The groups of a graph by pages, in listing order.
// kept: over SoundGraph this crate's contracts would ask more: they speak of every sound graph with two tables (`ForSound`).
#![tactic(auto)]

ghost use Rattle.std.specs.Prelude.{◌≡◌, true, length, IfSome};
ghost use Rattle.signed_graph.specs.Calls.{answer_number, refusal_number};
ghost use Rattle.pages.specs.Answers.{page_values};
ghost use Rattle.group_pages.specs.Calls.{due_groups, page_of, page_bytes, page_values_of};
ghost use Rattle.group_pages.specs.Filling.{HoldsGroups, AddsGroups};
ghost use Rattle.nodes.specs.Below.{leaf_items};
ghost use Rattle.vertex_set.specs.Sets.{Subset};
ghost use Rattle.nodes.specs.Nodes as nodes;
ghost use Rattle.propagation.specs.Propagation.{Advances};
ghost use Rattle.listing.specs.Lists.{Lists};

use nodes::Node;
use pages::{Bookmark, End, Page};
use signed_graph::SignedGraph;
use signed_graph::sound::SoundGraph;
use vertex_set::Sides;

// How far the search has come: the page so far, and how many nodes were visited in vain.
#[derive(Clone, Copy)]
struct Progress {
    pub page: Page,
    pub idle: u64,
}

// Puts the chosen set of a node with nothing undecided on the page, where that is a group and due.
fn list_leaf(at: Node, k: u64, from: Bookmark, progress: &mut Progress, out: &mut [u8])
    ensures { AddsGroups from (leaf_items k from at) progress.old.page out.old progress.new.page out.new }
{
    let chosen = Sides {
        left: at.left.chosen,
        right: at.right.chosen,
    };
    if !nodes::is_group(at, k) {
        return;
    }
    if !pages::is_due(from, chosen.left | chosen.right) {
        return;
    }
    *progress = Progress {
        page: group_pages::put_group(progress.page, chosen, out),
        idle: 0,
    };
}

// Whether a bookmark's set has, below v, exactly the vertices of `chosen`.
fn agrees_below(from: Bookmark, chosen: u64, v: usize) -> bool {
    match from {
        Bookmark::Start => false,
        Bookmark::After(t) => vertex_set::below(v as u64) & (chosen ^ t) == 0,
    }
}

// The node after propagation; the same node on the way to the bookmark, where propagation would be in vain.
fn advance(at: Node, k: u64, from: Bookmark, v: usize, g: &SignedGraph) -> Option<Node>
    ensures subset { IfSome result (λ node. Subset (nodes.undecided node) (nodes.undecided at)) }
    ensures advances { Advances g.now.positive g.now.negative k at result }
{
    if agrees_below(from, at.left.chosen | at.right.chosen, v) {
        return Some(at);
    }
    propagation::propagate(at, k, g)
}

// Puts the groups below a node that are due, in listing order, behind those that the page has.
// kept: k, from and g go along beside what changes; a struct of the three would serve this one function.
fn list_below(
    at: Node,
    k: u64,
    from: Bookmark,
    g: &SignedGraph,
    progress: &mut Progress,
    out: &mut [u8],
)
    ensures { Lists g.now.positive g.now.negative k from at progress.old.page out.old progress.new.page out.new }
{
    let next = vertex_set::lowest(nodes::undecided(at));
    if pages::is_past(from, at.left.chosen | at.right.chosen, next) {
        return;
    }
    let Some(node) = advance(at, k, from, next, g) else {
        return;
    };
    let open = nodes::undecided(node);
    if open == 0 {
        list_leaf(node, k, from, progress, out);
        return;
    }
    let v = vertex_set::lowest(open);
    list_below(
        nodes::put_in(node, v, g.partners(v)),
        k,
        from,
        g,
        progress,
        out,
    );
    let End::Finished = progress.page.end else {
        return;
    };
    let rest = nodes::leave_out(node, v);
    if let Some(idle) = look_ahead::look_ahead(rest, k, g, progress.idle) {
        progress.idle = idle;
        list_below(rest, k, from, g, progress, out);
    }
}

// The page of a sound graph.
fn list_sound(g: SoundGraph, k: u64, from: Bookmark, out: &mut [u8]) -> Page
    ensures { HoldsGroups from out.old (due_groups g.entry.graph.now k from) result out.new }
{
    let root = nodes::root(signed_graph::vertices(*g.graph), g.graph);
    let mut progress = Progress {
        page: Page::empty(from),
        idle: 0,
    };
    list_below(root, k, from, g.graph, &mut progress, out);
    progress.page
}

// The records of the first groups for k that are due at a bookmark, as many as fit, at the front of `out`.
pub fn list_page(g: SignedGraph, k: u64, from: Bookmark, out: &mut [u8]) -> Page
    ensures answer { result ≡ page_of g k from (length out.old) }
    ensures bytes { out.new ≡ page_bytes g k from out.old }
    ensures number { answer_number result.outcome ≡ refusal_number g k }
    ensures values { page_values result ≡ page_values_of g k from (length out.old) }
{
    match SoundGraph::check_call(&g, k) {
        Ok(sound) => list_sound(sound, k, from, out),
        Err(why) => Page {
            outcome: Err(why),
            count: 0,
            next: from,
            end: End::More,
        },
    }
}
