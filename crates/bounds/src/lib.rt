// Bounds on the size of the balanced sets that keep their sides within given vertices.
// kept: over SoundGraph this crate's contracts would ask more: they speak of every sound graph with two tables (`ForSound`).
#![tactic(auto)]

ghost use Rattle.std.specs.Prelude.{◌≡◌, true, false, ◌≤◌, ◌+◌, ◌<◌, ◌≢◌, IsSome};
ghost use Rattle.std.specs.Int.Bits.{bit_or};
ghost use Rattle.signed_graph.specs.Tables.{ForSound};
ghost use Rattle.vertex_set.specs.Sets.{mem};
ghost use Rattle.signed_graph.specs.Graphs.{vertices};
ghost use Rattle.bounds.specs.Bounds.{AtMost, Picked, ColourClass, AtMostBy, meet, AtMostFrom, TabledFrom, SizeTable};

use signed_graph::SignedGraph;
use vertex_set::Sides;

// How many times the search for a bound may branch, for an entry of the table.
const TABLE_FUEL: u64 = 64;

// Which vertex a search for a bound tries.
pub trait Branching {
    // Vertices of which the lowest is tried: a hint, of which nothing is promised.
    fn first(candidates: Sides, g: &SignedGraph) -> u64;
}

// The lowest of all.
pub struct LowestFirst;

// The lowest of those that are alone in their colour class.
pub struct AloneFirst;

impl Branching for LowestFirst {
    fn first(candidates: Sides, _g: &SignedGraph) -> u64 {
        candidates.left | candidates.right
    }
}

impl Branching for AloneFirst {
    fn first(candidates: Sides, g: &SignedGraph) -> u64 {
        let mut alone: u64 = 0;
        let mut rest = candidates;
        for _ in 0..64 {
            if rest.left | rest.right == 0 {
                return alone;
            }
            let class = colour_class(rest, g);
            alone = alone | vertex_set::sole_member(class.left | class.right);
            rest = meet(rest, !class.left, !class.right);
        }
        alone
    }
}

// The sides, as far as they are in these.
// kept: two masks, which are no sides.
fn meet(candidates: Sides, left: u64, right: u64) -> Sides
    ensures { result ≡ meet candidates left right }
{
    Sides {
        left: candidates.left & left,
        right: candidates.right & right,
    }
}

// Some vertices of `near`, no two joined by a positive edge; and those of `far` joined to none of them by a negative edge.
// kept: no `for` over the members of `near`, since each turn takes the partners of v away from those that are still to come.
fn independent(near: u64, far: u64, g: &SignedGraph) -> Sides
    ensures { Picked g.now.positive g.now.negative near result }
{
    let mut members: u64 = 0;
    let mut apart = far;
    let mut left = near;
    while left != 0 {
        let v = vertex_set::lowest(left);
        let one = vertex_set::single(v);
        let partners = g.partners(v);
        members = members | one;
        left = left & !(partners.positive | one);
        apart = apart & !partners.negative;
    }
    Sides {
        left: members,
        right: apart,
    }
}

// A colour class: vertices for the left and for the right, no two of which are together in a balanced set with those sides.
#[tactic(auto, using(crate::proofs::Colours::both_picked))]
fn colour_class(candidates: Sides, g: &SignedGraph) -> Sides
    ensures { ColourClass g.now.positive g.now.negative result }
{
    let first = independent(candidates.left, candidates.right, g);
    let second = independent(first.right, 0, g);
    Sides {
        left: first.left,
        right: second.left,
    }
}

// True only where `room` colour classes cover the vertices for the left and for the right.
fn colours_within(candidates: Sides, room: u64, g: &SignedGraph) -> bool
    ensures { result ≡ true → ForSound g.now.positive g.now.negative (λ h. AtMost h candidates.left candidates.right room) }
{
    let mut rest = candidates;
    for _ in 0..room {
        if rest.left | rest.right == 0 {
            return true;
        }
        let class = colour_class(rest, g);
        rest = meet(rest, !class.left, !class.right);
    }
    rest.left | rest.right == 0
}

// True only where no balanced set with its sides within these has more than `room` vertices, by the table at the lowest vertex or
// by colours. Where it is false, there is a vertex.
pub fn is_bounded(candidates: Sides, room: u64, table: &[u64; 64], g: &SignedGraph) -> bool
    ensures at_most_by { result ≡ true → AtMostBy table.now g.now.positive g.now.negative candidates.left candidates.right room }
    ensures nonempty { result ≡ false → bit_or candidates.left candidates.right ≢ 0 }
{
    let either = candidates.left | candidates.right;
    if either == 0 {
        return true;
    }
    if table[vertex_set::lowest(either)] <= room {
        return true;
    }
    colours_within(candidates, room, g)
}

// The vertex to try: of those that go first the lowest; where there is none, the lowest.
fn branch_vertex<B: Branching>(candidates: Sides, g: &SignedGraph) -> usize
    ensures { bit_or candidates.left candidates.right ≢ 0 → mem result (bit_or candidates.left candidates.right) ≡ true }
{
    let either = candidates.left | candidates.right;
    let some = either & B::first(candidates, g);
    if some != 0 {
        return vertex_set::lowest(some);
    }
    vertex_set::lowest(either)
}

// The fuel that is left where no balanced set with its sides within these has more than `room` vertices: seen at once, or by
// trying a vertex on the left, on the right and nowhere, as long as the fuel lasts. None where that was not seen.
pub fn at_most<B: Branching>(
    candidates: Sides,
    room: u64,
    table: &[u64; 64],
    g: &SignedGraph,
    fuel: u64,
) -> Option<u64>
    ensures { IsSome result → AtMostBy table.now g.now.positive g.now.negative candidates.left candidates.right room }
{
    if is_bounded(candidates, room, table, g) {
        return Some(fuel);
    }
    if fuel == 0 {
        return None;
    }
    if room == 0 {
        return None;
    }
    let v = branch_vertex::<B>(candidates, g);
    let others = !vertex_set::single(v);
    let partners = g.partners(v);
    let same = partners.positive & others;
    let cross = partners.negative & others;
    let mut fuel = fuel - 1;
    if vertex_set::contains(candidates.left, v) {
        fuel = at_most::<B>(meet(candidates, same, cross), room - 1, table, g, fuel)?;
    }
    if vertex_set::contains(candidates.right, v) {
        fuel = at_most::<B>(meet(candidates, cross, same), room - 1, table, g, fuel)?;
    }
    at_most::<B>(meet(candidates, others, others), room, table, g, fuel)
}

// A bound on the size of the balanced sets among the vertices from v up, `most` being one for those above; `all` are the vertices
// that a balanced set may hold.
// kept: a vertex is an index of 64 rows; a type round it would be made and taken apart again at each row.
fn bound_from(v: usize, all: u64, above: u64, most: u64, table: &[u64; 64], g: &SignedGraph) -> u64
    requires { (v < 64) × (most < 64) }
    ensures upper_bound { result ≤ most + 1 }
    ensures for_sound { ForSound g.now.positive g.now.negative (λ h.
        vertices h ≡ all → TabledFrom h table.now (v + 1) above most → AtMostFrom h v result) }
{
    if !vertex_set::contains(all, v) {
        return most;
    }
    if most == 0 {
        return 1;
    }
    let partners = g.partners(v);
    let beside = Sides {
        left: partners.positive & above,
        right: partners.negative & above,
    };
    match at_most::<LowestFirst>(beside, most - 1, table, g, TABLE_FUEL) {
        Some(_) => most,
        None => most + 1,
    }
}

// For each of n vertices, a bound on the size of the balanced sets among the vertices from it up; `all` are those that a balanced
// set may hold.
pub fn size_table(n: u64, all: u64, g: &SignedGraph) -> [u64; 64]
    ensures { SizeTable n all g.now.positive g.now.negative result }
{
    let mut table = [0u64; 64];
    if 64 < n {
        return table;
    }
    let mut above: u64 = 0;
    let mut most: u64 = 0;
    for v in (0..n as usize).rev() {
        most = bound_from(v, all, above, most, &table, g);
        table[v] = most;
        above = above | (vertex_set::single(v) & all);
    }
    table
}
