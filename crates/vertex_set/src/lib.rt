// Sets of at most 64 vertices as u64 numbers: bit p says whether vertex p is in the set.
// `&`, `|`, `^` and `& !` are intersection, union, what only one has, and difference; `s & (s - 1)` is s without its lowest vertex.
// kept: a set is its number and no struct, as records and C's arrays have it.
#![tactic(auto)]

ghost use Rattle.std.specs.Prelude.{◌≡◌, leb};
ghost use Rattle.vertex_set.specs.Sets.{mem, size, lowest, single, below, SoleMember};
ghost use Rattle.vertex_set.specs.Order.{precedes};

pub mod buffer;
pub mod traversal;

// Vertices for the left and for the right.
#[derive(Clone, Copy, Debug, PartialEq, Eq)]
pub struct Sides {
    pub left: u64,
    pub right: u64,
}

// Whether the vertex p is in s.
pub fn contains(s: u64, p: usize) -> bool
    ensures { result ≡ mem p s }
{
    if p < 64 { (s >> p) % 2 == 1 } else { false }
}

// How many vertices s has.
pub fn size(s: u64) -> u64
    ensures { result ≡ size s }
{
    u64::count_ones(s) as u64
}

// Whether s has two vertices or more.
pub fn has_two(s: u64) -> bool
    ensures { result ≡ leb 2 (size s) }
{
    if s == 0 {
        return false;
    }
    s & (s - 1) != 0
}

// The lowest vertex of s; 64 where it has none.
// kept: 64 for none is what trailing zeros give, the form that document 01 names.
pub fn lowest(s: u64) -> usize
    ensures { result ≡ lowest s }
{
    u64::trailing_zeros(s) as usize
}

// The set of p alone; empty for p over 63.
pub fn single(p: usize) -> u64
    ensures { result ≡ single p }
{
    if p < 64 { 1 << p } else { 0 }
}

// The n lowest vertices; all 64 for n over 64.
pub fn below(n: u64) -> u64
    ensures { result ≡ below n }
{
    if n < 64 {
        (1 << n) - 1
    } else {
        0xffff_ffff_ffff_ffff
    }
}

// Whether a comes before b in listing order.
pub fn comes_before(a: u64, b: u64) -> bool
    ensures { result ≡ precedes a b }
{
    contains(a, lowest(a ^ b))
}

// The members of s, ascending.
pub fn members(s: u64) -> traversal::Members
    ensures { result.left ≡ s }
{
    traversal::Members { left: s }
}

// The set s where it has one member, else the empty set.
pub fn sole_member(s: u64) -> u64
    ensures { SoleMember s result }
{
    if has_two(s) { 0 } else { s }
}
