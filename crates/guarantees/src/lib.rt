// The calls that demand 3 speaks of. Each does what the call of its name does, and ensures what the theorem asks of it. Nothing
// calls them: they tie the theorem to the calls.
// kept: the theorem's four calls stand together; no call's own contract can name Ran and OneOf, which stand above it.
#![tactic(auto)]

ghost use Rattle.std.specs.Prelude.{◌≡◌, IfOk};
ghost use Rattle.edge_list.specs.Decoding.{decoded};
ghost use Rattle.reduction.specs.Reductions.{reduced, reduced_left};
ghost use Rattle.largest.specs.Largest.{largest_group};
ghost use Rattle.guarantees.specs.Demand.{Ran, OneOf, call_of};

use commands::Fault;
use pages::{Bookmark, Page};
use reduction::Reduced;
use signed_graph::{Refusal, SignedGraph};
use vertex_set::Sides;

// An accepted list has a graph, the S of the theorem.
pub fn decode_call(bytes: &[u8]) -> Result<SignedGraph, Fault>
    ensures answer { result ≡ decoded bytes.now }
    ensures graph { IfOk result (λ S. decoded bytes.now ≡ Ok S) }
{
    edge_list::decode(bytes)
}

// S reduced for k is one of the graphs that a page call may get.
pub fn reduce_call(g: SignedGraph, k: u64) -> Result<Reduced, Refusal>
    ensures answer { result ≡ reduced g k }
    ensures graph { OneOf g k (reduced_left result) }
{
    reduction::reduce(g, k)
}

// A page call is one of the calls that the theorem links.
pub fn page_call(g: SignedGraph, k: u64, from: Bookmark, out: &mut [u8]) -> Page
    ensures { Ran (call_of g k from out.old result out.new) }
{
    listing::list_page(g, k, from, out)
}

// The answer that the theorem's last clause speaks of.
pub fn largest_call(g: SignedGraph, k: u64) -> Result<Sides, Refusal>
    ensures { result ≡ largest_group g k }
{
    largest::largest(g, k)
}
