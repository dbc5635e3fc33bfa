// The canonical form of a graph as an edge list: `encode` writes it.
#![tactic(auto)]

ghost use Rattle.std.specs.Prelude.{◌≡◌, ◌≤◌, ◌<◌, length};
ghost use Rattle.vertex_set.specs.Buffers.{overwritten};
ghost use Rattle.vertex_set.specs.Sets.{mem};
ghost use Rattle.commands.specs.Entries.{command_byte, entry_bytes};
ghost use Rattle.canonical.specs.Canonical.{ordered_edges, masks_of, canonical};
ghost use Rattle.signed_graph.specs.Calls.{answer_number};
ghost use Rattle.canonical.specs.Encoding.{encoded, encoded_length, buffered, encoding_number, encoding_length};
ghost use Rattle.canonical.specs.EdgeRows.{sign_by, edges_to};

use signed_graph::sound::SoundGraph;
use signed_graph::{Refusal, SignedGraph};
use vertex_set::buffer::overwrite;

// The command of an edge to q, which is positive where q is in `positive`.
fn edge_command(positive: u64, q: usize) -> u8
    ensures { result ≡ command_byte (sign_by (mem q positive)) }
{
    if vertex_set::contains(positive, q) {
        0x21
    } else {
        0x22
    }
}

// Writes the edges from p to the members of s, and returns how many bytes they take.
// kept: a vertex is an index of 64 rows; a type round it would be made and taken apart again at each row.
fn put_edges(positive: u64, s: u64, p: usize, out: &mut [u8]) -> usize
    requires { (p < 64) × (length (entry_bytes (edges_to positive s p)) ≤ length out.old) }
    ensures length { result ≡ length (entry_bytes (edges_to positive s p)) }
    ensures bytes { out.new ≡ overwritten (entry_bytes (edges_to positive s p)) out.old }
{
    // kept: `at` is returned; pieces of three bytes beside the members would not tell where the last one ends.
    let mut at: usize = 0;
    for q in vertex_set::members(s) {
        let command = edge_command(positive, q);
        overwrite(&[command, p as u8, q as u8], &mut out[at..]);
        at += 3;
    }
    at
}

// Writes the edges of a graph, and returns how many bytes they take.
// kept: `at` is returned, as in put_edges.
fn put_rows(g: SoundGraph, out: &mut [u8]) -> usize
    requires { length (entry_bytes (ordered_edges g.graph.now)) ≤ length out.old }
    ensures length { result ≡ length (entry_bytes (ordered_edges g.entry.graph.now)) }
    ensures bytes { out.new ≡ overwritten (entry_bytes (ordered_edges g.entry.graph.now)) out.old }
{
    let mut at: usize = 0;
    for p in 0..g.graph.n as usize {
        let partners = g.graph.partners(p);
        let above = signed_graph::members_above(partners.positive, partners.negative, p);
        let written = put_edges(partners.positive, above, p, &mut out[at..]);
        at += written;
    }
    at
}

// Writes the masks of the vertices of a set, and returns how many bytes they take.
fn put_masks(masked: u64, out: &mut [u8]) -> usize
    requires { length (entry_bytes (masks_of masked)) ≤ length out.old }
    ensures length { result ≡ length (entry_bytes (masks_of masked)) }
    ensures bytes { out.new ≡ overwritten (entry_bytes (masks_of masked)) out.old }
{
    // kept: a twin of put_edges, but for the bytes; a closure that gives them needs more clauses than this has lines.
    let mut at: usize = 0;
    for p in vertex_set::members(masked) {
        overwrite(&[0x23, p as u8], &mut out[at..]);
        at += 2;
    }
    at
}

// Writes the canonical form of a graph.
fn put_canonical(g: SoundGraph, out: &mut [u8])
    requires { length (canonical g.graph.now) ≤ length out.old }
    ensures { out.new ≡ overwritten (canonical g.entry.graph.now) out.old }
{
    out[0] = 0x10;
    out[1] = g.graph.n as u8;
    let edges = put_rows(g, &mut out[2..]);
    let behind = 2 + edges;
    let masks = put_masks(g.graph.masked, &mut out[behind..]);
    let close = behind + masks;
    out[close] = 0xff;
}

// Writes the canonical form of a graph, if the graph is sound and the buffer has room for it: how many bytes it takes.
#[tactic(auto, unfolding(crate::specs::Encoding::encoded, crate::specs::Encoding::buffered, crate::specs::Encoding::encoding_number, crate::specs::Encoding::encoding_length), using(crate::proofs::Rows::length_sound, signed_graph::proofs::EdgeCounts::edges_most, vertex_set::proofs::SizeBounds::size_64, std::proofs::lemmas::Bool::Decides::nat_tests))]
pub fn encode(g: SignedGraph, out: &mut [u8]) -> Result<usize, Refusal>
    ensures answer { result ≡ encoded g (length out.old) }
    ensures number { answer_number result ≡ encoding_number g (length out.old) }
    ensures size { encoded_length result ≡ encoding_length g (length out.old) }
    ensures buffer { out.new ≡ buffered g out.old }
{
    let sound = SoundGraph::check_graph(&g)?;
    let masks = vertex_set::size(g.masked) as usize;
    let need = 3 + 3 * signed_graph::count_edges(g) + 2 * masks;
    if out.len() < need {
        return Err(Refusal::BufferTooShort);
    }
    put_canonical(sound, out);
    Ok(need)
}
