// Amendment lists: a graph as bytes, with corrections behind what was given. `decode_amendments` reads one.
#![tactic(auto)]

ghost use Rattle.std.specs.Prelude.{◌≡◌};
ghost use Rattle.amendments.specs.AmendmentKind.{amendment_kind};
ghost use Rattle.amendments.specs.Decoding.{decoded_amendments};

use commands::{Fault, ListKind, Sign};
use signed_graph::SignedGraph;

struct AmendmentList;

impl ListKind for AmendmentList {
    ghost kind = { amendment_kind };

    // 24 is checked as 21.
    fn checked_as(command: u8) -> u8 {
        if command == 0x24 { 0x21 } else { command }
    }

    // Nothing that was given before counts.
    #[tactic(auto, unfolding(vertex_set::specs::Lists::any))]
    fn joins(_graph: &SignedGraph, _a: usize, _b: usize) -> bool {
        false
    }

    #[tactic(auto, unfolding(vertex_set::specs::Lists::any))]
    fn masks(_graph: &SignedGraph, _a: usize) -> bool {
        false
    }

    // The edge goes into the table of its sign, or, by 24, into neither.
    // kept: two calls by the byte alone took 1.46 times as long as an edge list's command, by sign 1.24; the bar is 1.30.
    fn put_edge(graph: &mut SignedGraph, command: u8, sign: Sign, a: usize, b: usize) {
        match sign {
            Sign::Positive => {
                commands::put_edge(command == 0x21, &mut graph.positive, a, b);
                commands::put_edge(false, &mut graph.negative, a, b);
            }
            Sign::Negative => {
                commands::put_edge(false, &mut graph.positive, a, b);
                commands::put_edge(true, &mut graph.negative, a, b);
            }
        }
    }
}

// Decodes a list whose first byte is 11: its graph, or its first fault.
#[tactic(auto, using(crate::proofs::Decoding::read_amendments))]
pub fn decode_amendments(bytes: &[u8]) -> Result<SignedGraph, Fault>
    ensures { result ≡ decoded_amendments bytes.now }
{
    commands::read_list::<AmendmentList>(bytes)
}
