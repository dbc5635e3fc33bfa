// Graphs that are known to be sound.
ghost use Rattle.std.specs.Prelude.{◌≡◌, true};
ghost use Rattle.signed_graph.specs.Soundness.{sound};

use crate::{Refusal, SignedGraph};

// A sound graph.
#[derive(Clone, Copy)]
pub struct SoundGraph<'a> {
    pub graph: &'a SignedGraph,
    pub ghost is_sound: { sound graph.now ≡ true },
}

impl<'a> SoundGraph<'a> {
    ghost use Rattle.std.specs.Prelude.{IfOk};
    ghost use Rattle.signed_graph.specs.Calls.{graph_check, check_of, checked};

    // The graph g, unless a call on g is refused for its graph.
    pub fn check_graph(g: &'a SignedGraph) -> Result<SoundGraph<'a>, Refusal>
        ensures answer { checked result ≡ graph_check g.now }
        ensures graph { IfOk result (λ s. s.graph.now ≡ g.now) }
    {
        crate::pass_graph(g)?;
        Ok(SoundGraph { graph: g })
    }

    // The graph g, unless a call on g with threshold k is refused.
    pub fn check_call(g: &'a SignedGraph, k: u64) -> Result<SoundGraph<'a>, Refusal>
        ensures answer { checked result ≡ check_of g.now k }
        ensures graph { IfOk result (λ s. s.graph.now ≡ g.now) }
    {
        crate::pass_call(g, k)?;
        Ok(SoundGraph { graph: g })
    }
}
