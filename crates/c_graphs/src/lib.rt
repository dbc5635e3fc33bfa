// The calls about graphs on arrays: a new graph, the checks, lists, the reduction.
#![tactic(auto)]

ghost use Rattle.std.specs.Prelude.{◌≡◌};
ghost use Rattle.c_words.specs.Refusals.{call_number};
ghost use Rattle.c_graphs.specs.Calls.{new_returns, new_graph, check_sound_returns, check_call_returns, decode_returns, decode_graph, decode_answer, encode_returns, encode_buffer, encode_answer, reduce_returns, reduce_graph, reduce_answer};

use c_words::CallRefusal;
use signed_graph::SignedGraph;

// Writes the graph of n vertices with no edge; of no vertices for n over 64.
pub fn new(n: u64, graph: &mut [u64]) -> Result<(), CallRefusal>
    ensures number { call_number result ≡ new_returns graph.old }
    ensures words { graph.new ≡ new_graph n graph.old }
{
    c_words::check_graph(graph)?;
    c_words::put_graph(&SignedGraph::new(n), graph);
    Ok(())
}

// Whether the graph is sound.
pub fn check_sound(graph: &[u64]) -> Result<(), CallRefusal>
    ensures { call_number result ≡ check_sound_returns graph.now }
{
    c_words::check_graph(graph)?;
    Ok(signed_graph::check_graph(c_words::graph_at(graph))?)
}

// Whether a call on the graph with threshold k is refused.
pub fn check_call(graph: &[u64], k: u64) -> Result<(), CallRefusal>
    ensures { call_number result ≡ check_call_returns graph.now k }
{
    c_words::check_graph(graph)?;
    Ok(signed_graph::check_call(c_words::graph_at(graph), k)?)
}

// Writes the graph of an edge list or an amendment list, and the place of its fault.
#[tactic(auto, using(c_words::proofs::Refusals::refusals))]
pub fn decode(bytes: &[u8], graph: &mut [u64], answer: &mut [u64]) -> Result<(), CallRefusal>
    ensures number { call_number result ≡ decode_returns bytes.now graph.old answer.old }
    ensures words { graph.new ≡ decode_graph bytes.now graph.old answer.old }
    ensures place { answer.new ≡ decode_answer bytes.now graph.old answer.old }
{
    c_words::check_arrays(graph, answer, 1)?;
    let decoded = edge_list::decode(bytes);
    c_words::put_graph(&commands::graph_given(&decoded), graph);
    answer[0] = commands::outcome_place(&decoded) as u64;
    decoded?;
    Ok(())
}

// Writes the canonical edge list of the graph, and its length.
#[tactic(auto, using(c_words::proofs::Refusals::refusals))]
pub fn encode(graph: &[u64], out: &mut [u8], answer: &mut [u64]) -> Result<(), CallRefusal>
    ensures number { call_number result ≡ encode_returns graph.now out.old answer.old }
    ensures bytes { out.new ≡ encode_buffer graph.now out.old answer.old }
    ensures size { answer.new ≡ encode_answer graph.now out.old answer.old }
{
    c_words::check_arrays(graph, answer, 1)?;
    let encoded = canonical::encode(c_words::graph_at(graph), out);
    answer[0] = encoded.unwrap_or(0) as u64;
    encoded?;
    Ok(())
}

// Writes the graph reduced for threshold k, and the looks that it took.
#[tactic(auto, using(c_words::proofs::Refusals::shorter_refusals))]
pub fn reduce(
    graph: &[u64],
    k: u64,
    reduced: &mut [u64],
    answer: &mut [u64],
) -> Result<(), CallRefusal>
    ensures number { call_number result ≡ reduce_returns graph.now k reduced.old answer.old }
    ensures words { reduced.new ≡ reduce_graph graph.now k reduced.old answer.old }
    ensures looks { answer.new ≡ reduce_answer graph.now k reduced.old answer.old }
{
    c_words::check_graph(graph)?;
    c_words::check_arrays(reduced, answer, 1)?;
    let done = reduction::reduce(c_words::graph_at(graph), k);
    let left = reduction::left_by(&done);
    c_words::put_graph(&left.graph, reduced);
    answer[0] = left.looks;
    done?;
    Ok(())
}
