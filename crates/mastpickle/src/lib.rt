// Each call of the finder on numbers and slices, under its C name. `mastpickle_c` exports these functions; include/mastpickle.h
// says how they are used.
// kept: `mastpickle_c` has each function once more, by the C interface: c_guarantees cannot stand on a static library.
#![tactic(auto)]

ghost use Rattle.std.specs.Prelude.{◌≡◌};
ghost use Rattle.group_pages.specs.Records.{record_at};
ghost use Rattle.c_graphs.specs.Calls.{new_returns, new_graph, check_sound_returns, check_call_returns, decode_returns, decode_graph, decode_answer, encode_returns, encode_buffer, encode_answer, reduce_returns, reduce_graph, reduce_answer};
ghost use Rattle.c_groups.specs.Calls.{classify_returns, classify_answer, largest_returns, largest_answer, count_returns, count_counts};
ghost use Rattle.c_pages.specs.Answers.{part_at};
ghost use Rattle.c_pages.specs.Calls.{list_page_returns, list_page_buffer, list_page_answer, record_at_returns, record_at_answer};

// Writes the graph of n vertices with no edge; of no vertices for n over 64.
pub fn mastpickle_new(n: u64, graph: &mut [u64]) -> u64
    ensures number { result ≡ new_returns graph.old }
    ensures words { graph.new ≡ new_graph n graph.old }
{
    c_words::call_number(c_graphs::new(n, graph))
}

// Whether the graph is sound.
pub fn mastpickle_check_sound(graph: &[u64]) -> u64
    ensures number { result ≡ check_sound_returns graph.now }
{
    c_words::call_number(c_graphs::check_sound(graph))
}

// Whether a call on the graph with threshold k is refused.
pub fn mastpickle_check_call(graph: &[u64], k: u64) -> u64
    ensures number { result ≡ check_call_returns graph.now k }
{
    c_words::call_number(c_graphs::check_call(graph, k))
}

// Writes the graph of an edge list or an amendment list, and the place of its fault.
pub fn mastpickle_decode(bytes: &[u8], graph: &mut [u64], answer: &mut [u64]) -> u64
    ensures number { result ≡ decode_returns bytes.now graph.old answer.old }
    ensures words { graph.new ≡ decode_graph bytes.now graph.old answer.old }
    ensures place { answer.new ≡ decode_answer bytes.now graph.old answer.old }
{
    c_words::call_number(c_graphs::decode(bytes, graph, answer))
}

// Writes the canonical edge list of the graph, and its length.
pub fn mastpickle_encode(graph: &[u64], out: &mut [u8], answer: &mut [u64]) -> u64
    ensures number { result ≡ encode_returns graph.now out.old answer.old }
    ensures bytes { out.new ≡ encode_buffer graph.now out.old answer.old }
    ensures size { answer.new ≡ encode_answer graph.now out.old answer.old }
{
    c_words::call_number(c_graphs::encode(graph, out, answer))
}

// Writes what a set is in the graph at threshold k.
pub fn mastpickle_classify(graph: &[u64], k: u64, set: u64, answer: &mut [u64]) -> u64
    ensures number { result ≡ classify_returns graph.now k answer.old }
    ensures words { answer.new ≡ classify_answer graph.now k set answer.old }
{
    c_words::call_number(c_groups::classify(graph, k, set, answer))
}

// Writes the graph reduced for threshold k, and the looks that it took.
pub fn mastpickle_reduce(graph: &[u64], k: u64, reduced: &mut [u64], answer: &mut [u64]) -> u64
    ensures number { result ≡ reduce_returns graph.now k reduced.old answer.old }
    ensures words { reduced.new ≡ reduce_graph graph.now k reduced.old answer.old }
    ensures looks { answer.new ≡ reduce_answer graph.now k reduced.old answer.old }
{
    c_words::call_number(c_graphs::reduce(graph, k, reduced, answer))
}

// Writes a page of the listing for threshold k, and its answer.
pub fn mastpickle_list_page(
    graph: &[u64],
    k: u64,
    kind: u64,
    set: u64,
    out: &mut [u8],
    answer: &mut [u64],
) -> u64
    ensures number { result ≡ list_page_returns graph.now k kind answer.old }
    ensures bytes { out.new ≡ list_page_buffer graph.now k kind set out.old answer.old }
    ensures words { answer.new ≡ list_page_answer graph.now k kind set out.old answer.old }
{
    c_words::call_number(c_pages::list_page(graph, k, kind, set, out, answer))
}

// Writes the sides of the largest group for threshold k.
pub fn mastpickle_largest(graph: &[u64], k: u64, answer: &mut [u64]) -> u64
    ensures number { result ≡ largest_returns graph.now k answer.old }
    ensures words { answer.new ≡ largest_answer graph.now k answer.old }
{
    c_words::call_number(c_groups::largest(graph, k, answer))
}

// Writes where record i of a listing stands.
pub fn mastpickle_record_at(listing: &[u8], i: u64, answer: &mut [u64]) -> u64
    ensures number { result ≡ record_at_returns answer.old }
    ensures words { answer.new ≡ record_at_answer listing.now i answer.old }
    ensures part { result ≡ 0 → part_at listing.now answer.new ≡ record_at listing.now i }
{
    c_words::call_number(c_pages::record_at(listing, i, answer))
}

// Writes for each set how many groups for threshold k contain it.
pub fn mastpickle_count(graph: &[u64], k: u64, sets: &[u64], counts: &mut [u64]) -> u64
    ensures number { result ≡ count_returns graph.now k sets.now counts.old }
    ensures words { counts.new ≡ count_counts graph.now k sets.now counts.old }
{
    c_words::call_number(c_groups::count(graph, k, sets, counts))
}
