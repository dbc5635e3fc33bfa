// The C calls that demand 3 speaks of. Each does what the call of its name does, and ensures what the theorem on arrays asks of it.
// Nothing calls them: they tie the theorem to the calls.
// kept: the theorem's four calls stand together; no call's own contract can name PageRan and ArrayOf, which stand above it.
#![tactic(auto)]

ghost use Rattle.std.specs.Prelude.{◌≡◌, List, ℕ};
ghost use Rattle.pages.specs.declared.Bookmark.{Bookmark};
ghost use Rattle.c_groups.specs.Calls.{largest_returns, largest_answer};
ghost use Rattle.c_graphs.specs.Calls.{decode_returns, reduce_returns};
ghost use Rattle.c_guarantees.specs.CDemand.{LeftByDecode, ArrayOf, PageRan, page_call_of};

// The array that it leaves has S, where it returns 0.
pub fn decode_call(bytes: &[u8], graph: &mut [u64], answer: &mut [u64]) -> u64
    ensures number { result ≡ decode_returns bytes.now graph.old answer.old }
    ensures words { result ≡ 0 → LeftByDecode bytes.now graph.new }
{
    mastpickle::mastpickle_decode(bytes, graph, answer)
}

// From an array with S it leaves one with S reduced for k, where it returns 0.
pub fn reduce_call(graph: &[u64], k: u64, reduced: &mut [u64], answer: &mut [u64]) -> u64
    ensures number { result ≡ reduce_returns graph.now k reduced.old answer.old }
    ensures words { (bytes : List ℕ) → LeftByDecode bytes graph.now → result ≡ 0 → ArrayOf bytes k reduced.new }
{
    mastpickle::mastpickle_reduce(graph, k, reduced, answer)
}

// A page call is one of the calls that the theorem links, from whatever bookmark its caller goes on.
pub fn page_call(
    graph: &[u64],
    k: u64,
    kind: u64,
    set: u64,
    out: &mut [u8],
    answer: &mut [u64],
) -> u64
    ensures { (from : Bookmark) → PageRan (page_call_of from graph.now k kind set out.old answer.old result out.new answer.new) }
{
    mastpickle::mastpickle_list_page(graph, k, kind, set, out, answer)
}

// The number and the words that the theorem's last clause speaks of.
pub fn largest_call(graph: &[u64], k: u64, answer: &mut [u64]) -> u64
    ensures number { result ≡ largest_returns graph.now k answer.old }
    ensures words { answer.new ≡ largest_answer graph.now k answer.old }
{
    mastpickle::mastpickle_largest(graph, k, answer)
}
