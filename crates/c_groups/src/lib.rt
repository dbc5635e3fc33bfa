// The calls about groups on arrays: what a set is, the largest group, and in how many groups sets lie.
#![tactic(auto)]

ghost use Rattle.std.specs.Prelude.{◌≡◌};
ghost use Rattle.c_words.specs.Refusals.{call_number};
ghost use Rattle.c_groups.specs.Answers.{verdict_words};
ghost use Rattle.c_groups.specs.Calls.{classify_returns, classify_answer, largest_returns, largest_answer, count_returns, count_counts};

use c_words::CallRefusal;
use clique::Verdict;
use vertex_set::Sides;

// A verdict and its data as words.
// kept: the numbers are those of the C interface.
fn verdict_words(verdict: Verdict) -> [u64; 4]
    ensures { result ≡ verdict_words verdict }
{
    match verdict {
        Verdict::Empty => [1, 0, 0, 0],
        Verdict::OutOfRange(p) => [2, p as u64, 0, 0],
        Verdict::Alone => [8, 0, 0, 0],
        Verdict::Masked(p) => [9, p as u64, 0, 0],
        Verdict::MissingEdge(p, q) => [3, p as u64, q as u64, 0],
        Verdict::Unbalanced(p, q, r) => [4, p as u64, q as u64, r as u64],
        Verdict::TooSmall(left, right) => [5, left, right, 0],
        Verdict::Extensible(p) => [6, p as u64, 0, 0],
        Verdict::Group(left, right) => [7, left, right, 0],
    }
}

// Writes what a set is in the graph at threshold k.
#[tactic(auto, using(c_words::proofs::Refusals::refusals))]
pub fn classify(graph: &[u64], k: u64, set: u64, answer: &mut [u64]) -> Result<(), CallRefusal>
    ensures number { call_number result ≡ classify_returns graph.now k answer.old }
    ensures words { answer.new ≡ classify_answer graph.now k set answer.old }
{
    c_words::check_arrays(graph, answer, 4)?;
    let classified = clique::classify(c_words::graph_at(graph), k, set);
    answer[..4].copy_from_slice(&classified.map_or([0; 4], verdict_words));
    classified?;
    Ok(())
}

// Writes the sides of the largest group for threshold k.
#[tactic(auto, using(c_words::proofs::Refusals::refusals))]
pub fn largest(graph: &[u64], k: u64, answer: &mut [u64]) -> Result<(), CallRefusal>
    ensures number { call_number result ≡ largest_returns graph.now k answer.old }
    ensures words { answer.new ≡ largest_answer graph.now k answer.old }
{
    c_words::check_arrays(graph, answer, 2)?;
    let found = largest::largest(c_words::graph_at(graph), k);
    let sides = found.unwrap_or(Sides { left: 0, right: 0 });
    answer[..2].copy_from_slice(&[sides.left, sides.right]);
    found?;
    Ok(())
}

// Writes for each set how many groups for threshold k contain it.
pub fn count(graph: &[u64], k: u64, sets: &[u64], counts: &mut [u64]) -> Result<(), CallRefusal>
    ensures number { call_number result ≡ count_returns graph.now k sets.now counts.old }
    ensures words { counts.new ≡ count_counts graph.now k sets.now counts.old }
{
    let g = c_words::read_graph(graph)?;
    Ok(counts::count_containing(g, k, sets, counts)?)
}
