// What the program `groups` has to print for an input.
#![tactic(auto)]

ghost use Rattle.std.specs.Prelude.{◌≡◌};
ghost use Rattle.edge_list.specs.Decoding.{decoded};
ghost use Rattle.largest.specs.Largest.{largest_group};
ghost use Rattle.output.specs.Output.{line_of_largest, due_of, due_for, input_of, closing_lines};

use report::Line;
use signed_graph::SignedGraph;

// A graph whose groups are due, and the threshold.
#[derive(Clone, Copy)]
pub struct Due {
    pub graph: SignedGraph,
    pub threshold: u64,
}

// The lines behind the groups.
#[derive(Clone, Copy)]
pub struct Closing {
    pub largest: Line,
    // How many groups there are.
    pub count: Line,
}

// What is due for a threshold and a list, or the line of the refusal.
// kept: document 01 names let .. else for this place.
fn due_of(threshold: u64, list: &[u8]) -> Result<Due, Line>
    ensures { result ≡ due_of (decoded list.now) threshold }
{
    let answer = edge_list::decode(list);
    let Ok(graph) = answer else {
        return Err(Line::Fault(answer.unwrap_err()));
    };
    signed_graph::check_call(graph, threshold).map_err(Line::Refusal)?;
    Ok(Due { graph, threshold })
}

// What is due for an input: its first byte is the threshold, and a list follows. An empty input is the threshold 0 and an
// empty list.
pub fn due_for(input: &[u8]) -> Result<Due, Line>
    ensures { result ≡ due_for input.now }
{
    match input.split_first() {
        Some((threshold, list)) => due_of(u64::from(*threshold), list),
        None => due_of(0, input),
    }
}

// The graph of an input and its threshold, whether its groups are due or not: a list that is refused has the graph of no
// vertices.
pub fn input_of(input: &[u8]) -> Due
    ensures { result ≡ input_of input.now }
{
    let (threshold, list) = match input.split_first() {
        Some((threshold, list)) => (u64::from(*threshold), list),
        None => (0, input),
    };
    let graph = edge_list::decode(list).unwrap_or(SignedGraph::new(0));
    Due { graph, threshold }
}

// The line of the largest group, or that there is none.
fn largest_line(g: SignedGraph, k: u64) -> Line
    ensures { result ≡ line_of_largest (largest_group g k) }
{
    match largest::largest(g, k) {
        Ok(sides) => Line::Largest(sides),
        Err(_) => Line::NoLargest,
    }
}

// The lines behind the groups of g for k, of which there are so many.
pub fn closing_lines(g: SignedGraph, k: u64, count: u64) -> Closing
    ensures { result ≡ closing_lines g k count }
{
    Closing {
        largest: largest_line(g, k),
        count: Line::Count(count),
    }
}
