// A graph as words of an array, the refusals of the interface itself, and what a call through it answers.
#![tactic(auto)]

ghost use Rattle.std.specs.Prelude.{◌≡◌, ◌≤◌, length, IfOk, OnOk};
ghost use Rattle.vertex_set.specs.Buffers.{overwritten};
ghost use Rattle.c_words.specs.Graphs.{graph_words, words_of, graph_at};
ghost use Rattle.c_words.specs.Refusals.{graph_refusal, answer_refusal, own_refusal, interface_number, own_number, call_number};
ghost use Rattle.c_words.specs.declared.CallRefusal.TheVariants.{Interface, Call, Faulty};

use commands::Fault;
use signed_graph::{Refusal, SignedGraph};

// A graph is so many words: n, then the positive rows, then the negative ones, then the set of masked vertices.
pub const GRAPH_WORDS: usize = 130;

// Where the rows of either sign begin, and where the masked set is.
const FIRST_POSITIVE: usize = 1;

const FIRST_NEGATIVE: usize = 65;

const MASKED: usize = 129;

// Refusals of the interface itself, apart from those of the calls.
#[derive(Clone, Copy, Debug, PartialEq, Eq)]
pub enum InterfaceRefusal {
    ShortGraph,
    ShortAnswer,
    NoBookmark,
}

impl InterfaceRefusal {
    // The number of the refusal.
    // kept: the numbers are C's.
    pub fn number(self) -> u64
        ensures { result ≡ interface_number self }
    {
        match self {
            InterfaceRefusal::ShortGraph => 101,
            InterfaceRefusal::ShortAnswer => 102,
            InterfaceRefusal::NoBookmark => 103,
        }
    }
}

// Why a call through the interface is refused: by the interface itself, as a call on a graph, or for the list that it reads.
#[derive(Clone, Copy, Debug, PartialEq, Eq)]
pub enum CallRefusal {
    Interface(InterfaceRefusal),
    Call(Refusal),
    Faulty(Fault),
}

impl From<InterfaceRefusal> for CallRefusal {
    ghost from_gives = { λ why r. r ≡ Interface why };

    fn from(why: InterfaceRefusal) -> CallRefusal {
        CallRefusal::Interface(why)
    }
}

impl From<Refusal> for CallRefusal {
    ghost from_gives = { λ why r. r ≡ Call why };

    fn from(why: Refusal) -> CallRefusal {
        CallRefusal::Call(why)
    }
}

impl From<Fault> for CallRefusal {
    ghost from_gives = { λ fault r. r ≡ Faulty fault };

    fn from(fault: Fault) -> CallRefusal {
        CallRefusal::Faulty(fault)
    }
}

// The number that a call returns: 0 where it is not refused.
// kept: the numbers of the C interface.
pub fn call_number(answer: Result<(), CallRefusal>) -> u64
    ensures { result ≡ call_number answer }
{
    match answer {
        Ok(()) => 0,
        Err(CallRefusal::Interface(why)) => why.number(),
        Err(CallRefusal::Call(why)) => why.number(),
        Err(CallRefusal::Faulty(fault)) => fault.number(),
    }
}

// Whether an array for a graph is refused.
#[tactic(auto, unfolding(crate::specs::Refusals::graph_refusal))]
pub fn check_graph(graph: &[u64]) -> Result<(), InterfaceRefusal>
    ensures number { own_number result ≡ graph_refusal (length graph.now) }
    ensures long { OnOk result (graph_words ≤ length graph.now) }
{
    if graph.len() < GRAPH_WORDS {
        return Err(InterfaceRefusal::ShortGraph);
    }
    Ok(())
}

// The same for an answer of `needed` words.
#[tactic(auto, unfolding(crate::specs::Refusals::answer_refusal))]
pub fn check_answer(answer: &[u64], needed: usize) -> Result<(), InterfaceRefusal>
    ensures number { own_number result ≡ answer_refusal (length answer.now) needed }
    ensures long { OnOk result (needed ≤ length answer.now) }
{
    if answer.len() < needed {
        return Err(InterfaceRefusal::ShortAnswer);
    }
    Ok(())
}

// For a graph and an answer.
#[tactic(auto, using(crate::proofs::Refusals::refusals))]
pub fn check_arrays(graph: &[u64], answer: &[u64], needed: usize) -> Result<(), InterfaceRefusal>
    ensures number { own_number result ≡ own_refusal (length graph.now) (length answer.now) needed }
    ensures long { OnOk result ((graph_words ≤ length graph.now) × (needed ≤ length answer.now)) }
{
    check_graph(graph)?;
    check_answer(answer, needed)
}

// The graph at the front of an array.
// kept: no TryFrom, nor From for `put_graph`: neither slice nor graph is a type of this crate, so it cannot have such an impl.
#[tactic(auto, unfolding(crate::specs::Graphs::graph_at))]
pub fn graph_at(words: &[u64]) -> SignedGraph
    requires { graph_words ≤ length words.now }
    ensures { result ≡ graph_at words.now }
{
    let mut positive = [0; 64];
    positive.copy_from_slice(&words[FIRST_POSITIVE..FIRST_NEGATIVE]);
    let mut negative = [0; 64];
    negative.copy_from_slice(&words[FIRST_NEGATIVE..MASKED]);
    SignedGraph {
        n: words[0],
        positive,
        negative,
        masked: words[MASKED],
    }
}

// The same, where the array is not refused.
pub fn read_graph(words: &[u64]) -> Result<SignedGraph, InterfaceRefusal>
    ensures number { own_number result ≡ graph_refusal (length words.now) }
    ensures graph { IfOk result (λ g. g ≡ graph_at words.now) }
{
    check_graph(words)?;
    Ok(graph_at(words))
}

// Writes a graph to the front of an array.
pub fn put_graph(g: &SignedGraph, out: &mut [u64])
    requires { graph_words ≤ length out.old }
    ensures { out.new ≡ overwritten (words_of g.now) out.old }
{
    out[0] = g.n;
    out[FIRST_POSITIVE..FIRST_NEGATIVE].copy_from_slice(&g.positive);
    out[FIRST_NEGATIVE..MASKED].copy_from_slice(&g.negative);
    out[MASKED] = g.masked;
}
