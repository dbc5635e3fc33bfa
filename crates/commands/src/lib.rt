// Lists of commands that give a graph: what a command does, why a list is refused, and the reader of both kinds.
#![tactic(auto)]

ghost use Rattle.std.specs.Prelude.{◌≡◌, ◌∷◌, ◌+◌, ◌^◌, ◌≤◌, ◌<◌, length, drop};
ghost use Rattle.signed_graph.specs.Graphs.{edgeless};
ghost use Rattle.commands.specs.Faults as faults;
ghost use Rattle.commands.specs.Steps.{edge_step, mask_step, command_step};
ghost use Rattle.commands.specs.Tables.{put_vertex, put_edge};
ghost use Rattle.commands.specs.ListKinds.{Kind, read_from, read_list};

use signed_graph::{MOST_VERTICES, SignedGraph};

#[derive(Clone, Copy, Debug, PartialEq, Eq)]
pub enum Sign {
    Positive,
    Negative,
}

// Why a list is refused, with the place of the byte where that is not the first.
#[derive(Clone, Copy, Debug, PartialEq, Eq)]
pub enum Fault {
    // It begins with neither 10 nor 11.
    NoOpening,
    // It says more than 64.
    TooManyVertices,
    UnknownCommand(usize),
    // It ends inside a command.
    Truncated(usize),
    // A vertex of a command is not one of the graph's.
    OutOfRange(usize),
    // An edge joins a vertex to itself.
    Loop(usize),
    // An edge joins two vertices that an earlier one joins.
    Repeated(usize),
    // A vertex is masked that an earlier command masks.
    MaskedTwice(usize),
    // It ends where a command is due.
    Unclosed(usize),
    // Bytes stand behind the close.
    TrailingBytes(usize),
}

// What a command does that has no fault.
#[derive(Clone, Copy, Debug, PartialEq, Eq)]
pub enum Step {
    Edge(Sign, usize, usize),
    Mask(usize),
    Close,
}

impl Fault {
    // The number of the refusal.
    pub fn number(self) -> u64
        ensures { result ≡ faults.fault_number self }
    {
        // kept: the numbers are the paper's, and C's.
        match self {
            Fault::NoOpening => 1,
            Fault::TooManyVertices => 2,
            Fault::UnknownCommand(_) => 3,
            Fault::Truncated(_) => 4,
            Fault::OutOfRange(_) => 5,
            Fault::Loop(_) => 6,
            Fault::Repeated(_) => 7,
            Fault::MaskedTwice(_) => 15,
            Fault::Unclosed(_) => 8,
            Fault::TrailingBytes(_) => 9,
        }
    }

    // The place of the byte at which the list is refused.
    pub fn place(self) -> usize
        ensures { result ≡ faults.fault_place self }
    {
        match self {
            Fault::NoOpening | Fault::TooManyVertices => 0,
            Fault::UnknownCommand(at)
            | Fault::Truncated(at)
            | Fault::OutOfRange(at)
            | Fault::Loop(at)
            | Fault::Repeated(at)
            | Fault::MaskedTwice(at)
            | Fault::Unclosed(at)
            | Fault::TrailingBytes(at) => at,
        }
    }
}

// The number of an answer: 0 where the list is accepted.
// kept: apart from `answer_number`, as that says.
pub fn outcome_number<T>(outcome: &Result<T, Fault>) -> u64
    ensures { result ≡ faults.outcome_number outcome.now }
{
    match outcome {
        Ok(_) => 0,
        Err(fault) => fault.number(),
    }
}

// The place of the fault in an answer; 0 where there is none.
// kept: a Result cannot become a number by From, and C and the program want one.
pub fn outcome_place<T>(outcome: &Result<T, Fault>) -> usize
    ensures { result ≡ faults.outcome_place outcome.now }
{
    match outcome {
        Ok(_) => 0,
        Err(fault) => fault.place(),
    }
}

// The graph of an accepted list; the graph of no vertices where it is refused.
// kept: C gets this graph on a refusal.
pub fn graph_given(outcome: &Result<SignedGraph, Fault>) -> SignedGraph
    ensures { result ≡ faults.graph_given outcome.now }
{
    match outcome {
        Ok(graph) => *graph,
        Err(_) => SignedGraph::new(0),
    }
}

// The set s with the vertex q, or without it.
// kept: present as in put_edge; a vertex is an index of 64 rows; a type round it would be made and taken apart again at each row.
#[tactic(auto, using(vertex_set::proofs::Collections::single_pow))]
fn put_vertex(present: bool, q: usize, s: u64) -> u64
    requires { q < 64 }
    ensures { result ≡ put_vertex present q s }
{
    if present {
        return s | vertex_set::single(q);
    }
    s & !vertex_set::single(q)
}

// Makes a and b partners in a table, or no partners.
// kept: present is what the table is to say; an amendment list knows it only from a command's byte.
#[tactic(auto, using(crate::proofs::Tables::stored_is))]
pub fn put_edge(present: bool, rows: &mut [u64; 64], a: usize, b: usize)
    requires { (a < 64) × (b < 64) }
    ensures { rows.new ≡ put_edge present rows.old a b }
{
    let x = put_vertex(present, b, rows[a]);
    rows[a] = x;
    let y = put_vertex(present, a, rows[b]);
    rows[b] = y;
}

// A kind of list: as which byte a command is checked, what was given before it, and what its edge changes.
pub trait ListKind {
    ghost kind: { Kind };

    fn checked_as(command: u8) -> u8
        ensures { result ≡ kind.checked_as command };

    // Whether an edge that counts was given between a and b.
    fn joins(graph: &SignedGraph, a: usize, b: usize) -> bool
        requires { (a < 64) × (b < 64) }
        ensures { result ≡ (kind.earlier graph.now).joined a b };

    // Whether a mask of a was given that counts.
    fn masks(graph: &SignedGraph, a: usize) -> bool
        ensures { result ≡ (kind.earlier graph.now).masked a };

    // Has the graph say of the edge what the command says.
    fn put_edge(graph: &mut SignedGraph, command: u8, sign: Sign, a: usize, b: usize)
        requires { (a < 64) × (b < 64) }
        ensures { graph.new ≡ kind.with_edge command sign a b graph.old };
}

// A command of a list of n vertices: the byte as which it is checked, the part of the list behind its own, and its place.
#[derive(Clone, Copy)]
struct Command<'a> {
    checked: u8,
    behind: &'a [u8],
    at: usize,
    n: usize,
    ghost small: { n ≤ 64 },
    ghost within: { at + length behind.now < 2 ^ 64 },
}

impl Command<'_> {
    // The edge that it gives.
    #[tactic(auto, unfolding(crate::specs::Steps::edge_step), using(std::proofs::lemmas::Bool::Decides::nat_tests))]
    fn edge<K: ListKind>(&self, sign: Sign, graph: &SignedGraph) -> Result<Step, Fault>
        ensures { result ≡ edge_step (K.kind.earlier graph.now).joined self.now.n sign self.now.behind.now self.now.at }
    {
        let [a, b, ..] = self.behind else {
            return Err(Fault::Truncated(self.at));
        };
        let a = *a as usize;
        let b = *b as usize;
        if self.n <= a || self.n <= b {
            return Err(Fault::OutOfRange(self.at));
        }
        if a == b {
            return Err(Fault::Loop(self.at));
        }
        if K::joins(graph, a, b) {
            return Err(Fault::Repeated(self.at));
        }
        Ok(Step::Edge(sign, a, b))
    }

    // The vertex that it masks.
    #[tactic(auto, unfolding(crate::specs::Steps::mask_step), using(std::proofs::lemmas::Bool::Decides::nat_tests))]
    fn mask<K: ListKind>(&self, graph: &SignedGraph) -> Result<Step, Fault>
        ensures { result ≡ mask_step (K.kind.earlier graph.now).masked self.now.n self.now.behind.now self.now.at }
    {
        let [a, ..] = self.behind else {
            return Err(Fault::Truncated(self.at));
        };
        let a = *a as usize;
        if self.n <= a {
            return Err(Fault::OutOfRange(self.at));
        }
        if K::masks(graph, a) {
            return Err(Fault::MaskedTwice(self.at));
        }
        Ok(Step::Mask(a))
    }

    // What it does.
    #[tactic(auto, unfolding(crate::specs::Steps::command_step, crate::specs::Steps::step_by, crate::specs::Steps::command_of), using(std::proofs::lemmas::Bool::Decides::nat_tests))]
    fn step<K: ListKind>(&self, graph: &SignedGraph) -> Result<Step, Fault>
        ensures { result ≡ command_step (K.kind.earlier graph.now) self.now.n (self.now.checked ∷ self.now.behind.now) self.now.at }
    {
        match self.checked {
            0x21 => self.edge::<K>(Sign::Positive, graph),
            0x22 => self.edge::<K>(Sign::Negative, graph),
            0x23 => self.mask::<K>(graph),
            0xff if self.behind.is_empty() => Ok(Step::Close),
            0xff => Err(Fault::TrailingBytes(self.at + 1)),
            _ => Err(Fault::UnknownCommand(self.at)),
        }
    }
}

// Decodes the commands behind the opening of a list of n vertices.
fn read_commands<K: ListKind>(bytes: &[u8], n: usize) -> Result<SignedGraph, Fault>
    requires { (n ≤ 64) × (2 ≤ length bytes.now) }
    ensures { result ≡ read_from K.kind n (edgeless n) 0 (drop 2 bytes.now) 2 }
{
    let mut graph = SignedGraph::new(n as u64);
    let mut at: usize = 2;
    // kept: a fault has the place, and it moves by the length of a command; over the bytes left it would be counted back from them.
    while at < bytes.len() {
        let byte = bytes[at];
        let command = Command {
            checked: K::checked_as(byte),
            behind: &bytes[at + 1..],
            at,
            n,
        };
        let step = command.step::<K>(&graph)?;
        match step {
            Step::Edge(sign, a, b) => {
                K::put_edge(&mut graph, byte, sign, a, b);
                at += 3;
            }
            Step::Mask(a) => {
                graph.masked |= vertex_set::single(a);
                at += 2;
            }
            Step::Close => return Ok(graph),
        }
    }
    Err(Fault::Unclosed(at))
}

// Decodes a list of this kind, whatever its first byte is.
#[tactic(auto, unfolding(crate::specs::ListKinds::read_list))]
pub fn read_list<K: ListKind>(bytes: &[u8]) -> Result<SignedGraph, Fault>
    ensures { result ≡ read_list K.kind bytes.now }
{
    let [_, n, ..] = bytes else {
        return Err(Fault::Truncated(0));
    };
    let n = *n as usize;
    if MOST_VERTICES < n as u64 {
        return Err(Fault::TooManyVertices);
    }
    read_commands::<K>(bytes, n)
}
