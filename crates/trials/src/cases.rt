// The lines of the input. A case is a letter, which names a call, and then bytes, each a space and two digits in hexadecimal.
// A line that begins with # is no case.
ghost use Rattle.std.specs.Prelude.{◌<◌, ◌≤◌, IfSome, length};

use crate::{calls, counting, edge_lists, listings};
use pages::Bookmark;
use signed_graph::SignedGraph;
use std::io::Result;

// The most bytes of a case.
const MOST: usize = 128;

// What a case asks for.
#[derive(Clone, Copy, Debug, PartialEq, Eq)]
enum Call {
    Decode,
    OfRows,
    Encode,
    Reduce,
    Largest,
    Classify,
    List,
    ListAfter,
    Record,
    Count,
}

// A letter that names no call.
#[derive(Clone, Copy, Debug, PartialEq, Eq)]
struct UnknownLetter;

impl TryFrom<u8> for Call {
    type Error = UnknownLetter;

    fn try_from(letter: u8) -> std::result::Result<Call, UnknownLetter> {
        match letter {
            b'd' => Ok(Call::Decode),
            b'g' => Ok(Call::OfRows),
            b'e' => Ok(Call::Encode),
            b'r' => Ok(Call::Reduce),
            b'l' => Ok(Call::Largest),
            b'c' => Ok(Call::Classify),
            b'p' => Ok(Call::List),
            b'a' => Ok(Call::ListAfter),
            b'i' => Ok(Call::Record),
            b'n' => Ok(Call::Count),
            _ => Err(UnknownLetter),
        }
    }
}

impl Call {
    // Whether the call takes so many bytes.
    fn takes(self, count: usize) -> bool {
        match self {
            Call::Decode => count <= MOST,
            Call::Encode | Call::Largest | Call::Reduce => count == 1,
            Call::List => count == 2,
            Call::Count => count == 5,
            Call::OfRows => (5..=6).contains(&count),
            Call::Classify => (2..=9).contains(&count),
            Call::ListAfter | Call::Record => (3..=10).contains(&count),
        }
    }

    // Makes the call on a graph, and returns the graph for the next one.
    fn run(self, rt: HostRuntime, x: &[u8], g: SignedGraph) -> Result<SignedGraph> {
        match self {
            Call::Decode => edge_lists::decode(rt, x),
            Call::OfRows => Ok(edge_lists::of_rows(x)),
            Call::Encode => edge_lists::encode(rt, x, g),
            Call::Reduce => calls::reduce(rt, x, g),
            Call::Largest => calls::largest(rt, x, g),
            Call::Classify => calls::classify(rt, x, g),
            Call::List => listings::list(rt, x, Bookmark::Start, g),
            Call::ListAfter => listings::list(rt, x, Bookmark::After(word(x, 2)), g),
            Call::Record => listings::record(rt, x, g),
            Call::Count => counting::count(rt, x, g),
        }
    }
}

// The value of a digit.
// kept: `to_digit` takes A to F too.
fn digit(byte: u8) -> Option<u8>
    ensures { IfSome result (λ value. value < 16) }
{
    match byte {
        b'0'..=b'9' => Some(byte - b'0'),
        b'a'..=b'f' => Some(byte - b'a' + 10),
        _ => None,
    }
}

// The value of a space and two digits.
fn value_of(text: &[u8; 3]) -> Option<u8> {
    if text[0] != b' ' {
        return None;
    }
    Some(16 * digit(text[1])? + digit(text[2])?)
}

// Reads the bytes behind the letter of a line, as many as there is space for.
fn read_bytes<'s>(text: &[u8], space: &'s mut [u8; MOST]) -> Option<&'s [u8]> {
    let (values, rest) = text.as_chunks::<3>();
    if rest.len() != 0 || MOST < values.len() {
        return None;
    }
    for (byte, value) in space.iter_mut().zip(values) {
        *byte = value_of(value)?;
    }
    Some(&space[..values.len()])
}

// Byte i of a case; 0 where it has none.
pub fn byte(x: &[u8], i: usize) -> u64 {
    match x.get(i) {
        Some(value) => u64::from(*value),
        None => 0,
    }
}

// The number of eight bytes from `start` on, low byte first.
pub fn word(x: &[u8], start: usize) -> u64 {
    let mut bytes = [0u8; 8];
    for (to, from) in bytes.iter_mut().zip(x.iter().skip(start)) {
        *to = *from;
    }
    u64::from_le_bytes(bytes)
}

// The call and the bytes of a case; none where the line is malformed.
fn read_case<'s>(letter: u8, text: &[u8], space: &'s mut [u8; MOST]) -> Option<(Call, &'s [u8])> {
    let call = Call::try_from(letter).ok()?;
    let x = read_bytes(text, space)?;
    if !call.takes(x.len()) {
        return None;
    }
    Some((call, x))
}

// Prints a line and what its call answers, and returns the graph for the next one. A malformed line is marked.
pub fn run_line(rt: HostRuntime, line: &[u8], g: SignedGraph) -> Result<SignedGraph> {
    let Some((letter, text)) = line.split_first() else {
        return Ok(g);
    };
    let mut space = [0u8; MOST];
    let case = read_case(*letter, text, &mut space);
    if case.is_none() && *letter != b'#' {
        print!(rt; "malformed: ")?;
    }
    rt.write_all(line)?;
    let next = match case {
        Some((call, x)) => call.run(rt, x, g)?,
        None => g,
    };
    println!(rt)?;
    Ok(next)
}
