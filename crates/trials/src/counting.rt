// Graphs through `count_containing`.
use crate::cases::{byte, word};
use crate::printing::{FILL, front, print_buffer, print_outcome};
use signed_graph::SignedGraph;
use std::io::Result;

// The most sets of a case, and the most places for counts.
const PLACES: usize = 300;

// The set of all 64 vertices.
const ALL: u64 = u64::MAX;

// The number of two bytes from `start` on, low byte first.
fn two_bytes(x: &[u8], start: usize) -> u64 {
    word(x, start) % 65536
}

// Puts 0, 1, 2 and so on into all places but the last.
fn put_sets(sets: &mut [u64]) {
    if let Some((_, others)) = sets.split_last_mut() {
        for (i, set) in others.iter_mut().enumerate() {
            *set = i as u64;
        }
    }
}

// Counts into so many places for so many sets: 0, 1, 2 and so on, but the last is all 64 vertices.
pub fn count(rt: HostRuntime, x: &[u8], g: SignedGraph) -> Result<SignedGraph> {
    let mut set_space = [ALL; PLACES];
    let sets = front(two_bytes(x, 1), &mut set_space);
    put_sets(sets);
    let mut count_space = [u64::from(FILL); PLACES];
    let counts = front(two_bytes(x, 3), &mut count_space);
    let answer = counts::count_containing(g, byte(x, 0), sets, counts);
    print_outcome(rt, signed_graph::answer_number(&answer))?;
    print_buffer(rt, counts)?;
    Ok(g)
}
