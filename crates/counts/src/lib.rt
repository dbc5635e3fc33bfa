// In how many groups sets of vertices lie, for many sets in one walk of the listing.
#![tactic(auto)]

ghost use Rattle.std.specs.Prelude.{◌≡◌, take};
ghost use mathlib.Core.List.{foldl};
ghost use Rattle.vertex_set.specs.Ranges.{bit};
ghost use Rattle.vertex_set.specs.Sets.{within};
ghost use Rattle.signed_graph.specs.Calls.{passed, check_of, answer_number};
ghost use Rattle.clique.specs.Listing.{listing};
ghost use Rattle.group_pages.specs.Calls.{due_groups, page_of};
ghost use Rattle.counts.specs.Calls.{counting_of, counts_of, counts_number};
ghost use Rattle.counts.specs.Tallies.{walk_records, walk_room, raised, raised_by, record_sets};

use pages::{Bookmark, End, Page};
use signed_graph::{Refusal, SignedGraph};

// The most sets of a call.
pub const MOST_SETS: usize = 256;

// The records for which a page has room.
const PAGE_RECORDS: usize = 1024;

// The bytes of a page's records.
const PAGE: usize = group_pages::RECORD_BYTES * PAGE_RECORDS;

// Counts a group with the vertices v at each set that lies in it. No count wraps: there are fewer than 2 to the 64 groups.
// kept: a proof knows no elements behind an adapter of `iter_mut`, so no `zip`.
fn count_group(v: u64, sets: &[u64], counts: &mut [u64])
    ensures { counts.new ≡ raised sets.now counts.old v }
{
    for i in 0..sets.len().min(counts.len()) {
        let set = sets[i];
        counts[i] = counts[i].wrapping_add((set & v == set) as u64);
    }
}

// Counts the groups of records.
fn count_records(records: &[u8], sets: &[u64], counts: &mut [u64])
    ensures { counts.new ≡ foldl (raised sets.now) counts.old (record_sets records.now) }
{
    for record in group_pages::records_in(records) {
        let sides = group_pages::sides_of(record);
        count_group(sides.left | sides.right, sets, counts);
    }
}

// Counts the groups of a page, and returns the page.
// kept: `check_of` is of a graph and a threshold together, and two functions here ask for it; `list_page` fills bytes.
fn count_page(g: SignedGraph, k: u64, from: Bookmark, sets: &[u64], counts: &mut [u64]) -> Page
    requires { check_of g k ≡ passed }
    ensures page { result ≡ page_of g k from walk_room }
    ensures counts { counts.new ≡ foldl (raised_by sets.now) counts.old (take walk_records (due_groups g k from)) }
{
    let mut space = [0u8; PAGE];
    let page = listing::list_page(g, k, from, &mut space);
    let end = group_pages::RECORD_BYTES * page.count;
    count_records(&space[..end], sets, counts);
    page
}

// Counts all groups, page by page.
// kept: apart from the program's walk, which prints and may fail; a closure for both steps is longer than the loop.
fn count_groups(g: SignedGraph, k: u64, sets: &[u64], counts: &mut [u64])
    requires { check_of g k ≡ passed }
    ensures { counts.new ≡ foldl (raised_by sets.now) counts.old (listing g k) }
{
    let mut from = Bookmark::Start;
    loop {
        let page = count_page(g, k, from, sets, counts);
        let End::More = page.end else {
            return;
        };
        from = page.next;
    }
}

// For each set how many groups for k contain it, at the front of `counts`.
pub fn count_containing(
    g: SignedGraph,
    k: u64,
    sets: &[u64],
    counts: &mut [u64],
) -> Result<(), Refusal>
    ensures answer { result ≡ counting_of g k sets.now counts.old }
    ensures counts { counts.new ≡ counts_of g k sets.now counts.old }
    ensures number { answer_number result ≡ counts_number g k sets.now counts.old }
{
    signed_graph::check_call(g, k)?;
    if counts.len() < sets.len() {
        return Err(Refusal::BufferTooShort);
    }
    if MOST_SETS < sets.len() {
        return Err(Refusal::TooManySets);
    }
    let front = &mut counts[..sets.len()];
    front.fill(0);
    count_groups(g, k, sets, front);
    Ok(())
}
