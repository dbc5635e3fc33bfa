// The calls about the listing on arrays: its pages, and the records of a listing.
#![tactic(auto)]

ghost use Rattle.std.specs.Prelude.{◌≡◌, length, IfOk};
ghost use Rattle.group_pages.specs.Records.{record_at};
ghost use Rattle.c_words.specs.Refusals.{own_number, call_number};
ghost use Rattle.c_pages.specs.Refusals.{kind_refusal};
ghost use Rattle.c_pages.specs.Answers.{mark_at, record_words, part_at};
ghost use Rattle.c_pages.specs.Calls.{list_page_returns, list_page_buffer, list_page_answer, record_at_returns, record_at_answer};

use c_words::{CallRefusal, InterfaceRefusal};
use pages::Bookmark;

// The bytes of a record.
const RECORD_WIDTH: u64 = group_pages::RECORD_BYTES as u64;

// The bookmark of this kind.
// kept: a TryFrom or From is not possible: neither type is of this crate.
fn mark_at(kind: u64, set: u64) -> Result<Bookmark, InterfaceRefusal>
    ensures number { own_number result ≡ kind_refusal kind }
    ensures mark { IfOk result (λ mark. mark ≡ mark_at kind set) }
{
    match kind {
        0 => Ok(Bookmark::Start),
        1 => Ok(Bookmark::After(set)),
        _ => Err(InterfaceRefusal::NoBookmark),
    }
}

// Where record i of a listing stands: its first byte and its length.
#[tactic(auto, using(crate::proofs::Records::places))]
fn record_words(listing: &[u8], i: u64) -> [u64; 2]
    ensures place { result ≡ record_words (length listing.now) i }
    ensures part { part_at listing.now result ≡ record_at listing.now i }
{
    match group_pages::records_in(listing).get(i as usize) {
        Some(_) => [RECORD_WIDTH * i, RECORD_WIDTH],
        None => [0, 0],
    }
}

// Writes a page of the listing for threshold k, and its answer.
#[tactic(auto, using(crate::proofs::Refusals::page_refusals))]
pub fn list_page(
    graph: &[u64],
    k: u64,
    kind: u64,
    set: u64,
    out: &mut [u8],
    answer: &mut [u64],
) -> Result<(), CallRefusal>
    ensures number { call_number result ≡ list_page_returns graph.now k kind answer.old }
    ensures bytes { out.new ≡ list_page_buffer graph.now k kind set out.old answer.old }
    ensures words { answer.new ≡ list_page_answer graph.now k kind set out.old answer.old }
{
    c_words::check_arrays(graph, answer, 4)?;
    let from = mark_at(kind, set)?;
    let page = listing::list_page(c_words::graph_at(graph), k, from, out);
    answer[..4].copy_from_slice(&pages::page_values(page));
    Ok(page.outcome?)
}

// Writes where record i of a listing stands.
pub fn record_at(listing: &[u8], i: u64, answer: &mut [u64]) -> Result<(), CallRefusal>
    ensures number { call_number result ≡ record_at_returns answer.old }
    ensures words { answer.new ≡ record_at_answer listing.now i answer.old }
    ensures part { call_number result ≡ 0 → part_at listing.now answer.new ≡ record_at listing.now i }
{
    c_words::check_answer(answer, 2)?;
    answer[..2].copy_from_slice(&record_words(listing, i));
    Ok(())
}
