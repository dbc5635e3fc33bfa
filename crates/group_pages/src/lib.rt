// Pages of groups: a group's record, a page with one more of them, and the records of a listing, as bytes and as sides.
#![tactic(auto)]

ghost use Rattle.std.specs.Prelude.{◌≡◌, [], ◌∷◌, ◌++◌, ◌≤◌, length, drop};
ghost use Rattle.std.specs.Int.Bits.{bit_or};
ghost use Rattle.group_pages.specs.Filling.{AddsGroups};
ghost use Rattle.group_pages.specs.Records.{record_width, sides_record, records_in, record_at, sides_of, sides_at};

use pages::{Bookmark, End, Page};
use vertex_set::Sides;

// The bytes of a record.
pub const RECORD_BYTES: usize = 16;

// The records of a listing; a last one that is not wholly there is none of them.
pub fn records_in(listing: &[u8]) -> &[[u8; RECORD_BYTES]]
    ensures { result.now ≡ records_in listing.now }
{
    let (records, _) = listing.as_chunks();
    records
}

// The sides that a record has.
// kept: a TryFrom or From is not possible: neither type is of this crate.
pub fn sides_of(record: &[u8; RECORD_BYTES]) -> Sides
    ensures { result ≡ sides_of record.now }
{
    Sides {
        left: words::read_word(record),
        right: words::read_word(&record[8..]),
    }
}

// Record i of a listing, as a part of it; an empty part where record i is not wholly there.
#[tactic(auto, using(crate::proofs::Records::records_read))]
pub fn record_at(listing: &[u8], i: u64) -> &[u8]
    ensures { result.now ≡ record_at listing.now i }
{
    match records_in(listing).get(i as usize) {
        Some(record) => record,
        None => &[],
    }
}

// The sides that record i of a listing has; both empty where record i is not wholly there.
#[tactic(auto, using(crate::proofs::Records::records_read))]
pub fn sides_at(listing: &[u8], i: u64) -> Sides
    ensures { result ≡ sides_at listing.now i }
{
    match records_in(listing).get(i as usize) {
        Some(record) => sides_of(record),
        None => Sides { left: 0, right: 0 },
    }
}

// Writes the record of a group with these sides.
#[tactic(auto, unfolding(crate::specs::Records::sides_record, words::specs::Words::word_bytes))]
fn write_record(sides: Sides, out: &mut [u8])
    requires { record_width ≤ length out.old }
    ensures { out.new ≡ sides_record sides.left sides.right ++ drop record_width out.old }
{
    words::write_word(sides.left, out);
    words::write_word(sides.right, &mut out[8..]);
}

// A page with one due group more: its record goes behind those already written; where there is no place for it, there is more.
pub fn put_group(page: Page, sides: Sides, out: &mut [u8]) -> Page
    ensures { (m : Bookmark)
        → AddsGroups m (record { vertices = bit_or sides.left sides.right; left = sides.left; right = sides.right } ∷ []) page
        out.old result out.new }
{
    if out.len() / RECORD_BYTES <= page.count {
        return Page {
            end: End::More,
            ..page
        };
    }
    write_record(sides, &mut out[RECORD_BYTES * page.count..]);
    Page {
        count: page.count + 1,
        next: Bookmark::After(sides.left | sides.right),
        end: End::Finished,
        ..page
    }
}
