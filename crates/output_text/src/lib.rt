// What the program `groups` prints, as text: a page of groups at a time, and the lines behind them.
#![tactic(auto)]

ghost use Rattle.std.specs.Prelude.{◌≡◌, ◌/◌, ◌≤◌, length};
ghost use Rattle.group_pages.specs.Calls.{page_of};
ghost use Rattle.group_pages.specs.Records.{record_width};
ghost use Rattle.output.specs.Output.{closing_text};
ghost use Rattle.output_text.specs.Records.{records_text};
ghost use Rattle.output_text.specs.PageTexts.{page_records, page_room, page_text};

use arrayvec::ArrayString;
use output::Closing;
use pages::{Bookmark, Page};
use report::Line;
use signed_graph::SignedGraph;

// The records for which a page has room.
const PAGE_RECORDS: usize = 64;

// The bytes of a page's records.
const PAGE: usize = group_pages::RECORD_BYTES * PAGE_RECORDS;

// Enough bytes for the lines of a page.
pub const PAGE_TEXT: usize = PAGE_RECORDS * report::LONGEST;

// Enough bytes for the two lines behind the groups.
pub const CLOSING_TEXT: usize = 2 * report::LONGEST;

// Makes a text the lines of records.
fn put_records(records: &[u8], text: &mut ArrayString<PAGE_TEXT>)
    requires { length records.now / record_width ≤ page_records }
    ensures { text.new.bytes ≡ records_text records.now }
{
    text.clear();
    for record in group_pages::records_in(records) {
        let sides = group_pages::sides_of(record);
        report::write(Line::Group(sides), text).unwrap();
    }
}

// Makes a text the lines of the groups of a page; of a refused call there are none.
// kept: `list_page` fills bytes, of which so many are records.
pub fn put_page(g: SignedGraph, k: u64, from: Bookmark, text: &mut ArrayString<PAGE_TEXT>) -> Page
    ensures page { result ≡ page_of g k from page_room }
    ensures text { text.new.bytes ≡ page_text g k from }
{
    let mut space = [0u8; PAGE];
    let page = listing::list_page(g, k, from, &mut space);
    let end = group_pages::RECORD_BYTES * page.count;
    put_records(&space[..end], text);
    page
}

// The lines behind the groups; of a refusal its line alone.
pub fn closing_text(closing: Result<Closing, Line>) -> ArrayString<CLOSING_TEXT>
    ensures { result.bytes ≡ closing_text closing }
{
    let mut text = ArrayString::new();
    match closing {
        Err(line) => report::write(line, &mut text).unwrap(),
        Ok(lines) => {
            report::write(lines.largest, &mut text).unwrap();
            report::write(lines.count, &mut text).unwrap();
        }
    }
    text
}
