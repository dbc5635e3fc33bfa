// Graphs through `list_page`, and listings through `record_at`.
use crate::cases::{byte, word};
use crate::printing::{FILL, ROOM, front, print_all, print_buffer, print_outcome};
use pages::Bookmark;
use signed_graph::SignedGraph;
use std::io::Result;

// Lists a page into a buffer of so many bytes.
pub fn list(rt: HostRuntime, x: &[u8], from: Bookmark, g: SignedGraph) -> Result<SignedGraph> {
    let mut space = [FILL; ROOM];
    let buffer = front(byte(x, 1), &mut space);
    let page = listing::list_page(g, byte(x, 0), from, buffer);
    print_outcome(rt, signed_graph::answer_number(&page.outcome))?;
    print_all(rt, &pages::page_values(page))?;
    print_buffer(rt, buffer)?;
    Ok(g)
}

// Looks a record up in the first bytes of the listing of a graph.
pub fn record(rt: HostRuntime, x: &[u8], g: SignedGraph) -> Result<SignedGraph> {
    let mut space = [FILL; ROOM];
    listing::list_page(g, byte(x, 0), Bookmark::Start, &mut space);
    let listing = front(byte(x, 1), &mut space);
    print_outcome(rt, 0)?;
    print_buffer(rt, group_pages::record_at(listing, word(x, 2)))?;
    Ok(g)
}
