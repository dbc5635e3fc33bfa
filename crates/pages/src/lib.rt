// Pages of any items: bookmarks, what is due at one, and the answer of a page.
#![tactic(auto)]

ghost use Rattle.std.specs.Prelude.{◌≡◌, true};
ghost use Rattle.pages.specs.Answers.{end_number, mark_kind, mark_set, page_values};
ghost use Rattle.pages.specs.Pages.{due_at};
ghost use Rattle.pages.specs.Filling.{Past, empty};

use signed_graph::Refusal;

// Where a page starts: at the first item, or after a set in listing order.
// kept: Option-shaped, but its form is prescribed: Start or After a set, in the page's answer, beside finished or more.
#[derive(Clone, Copy, Debug, PartialEq, Eq)]
pub enum Bookmark {
    Start,
    After(u64),
}

impl Bookmark {
    // The kind of a bookmark.
    // kept: C's number; apart from `set`, as the definitions are.
    fn kind(self) -> u64
        ensures { result ≡ mark_kind self }
    {
        match self {
            Bookmark::Start => 0,
            Bookmark::After(_) => 1,
        }
    }

    // The set of a bookmark; empty at the start.
    fn set(self) -> u64
        ensures { result ≡ mark_set self }
    {
        match self {
            Bookmark::Start => 0,
            Bookmark::After(s) => s,
        }
    }
}

// Whether items are due behind a page.
#[derive(Clone, Copy, Debug, PartialEq, Eq)]
pub enum End {
    Finished,
    More,
}

impl End {
    // kept: the number is C's.
    fn number(self) -> u64
        ensures { result ≡ end_number self }
    {
        match self {
            End::Finished => 0,
            End::More => 1,
        }
    }
}

// Whether a page was refused, how many records it wrote, where the next one starts, and whether items are due behind it; also of a
// page that is still being filled.
// kept: the other fields are no part of an Ok: a refused page says more and gives its bookmark back (theorem AllPages).
#[derive(Clone, Copy)]
pub struct Page {
    pub outcome: Result<(), Refusal>,
    pub count: usize,
    pub next: Bookmark,
    pub end: End,
}

impl Page {
    // A page with no record yet.
    pub fn empty(from: Bookmark) -> Page
        ensures { result ≡ empty from }
    {
        Page {
            outcome: Ok(()),
            count: 0,
            next: from,
            end: End::Finished,
        }
    }
}

// Whether the set s is due at a bookmark.
pub fn is_due(from: Bookmark, s: u64) -> bool
    ensures { result ≡ due_at from s }
{
    match from {
        Bookmark::Start => true,
        Bookmark::After(t) => vertex_set::comes_before(t, s),
    }
}

// True only where no set is due that has, below v, exactly the vertices of `chosen`.
pub fn is_past(from: Bookmark, chosen: u64, v: usize) -> bool
    ensures { result ≡ true → Past from chosen v }
{
    match from {
        Bookmark::Start => false,
        Bookmark::After(t) => {
            let differing = vertex_set::below(v as u64) & (chosen ^ t);
            vertex_set::contains(chosen, vertex_set::lowest(differing))
        }
    }
}

// The answer of a page as numbers: its count, finished or more, and the kind and the set of its next bookmark.
// kept: the four words of C's answer.
pub fn page_values(page: Page) -> [u64; 4]
    ensures { result ≡ page_values page }
{
    [
        page.count as u64,
        page.end.number(),
        page.next.kind(),
        page.next.set(),
    ]
}
