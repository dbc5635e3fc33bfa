// Prints the groups of a graph, the largest of them, and how many there are. Standard input has the threshold, one byte, and
// then an edge list or an amendment list of the graph. After a write that fails nothing more is printed.
#![tactic(auto)]

mod streams;
mod usage;

ghost use Rattle.std.specs.Prelude.{◌≡◌, length, IfOk};
ghost use Rattle.signed_graph.specs.Calls.{passed, check_of};
ghost use Rattle.clique.specs.Listing.{listing as listed};
ghost use Rattle.group_pages.specs.Calls.{page_of};
ghost use Rattle.output.specs.Output.{closing_for};
ghost use Rattle.output_text.specs.PageTexts.{page_room};
ghost use Rattle.groups.specs.Printing.{Counted, DueBehind};

use arrayvec::ArrayString;
use output::Closing;
use pages::{Bookmark, End, Page};
use report::Line;
use requests::Request;
use signed_graph::SignedGraph;
use std::env::FillError;
use std::io;
use std::io::IsTerminal;
use std::rt::Env;

// Prints the groups of a page.
fn print_page(rt: HostRuntime, g: SignedGraph, k: u64, from: Bookmark) -> io::Result<Page>
    ensures { IfOk result (λ page. page ≡ page_of g k from page_room) }
{
    let mut text = ArrayString::new();
    let page = output_text::put_page(g, k, from, &mut text);
    streams::write_all(rt, &mut rt.stdout(), text.as_str().as_bytes())?;
    Ok(page)
}

// Prints all groups, page by page, and returns how many there are.
// kept: the contract of the walk asks that the call passes; so do two functions of `counts`, which no type here serves.
fn print_groups(rt: HostRuntime, g: SignedGraph, k: u64) -> io::Result<u64>
    requires { check_of g k ≡ passed }
    ensures { Counted (length (listed g k)) result }
{
    let mut from = Bookmark::Start;
    let mut count: u64 = 0;
    loop {
        let page = print_page(rt, g, k, from)?;
        count += page.count as u64;
        let End::More = page.end else {
            return Ok(count);
        };
        from = page.next;
    }
}

// Prints the groups that are due for an input, and returns what is due behind them.
fn print_due(rt: HostRuntime, input: &[u8]) -> io::Result<Result<Closing, Line>>
    ensures { DueBehind (closing_for input.now) result }
{
    let due = match output::due_for(input) {
        Ok(due) => due,
        Err(line) => return Ok(Err(line)),
    };
    let count = print_groups(rt, due.graph, due.threshold)?;
    Ok(Ok(output::closing_lines(due.graph, due.threshold, count)))
}

// Prints what is due for an input.
fn print_report(rt: HostRuntime, input: &[u8]) -> io::Result<()> {
    let closing = print_due(rt, input)?;
    let text = output_text::closing_text(closing);
    streams::write_all(rt, &mut rt.stdout(), text.as_str().as_bytes())?;
    streams::settle_output(rt)
}

// Prints the report on standard input.
// kept: std fills a buffer and says how much of it.
fn report_on_input(rt: HostRuntime) -> io::Result<()> {
    let mut space = [0u8; 65536];
    match streams::read_all(&mut rt.stdin(), &mut space) {
        Ok(length) => print_report(rt, &space[..length]),
        Err(read) => {
            streams::fail(rt, "groups: cannot read standard input", read.error);
            Ok(())
        }
    }
}

// A terminal as standard input is someone who does not know the program yet.
fn report_or_usage(rt: HostRuntime) -> io::Result<()> {
    if rt.stdin().is_terminal() {
        return usage::print_usage(rt, &mut rt.stderr());
    }
    report_on_input(rt)
}

// Whether the program was started with an argument at a place.
fn has_argument(rt: HostRuntime, place: usize) -> bool {
    let mut space = [0u8; 16];
    !matches!(rt.arg(place, &mut space), Err(FillError::NotPresent))
}

// How many arguments there are, its own name among them; at most three are counted.
fn argument_count(rt: HostRuntime) -> usize {
    1 + (1..3).take_while(|place| has_argument(rt, *place)).count()
}

// What the arguments ask for.
fn request(rt: HostRuntime) -> Request {
    let mut first = [0u8; 16];
    let length = rt.arg(1, &mut first).unwrap_or(0);
    requests::request_of(argument_count(rt), &first[..length])
}

fn main(rt: HostRuntime) {
    let printed = match request(rt) {
        Request::Groups => report_or_usage(rt),
        Request::Help => usage::print_usage(rt, &mut rt.stdout()),
        Request::Version => usage::print_version(rt),
        Request::Unknown => usage::print_usage(rt, &mut rt.stderr()),
    };
    if let Err(error) = printed {
        streams::fail(rt, "groups: the output is incomplete", error);
    }
}
