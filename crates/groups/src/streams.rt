// Standard input and output: reading and writing that tell a failure.
ghost use Rattle.std.specs.Prelude.{◌≤◌, length, IfOk, MatchResult};

use std::fmt::InlineText;
use std::fs::OpenOptions;
use std::io::{Error, ErrorKind, Read, Write};
use std::time::Duration;
use std::{fs, io, thread};

// Reading stopped at a failure, with so many bytes read before it.
#[derive(Clone, Copy)]
pub struct ReadError {
    pub count: usize,
    pub error: Error,
}

// Waits a millisecond.
fn pause(rt: HostRuntime) {
    thread::sleep(&rt, Duration::from_millis(1));
}

// Whether a write that failed is tried again: at once where a signal interrupted it, after a pause where it would block.
fn is_tried_again(rt: HostRuntime, error: Error) -> bool {
    let kind = error.kind();
    if kind == ErrorKind::WouldBlock {
        pause(rt);
        return true;
    }
    kind == ErrorKind::Interrupted
}

// One write. One that takes nothing is a failure, but for one that is tried again.
fn write_some<W: Write>(rt: HostRuntime, to: &mut W, bytes: &[u8]) -> io::Result<usize>
    ensures { IfOk result (λ count. count ≤ length bytes.now) }
{
    match to.write(bytes) {
        Ok(0) => Err(Error::from(ErrorKind::WriteZero)),
        Err(error) if is_tried_again(rt, error) => Ok(0),
        result => result,
    }
}

// Writes bytes, all of them unless it fails. A proved loop has to end, so this one has a number of turns that no run uses up.
// kept: std's gives up where a write would block.
pub fn write_all<W: Write>(rt: HostRuntime, to: &mut W, bytes: &[u8]) -> io::Result<()> {
    let mut at: usize = 0;
    for _ in 0..u64::MAX {
        if at == bytes.len() {
            return Ok(());
        }
        at += write_some(rt, to, &bytes[at..])?;
    }
    Err(Error::from(ErrorKind::TimedOut))
}

// Reads until the buffer is full, the input ends or a read fails, and returns how many bytes were read. A read into a full buffer
// reads nothing, as one at the end; one that a signal interrupted is tried again.
// kept: std's needs a Vec.
pub fn read_all<R: Read>(input: &mut R, space: &mut [u8]) -> Result<usize, ReadError>
    ensures { MatchResult result (λ count. count ≤ length space.new) (λ error. error.count ≤ length space.new) }
{
    let mut count: usize = 0;
    for _ in 0..u64::MAX {
        match input.read(&mut space[count..]) {
            Ok(0) => return Ok(count),
            Ok(more) => count += more,
            Err(error) if error.kind() == ErrorKind::Interrupted => {}
            Err(error) => return Err(ReadError { count, error }),
        }
    }
    let error = Error::from(ErrorKind::TimedOut);
    Err(ReadError { count, error })
}

// The words alone: std puts the number of the system's error behind them.
fn without_number(words: &str) -> &str {
    match words.split_once(" (os error ") {
        Some((alone, _)) => alone,
        None => words,
    }
}

// Writes a line to standard error: what failed, a colon and the error's words. Where that fails too, nothing is left to do.
pub fn fail(rt: HostRuntime, what: &str, error: Error) {
    let text = InlineText::<128>::of(error);
    let words = without_number(text.as_str());
    let _ = eprintln!(rt; "{what}: {words}");
}

// Whether standard output is a regular file.
fn is_file(rt: HostRuntime) -> bool {
    fs::metadata(&rt, "/dev/stdout").is_ok_and(|found| found.is_file())
}

// Brings the file that standard output is to its disk. A file that cannot be opened again, or that is on no disk, has no more
// to tell.
fn sync_file(rt: HostRuntime) -> io::Result<()> {
    let Ok(file) = OpenOptions::new().append(true).open(&rt, "/dev/stdout") else {
        return Ok(());
    };
    match file.sync_all() {
        Err(error) if error.kind() == ErrorKind::InvalidInput => Ok(()),
        result => result,
    }
}

// Some file systems tell only when a file is closed or brought to its disk that a write failed.
pub fn settle_output(rt: HostRuntime) -> io::Result<()> {
    if is_file(rt) { sync_file(rt) } else { Ok(()) }
}
