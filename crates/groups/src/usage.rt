// What the program says of itself.
use crate::streams::write_all;
use std::io;
use std::io::Write;

pub fn print_usage<W: Write>(rt: HostRuntime, to: &mut W) -> io::Result<()> {
    write_all(
        rt,
        to,
        b"usage: groups <INPUT
Prints the balanced groups of a sweep, one a line, then the biggest, then how many.
INPUT is bytes. The first is k: a group has two paths or more, at least k on each side.
An edge list follows, here in hexadecimal: 10 n opens it, with n paths; 21 a b, paths a
and b track; 22 a b, they oppose; FF closes it. There are at most 64 paths, numbered
from 0.
Example: 0 and 1 track, both oppose 2, and k is 1.
  printf '\\001\\020\\003\\041\\000\\001\\042\\000\\002\\042\\001\\002\\377' | groups
  0 1 | 2
  biggest 0 1 | 2
  groups 1
A report is complete if its last line is `groups N`; an input that is refused gets one
line, `refused N` or `refused N at PLACE`.
groups --help prints this, groups --version the version.
",
    )
}

pub fn print_version(rt: HostRuntime) -> io::Result<()> {
    write_all(rt, &mut rt.stdout(), b"groups (Mastpickle) 4.1.0\n")
}
