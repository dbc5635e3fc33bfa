// Decimals: numbers and sets of vertices as text, at the front of a buffer or behind a text.
#![tactic(auto)]

ghost use Rattle.std.specs.Prelude.{◌≡◌, ◌+◌, ◌≤◌, ◌++◌, length, decimal};
ghost use Rattle.vertex_set.specs.Buffers.{overwritten};
ghost use Rattle.decimals.specs.Decimals.{between, members_between};

use arrayvec::ArrayString;
use itoa::Buffer;

// Writes a text.
// kept: those around a vertex have no byte or one, and a call that copies costs more.
fn put_short(text: &[u8], out: &mut [u8])
    requires { length text.now ≤ length out.old }
    ensures { out.new ≡ overwritten text.now out.old }
{
    for i in 0..text.len() {
        out[i] = text[i];
    }
}

// Writes a number in decimal, and returns how many digits it has.
// kept: itoa fills a buffer of 40 bytes of its own, and a vertex has two digits at most.
fn put_decimal(n: u64, out: &mut [u8]) -> usize
    requires { length (decimal n) ≤ length out.old }
    ensures length { result ≡ length (decimal n) }
    ensures bytes { out.new ≡ overwritten (decimal n) out.old }
{
    if n < 10 {
        out[0] = b'0' + n as u8;
        return 1;
    }
    let last = put_decimal(n / 10, out);
    out[last] = b'0' + (n % 10) as u8;
    last + 1
}

// Writes a number between two texts, and returns how many bytes that takes.
pub fn put_number(before: &[u8], n: u64, after: &[u8], out: &mut [u8]) -> usize
    requires { length (between before.now after.now n) ≤ length out.old }
    ensures length { result ≡ length (between before.now after.now n) }
    ensures bytes { out.new ≡ overwritten (between before.now after.now n) out.old }
{
    put_short(before, out);
    let at = before.len();
    let digits = put_decimal(n, &mut out[at..]);
    let end = at + digits;
    put_short(after, &mut out[end..]);
    end + after.len()
}

// Writes the members of a set, ascending, each between two texts, and returns how many bytes that takes.
// kept: `at` is returned.
pub fn put_members(before: &[u8], s: u64, after: &[u8], out: &mut [u8]) -> usize
    requires { length (members_between before.now after.now s) ≤ length out.old }
    ensures length { result ≡ length (members_between before.now after.now s) }
    ensures bytes { out.new ≡ overwritten (members_between before.now after.now s) out.old }
{
    let mut at: usize = 0;
    for p in vertex_set::members(s) {
        let written = put_number(before, p as u64, after, &mut out[at..]);
        at += written;
    }
    at
}

// Appends a number between two texts.
// kept: `write!` says nothing of when it is Ok.
pub fn push_number<const N: usize>(before: &str, n: u64, after: &str, text: &mut ArrayString<N>)
    requires { length text.old.bytes + length (between before.now after.now n) ≤ N }
    ensures { text.new.bytes ≡ text.old.bytes ++ between before.now after.now n }
{
    let mut digits = Buffer::new();
    text.push_str(before);
    text.push_str(digits.format(n));
    text.push_str(after);
}

// Appends the members of a set, ascending, each between two texts, all at once: a text takes each piece by a call that copies.
pub fn push_members<const N: usize>(before: &str, s: u64, after: &str, text: &mut ArrayString<N>)
    requires { length text.old.bytes + length (members_between before.now after.now s) ≤ N }
    ensures { text.new.bytes ≡ text.old.bytes ++ members_between before.now after.now s }
{
    let mut bytes = [0u8; N];
    let end = put_members(before.as_bytes(), s, after.as_bytes(), &mut bytes);
    text.push_str(std::str::from_utf8(&bytes[..end]).unwrap());
}
