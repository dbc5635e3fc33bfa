// Answers on standard output.
use std::io::Result;

// What each byte of a buffer, and each word of an array for counts, is before it is lent to a call.
pub const FILL: u8 = 0xaa;

// The most bytes of a buffer.
pub const ROOM: usize = 128;

// A number as the answers show it, in hexadecimal.
// kept: LowerHex has no width of its own, and a byte has two digits.
pub trait Shown {
    fn print(&self, rt: HostRuntime) -> Result<()>;
}

impl Shown for u8 {
    fn print(&self, rt: HostRuntime) -> Result<()> {
        print!(rt; " {self:02x}")
    }
}

impl Shown for u64 {
    fn print(&self, rt: HostRuntime) -> Result<()> {
        print!(rt; " {self:x}")
    }
}

// The first n items, or all of them where they are fewer.
pub fn front<T>(n: u64, items: &mut [T]) -> &mut [T] {
    if n < items.len() as u64 {
        &mut items[..n as usize]
    } else {
        items
    }
}

// Prints the number of a refusal, 0 where there is none, in decimal.
pub fn print_outcome(rt: HostRuntime, number: u64) -> Result<()> {
    print!(rt; " : {number}")
}

// Prints all numbers, one behind the other.
pub fn print_all<T: Shown>(rt: HostRuntime, numbers: &[T]) -> Result<()> {
    for number in numbers {
        number.print(rt)?;
    }
    Ok(())
}

// Prints all bytes of a buffer, or all words of an array for counts.
pub fn print_buffer<T: Shown>(rt: HostRuntime, buffer: &[T]) -> Result<()> {
    print!(rt; " [")?;
    print_all(rt, buffer)?;
    print!(rt; " ]")
}
