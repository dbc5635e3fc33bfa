// Words: numbers of 64 bits as 8 bytes, low byte first.
#![tactic(auto)]

ghost use Rattle.std.specs.Prelude.{◌≡◌, ◌++◌, ◌≤◌, length, take, drop};
ghost use Rattle.words.specs.Words.{word_bytes, word_value};

// Writes the 8 bytes of x, low byte first.
#[tactic(auto, using(crate::proofs::Words::word_written))]
pub fn write_word(x: u64, out: &mut [u8])
    requires { 8 ≤ length out.old }
    ensures { out.new ≡ word_bytes 8 x ++ drop 8 out.old }
{
    out[..8].copy_from_slice(&x.to_le_bytes());
}

// The number in the first 8 bytes, low byte first.
#[tactic(auto, using(crate::proofs::Words::word_read))]
pub fn read_word(bytes: &[u8]) -> u64
    requires { 8 ≤ length bytes.now }
    ensures { result ≡ word_value (take 8 bytes.now) }
{
    u64::from_le_bytes(*bytes.first_chunk().unwrap())
}
