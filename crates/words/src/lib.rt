// Words of 32 bits in a sequence of bytes, high byte first; words that are counted.
#![tactic(auto)]

ghost use Rattle.std.specs.Prelude.{◌≡◌, ◌<◌};
ghost use Rattle.words.specs.Words.{word_at};

pub mod counted;

// Word i of s, or 0 where it is not all there.
pub fn word_at(s: &[u8], i: usize) -> u32
    ensures { result ≡ word_at s.now i }
{
    if i < s.len() / 4 {
        let at = 4 * i;
        u32::from_be_bytes([s[at], s[at + 1], s[at + 2], s[at + 3]])
    } else {
        0
    }
}
