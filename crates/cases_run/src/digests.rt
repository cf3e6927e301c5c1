// One number for many words.
ghost use Rattle.std.specs.Prelude.{◌<◌, ◌≤◌};

use requests::loading::{size_of, split_words};
use requests::printing::{print_named, print_numbers};
use rule::stored::Word;
use std::io;

// Goes on from h with one word of 32 bits: h := (65,599 h + word) mod 4,294,967,291.
fn digest_word(h: u64, word: u64) -> u64
    requires { (h < 4294967291) × (word < 4294967296) }
    ensures { result < 4294967291 }
{
    (h * 65599 + word) % 4294967291
}

// Goes on from h with all words in their order; one of 64 bits is two, the high one first. The first h is 1.
pub(crate) fn digest<W: Word>(h: u64, words: &[W]) -> u64
    requires { h < 4294967291 }
    ensures { result < 4294967291 }
{
    let mut d = h;
    for word in words {
        let both = word.widen();
        d = digest_word(d, both / 4294967296);
        if W::IS_WIDE {
            d = digest_word(d, both % 4294967296);
        }
    }
    d
}

// So many words of a request as a lent output is.
fn print_whole<W: Word>(rt: &impl Print, out: &[W], count: usize) -> io::Result<()>
    requires { count ≤ 256 }
{
    let mut buffer = [0u32; 256];
    let words = &mut buffer[..count];
    split_words(out, words);
    print_numbers(rt, b"words", words)
}

// A lent output, whole or as a digest; a word of 64 bits is two.
pub(crate) fn print_lent<W: Word>(rt: &impl Print, out: &[W]) -> io::Result<()> {
    if 16384 < out.len() {
        return Ok(());
    }
    let count = size_of(out.len(), W::IS_WIDE);
    if count <= 256 {
        print_whole(rt, out, count)
    } else {
        print_named(rt, b"digest", digest(1, out))
    }
}
