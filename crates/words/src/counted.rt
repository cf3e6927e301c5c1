// Words that are counted, in the bytes of an input.
ghost use Rattle.std.specs.Prelude.{◌≡◌, ◌≤◌, length};
ghost use Rattle.words.specs.Counted.{words_from, count_in, counted};
ghost use Rattle.print.specs.Written.{Added};

use crate::word_at;

// How many words the count at word `at` counts.
fn count_in(bytes: &[u8], at: usize, most: usize) -> usize
    requires { at ≤ 1000000 }
    ensures { result ≡ count_in most bytes.now at }
{
    let n = word_at(bytes, at) as usize;
    if most < n {
        return 0;
    }
    if bytes.len() / 4 < at + 1 + n {
        return 0;
    }
    n
}

// The n words from word `at` on, at the start of the output.
fn load_words(bytes: &[u8], at: usize, n: usize, out: &mut [u32])
    requires { (at ≤ 1000001) × (n ≤ 1000000) × (n ≤ length out.old) }
    ensures { Added (words_from bytes.now at n) 0 n out.old out.new }
{
    for i in 0..n {
        out[i] = word_at(bytes, at + i);
    }
}

// The words that the count at word `at` counts, at most as many as the output has. Hands back how many.
pub fn load_counted(bytes: &[u8], at: usize, out: &mut [u32]) -> usize
    requires { (at ≤ 1000000) × (length out.old ≤ 1000000) }
    ensures { Added (counted (length out.old) bytes.now at) 0 result out.old out.new }
{
    let n = count_in(bytes, at, out.len());
    load_words(bytes, at + 1, n, out);
    n
}
