// The words and numbers of a request, taken from its bytes.
ghost use Rattle.std.specs.Prelude.{◌≡◌, ◌≤◌, ◌+◌, length, take};

use rule::stored::Word;
use words::word_at;

// The `count` words of a stored form from `at` on, as far as `out` goes: one of 64 bits is two of the request.
pub fn load_words<W: Word>(s: &[u8], at: usize, count: usize, out: &mut [W])
    requires { (at ≤ 1000000) × (count ≤ 1000000) }
    ensures { length out.new ≡ length out.old }
{
    let n = count.min(out.len());
    for (i, word) in out[..n].iter_mut().enumerate() {
        *word = W::narrow(if W::IS_WIDE {
            long_at(s, at + 2 * i)
        } else {
            long(word_at(s, at + i), 0)
        });
    }
}

// The same as numbers, the low 16 bits of each word.
pub fn load_numbers(s: &[u8], at: usize, count: usize, out: &mut [u16])
    requires { (at ≤ 1000000) × (count ≤ 1000000) }
    ensures { length out.new ≡ length out.old }
{
    let n = count.min(out.len());
    for (i, number) in out[..n].iter_mut().enumerate() {
        *number = (word_at(s, at + i) % 65536) as u16;
    }
}

// Two words, the high one first.
pub fn long(high: u32, low: u32) -> u64 {
    high as u64 * 4294967296 + low as u64
}

// Two words, at `at`.
pub fn long_at(s: &[u8], at: usize) -> u64
    requires { at ≤ 4000000 }
{
    long(word_at(s, at), word_at(s, at + 1))
}

// And back: word i of a request that words of a stored form are.
fn part_at<W: Word>(words: &[W], i: usize) -> u32 {
    let parts = size_of(1, W::IS_WIDE);
    match words.get(i / parts) {
        None => 0,
        Some(word) if i % parts == 0 => (word.widen() / 4294967296) as u32,
        Some(word) => (word.widen() % 4294967296) as u32,
    }
}

pub fn split_words<W: Word>(words: &[W], out: &mut [u32])
    ensures { length out.new ≡ length out.old }
{
    for (i, part) in out.iter_mut().enumerate() {
        *part = part_at(words, i);
    }
}

// How many words of a request so many words of a stored form are.
pub fn size_of(count: usize, is_wide: bool) -> usize
    requires { count ≤ 16384 }
    ensures { (count ≤ result) × (result ≤ count + count) }
{
    if is_wide { count + count } else { count }
}

// The first of a buffer, as many as there are of them.
pub fn first_of<T>(items: &[T], count: usize) -> &[T]
    ensures { result.now ≡ take count items.now }
{
    &items[..count.min(items.len())]
}
