// Requests of kinds 25 and 26: two annotated scripts, of the old form or the second, are checked and, where both are accepted, put together.
ghost use Rattle.std.specs.Prelude.{◌≡◌, ◌≤◌, length};
ghost use Rattle.union.specs.Union.{union_word, union_words};

use crate::digests::print_lent;
use checker::check_script;
use requests::loading::load_words;
use requests::printing::{print_answer, say};
use rule::stored::{Word, put_word, word_at};
use std::io;

// Word i of a union: the first of a line's eight is its instruction, the others are sets of facts.
fn united(i: usize, word: u64, other: u64) -> u64
    ensures { result ≡ union_word i word other }
{
    if i % 8 == 0 { word } else { word | other }
}

// The facts of the other script are put to those of the first, line by line.
fn unite<W: Word>(script: &mut [W], other: &[W])
    requires { length (W.numbers script.old) ≡ length (W.numbers other.now) }
    ensures { W.numbers script.new ≡ union_words (W.numbers script.old) (W.numbers other.now) }
{
    for i in 0..other.len() {
        put_word(united(i, word_at(script, i), word_at(other, i)), i, script);
    }
}

// What the checker says of each, and of their union, if both are accepted; then the union.
fn answer_both<W: Word>(
    rt: &impl Print,
    rule: &[W],
    script: &mut [W],
    other: &[W],
) -> io::Result<()>
    requires { length (W.numbers script.old) ≡ length (W.numbers other.now) }
{
    let first = check_script(rule, script);
    let second = check_script(rule, other);
    say(rt, b"first ")?;
    print_answer(rt, first)?;
    say(rt, b"second ")?;
    print_answer(rt, second)?;
    if first.is_ok() & second.is_ok() {
        unite(script, other);
        say(rt, b"union ")?;
        print_answer(rt, check_script(rule, script))?;
        print_lent(rt, script)?;
    }
    Ok(())
}

// The second script, as long as the first one, is the words from `at` on.
pub(crate) fn answer_pair(
    rt: &impl Print,
    s: &[u8],
    rule: &[u32],
    script: &mut [u32],
    at: usize,
) -> io::Result<()>
    requires { (at ≤ 100000) × (length script.old ≤ 16384) }
{
    let n = script.len();
    let mut other = [0u32; 16384];
    load_words(s, at, n, &mut other);
    answer_both(rt, rule, script, &other[..n])
}

// The same of the second form.
pub(crate) fn answer_long_pair(
    rt: &impl Print,
    s: &[u8],
    rule: &[u64],
    script: &mut [u64],
    at: usize,
) -> io::Result<()>
    requires { (at ≤ 100000) × (length script.old ≤ 16384) }
{
    let n = script.len();
    let mut other = [0u64; 16384];
    load_words(s, at, n, &mut other);
    answer_both(rt, rule, script, &other[..n])
}
