// Requests of kinds 29 and 30: a history known within limits, judged in the old form and in the second. Kind, node count, nodes, low count, lows,
// high count, highs, the length of the lent output. A lent output has 9 everywhere, which is no answer.
#![tactic(auto)]

ghost use Rattle.std.specs.Prelude.{◌<◌, ◌≤◌, IfOk, length};

use limits::judge;
use requests::loading::{load_numbers, load_words, size_of};
use requests::printing::{print_counted, print_numbers};
use rule::stored::Word;
use std::io;
use words::word_at;

// The count that word `at` is; one out of range is as a count of none.
fn count_at(s: &[u8], at: usize, most: usize) -> usize
    ensures { result ≤ most }
{
    let n = word_at(s, at) as usize;
    if most < n { 0 } else { n }
}

// The numbers after their count, which is word `at`. Hands back how many there are.
fn load_counted(s: &[u8], at: usize, out: &mut [u16; 1024]) -> usize
    requires { at ≤ 100000 }
    ensures { result ≤ 1024 }
{
    let count = count_at(s, at, 1024);
    load_numbers(s, at + 1, count, out);
    count
}

// The answer, and the lent output afterwards.
fn answer_limits<W: Word>(
    rt: &impl Print,
    rule: &[W],
    lows: &[u16],
    highs: &[u16],
    out: &mut [u8],
) -> io::Result<()> {
    print_counted(rt, b"indices", judge(rule, lows, highs, out))?;
    print_numbers(rt, b"bytes", out)
}

// The request that starts at word `at`, with a rule of this form, for which `space` is lent, and where the next one starts.
fn request_in<W: Word>(rt: &impl Print, s: &[u8], at: usize, space: &mut [W]) -> io::Result<usize>
    requires { (at < 16384) × (80 ≤ length space.old) }
    ensures { IfOk result (λ next. at < next) }
{
    let nodes = count_at(s, at + 1, 80);
    load_words(s, at + 2, nodes, space);
    let lows_at = at + 2 + size_of(nodes, W::IS_WIDE);
    let mut lows = [0u16; 1024];
    let low_count = load_counted(s, lows_at, &mut lows);
    let highs_at = lows_at + 1 + low_count;
    let mut highs = [0u16; 1024];
    let high_count = load_counted(s, highs_at, &mut highs);
    let end = highs_at + 1 + high_count;
    let length = count_at(s, end, 256);
    let mut out = [9u8; 256];
    answer_limits(
        rt,
        &space[..nodes],
        &lows[..low_count],
        &highs[..high_count],
        &mut out[..length],
    )?;
    Ok(end + 1)
}

// The request of this kind that starts at word `at`, and where the next one starts.
// The one error is that of a write that failed; nothing of the caller's changes then.
pub fn request_limits(rt: &impl Print, s: &[u8], kind: u32, at: usize) -> io::Result<usize>
    requires { at < 16384 }
    ensures { IfOk result (λ next. at < next) }
{
    if kind == 30 {
        request_in(rt, s, at, &mut [0u64; 80])
    } else {
        request_in(rt, s, at, &mut [0u32; 80])
    }
}
