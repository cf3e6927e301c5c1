// Runs the entry points on requests from standard input, and prints what they answer.
// A request is words of 32 bits, high byte first: kind, node count, nodes, word count, words. Kind 1 asks about the rule and a history,
// a number a word; kind 2 about the rule and a script; kinds 3 and 4 run the script, kind 6 weaves it first, and they go on as `runs` says;
// kinds 5 and 10 weave the script and find facts for it, and go on with the length of the lent output; kinds 7 to 9 are `texts`'. Kinds 11 to 17
// and 20 are kinds 1 to 7 and 10 of the second form, 21 and 23 move a rule and a script to it, 22 and 24 back, as long as kind 5. Kinds 25
// and 26 put two scripts together, in the one form and in the other; half of the words are the first's. Kinds 27 and 28 are those of crate
// station_requests, 29 and 30 of limit_requests, 31 is one of `texts`'. A 0 in place of a kind is skipped. A count out of the buffers' range
// ends a block.
#![tactic(auto)]

ghost use Rattle.std.specs.Prelude.{◌<◌, ◌≤◌, ◌+◌, IfOk, IfSome};

use crate::finding::answer_finding;
use crate::moving::{answer_back, answer_up};
use crate::pairs::{answer_long_pair, answer_pair};
use crate::runs::{answer_bare, answer_long_bare, answer_machine};
use crate::texts::request_text;
use crate::weaving::answer_weaving;
use input::read_full;
use limit_requests::request_limits;
use requests::loading::{load_numbers, load_words, size_of};
use requests::printing::{print_answer, print_named, print_numbers, print_refused, say};
use rule::answer::{Refusal, Verdict};
use rule::stored::Word;
use station_requests::request_stations;
use std::io;
use words::word_at;

mod digests;
mod finding;
mod moving;
mod pairs;
mod runs;
mod texts;
mod weaving;

fn print_verdict(rt: &impl Print, v: Result<Verdict, Refusal>) -> io::Result<()> {
    match v {
        Err(r) => print_refused(rt, r),
        Ok(Verdict::Breach(index)) => print_named(rt, b"breach", index as u64),
        Ok(Verdict::Clean(states)) => print_named(rt, b"clean", states as u64),
    }
}

fn answer_history<W: Word>(
    rt: &impl Print,
    s: &[u8],
    rule: &[W],
    at: usize,
    count: usize,
) -> io::Result<()>
    requires { (at ≤ 20000) × (count ≤ 16384) }
{
    let mut buffer = [0u16; 16384];
    load_numbers(s, at, count, &mut buffer);
    let history = &buffer[..count];
    print_answer(rt, rule::check_rule(rule))?;
    print_verdict(rt, rule::verdict(rule, history))?;
    print_numbers(rt, b"part", rule::judge(rule, history))
}

fn answer_script(rt: &impl Print, rule: &[u32], script: &[u32]) -> io::Result<()> {
    say(rt, b"bare ")?;
    print_answer(rt, script::check_bare(rule, script))?;
    say(rt, b"script ")?;
    print_answer(rt, checker::check_script(rule, script))
}

// Kinds 5 and 10, into an output of that many words. It has ones everywhere, which no node and no line is.
fn answer_lent(
    rt: &impl Print,
    kind: u32,
    rule: &[u32],
    script: &[u32],
    length: usize,
) -> io::Result<()> {
    if 16384 < length {
        return Ok(());
    }
    let mut out = [4294967295u32; 16384];
    if kind == 5 {
        answer_weaving(rt, rule, script, &mut out[..length])
    } else {
        answer_finding(rt, rule, script, &mut out[..length])
    }
}

// The same of the second form, kinds 15 and 20.
fn answer_long_lent(
    rt: &impl Print,
    kind: u32,
    rule: &[u64],
    script: &[u32],
    length: usize,
) -> io::Result<()> {
    if 16384 < length {
        return Ok(());
    }
    let mut out = [18446744073709551615u64; 16384];
    if kind == 15 {
        answer_weaving(rt, rule, script, &mut out[..length])
    } else {
        answer_finding(rt, rule, script, &mut out[..length])
    }
}

// What the entry points answer on a rule of the old form and the `count` words from `at` on. A buffer is filled only for the kinds that
// use it.
fn answer(
    rt: &impl Print,
    s: &[u8],
    kind: u32,
    r: &[u32],
    at: usize,
    count: usize,
) -> io::Result<()>
    requires { (at ≤ 20000) × (count ≤ 16384) }
{
    if kind == 1 {
        return answer_history(rt, s, r, at, count);
    }
    let mut script = [0u32; 16384];
    if kind == 25 {
        let n = count / 2;
        load_words(s, at, n, &mut script);
        return answer_pair(rt, s, r, &mut script[..n], at + n);
    }
    load_words(s, at, count, &mut script);
    let w = &script[..count];
    let after = at + count;
    let length = word_at(s, after) as usize;
    if kind == 2 {
        answer_script(rt, r, w)
    } else if (kind == 5) | (kind == 10) {
        answer_lent(rt, kind, r, w, length)
    } else if 21 <= kind {
        answer_up(rt, kind, r, w, length)
    } else if kind == 6 {
        answer_bare(rt, s, r, w, after)
    } else {
        answer_machine(rt, s, kind, r, w, after)
    }
}

// The same of the second form with words of 32 bits: a history, a bare script, instructions without facts.
fn answer_short(
    rt: &impl Print,
    s: &[u8],
    kind: u32,
    r: &[u64],
    at: usize,
    count: usize,
) -> io::Result<()>
    requires { (at ≤ 20000) × (count ≤ 16384) }
{
    if kind == 11 {
        return answer_history(rt, s, r, at, count);
    }
    let mut script = [0u32; 16384];
    load_words(s, at, count, &mut script);
    let w = &script[..count];
    let after = at + count;
    let length = word_at(s, after) as usize;
    if (kind == 15) | (kind == 20) {
        answer_long_lent(rt, kind, r, w, length)
    } else if kind == 16 {
        answer_long_bare(rt, s, r, w, after)
    } else {
        // Kinds 18 and 19 are none: the words are read as a script of the old form, with no rule's node.
        answer_machine(rt, s, kind, &[0u32], w, after)
    }
}

// And with words of 64 bits: a script.
fn answer_long(
    rt: &impl Print,
    s: &[u8],
    kind: u32,
    r: &[u64],
    at: usize,
    count: usize,
) -> io::Result<()>
    requires { (at ≤ 20000) × (count ≤ 16384) }
{
    let mut script = [0u64; 16384];
    if kind == 26 {
        let n = count / 2;
        load_words(s, at, n, &mut script);
        return answer_long_pair(rt, s, r, &mut script[..n], at + 2 * n);
    }
    load_words(s, at, count, &mut script);
    let w = &script[..count];
    let after = at + 2 * count;
    let length = word_at(s, after) as usize;
    if kind == 12 {
        say(rt, b"script ")?;
        print_answer(rt, checker::check_script(r, w))
    } else if 21 <= kind {
        answer_back(rt, kind, r, w, length)
    } else {
        answer_machine(rt, s, kind, r, w, after)
    }
}

// Whether nodes are of the second form, and whether the words after them are.
fn has_long_nodes(kind: u32) -> bool {
    (11 <= kind) & (kind <= 20) | (kind == 22) | (kind == 24) | (kind == 26)
}

fn has_long_words(kind: u32) -> bool {
    (12 <= kind) & (kind <= 14) | (kind == 22) | (kind == 24) | (kind == 26)
}

// The request that starts at word `at`, and where the next one starts: nowhere where a count is out of range.
// The one error is that of a write that failed; nothing of the caller's changes then.
fn request(rt: &impl Print, s: &[u8], at: usize) -> io::Result<Option<usize>>
    requires { at < 16384 }
    ensures { IfOk result (λ next. IfSome next (λ n. at < n)) }
{
    let kind = word_at(s, at);
    if kind == 0 {
        return Ok(Some(at + 1));
    }
    if (7 <= kind) & (kind <= 9) | (kind == 17) | (kind == 31) {
        return request_text(rt, s, kind, at);
    }
    if (kind == 27) | (kind == 28) {
        return request_stations(rt, s, kind, at);
    }
    if (kind == 29) | (kind == 30) {
        return Ok(Some(request_limits(rt, s, kind, at)?));
    }
    let nodes = word_at(s, at + 1) as usize;
    if 80 < nodes {
        return Ok(None);
    }
    let start = at + 3 + size_of(nodes, has_long_nodes(kind));
    let count = word_at(s, start - 1) as usize;
    if 16384 < count {
        return Ok(None);
    }
    if has_long_nodes(kind) {
        let mut rule = [0u64; 80];
        load_words(s, at + 2, nodes, &mut rule);
        if has_long_words(kind) {
            answer_long(rt, s, kind, &rule[..nodes], start, count)?;
        } else {
            answer_short(rt, s, kind, &rule[..nodes], start, count)?;
        }
    } else {
        let mut rule = [0u32; 80];
        load_words(s, at + 2, nodes, &mut rule);
        answer(rt, s, kind, &rule[..nodes], start, count)?;
    }
    let next = start + size_of(count, has_long_words(kind));
    if (kind < 3) | (kind == 11) | (kind == 12) | (25 <= kind) {
        return Ok(Some(next));
    }
    if (kind == 5) | (kind == 10) | (kind == 15) | (20 <= kind) {
        return Ok(Some(next + 1));
    }
    let inputs = word_at(s, next) as usize;
    if 16384 < inputs {
        return Ok(None);
    }
    Ok(Some(next + 4 + inputs))
}

// Every request in the bytes, one after another.
fn requests_in(rt: &impl Print, s: &[u8]) -> io::Result<()> {
    let mut at = 0;
    // No `for`: each request says where the next one starts.
    while at < s.len() / 4 {
        if 16384 <= at {
            return Ok(());
        }
        match request(rt, s, at)? {
            Some(next) => at = next,
            None => return Ok(()),
        }
    }
    Ok(())
}

// What the input holds comes in blocks of 65,536 bytes, and no request goes over the end of one.
fn main(rt: HostRuntime) -> io::Result<()> {
    let mut bytes = [0u8; 65536];
    for _ in 0..1000 {
        let n = read_full(&mut rt.stdin(), &mut bytes)?;
        if n == 0 {
            return Ok(());
        }
        requests_in(&rt, &bytes[..n])?;
    }
    Ok(())
}
