// Requests of kinds 27 and 28: four stations with one allowance, of the old form or the second. Kind, how many states are lent, the budget and
// the allowance as two words each; then of each station: node count, nodes, word count, words, input count, inputs, the length of the lent
// history. A lent history has 60,000 everywhere, which no register can hold.
#![tactic(auto)]

ghost use Rattle.std.specs.Prelude.{◌≡◌, ◌<◌, ◌≤◌, length, IfOk, IfSome};

use machine::Machine;
use requests::loading::{first_of, load_numbers, load_words, long_at, size_of};
use requests::printing::{print_named, print_numbers, print_refused, say};
use requests::states::print_state;
use rule::answer::Refusal;
use rule::stored::Word;
use stations::{Ran, Station, run_listed};
use std::io;
use words::word_at;

// A station's part of a request: where the nodes, the words and the inputs start, how many of each there are, the length of the lent history,
// and where the next part starts.
#[derive(Clone, Copy)]
struct Part {
    rule: usize,
    nodes: usize,
    script: usize,
    words: usize,
    given: usize,
    inputs: usize,
    length: usize,
    next: usize,
}

// The part that starts at word `at`; none where that is not in the block or a count is out of range.
fn part_at(s: &[u8], at: usize, is_wide: bool) -> Option<Part>
    ensures { IfSome result (λ p. (p.rule ≤ 30000) × (p.script ≤ 30000) × (p.given ≤ 30000) × (p.nodes ≤ 80) × (p.words ≤ 4096) × (p.inputs ≤ 64) × (p.length ≤ 160)) }
{
    if 16384 < at {
        return None;
    }
    let rule = at + 1;
    let nodes = word_at(s, at) as usize;
    if 80 < nodes {
        return None;
    }
    let script = rule + size_of(nodes, is_wide) + 1;
    let words = word_at(s, script - 1) as usize;
    if 4096 < words {
        return None;
    }
    let given = script + size_of(words, is_wide) + 1;
    let inputs = word_at(s, given - 1) as usize;
    if 64 < inputs {
        return None;
    }
    let end = given + inputs;
    let length = word_at(s, end) as usize;
    if 160 < length {
        return None;
    }
    Some(Part {
        rule,
        nodes,
        script,
        words,
        given,
        inputs,
        length,
        next: end + 1,
    })
}

// A part's rule and script, for which `words` is lent, 80 words and 4,096: as much of them as the part says.
fn load_part<W: Word>(s: &[u8], part: Part, words: &mut [W])
    requires { (length words.old ≡ 4176) × (part.rule ≤ 30000) × (part.script ≤ 30000) × (part.nodes ≤ 80) × (part.words ≤ 4096) }
    ensures { length words.new ≡ length words.old }
{
    load_words(s, part.rule, part.nodes, &mut words[..80]);
    load_words(s, part.script, part.words, &mut words[80..]);
}

// What a station is lent and only reads, from these words and inputs.
fn station_of<'a, W: Word>(part: Part, words: &'a [W], inputs: &'a [u16]) -> Station<'a, W>
    requires { length words.now ≡ 4176 }
{
    Station {
        rule: first_of(&words[..80], part.nodes),
        script: first_of(&words[80..], part.words),
        inputs: first_of(inputs, part.inputs),
    }
}

// The answer, and whether they ran.
fn print_outcome(rt: &impl Print, a: Result<Ran, Refusal>) -> io::Result<bool> {
    match a {
        Ok(ran) => {
            say(rt, b"ran\n")?;
            print_named(rt, b"turns", ran.turns)?;
            print_named(rt, b"left", ran.left)?;
            Ok(true)
        }
        Err(r) => {
            print_refused(rt, r)?;
            Ok(false)
        }
    }
}

// A station's state, where it ran, and its history.
fn print_station<W: Word>(
    rt: &impl Print,
    has_run: bool,
    m: Machine,
    rule: &[W],
    history: &[u16],
) -> io::Result<()> {
    if has_run {
        print_state(rt, m, rule)?;
        print_named(rt, b"ready", u64::from(m.readiness.ready))?;
    }
    print_numbers(rt, b"history", history)
}

// What they answer is printed, and where the next request starts: nowhere where a count is out of range. Nothing runs where that is in no block.
fn answer_stations<W: Word>(
    rt: &impl Print,
    s: &[u8],
    at: usize,
    words0: &mut [W],
    words1: &mut [W],
    words2: &mut [W],
    words3: &mut [W],
) -> io::Result<Option<usize>>
    requires { (at < 16384) × (length words0.old ≡ 4176) × (length words1.old ≡ 4176) × (length words2.old ≡ 4176) × (length words3.old ≡ 4176) }
{
    let count = word_at(s, at + 1) as usize;
    let budget = long_at(s, at + 2);
    let allowance = long_at(s, at + 4);
    let Some(a) = part_at(s, at + 6, W::IS_WIDE) else {
        return Ok(None);
    };
    let Some(b) = part_at(s, a.next, W::IS_WIDE) else {
        return Ok(None);
    };
    let Some(c) = part_at(s, b.next, W::IS_WIDE) else {
        return Ok(None);
    };
    let Some(d) = part_at(s, c.next, W::IS_WIDE) else {
        return Ok(None);
    };
    if 16384 < d.next {
        return Ok(Some(d.next));
    }
    load_part(s, a, words0);
    load_part(s, b, words1);
    load_part(s, c, words2);
    load_part(s, d, words3);
    let mut inputs0 = [0u16; 64];
    let mut inputs1 = [0u16; 64];
    let mut inputs2 = [0u16; 64];
    let mut inputs3 = [0u16; 64];
    load_numbers(s, a.given, a.inputs, &mut inputs0);
    load_numbers(s, b.given, b.inputs, &mut inputs1);
    load_numbers(s, c.given, c.inputs, &mut inputs2);
    load_numbers(s, d.given, d.inputs, &mut inputs3);
    let mut history0 = [60000u16; 160];
    let mut history1 = [60000u16; 160];
    let mut history2 = [60000u16; 160];
    let mut history3 = [60000u16; 160];
    let first = station_of(a, words0, &inputs0);
    let second = station_of(b, words1, &inputs1);
    let third = station_of(c, words2, &inputs2);
    let fourth = station_of(d, words3, &inputs3);
    let f = run_listed(
        count,
        budget,
        allowance,
        first,
        second,
        third,
        fourth,
        &mut history0[..a.length],
        &mut history1[..b.length],
        &mut history2[..c.length],
        &mut history3[..d.length],
    );
    let has_run = print_outcome(rt, f.answer)?;
    print_station(rt, has_run, f.first, first.rule, &history0[..a.length])?;
    print_station(rt, has_run, f.second, second.rule, &history1[..b.length])?;
    print_station(rt, has_run, f.third, third.rule, &history2[..c.length])?;
    print_station(rt, has_run, f.fourth, fourth.rule, &history3[..d.length])?;
    Ok(Some(d.next))
}

// The request of this kind that starts at word `at`, and where the next one starts.
// The one error is that of a write that failed; nothing of the caller's changes then.
pub fn request_stations(
    rt: &impl Print,
    s: &[u8],
    kind: u32,
    at: usize,
) -> io::Result<Option<usize>>
    requires { at < 16384 }
    ensures { IfOk result (λ next. IfSome next (λ n. at < n)) }
{
    let next = if kind == 28 {
        answer_stations(
            rt,
            s,
            at,
            &mut [0u64; 4176],
            &mut [0u64; 4176],
            &mut [0u64; 4176],
            &mut [0u64; 4176],
        )?
    } else {
        answer_stations(
            rt,
            s,
            at,
            &mut [0u32; 4176],
            &mut [0u32; 4176],
            &mut [0u32; 4176],
            &mut [0u32; 4176],
        )?
    };
    Ok(next.filter(|n| at < *n))
}
