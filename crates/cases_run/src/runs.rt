// Requests of kinds 3, 4 and 6: a script is run with a budget, or step by step; a bare script is woven, and what was woven is run. Kinds 13,
// 14 and 16 are the same of the second form.
ghost use Rattle.std.specs.Prelude.{◌≤◌, IfSome};

use checker::check_script;
use machine::Machine;
use machine::answer::{RunAnswer, Stop};
use requests::loading::{load_numbers, long};
use requests::printing::{
    print_answer, print_named, print_number, print_numbers, print_refused, say,
};
use requests::states::print_state;
use rule::answer::Refusal;
use rule::stored::Word;
use std::io;
use words::word_at;

// What a refused run has: every number is 0, and no reason to stop is printed of it.
const NOTHING: RunAnswer = RunAnswer {
    stop: Stop::Halted,
    line: 0,
    registers: [0u16; 16],
    steps: 0,
    presentations: 0,
    reads: 0,
};

fn print_stop(rt: &impl Print, s: Stop) -> io::Result<()> {
    match s {
        Stop::Halted => say(rt, b"halted\n"),
        Stop::Spent => say(rt, b"spent\n"),
        Stop::Dry => say(rt, b"dry\n"),
        Stop::Full => say(rt, b"full\n"),
    }
}

fn print_numbers_of(
    rt: &impl Print,
    a: RunAnswer,
    with_steps: bool,
    history: &[u16],
) -> io::Result<()> {
    print_named(rt, b"line", a.line as u64)?;
    print_numbers(rt, b"registers", &a.registers)?;
    if with_steps {
        print_named(rt, b"steps", a.steps)?;
    }
    print_named(rt, b"presentations", a.presentations as u64)?;
    print_named(rt, b"reads", a.reads as u64)?;
    print_numbers(rt, b"history", history)
}

fn print_run(
    rt: &impl Print,
    a: Result<RunAnswer, Refusal>,
    with_steps: bool,
    history: &[u16],
) -> io::Result<()> {
    match a {
        Ok(ran) => {
            print_stop(rt, ran.stop)?;
            print_numbers_of(rt, ran, with_steps, history)
        }
        Err(r) => {
            print_refused(rt, r)?;
            print_numbers_of(rt, NOTHING, with_steps, history)
        }
    }
}

// How many states were ready, the next one included; it stops at the largest number.
fn count_ready(count: u64, ready: bool) -> u64 {
    count.saturating_add(u64::from(ready))
}

// Whether the last state is ready, and how many of all of them are.
fn print_ready(rt: &impl Print, ready: bool, count: u64) -> io::Result<()> {
    say(rt, b"ready")?;
    print_number(rt, usize::from(ready))?;
    print_named(rt, b"", count)
}

fn answer_steps<W: Word>(
    rt: &impl Print,
    rule: &[W],
    script: &[W],
    inputs: &[u16],
    count: u64,
    history: &mut [u16],
) -> io::Result<()> {
    let mut m = Machine::fresh(rule);
    let mut ready = count_ready(0, m.readiness.ready);
    for _ in 0..count {
        m = m.step(rule, script, inputs, history);
        ready = count_ready(ready, m.readiness.ready);
    }
    say(rt, b"stepped\n")?;
    print_state(rt, m, rule)?;
    print_ready(rt, m.readiness.ready, ready)?;
    print_numbers(rt, b"history", history)
}

// What a request lends a machine: so many inputs, the budget or the number of steps, and the length of the history.
#[derive(Clone, Copy)]
struct Lent {
    inputs: usize,
    most: u64,
    length: usize,
}

// From word `at` on: input count, inputs, the budget or the number of steps as two words, the length of the lent history.
fn lent_at(s: &[u8], at: usize) -> Option<Lent>
    requires { at ≤ 100000 }
    ensures { IfSome result (λ l. (l.inputs ≤ 16384) × (l.length ≤ 16384)) }
{
    let count = word_at(s, at) as usize;
    if 16384 < count {
        return None;
    }
    let after = at + 1 + count;
    let length = word_at(s, after + 2) as usize;
    if 16384 < length {
        return None;
    }
    Some(Lent {
        inputs: count,
        most: long(word_at(s, after), word_at(s, after + 1)),
        length,
    })
}

// What a run, or a number of steps, makes of a script. A lent history has 60,000 everywhere, which no register can hold.
pub(crate) fn answer_machine<W: Word>(
    rt: &impl Print,
    s: &[u8],
    kind: u32,
    rule: &[W],
    script: &[W],
    at: usize,
) -> io::Result<()>
    requires { at ≤ 100000 }
{
    let Some(lent) = lent_at(s, at) else {
        return Ok(());
    };
    let mut inputs = [0u16; 16384];
    load_numbers(s, at + 1, lent.inputs, &mut inputs);
    let given = &inputs[..lent.inputs];
    let mut buffer = [60000u16; 16384];
    let history = &mut buffer[..lent.length];
    if (kind == 3) | (kind == 13) {
        let a = machine::run(rule, script, given, lent.most, history);
        print_run(rt, a, true, history)
    } else {
        answer_steps(rt, rule, script, given, lent.most, history)
    }
}

// Weaves a bare script, asks about what was woven, and runs it. The steps are not printed: the machine that the answers are compared with
// has others.
fn answer_woven<W: Word>(
    rt: &impl Print,
    s: &[u8],
    rule: &[W],
    bare: &[u32],
    out: &mut [W],
    at: usize,
    lent: Lent,
) -> io::Result<()>
    requires { (at ≤ 100000) × (lent.inputs ≤ 16384) × (lent.length ≤ 16384) }
{
    let mut inputs = [0u16; 16384];
    load_numbers(s, at + 1, lent.inputs, &mut inputs);
    let mut buffer = [60000u16; 16384];
    let history = &mut buffer[..lent.length];
    match weaver::weave(rule, bare, out) {
        Err(r) => print_refused(rt, r),
        Ok(lines) => {
            if lines <= out.len() / 8 {
                let script = &out[..8 * lines];
                print_answer(rt, check_script(rule, script))?;
                let a = machine::run(rule, script, &inputs[..lent.inputs], lent.most, history);
                print_run(rt, a, false, history)?;
            }
            Ok(())
        }
    }
}

// Kind 6. The output of the weaver is for 1,024 lines.
pub(crate) fn answer_bare(
    rt: &impl Print,
    s: &[u8],
    rule: &[u32],
    bare: &[u32],
    at: usize,
) -> io::Result<()>
    requires { at ≤ 100000 }
{
    let Some(lent) = lent_at(s, at) else {
        return Ok(());
    };
    let mut out = [0u32; 8192];
    answer_woven(rt, s, rule, bare, &mut out, at, lent)
}

// Kind 16.
pub(crate) fn answer_long_bare(
    rt: &impl Print,
    s: &[u8],
    rule: &[u64],
    bare: &[u32],
    at: usize,
) -> io::Result<()>
    requires { at ≤ 100000 }
{
    let Some(lent) = lent_at(s, at) else {
        return Ok(());
    };
    let mut out = [0u64; 8192];
    answer_woven(rt, s, rule, bare, &mut out, at, lent)
}
