// The search for the largest notes: every line starts with all that belongs, line 0 with the first facts; a line pushed cuts those
// that follow it to what it passes on, and a line whose notes changed is pushed again.
ghost use Rattle.std.specs.Prelude.{◌≡◌, true, IfSome, ◌<◌, length};
ghost use Rattle.spec.specs.Script.{bare_code, instruction_read, names_allowed};
ghost use Rattle.spec.specs.Facts.{close, pass};
ghost use Rattle.rule.specs.Nodes.{table_in, RulePasses};
ghost use Rattle.facts.specs.FactSets.{facts_of};
ghost use Rattle.finder.specs.Rows.{HasLine, Room, Asked, way_to, WayDone, Search, Pushed, Swept, Settled, LargestAt};

use crate::flags::{lower, next_flag, raise};
use crate::rows::{cut, load, put};
use checker::closing::first_facts;
use checker::passing::pass_on;
use facts::Facts;
use facts::belonging::belonging;
use script::instruction::decode;
use script::line::{goes_on, has_target};

// One way out of a line with the closed facts x: the line that follows, if one does, keeps what is passed on. Whether some of its notes
// went.
fn push_to(
    rule: &[u64],
    word: u32,
    taken: bool,
    follower: Option<usize>,
    x: Facts,
    notes: &mut [u64],
    flags: &mut [u64],
) -> bool
    requires { RulePasses rule.now × (names_allowed (table_in rule.now) (instruction_read word) ≡ true)
        × (close (table_in rule.now) (facts_of x) ≡ facts_of x) × IfSome follower (λ m. HasLine m notes.old flags.old) }
    ensures { WayDone notes.old flags.old (way_to follower)
        (close (table_in rule.now) (pass (table_in rule.now) (instruction_read word) taken (facts_of x)))
        notes.new flags.new result }
{
    match follower {
        Some(m) => cut(notes, flags, m, pass_on(rule, word, taken, x)),
        None => false,
    }
}

// Line l's followers keep what it passes on. Whether some notes changed.
fn push(rule: &[u64], code: &[u32], notes: &mut [u64], flags: &mut [u64], l: usize) -> bool
    requires { Asked rule.now code.now × Room (length code.now) notes.old flags.old × (l < length code.now)
        × Search (table_in rule.now) (bare_code code.now) notes.old flags.old }
    ensures { Pushed rule.now code.now notes.old flags.old l notes.new flags.new result }
{
    let word = code[l];
    let i = decode(word);
    let x = load(notes, l);
    lower(flags, l);
    let target = has_target(i).then_some(i.target);
    let next = goes_on(i).then_some(l + 1);
    let a = push_to(rule, word, true, target, x, notes, flags);
    let b = push_to(rule, word, false, next, x, notes, flags);
    a | b
}

// Every line with a flag is pushed, in rising order, also those that get one on the way. Whether some notes changed.
fn sweep(rule: &[u64], code: &[u32], notes: &mut [u64], flags: &mut [u64]) -> bool
    requires { Asked rule.now code.now × Room (length code.now) notes.old flags.old
        × Search (table_in rule.now) (bare_code code.now) notes.old flags.old }
    ensures { Swept rule.now code.now notes.old flags.old notes.new flags.new result (length code.now) }
{
    let mut again = false;
    let mut next = next_flag(flags, 0, code.len());
    // No iterator over the flags: a push changes them.
    while let Some(l) = next {
        again = push(rule, code, notes, flags, l) | again;
        next = next_flag(flags, l + 1, code.len());
    }
    again
}

// Sweeps until nothing changes.
fn settle(rule: &[u64], code: &[u32], notes: &mut [u64], flags: &mut [u64])
    requires { Asked rule.now code.now × Room (length code.now) notes.old flags.old
        × Search (table_in rule.now) (bare_code code.now) notes.old flags.old }
    ensures { Settled rule.now code.now notes.old flags.old notes.new flags.new }
{
    // No index is counted: how many sweeps there are is known only when one changes nothing.
    while sweep(rule, code, notes, flags) {}
}

// Every line has all that belongs and a flag, and line 0 the first facts.
fn prepare(rule: &[u64], code: &[u32], notes: &mut [u64], flags: &mut [u64])
    requires { Asked rule.now code.now × Room (length code.now) notes.old flags.old }
    ensures { (length notes.new ≡ length notes.old) × (length flags.new ≡ length flags.old)
        × Search (table_in rule.now) (bare_code code.now) notes.new flags.new }
{
    let most = belonging(rule);
    for l in 0..code.len() {
        put(notes, l, most);
        raise(flags, l);
    }
    put(notes, 0, first_facts(rule));
}

// The largest notes, in the lent notes.
pub(crate) fn find_in(rule: &[u64], code: &[u32], notes: &mut [u64], flags: &mut [u64])
    requires { Asked rule.now code.now × Room (length code.now) notes.old flags.old }
    ensures { (length notes.new ≡ length notes.old) × LargestAt rule.now code.now notes.new }
{
    prepare(rule, code, notes, flags);
    settle(rule, code, notes, flags);
}
