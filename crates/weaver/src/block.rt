// The block that decides the rule before a present.
ghost use Rattle.std.specs.Prelude.{◌≡◌, cond, [], ◌∷◌, ◌+◌, ◌-◌, ◌<◌, ◌≤◌, length};
ghost use Rattle.spec.specs.Questions.{count};
ghost use Rattle.spec.specs.Rule.{is_past, has_work};
ghost use Rattle.spec.specs.Script.{keep};
ghost use Rattle.spec.specs.Facts.{kept_is_prior, work_is_next, work_is_prior, ◌∪◌, only};
ghost use Rattle.spec.specs.Weaver.{line, updates_size, updates, keeps, block_size, block};
ghost use Rattle.sets.specs.Sets.{set_of, capacity};
ghost use Rattle.facts.specs.FactSets.{facts_of};
ghost use Rattle.facts.specs.Written.{Space, Written};
ghost use Rattle.weaver.specs.Parts.{past_nodes, present_lines, guard_lines};
ghost use Rattle.rule.specs.Nodes.{table_in};
ghost use Rattle.weaver.specs.Laid.{Updatable, Guarding, Blocking};

use crate::Measured;
use crate::decision::put_decision;
use crate::update::put_work;
use facts::line::put_line;
use facts::{Facts, learn_value};
use rule::stored::Word;
use script::instruction::{Opcode, encode};
use sets::{has, union, with_if};

// The facts M of the nodes in m, W of those in w and C of those in c.
pub(crate) fn noted(m: u64, w: u64, c: u64) -> Facts
    ensures { facts_of result ≡ only kept_is_prior (set_of m) ∪ only work_is_next (set_of w) ∪ only work_is_prior (set_of c) }
{
    Facts {
        t: 0,
        f: 0,
        a: 0,
        b: 0,
        m,
        w,
        c,
    }
}

// The code of the nodes with a work bit in rising order, which starts at `place`; `work` is the set of them. Hands back how many
// lines it has.
fn put_updates<W: Word>(rule: &Measured, work: u64, place: usize, out: &mut [W]) -> usize
    requires { Updatable rule.now.nodes.now rule.now.sizes.now rule.now.shared place (W.numbers out.old) × (set_of rule.now.past ≡ past_nodes (table_in rule.now.nodes.now)) × (set_of work ≡ has_work (table_in rule.now.nodes.now)) }
    ensures { (result ≡ updates_size (length rule.now.nodes.now) (table_in rule.now.nodes.now))
        × Written W.IS_WIDE 0 (updates (length rule.now.nodes.now) (table_in rule.now.nodes.now) place) (W.numbers out.old) (W.numbers out.new) }
{
    let mut n = 0;
    let mut done = 0;
    for k in 0..rule.nodes.len() {
        let x = noted(rule.past, done, 0);
        n += put_work(rule, k, place, place + n, x, out);
        done = with_if(done, k, has(work, k));
    }
    n
}

// A 12 of node k with the facts x if it is a past node. Hands back how many lines that is.
fn put_keep<W: Word>(k: usize, is_past: bool, x: Facts, at: usize, out: &mut [W]) -> usize
    requires { (k < capacity) × Space at (cond is_past 1 0) (W.numbers out.old) }
    ensures { (result ≡ cond is_past 1 0)
        × Written W.IS_WIDE at (cond is_past (line (keep k) (facts_of x) ∷ []) []) (W.numbers out.old) (W.numbers out.new) }
{
    if is_past {
        put_line(encode(Opcode::Keep, 0, k, 0), x, at, out);
        1
    } else {
        0
    }
}

// One 12 for each past node, rising.
fn put_keeps<W: Word>(rule: &Measured, at: usize, out: &mut [W])
    requires { (length rule.now.nodes.now ≤ capacity) × (set_of rule.now.past ≡ past_nodes (table_in rule.now.nodes.now)) × Space at (count is_past (table_in rule.now.nodes.now)) (W.numbers out.old) }
    ensures { Written W.IS_WIDE at (keeps (length rule.now.nodes.now) (table_in rule.now.nodes.now)) (W.numbers out.old) (W.numbers out.new) }
{
    let mut n = 0;
    let mut done = 0;
    for k in 0..rule.nodes.len() {
        let x = noted(done, 0, rule.past);
        let is_past = has(rule.past, k);
        n += put_keep(k, is_past, x, at + n, out);
        done = with_if(done, k, is_past);
    }
}

// The present, with T of the last node, and the 12s.
fn put_present<W: Word>(rule: &Measured, x: Facts, at: usize, out: &mut [W])
    requires { (0 < length rule.now.nodes.now) × (length rule.now.nodes.now ≤ capacity) × (set_of rule.now.past ≡ past_nodes (table_in rule.now.nodes.now)) × Space at (1 + count is_past (table_in rule.now.nodes.now)) (W.numbers out.old) }
    ensures { Written W.IS_WIDE at (present_lines (table_in rule.now.nodes.now) (facts_of x)) (W.numbers out.old) (W.numbers out.new) }
{
    put_line(
        encode(Opcode::Present, 0, 0, 0),
        learn_value(x, rule.nodes.len() - 1, true, false),
        at,
        out,
    );
    put_keeps(rule, at + 1, out);
}

// The last node is decided: true leads to the present, false to the end of the block. Line `base` of the script is the first of the output.
fn put_guard<W: Word>(
    rule: &Measured,
    base: usize,
    place: usize,
    end: usize,
    x: Facts,
    out: &mut [W],
)
    requires { Guarding rule.now.nodes.now rule.now.sizes.now rule.now.shared base place end (W.numbers out.old) × (set_of rule.now.past ≡ past_nodes (table_in rule.now.nodes.now)) }
    ensures { Written W.IS_WIDE (place - base) (guard_lines (table_in rule.now.nodes.now) place end (facts_of x)) (W.numbers out.old) (W.numbers out.new) }
{
    let last = rule.nodes.len() - 1;
    let then = place + rule.sizes[last] as usize;
    put_decision(rule, false, last, base, place, then, end, x, out);
    put_present(rule, x, then - base, out);
}

// The block at `place`, of `size` lines, into the start of the output.
pub(crate) fn put_block<W: Word>(rule: &Measured, size: usize, place: usize, out: &mut [W])
    requires { Blocking rule.now.nodes.now rule.now.sizes.now rule.now.shared place (W.numbers out.old) × (size ≡ block_size (table_in rule.now.nodes.now)) × (set_of rule.now.past ≡ past_nodes (table_in rule.now.nodes.now)) }
    ensures { Written W.IS_WIDE 0 (block (table_in rule.now.nodes.now) place) (W.numbers out.old) (W.numbers out.new) }
{
    let work = union(rule.past, rule.shared);
    let n = put_updates(rule, work, place, out);
    let x = noted(rule.past, work, 0);
    put_guard(rule, place, place + n, place + size, x, out);
}
