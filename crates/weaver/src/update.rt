// The code of a node with a work bit: a past node's next prior, or a shared node's value, becomes that bit.
ghost use Rattle.std.specs.Prelude.{◌≡◌, true, false, ◌+◌, ◌-◌, ◌≤◌, ◌<◌};
ghost use Rattle.spec.specs.Rule.{since_node, weak_previous_node, node_at, is_shared};
ghost use Rattle.spec.specs.Weaver.{setting, update, update_size, work_code, work_size};
ghost use Rattle.sets.specs.Sets.{capacity};
ghost use Rattle.facts.specs.FactSets.{facts_of};
ghost use Rattle.facts.specs.Written.{Space, Written};
ghost use Rattle.rule.specs.Nodes.{table_in};
ghost use Rattle.weaver.specs.Laid.{Deciding, Updating, Ending, Working};
ghost use Rattle.weaver.specs.Parts.{left_lines, since_end};

use crate::Measured;
use crate::decision::put_decision;
use crate::line::{put_two, with_work};
use facts::line::put_line;
use facts::{Facts, learn_prior, learn_value};
use layout::node_size;
use rule::node::{Node, read_node};
use rule::stored::Word;
use script::instruction::{Opcode, encode};
use sets::has;

// In each, line `base` of the script is the first of the output.

// Set 1, go past, set 0: the value of node v becomes the work bit of node k.
fn put_setting<W: Word>(k: usize, v: usize, base: usize, place: usize, x: Facts, out: &mut [W])
    requires { (k < capacity) × (v < capacity) × (base ≤ place) × (place + 3 < 1024) × Space (place - base) 3 (W.numbers out.old) }
    ensures { Written W.IS_WIDE (place - base) (setting k v place (facts_of x)) (W.numbers out.old) (W.numbers out.new) }
{
    let at = place - base;
    let y = learn_value(x, v, true, false);
    let z = with_work(x, k, true);
    put_two(
        encode(Opcode::SetWork, 1, k, 0),
        y,
        encode(Opcode::Goto, 0, 0, place + 3),
        z,
        at,
        out,
    );
    put_line(
        encode(Opcode::SetWork, 0, k, 0),
        learn_value(x, v, false, true),
        at + 2,
        out,
    );
}

// Where right is false: a branch on the prior of node k to the code deciding left, which follows, and a go to the clearing line.
fn put_left<W: Word>(
    rule: &Measured,
    k: usize,
    left: usize,
    base: usize,
    place: usize,
    set_at: usize,
    x: Facts,
    out: &mut [W],
)
    requires { (k < capacity) × (base ≤ place) × Deciding rule.now.nodes.now rule.now.sizes.now rule.now.shared false left base (place + 2) set_at (set_at + 2) (W.numbers out.old) }
    ensures { Written W.IS_WIDE (place - base) (left_lines (table_in rule.now.nodes.now) k left place set_at (facts_of x)) (W.numbers out.old) (W.numbers out.new) }
{
    let y = learn_prior(x, k, false, true);
    put_two(
        encode(Opcode::IfKept, 0, k, place + 2),
        x,
        encode(Opcode::Goto, 0, 0, set_at + 2),
        y,
        place - base,
        out,
    );
    let z = learn_prior(x, k, true, false);
    put_decision(
        rule,
        false,
        left,
        base,
        place + 2,
        set_at,
        set_at + 2,
        z,
        out,
    );
}

// A since node's code from there on.
fn put_since_end<W: Word>(
    rule: &Measured,
    k: usize,
    left: usize,
    right: usize,
    base: usize,
    place: usize,
    x: Facts,
    out: &mut [W],
)
    requires { Ending rule.now.nodes.now rule.now.sizes.now rule.now.shared k left right base place (W.numbers out.old) }
    ensures { Written W.IS_WIDE (place - base) (since_end (table_in rule.now.nodes.now) k left right place (facts_of x)) (W.numbers out.old) (W.numbers out.new) }
{
    let set_at = place + 2 + rule.sizes[left] as usize;
    let y = learn_value(x, right, false, true);
    put_left(rule, k, left, base, place, set_at, y, out);
    put_setting(k, k, base, set_at, x, out);
}

// The code of a since node. Hands back how many lines it has, as do the next two.
fn put_since<W: Word>(
    rule: &Measured,
    k: usize,
    left: usize,
    right: usize,
    base: usize,
    place: usize,
    x: Facts,
    out: &mut [W],
) -> usize
    requires { Updating rule.now.nodes.now rule.now.sizes.now rule.now.shared k base place (W.numbers out.old) × (node_at (table_in rule.now.nodes.now) k ≡ since_node left right) }
    ensures { (result ≡ update_size (table_in rule.now.nodes.now) (node_at (table_in rule.now.nodes.now) k))
        × Written W.IS_WIDE (place - base) (update (table_in rule.now.nodes.now) (node_at (table_in rule.now.nodes.now) k) k place (facts_of x)) (W.numbers out.old) (W.numbers out.new) }
{
    let r = rule.sizes[right] as usize;
    let l = rule.sizes[left] as usize;
    let test_at = place + r;
    put_decision(
        rule,
        false,
        right,
        base,
        place,
        test_at + 2 + l,
        test_at,
        x,
        out,
    );
    put_since_end(rule, k, left, right, base, test_at, x, out);
    r + 2 + l + 3
}

// The code of a weak previous node.
fn put_weak_previous<W: Word>(
    rule: &Measured,
    k: usize,
    left: usize,
    base: usize,
    place: usize,
    x: Facts,
    out: &mut [W],
) -> usize
    requires { Updating rule.now.nodes.now rule.now.sizes.now rule.now.shared k base place (W.numbers out.old) × (node_at (table_in rule.now.nodes.now) k ≡ weak_previous_node left) }
    ensures { (result ≡ update_size (table_in rule.now.nodes.now) (node_at (table_in rule.now.nodes.now) k))
        × Written W.IS_WIDE (place - base) (update (table_in rule.now.nodes.now) (node_at (table_in rule.now.nodes.now) k) k place (facts_of x)) (W.numbers out.old) (W.numbers out.new) }
{
    let l = rule.sizes[left] as usize;
    let set_at = place + l;
    put_decision(rule, false, left, base, place, set_at, set_at + 2, x, out);
    put_setting(k, left, base, set_at, x, out);
    l + 3
}

// A past node's code; none for other nodes.
fn put_update<W: Word>(
    rule: &Measured,
    k: usize,
    base: usize,
    place: usize,
    x: Facts,
    out: &mut [W],
) -> usize
    requires { Updating rule.now.nodes.now rule.now.sizes.now rule.now.shared k base place (W.numbers out.old) }
    ensures { (result ≡ update_size (table_in rule.now.nodes.now) (node_at (table_in rule.now.nodes.now) k))
        × Written W.IS_WIDE (place - base) (update (table_in rule.now.nodes.now) (node_at (table_in rule.now.nodes.now) k) k place (facts_of x)) (W.numbers out.old) (W.numbers out.new) }
{
    let node = read_node(rule.nodes[k]);
    match node {
        Node::Since { left, right } => put_since(rule, k, left, right, base, place, x, out),
        Node::WeakPrevious { left } => put_weak_previous(rule, k, left, base, place, x, out),
        _ => 0,
    }
}

// A shared node's code: it is decided by what it is.
fn put_shared<W: Word>(
    rule: &Measured,
    k: usize,
    base: usize,
    place: usize,
    x: Facts,
    out: &mut [W],
) -> usize
    requires { Working rule.now.nodes.now rule.now.sizes.now rule.now.shared k base place (W.numbers out.old) × (is_shared (table_in rule.now.nodes.now) k ≡ true) }
    ensures { (result ≡ work_size (table_in rule.now.nodes.now) k)
        × Written W.IS_WIDE (place - base) (work_code (table_in rule.now.nodes.now) k place (facts_of x)) (W.numbers out.old) (W.numbers out.new) }
{
    let sizes = rule.sizes;
    let n = node_size(sizes, read_node(rule.nodes[k])) as usize;
    let set_at = place + n;
    put_decision(rule, true, k, base, place, set_at, set_at + 2, x, out);
    put_setting(k, k, base, set_at, x, out);
    n + 3
}

// Node k's code: none but for nodes with a work bit.
pub(crate) fn put_work<W: Word>(
    rule: &Measured,
    k: usize,
    base: usize,
    place: usize,
    x: Facts,
    out: &mut [W],
) -> usize
    requires { Working rule.now.nodes.now rule.now.sizes.now rule.now.shared k base place (W.numbers out.old) }
    ensures { (result ≡ work_size (table_in rule.now.nodes.now) k)
        × Written W.IS_WIDE (place - base) (work_code (table_in rule.now.nodes.now) k place (facts_of x)) (W.numbers out.old) (W.numbers out.new) }
{
    if has(rule.shared, k) {
        put_shared(rule, k, base, place, x, out)
    } else {
        put_update(rule, k, base, place, x, out)
    }
}
