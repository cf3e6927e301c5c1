// Deciding a node towards two places.
ghost use Rattle.std.specs.Prelude.{◌≡◌, false, ◌++◌, ℕ, ◌-◌, ◌*◌, ◌<◌};
ghost use Rattle.spec.specs.Rule.{Table};
ghost use Rattle.spec.specs.Script.{goto, word_for};
ghost use Rattle.spec.specs.Facts.{value_is, ◌∪◌, one};
ghost use Rattle.spec.specs.Weaver.{size_from, Decision, decide_from};
ghost use Rattle.sets.specs.Sets.{capacity};
ghost use Rattle.facts.specs.FactSets.{facts_of};
ghost use Rattle.facts.specs.Written.{stored_line, Space, Written};
ghost use Rattle.rule.specs.Nodes.{table_in, node_read, NodeSmall, is_implies, over_at};
ghost use Rattle.weaver.specs.Parts.{deciding};
ghost use Rattle.weaver.specs.Laid.{Deciding};

use crate::Measured;
use crate::line::{copied, put_two};
use facts::line::put_line;
use facts::{Facts, learn_value};
use rule::node::{Node, read_node};
use rule::stored::Word;
use script::instruction::{Opcode, encode};
use sets::has;

// A leaf, node k, at line `at` of the output: its branch to the true place, then go to the false place, which has F of the leaf.
fn put_leaf<W: Word>(branch: u32, k: usize, on_false: usize, x: Facts, at: usize, out: &mut [W])
    requires { (k < capacity) × (on_false < 1024) × Space at 2 (W.numbers out.old) }
    ensures { W.numbers out.new ≡ over_at (8 * at) (stored_line W.IS_WIDE branch (facts_of x) ++ stored_line W.IS_WIDE (word_for (goto on_false)) (facts_of x ∪ one (value_is false) k)) (W.numbers out.old) }
{
    let y = learn_value(x, k, false, true);
    put_two(branch, x, encode(Opcode::Goto, 0, 0, on_false), y, at, out);
}

// The code for a node that is no implies; what an implies puts is put_decision's.
fn put_simple<W: Word>(
    node: Node,
    k: usize,
    on_true: usize,
    on_false: usize,
    x: Facts,
    at: usize,
    out: &mut [W],
)
    requires { NodeSmall (node_read node) × (is_implies (node_read node) ≡ false) × (k < capacity) × (on_true < 1024) × (on_false < 1024) × Space at (size_from (λ j. 0) (node_read node) k) (W.numbers out.old) }
    ensures { (t : Table) (decided : ℕ → Decision) (place : ℕ) → Written W.IS_WIDE at (decide_from t decided (node_read node) k place on_true on_false (facts_of x)) (W.numbers out.old) (W.numbers out.new) }
{
    match node {
        Node::False => put_line(encode(Opcode::Goto, 0, 0, on_false), x, at, out),
        Node::Equal { register, constant } => {
            let branch = encode(Opcode::IfEqual, register, constant as usize, on_true);
            put_leaf(branch, k, on_false, x, at, out)
        }
        Node::Below { register, constant } => {
            let branch = encode(Opcode::IfBelow, register, constant as usize, on_true);
            put_leaf(branch, k, on_false, x, at, out)
        }
        Node::Implies { .. } => {}
        Node::Since { .. } => {
            let branch = encode(Opcode::IfWork, 0, k, on_true);
            put_leaf(branch, k, on_false, x, at, out)
        }
        Node::WeakPrevious { .. } => {
            let branch = encode(Opcode::IfKept, 0, k, on_true);
            put_leaf(branch, k, on_false, x, at, out)
        }
        Node::EqualRegisters { register, other } => {
            let branch = encode(Opcode::IfEqualRegisters, register, other, on_true);
            put_leaf(branch, k, on_false, x, at, out)
        }
    }
}

// The code for a mention of node k at `place` or, where `own`, for node k by what it is. Line `base` of the script is the first of the
// output.
pub(crate) fn put_decision<W: Word>(
    rule: &Measured,
    own: bool,
    k: usize,
    base: usize,
    place: usize,
    on_true: usize,
    on_false: usize,
    x: Facts,
    out: &mut [W],
)
    requires { Deciding rule.now.nodes.now rule.now.sizes.now rule.now.shared own k base place on_true on_false (W.numbers out.old) }
    ensures { Written W.IS_WIDE (place - base) (deciding own (table_in rule.now.nodes.now) k place on_true on_false (facts_of x)) (W.numbers out.old) (W.numbers out.new) }
{
    let mut by_kind = own;
    let mut j = k;
    let mut here = place;
    let mut y = x;
    // an implies: the code for left, and on to right
    loop {
        if has(rule.shared, j) & !by_kind {
            let branch = encode(Opcode::IfWork, 0, j, on_true);
            put_leaf(branch, j, on_false, y, here - base, out);
            return;
        }
        let node = read_node(rule.nodes[j]);
        if let Node::Implies { left, right } = node {
            let then = here + rule.sizes[left] as usize;
            put_decision(rule, false, left, base, here, then, on_true, copied(y), out);
            y = learn_value(y, left, true, false);
            by_kind = false;
            j = right;
            here = then;
        } else {
            put_simple(node, j, on_true, on_false, y, here - base, out);
            return;
        }
    }
}
