// For every node whether it can be true and whether it can be false at one index, from its prior, and the same of its next prior.
ghost use Rattle.std.specs.Prelude.{◌≡◌, true, ◌≤◌, ◌<◌, length};
ghost use Rattle.spec.specs.Logic.{equal, below, equal_registers};
ghost use Rattle.spec.specs.Rule.{node_allowed};
ghost use Rattle.sets.specs.Sets.{capacity};
ghost use Rattle.rule.specs.Nodes.{table_in, node_read, NodeSmall, RulePasses};
ghost use Rattle.intervals.specs.Limits.{test_can};
ghost use Rattle.limits.specs.Monitor.{can_of, implies_can, since_can, cans_of, now_of, node_can, node_next, joining, with_node, now_at, first_cans};

use rule::monitor::{first_priors, since_step};
use rule::node::{Node, read_node};
use sets::{difference, has_node, with_node_if};

// Whether something can be true, and whether it can be false: what is open can be both.
#[derive(Clone, Copy)]
pub struct Can {
    pub yes: bool,
    pub no: bool,
}

// The same of all nodes: those that can be true, and those that can be false.
#[derive(Clone, Copy)]
pub struct Cans {
    pub yes: u64,
    pub no: u64,
}

// The nodes at an index, and their next priors.
#[derive(Clone, Copy)]
pub struct Moment {
    pub values: Cans,
    pub priors: Cans,
}

pub fn can_at(s: Cans, k: usize) -> Can
    requires { k < capacity }
    ensures { can_of result ≡ cans_of s k }
{
    Can {
        yes: has_node(s.yes, k),
        no: has_node(s.no, k),
    }
}

fn with_can(s: Cans, k: usize, x: Can) -> Cans
    requires { k < capacity }
    ensures { cans_of result ≡ joining (cans_of s) k (can_of x) }
{
    Cans {
        yes: with_node_if(s.yes, k, x.yes),
        no: with_node_if(s.no, k, x.no),
    }
}

// Register = constant.
fn equal_can(low: &[u16], high: &[u16], register: usize, constant: u16) -> Can
    requires { (register < length low.now) × (register < length high.now) }
    ensures { can_of result ≡ test_can (equal register constant) low.now high.now }
{
    let a = low[register];
    let b = high[register];
    Can {
        yes: (a <= constant) & (constant <= b),
        no: !((a == constant) & (b == constant)),
    }
}

// Register < constant.
fn below_can(low: &[u16], high: &[u16], register: usize, constant: u16) -> Can
    requires { (register < length low.now) × (register < length high.now) }
    ensures { can_of result ≡ test_can (below register constant) low.now high.now }
{
    Can {
        yes: low[register] < constant,
        no: constant <= high[register],
    }
}

// Register = register: one always equals itself; two cannot where their ranges are apart, and must where both are exact and equal.
fn equal_registers_can(low: &[u16], high: &[u16], register: usize, other: usize) -> Can
    requires { (register < length low.now) × (register < length high.now) × (other < length low.now) × (other < length high.now) }
    ensures { can_of result ≡ test_can (equal_registers register other) low.now high.now }
{
    let a = low[register];
    let b = high[register];
    let c = low[other];
    let d = high[other];
    let same = register == other;
    Can {
        yes: same | ((a <= d) & (c <= b)),
        no: !(same | ((a == b) & (c == d) & (a == c))),
    }
}

fn implies_can(left: Can, right: Can) -> Can
    ensures { can_of result ≡ implies_can (can_of left) (can_of right) }
{
    Can {
        yes: left.no | right.yes,
        no: left.yes & right.no,
    }
}

// The judge's step twice: of all that can be true, and of all that cannot be false.
fn since_can(left: Can, right: Can, prior: Can) -> Can
    ensures { can_of result ≡ since_can (can_of left) (can_of right) (can_of prior) }
{
    Can {
        yes: since_step(left.yes, right.yes, prior.yes),
        no: !since_step(!left.no, !right.no, !prior.no),
    }
}

// What node k can be, from what lower nodes and its prior can be.
fn node_can(x: Node, k: usize, low: &[u16], high: &[u16], values: Cans, priors: Cans) -> Can
    requires { (16 ≤ length low.now) × (16 ≤ length high.now) × NodeSmall (node_read x) × (node_allowed (node_read x) ≡ true) × (k < capacity) }
    ensures { can_of result ≡ node_can (node_read x) k low.now high.now (cans_of values) (cans_of priors) }
{
    match x {
        Node::False => Can {
            yes: false,
            no: true,
        },
        Node::Equal { register, constant } => equal_can(low, high, register, constant),
        Node::Below { register, constant } => below_can(low, high, register, constant),
        Node::Implies { left, right } => implies_can(can_at(values, left), can_at(values, right)),
        Node::Since { left, right } => since_can(
            can_at(values, left),
            can_at(values, right),
            can_at(priors, k),
        ),
        Node::WeakPrevious { .. } => can_at(priors, k),
        Node::EqualRegisters { register, other } => {
            equal_registers_can(low, high, register, other)
        }
    }
}

// What its next prior can be: for weak previous what its operand can be, else what it can be itself.
fn next_can(x: Node, value: Can, values: Cans) -> Can
    requires { NodeSmall (node_read x) }
    ensures { can_of result ≡ node_next (node_read x) (can_of value) (cans_of values) }
{
    match x {
        Node::WeakPrevious { left } => can_at(values, left),
        _ => value,
    }
}

// Node k joins the lower nodes.
fn evaluate_node(x: Node, k: usize, low: &[u16], high: &[u16], priors: Cans, m: Moment) -> Moment
    requires { (16 ≤ length low.now) × (16 ≤ length high.now) × NodeSmall (node_read x) × (node_allowed (node_read x) ≡ true) × (k < capacity) }
    ensures { now_of result ≡ with_node (node_read x) k low.now high.now (cans_of priors) (now_of m) }
{
    let value = node_can(x, k, low, high, m.values, priors);
    Moment {
        values: with_can(m.values, k, value),
        priors: with_can(m.priors, k, next_can(x, value, m.values)),
    }
}

// All nodes of an accepted rule at an index, which has 16 lowest and 16 highest values.
pub fn evaluate(rule: &[u64], low: &[u16], high: &[u16], priors: Cans) -> Moment
    requires { (16 ≤ length low.now) × (16 ≤ length high.now) × RulePasses rule.now }
    ensures { now_of result ≡ now_at (table_in rule.now) low.now high.now (cans_of priors) }
{
    let mut m = Moment {
        values: Cans { yes: 0, no: 0 },
        priors: Cans { yes: 0, no: 0 },
    };
    for (k, &word) in rule.iter().enumerate() {
        m = evaluate_node(read_node(word), k, low, high, priors, m);
    }
    m
}

// The priors before index 0.
pub fn first_cans(rule: &[u64]) -> Cans
    ensures { cans_of result ≡ first_cans (table_in rule.now) }
{
    let yes = first_priors(rule);
    Cans {
        yes,
        no: difference(18446744073709551615, yes),
    }
}
