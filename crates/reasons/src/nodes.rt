// The registers that the nodes at one index depend on.
ghost use Rattle.std.specs.Prelude.{◌≡◌, true, ℕ, ◌<◌, length};
ghost use Rattle.spec.specs.Logic.{equal_registers};
ghost use Rattle.spec.specs.Rule.{node_allowed, next_of};
ghost use Rattle.sets.specs.Sets.{capacity, set_of};
ghost use Rattle.rule.specs.Nodes.{table_in, node_read, NodeSmall, RulePasses};
ghost use Rattle.limits.specs.Monitor.{cans_of};
ghost use Rattle.intervals.specs.Reasons.{test_registers};
ghost use Rattle.reasons.specs.Registers.{reason_from, reason_of, node_registers, registers_at, sets_in};

use crate::reason::{Reason, both, either, opposite};
use limits::monitor::{Cans, can_at};
use rule::node::{Node, next_of, read_node};
use sets::with;

fn reason_at(values: Cans, registers: &[u64; 64], k: usize) -> Reason
    requires { k < capacity }
    ensures { reason_of result ≡ reason_from (cans_of values k) (sets_in registers.now k) }
{
    let can = can_at(values, k);
    Reason {
        yes: can.yes,
        no: can.no,
        registers: registers[k],
    }
}

// Two registers compared; one with itself depends on none.
fn compared(register: usize, other: usize) -> u64
    requires { (register < capacity) × (other < capacity) }
    ensures { set_of result ≡ test_registers (equal_registers register other) }
{
    if register == other {
        return 0;
    }
    with(with(0, register), other)
}

// What node k depends on. `registers` has this of lower nodes, `earlier` what its prior depends on.
fn node_registers(
    x: Node,
    k: usize,
    values: Cans,
    priors: Cans,
    registers: &[u64; 64],
    earlier: &[u64; 64],
) -> u64
    requires { NodeSmall (node_read x) × (node_allowed (node_read x) ≡ true) × (k < capacity) }
    ensures { set_of result ≡ node_registers (node_read x) k (cans_of values) (cans_of priors) (sets_in registers.now) (sets_in earlier.now) }
{
    match x {
        Node::False => 0,
        Node::Equal { register, .. } | Node::Below { register, .. } => with(0, register),
        Node::Implies { left, right } => {
            let l = reason_at(values, registers, left);
            let r = reason_at(values, registers, right);
            either(opposite(l), r).registers
        }
        Node::Since { left, right } => {
            let l = reason_at(values, registers, left);
            let r = reason_at(values, registers, right);
            let p = reason_at(priors, earlier, k);
            either(r, both(l, p)).registers
        }
        Node::WeakPrevious { .. } => earlier[k],
        Node::EqualRegisters { register, other } => compared(register, other),
    }
}

// Of all nodes of an accepted rule, in the places of the nodes.
pub(crate) fn registers_at(
    rule: &[u64],
    values: Cans,
    priors: Cans,
    earlier: [u64; 64],
) -> [u64; 64]
    requires { RulePasses rule.now }
    ensures { (k : ℕ) → k < length rule.now → sets_in result k ≡ registers_at (table_in rule.now) (cans_of values) (cans_of priors) (sets_in earlier) k }
{
    let mut registers = [0u64; 64];
    for (k, &word) in rule.iter().enumerate() {
        registers[k] = node_registers(read_node(word), k, values, priors, &registers, &earlier);
    }
    registers
}

// What the next priors depend on: for weak previous what its operand depends on, else what the node itself does.
pub(crate) fn earlier_after(rule: &[u64], registers: [u64; 64]) -> [u64; 64]
    requires { RulePasses rule.now }
    ensures { (k : ℕ) → k < length rule.now → sets_in result k ≡ sets_in registers (next_of (table_in rule.now) k) }
{
    let mut earlier = [0u64; 64];
    for k in 0..rule.len() {
        earlier[k] = registers[next_of(rule, k)];
    }
    earlier
}
