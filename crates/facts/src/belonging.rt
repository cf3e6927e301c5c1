// Where facts belong.
ghost use Rattle.std.specs.Prelude.{◌≡◌, ◌≤◌, ltb, length};
ghost use Rattle.spec.specs.Rule.{node_at, is_since, is_weak_previous};
ghost use Rattle.spec.specs.Facts.{belongs};
ghost use Rattle.sets.specs.Sets.{capacity, set_of};
ghost use Rattle.rule.specs.Nodes.{table_in};
ghost use Rattle.facts.specs.FactSets.{facts_of};

use crate::Facts;
use rule::node::{is_since, is_weak_previous};
use rule::shared::used_twice;
use sets::{union, with, with_if};

// The rule's nodes, and which of them are since and weak previous.
#[derive(Clone, Copy)]
pub struct Groups {
    pub nodes: u64,
    pub sinces: u64,
    pub weak: u64,
}

pub fn group(rule: &[u64]) -> Groups
    requires { length rule.now ≤ capacity }
    ensures nodes { set_of result.nodes ≡ (λ k. ltb k (length (table_in rule.now))) }
    ensures sinces { set_of result.sinces ≡ (λ k. is_since (node_at (table_in rule.now) k)) }
    ensures weak { set_of result.weak ≡ (λ k. is_weak_previous (node_at (table_in rule.now) k)) }
{
    let mut nodes = 0;
    let mut sinces = 0;
    let mut weak = 0;
    for (k, word) in rule.iter().enumerate() {
        nodes = with(nodes, k);
        sinces = with_if(sinces, k, is_since(*word));
        weak = with_if(weak, k, is_weak_previous(*word));
    }
    Groups {
        nodes,
        sinces,
        weak,
    }
}

// Every fact where it belongs.
pub fn belonging(rule: &[u64]) -> Facts
    requires { length rule.now ≤ capacity }
    ensures { facts_of result ≡ belongs (table_in rule.now) }
{
    let g = group(rule);
    let past = union(g.sinces, g.weak);
    let work = union(past, used_twice(rule));
    Facts {
        t: g.nodes,
        f: g.nodes,
        a: past,
        b: past,
        m: past,
        w: work,
        c: past,
    }
}
