// The facts noted at a line, as seven sets of nodes.
#![tactic(auto)]

ghost use Rattle.std.specs.Prelude.{◌≡◌, ◌<◌, true, false};
ghost use Rattle.spec.specs.Facts.{value_is, prior_is, ◌∪◌, one, provided, among_below};
ghost use Rattle.sets.specs.Sets.{capacity, set_of};
ghost use Rattle.facts.specs.FactSets.{facts_of};

use sets::{subset, with_if};

pub mod belonging;
pub mod line;

// The nodes that are true now (t) and false now (f), whose prior is true (a) and false (b), whose kept bit is the prior (m), whose
// work bit is the next prior (w) and the prior (c).
#[derive(Clone, Copy, Default)]
pub struct Facts {
    pub t: u64,
    pub f: u64,
    pub a: u64,
    pub b: u64,
    pub m: u64,
    pub w: u64,
    pub c: u64,
}

// Whether every fact of x is in y.
pub fn is_among(x: Facts, y: Facts) -> bool
    ensures { result ≡ among_below capacity (facts_of x) (facts_of y) }
{
    subset(x.t, y.t)
        & subset(x.f, y.f)
        & subset(x.a, y.a)
        & subset(x.b, y.b)
        & subset(x.m, y.m)
        & subset(x.w, y.w)
        & subset(x.c, y.c)
}

// x, with T of node k where `yes` and F of it where `no`.
pub fn learn_value(x: Facts, k: usize, yes: bool, no: bool) -> Facts
    requires { k < capacity }
    ensures { facts_of result ≡ facts_of x ∪ provided yes (one (value_is true) k) ∪ provided no (one (value_is false) k) }
{
    Facts {
        t: with_if(x.t, k, yes),
        f: with_if(x.f, k, no),
        ..x
    }
}

// x, with A of node k where `yes` and B of it where `no`.
pub fn learn_prior(x: Facts, k: usize, yes: bool, no: bool) -> Facts
    requires { k < capacity }
    ensures { facts_of result ≡ facts_of x ∪ provided yes (one (prior_is true) k) ∪ provided no (one (prior_is false) k) }
{
    Facts {
        a: with_if(x.a, k, yes),
        b: with_if(x.b, k, no),
        ..x
    }
}
