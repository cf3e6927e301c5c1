// The registers that the answers of judging within limits depend on, for people who ask why (request 2026-11).
#![tactic(auto)]

ghost use Rattle.std.specs.Prelude.{◌≡◌};
ghost use Rattle.spec.specs.Questions.{passed};
ghost use Rattle.rule.specs.Nodes.{form_in, form_by};
ghost use Rattle.intervals.specs.Limits.{check_limits};
ghost use Rattle.reasons.specs.Written.{RegistersPut};

use crate::nodes::{earlier_after, registers_at};
use limits::monitor::{evaluate, first_cans};
use rule::stored::Word;

mod nodes;
mod reason;

// Of a rule in the second form.
fn put_sets(rule: &[u64], lows: &[u16], highs: &[u16], out: &mut [u64])
    requires { check_limits form_in rule.now lows.now highs.now out.old ≡ passed tt }
    ensures { RegistersPut form_in rule.now lows.now highs.now out.old out.new }
{
    let count = lows.len() / 16;
    let last = rule.len() - 1;
    let mut priors = first_cans(rule);
    let mut earlier = [0u64; 64];
    for i in 0..count {
        let at = 16 * i;
        let end = at + 16;
        let m = evaluate(rule, &lows[at..end], &highs[at..end], priors);
        let registers = registers_at(rule, m.values, priors, earlier);
        earlier = earlier_after(rule, registers);
        out[i] = registers[last];
        priors = m.priors;
    }
}

// A set of registers for each index, of a rule and limits that pass all questions; later words stay.
pub fn put_registers<W: Word>(rule: &[W], lows: &[u16], highs: &[u16], out: &mut [u64])
    requires { check_limits (form_by W.IS_WIDE) (W.numbers rule.now) lows.now highs.now out.old ≡ passed tt }
    ensures { RegistersPut (form_by W.IS_WIDE) (W.numbers rule.now) lows.now highs.now out.old out.new }
{
    let mut space = [0u64; 32];
    let table = W::in_second_form(rule, &mut space);
    put_sets(table, lows, highs, out);
}
