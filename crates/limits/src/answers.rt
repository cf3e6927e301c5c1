// The answers, index by index.
ghost use Rattle.std.specs.Prelude.{◌≡◌, ◌++◌, ◌/◌, length, drop};
ghost use Rattle.spec.specs.Questions.{passed};
ghost use Rattle.rule.specs.Nodes.{form_in};
ghost use Rattle.intervals.specs.Limits.{open_if, rule_truth, check_limits, byte_of, bytes_for};

use crate::monitor::{Can, can_at, evaluate, first_cans};

// 0 false, 1 true, 2 open; with no branch on a value that cannot be foretold.
fn byte_of(x: Can) -> u8
    ensures { result ≡ byte_of (open_if x.yes x.no) }
{
    x.yes as u8 + (x.yes & x.no) as u8
}

// One byte an index; later bytes stay.
pub(crate) fn put_answers(rule: &[u64], lows: &[u16], highs: &[u16], out: &mut [u8])
    requires { check_limits form_in rule.now lows.now highs.now out.old ≡ passed tt }
    ensures { out.new ≡ bytes_for (rule_truth form_in rule.now lows.now highs.now) (length lows.now / 16) ++ drop (length lows.now / 16) out.old }
{
    let count = lows.len() / 16;
    let last = rule.len() - 1;
    let mut priors = first_cans(rule);
    for i in 0..count {
        let at = 16 * i;
        let end = at + 16;
        let m = evaluate(rule, &lows[at..end], &highs[at..end], priors);
        out[i] = byte_of(can_at(m.values, last));
        priors = m.priors;
    }
}
