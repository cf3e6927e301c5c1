// Request 2026-11: a rule judged on a history whose registers are known only within limits. At each index it is true, false or open.
#![tactic(auto)]

ghost use Rattle.std.specs.Prelude.{◌≡◌, ℕ};
ghost use Rattle.spec.specs.Questions.{passed};
ghost use Rattle.rule.specs.Answers.{counted_of};
ghost use Rattle.rule.specs.Nodes.{form_by};
ghost use Rattle.intervals.specs.Limits.{limiting, limits_output};
ghost use Rattle.intervals.specs.LimitsPromise.{LimitsRight};

use crate::answers::put_answers;
use crate::question::ask_limits;
use rule::answer::Refusal;
use rule::stored::Word;

mod answers;
pub mod monitor;
mod question;

// A byte for each index: 0 where the rule is false and 1 where it is true, whatever the registers were within their limits, else 2. The lows
// and the highs have 16 numbers an index.
pub fn judge<W: Word>(
    rule: &[W],
    lows: &[u16],
    highs: &[u16],
    out: &mut [u8],
) -> Result<usize, Refusal>
    ensures answer { counted_of result ≡ limiting (form_by W.IS_WIDE) (W.numbers rule.now) lows.now highs.now out.old }
    ensures output { out.new ≡ limits_output (form_by W.IS_WIDE) (W.numbers rule.now) lows.now highs.now out.old }
    ensures right { (n : ℕ) → counted_of result ≡ passed n → LimitsRight (form_by W.IS_WIDE) (W.numbers rule.now) lows.now highs.now out.new }
{
    ask_limits(rule, lows, highs, out)?;
    let mut space = [0u64; 32];
    let table = W::in_second_form(rule, &mut space);
    put_answers(table, lows, highs, out);
    Ok(lows.len() / 16)
}
