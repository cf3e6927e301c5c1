// The questions of judging within limits.
ghost use Rattle.std.specs.Prelude.{◌≡◌, leb, length, get_or, MatchOption};
ghost use Rattle.spec.specs.Questions.{all_below};
ghost use Rattle.rule.specs.Answers.{answer_of};
ghost use Rattle.rule.specs.Nodes.{form_by};
ghost use Rattle.intervals.specs.Limits.{question23, check_limits};
ghost use Rattle.limits.specs.Questions.{check_lengths, check_values, InOrder, FirstAbove};

use rule::answer::{Question, Refusal};
use rule::check_rule;
use rule::judging::ask_numbers;
use rule::stored::Word;

// Whether no lowest is above its highest. A fold and not `all`: with no way out it runs many at a time.
fn all_ordered(lows: &[u16], highs: &[u16]) -> bool
    requires { length lows.now ≡ length highs.now }
    ensures { result ≡ all_below (length lows.now) (λ i. leb (get_or lows.now i 0) (get_or highs.now i 0)) }
{
    lows.iter()
        .zip(highs)
        .fold(true, |ordered, (&low, &high)| ordered & (low <= high))
}

// The first place where a lowest is above its highest.
fn first_above(lows: &[u16], highs: &[u16]) -> Option<usize>
    requires { length lows.now ≡ length highs.now }
    ensures { MatchOption result (InOrder lows.now highs.now (length lows.now)) (FirstAbove lows.now highs.now) }
{
    lows.iter().zip(highs).position(|(&low, &high)| high < low)
}

// No lowest is above its highest; where one is, the first of those is looked for.
fn ask_order(lows: &[u16], highs: &[u16]) -> Result<(), Refusal>
    requires { length lows.now ≡ length highs.now }
    ensures { answer_of result ≡ question23 lows.now highs.now }
{
    if all_ordered(lows, highs) {
        return Ok(());
    }
    match first_above(lows, highs) {
        None => Ok(()),
        Some(place) => Err(Refusal {
            question: Question::LimitsOrder,
            place,
        }),
    }
}

// What is asked of the lengths: 14 for the lows, then the highs, 22 and 13.
fn ask_lengths(lows: &[u16], highs: &[u16], out: &[u8]) -> Result<(), Refusal>
    ensures { answer_of result ≡ check_lengths lows.now highs.now out.now }
{
    if lows.len() % 16 != 0 {
        return Err(Refusal {
            question: Question::HistoryLength,
            place: 0,
        });
    }
    if highs.len() % 16 != 0 {
        return Err(Refusal {
            question: Question::HistoryLength,
            place: 0,
        });
    }
    if lows.len() != highs.len() {
        return Err(Refusal {
            question: Question::LimitsLength,
            place: 0,
        });
    }
    if out.len() < lows.len() / 16 {
        return Err(Refusal {
            question: Question::OutputWords,
            place: 0,
        });
    }
    Ok(())
}

// What is asked of the values: 15 for the lows, then the highs, and 23.
fn ask_values(lows: &[u16], highs: &[u16]) -> Result<(), Refusal>
    requires { length lows.now ≡ length highs.now }
    ensures { answer_of result ≡ check_values lows.now highs.now }
{
    ask_numbers(lows)?;
    ask_numbers(highs)?;
    ask_order(lows, highs)
}

// Every question, in the request's order.
pub(crate) fn ask_limits<W: Word>(
    rule: &[W],
    lows: &[u16],
    highs: &[u16],
    out: &[u8],
) -> Result<(), Refusal>
    ensures { answer_of result ≡ check_limits (form_by W.IS_WIDE) (W.numbers rule.now) lows.now highs.now out.now }
{
    check_rule(rule)?;
    ask_lengths(lows, highs, out)?;
    ask_values(lows, highs)
}
