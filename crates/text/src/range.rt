// Question 17: numbers out of range.
ghost use Rattle.std.specs.Prelude.{◌≡◌, ◌<◌, length};
ghost use Rattle.rule.specs.Answers.{answer_of};
ghost use Rattle.grammar.specs.Texting.{byte_before, most_after, in_range_at, question17};

use crate::token::{digits_at, is_digit};
use rule::answer::{Question, Refusal};

// A register's number follows its r.
fn most_after(before: u8) -> u32
    ensures { result ≡ most_after before }
{
    if before == b'r' { 15 } else { 16383 }
}

// Whether no number out of range starts at `at`, after the byte `before`.
fn in_range(text: &[u8], at: usize, before: u8) -> bool
    requires { (at < length text.now) × (before ≡ byte_before text.now at) }
    ensures { result ≡ in_range_at text.now at }
{
    if !is_digit(text[at]) {
        return true;
    }
    if is_digit(before) {
        return true;
    }
    let digits = digits_at(text, at);
    digits.value <= most_after(before)
}

// The first number out of range.
pub(crate) fn ask_range(text: &[u8]) -> Result<(), Refusal>
    ensures { answer_of result ≡ question17 text.now }
{
    let mut before: u8 = 0;
    for (i, b) in text.iter().enumerate() {
        if !in_range(text, i, before) {
            return Err(Refusal {
                question: Question::TextRange,
                place: i,
            });
        }
        before = *b;
    }
    Ok(())
}
