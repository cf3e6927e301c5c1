// Question 19: at each present, T of the last node in the largest facts.
ghost use Rattle.std.specs.Prelude.{◌≡◌, ◌*◌, ◌≤◌, ◌<◌, length};
ghost use Rattle.spec.specs.Check.{line_at, present_known};
ghost use Rattle.rule.specs.Answers.{answer_of};
ghost use Rattle.rule.specs.Nodes.{table_in};
ghost use Rattle.finder.specs.Rows.{lines_found, presents_asked, Asked, LargestAt};

use crate::rows::load;
use rule::answer::{Question, Refusal};
use rule::asking::ask_each;
use script::instruction::decode;
use script::line::is_present;
use sets::has;

// The largest facts are closed.
fn known_at(rule: &[u64], code: &[u32], notes: &[u64], l: usize) -> bool
    requires { Asked rule.now code.now × LargestAt rule.now code.now notes.now × (7 * length code.now ≤ length notes.now) × (l < length code.now) }
    ensures { result ≡ present_known (table_in rule.now) (line_at (lines_found rule.now code.now) l) }
{
    if is_present(decode(code[l])) {
        let x = load(notes, l);
        has(x.t, rule.len() - 1)
    } else {
        true
    }
}

pub(crate) fn ask_known(rule: &[u64], code: &[u32], notes: &[u64]) -> Result<(), Refusal>
    requires { Asked rule.now code.now × LargestAt rule.now code.now notes.now × (7 * length code.now ≤ length notes.now) }
    ensures { answer_of result ≡ presents_asked rule.now code.now }
{
    ask_each(
        Question::PresentLost,
        code.len(),
        |l| known_at(rule, code, notes, l),
    )
}
