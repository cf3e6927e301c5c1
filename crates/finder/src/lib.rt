// Facts found for bare hands: the largest facts at every line that the checker accepts.
#![tactic(auto)]

ghost use Rattle.std.specs.Prelude.{◌≡◌};
ghost use Rattle.largest.specs.Largest.{check_instructions, found_answer, found_output};
ghost use Rattle.rule.specs.Answers.{answer_of, counted_of};
ghost use Rattle.rule.specs.Nodes.{form_by};
ghost use Rattle.finder.specs.Answers.{HandsOut};

use crate::known::ask_known;
use crate::lines::put_lines;
use crate::search::find_in;
use facts::belonging::belonging;
use rule::answer::{Question, Refusal};
use rule::check_rule;
use rule::stored::Word;
use script::line::{Opcodes, check_code};

mod flags;
mod known;
mod lines;
mod rows;
mod search;

// Instructions for a rule, one word a line with the opcodes of annotated scripts: questions 1 to 7.
pub fn check_instructions<W: Word>(rule: &[W], instructions: &[u32]) -> Result<(), Refusal>
    ensures { answer_of result ≡ check_instructions (form_by W.IS_WIDE) (W.numbers rule.now) instructions.now }
{
    check_rule(rule)?;
    let mut space = [0u64; 32];
    let most = belonging(W::in_second_form(rule, &mut space));
    check_code(
        most.m,
        most.w,
        instructions,
        true,
        1,
        instructions.len(),
        Opcodes::Annotated,
    )
}

// The largest facts for a rule and instructions, as annotated lines: questions 1 to 7, the search, 19 and 13, then the lines; later words
// stay, and a refusal changes nothing. The search has memory of its own, 57 KB for the notes, as the output may not change before 19 and
// 13 are answered.
pub fn find_facts<W: Word>(
    rule: &[W],
    instructions: &[u32],
    out: &mut [W],
) -> Result<usize, Refusal>
    ensures answer { counted_of result ≡ found_answer (form_by W.IS_WIDE) (W.numbers rule.now) instructions.now (W.numbers out.old) }
    ensures output { W.numbers out.new ≡ found_output (form_by W.IS_WIDE) (W.numbers rule.now) instructions.now (W.numbers out.old) }
    ensures largest { HandsOut (form_by W.IS_WIDE) (W.numbers rule.now) instructions.now (counted_of result) (W.numbers out.new) }
{
    check_instructions(rule, instructions)?;
    let mut space = [0u64; 32];
    let table = W::in_second_form(rule, &mut space);
    let mut notes = [0u64; 7168];
    let mut flags = [0u64; 16];
    find_in(table, instructions, &mut notes, &mut flags);
    ask_known(table, instructions, &notes)?;
    if out.len() < 8 * instructions.len() {
        return Err(Refusal {
            question: Question::OutputWords,
            place: 0,
        });
    }
    Ok(put_lines(instructions, &notes, out))
}
