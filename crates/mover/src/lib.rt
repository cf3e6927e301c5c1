// Rules and annotated scripts moved from the old stored form to the second, and back. Each move puts its questions first, of the form moved
// from; too little output is 13, last, and a refusal changes nothing.
#![tactic(auto)]

ghost use Rattle.std.specs.Prelude.{◌≡◌, ◌*◌, ◌≤◌, leb, length};
ghost use Rattle.spec.specs.Questions.{passed, ask_once};
ghost use Rattle.spec.specs.Weaver.{output_for};
ghost use Rattle.moves.specs.Moves.{check_back, check_move, line_count, move_script, rule_up, rule_back, script_up, script_back, rule_up_output, rule_back_output, script_up_output, script_back_output};
ghost use Rattle.rule.specs.Answers.{answer_of, counted_of};
ghost use Rattle.rule.specs.Nodes.{form_by, over_at, rule_asked};
ghost use Rattle.mover.specs.Words.{words_moved};

use checker::check_lines;
use rule::answer::{Question, Refusal};
use rule::check_rule;
use rule::stored::{Word, most_nodes, narrow_rule, widen_rule};
use script::line::count_lines;

// What a move back puts before 5 to 8: questions 1 to 4, and more than 32 nodes are 20.
fn check_back(rule: &[u64]) -> Result<(), Refusal>
    ensures { answer_of result ≡ check_back rule.now }
{
    check_rule(rule)?;
    if most_nodes::<u32>() < rule.len() {
        return Err(Refusal {
            question: Question::MovedNodeCount,
            place: 0,
        });
    }
    Ok(())
}

// Questions 5 to 8 of a script for an accepted rule of the same form.
fn check_move<W: Word>(rule: &[W], script: &[W]) -> Result<(), Refusal>
    requires { rule_asked W.IS_WIDE (W.numbers rule.now) ≡ passed tt }
    ensures { answer_of result ≡ check_move (form_by W.IS_WIDE) (W.numbers rule.now) (W.numbers script.now) }
{
    let mut space = [0u64; 32];
    check_lines(W::in_second_form(rule, &mut space), script)
}

// Question 13: whether an output has space for so many words.
fn ask_room(words: usize, space: usize) -> Result<(), Refusal>
    ensures { answer_of result ≡ ask_once 13 (leb words space) }
{
    if space < words {
        return Err(Refusal {
            question: Question::OutputWords,
            place: 0,
        });
    }
    Ok(())
}

// The words of a script in the other form: each has or gets its upper half.
fn move_words<A: Word, B: Word>(script: &[A], out: &mut [B])
    requires { length (A.numbers script.now) ≤ length (B.numbers out.old) }
    ensures { B.numbers out.new ≡ over_at 0 (words_moved A.IS_WIDE B.IS_WIDE (A.numbers script.now)) (B.numbers out.old) }
{
    for (i, word) in script.iter().enumerate() {
        out[i] = B::narrow(word.widen());
    }
}

// A script of whole lines moved: 13, and then its words.
fn move_script<A: Word, B: Word>(script: &[A], out: &mut [B]) -> Result<usize, Refusal>
    requires { 8 * line_count (A.numbers script.now) ≡ length (A.numbers script.now) }
    ensures answer { counted_of result ≡ move_script (A.numbers script.now) (B.numbers out.old) }
    ensures output { B.numbers out.new ≡ output_for (words_moved A.IS_WIDE B.IS_WIDE (A.numbers script.now)) (counted_of result) (B.numbers out.old) }
{
    ask_room(script.len(), out.len())?;
    move_words(script, out);
    Ok(count_lines(script))
}

// A rule to the second form: questions 1 to 4, and 13.
pub fn rule_up(rule: &[u32], out: &mut [u64]) -> Result<usize, Refusal>
    ensures answer { counted_of result ≡ rule_up rule.now out.old }
    ensures output { out.new ≡ rule_up_output rule.now out.old }
{
    check_rule(rule)?;
    ask_room(rule.len(), out.len())?;
    widen_rule(rule, out);
    Ok(rule.len())
}

// And back: more than 32 nodes are 20, before 13.
pub fn rule_back(rule: &[u64], out: &mut [u32]) -> Result<usize, Refusal>
    ensures answer { counted_of result ≡ rule_back rule.now out.old }
    ensures output { out.new ≡ rule_back_output rule.now out.old }
{
    check_back(rule)?;
    ask_room(rule.len(), out.len())?;
    narrow_rule(rule, out);
    Ok(rule.len())
}

// A script to the second form, with its rule in the old: questions 1 to 8, and 13.
pub fn script_up(rule: &[u32], script: &[u32], out: &mut [u64]) -> Result<usize, Refusal>
    ensures answer { counted_of result ≡ script_up rule.now script.now out.old }
    ensures output { out.new ≡ script_up_output rule.now script.now out.old }
{
    check_rule(rule)?;
    check_move::<u32>(rule, script)?;
    move_script(script, out)
}

// And back, with its rule in the second form: 1 to 4, 20, 5 to 8, and 13.
pub fn script_back(rule: &[u64], script: &[u64], out: &mut [u32]) -> Result<usize, Refusal>
    ensures answer { counted_of result ≡ script_back rule.now script.now out.old }
    ensures output { out.new ≡ script_back_output rule.now script.now out.old }
{
    check_back(rule)?;
    check_move::<u64>(rule, script)?;
    move_script(script, out)
}
