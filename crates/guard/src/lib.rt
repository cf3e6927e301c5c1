// The guard for C and Rust to call: every entry point, on numbers and slices. include/guard.h says the same to a reader of C. Here are the
// functions over words of either stored form, in moving.rt the moves between them; crate guard_four has a run of four stations, and the crates
// guard_c and guard64_c export the functions of each form to C.
// Each function hands back 0, or the number of the question that refused, or 99 where the lent words are fewer than it needs, and
// writes its other numbers into the first of the lent words; later words stay. With 99 nothing is written anywhere.
#![tactic(auto)]

ghost use Rattle.std.specs.Prelude.{◌≡◌, cond, [], ◌++◌, length, drop};
ghost use Rattle.spec.specs.Rule.{check_rule};
ghost use Rattle.spec.specs.Judging.{judging};
ghost use Rattle.spec.specs.Script.{check_bare};
ghost use Rattle.spec.specs.Check.{check_script};
ghost use Rattle.spec.specs.Machine.{running, report_of, history_after};
ghost use Rattle.spec.specs.Ready.{fresh_state_of};
ghost use Rattle.spec.specs.Weaver.{weaving, output_after};
ghost use Rattle.largest.specs.Largest.{found_answer, found_output};
ghost use Rattle.intervals.specs.Limits.{limiting, limits_output};
ghost use Rattle.grammar.specs.Texting.{texting, count_of, output_of};
ghost use Rattle.rule.specs.Nodes.{form_by};
ghost use Rattle.numbers.specs.Numbers.{room_for, too_short, with_words, result_for, checked_words, count_words, verdict_words, report_words};
ghost use Rattle.numbers.specs.States.{state_length, state_words, is_stated, step_result, stepped};

use checker::check_script;
use finder::find_facts;
use machine::{Machine, run};
use numbers::notes::{note_count, note_place, note_report, note_verdict};
use numbers::states::{put_machine, read_machine, state_fits};
use rule::stored::Word;
use rule::{check_rule, verdict};
use script::check_bare;
use text::output::Output;
use text::read_text;
use weaver::weave;

pub mod moving;

// A rule typed as text: questions 16, 17, 18 and 13. Two words: place, nodes. The nodes go to `out`, a word each.
pub fn guard_text<W: Output>(text: &[u8], out: &mut [W], numbers: &mut [u64]) -> u32
    ensures result { result ≡ result_for 2 numbers.old (count_of (texting (form_by W.IS_WIDE) (length (W.numbers out.old)) text.now)) }
    ensures words { numbers.new ≡ with_words 2 (count_words (count_of (texting (form_by W.IS_WIDE) (length (W.numbers out.old)) text.now))) numbers.old }
    ensures output { W.numbers out.new ≡ cond (room_for 2 numbers.old) (output_of (texting (form_by W.IS_WIDE) (length (W.numbers out.old)) text.now) (W.numbers out.old)) (W.numbers out.old) }
{
    if numbers.len() < 2 {
        return 99;
    }
    note_count(read_text(text, out), numbers)
}

// A rule: questions 1 to 4. One word: place.
pub fn guard_rule<W: Word>(rule: &[W], numbers: &mut [u64]) -> u32
    ensures result { result ≡ result_for 1 numbers.old (check_rule (form_by W.IS_WIDE) (W.numbers rule.now)) }
    ensures words { numbers.new ≡ with_words 1 (checked_words (check_rule (form_by W.IS_WIDE) (W.numbers rule.now))) numbers.old }
{
    if numbers.len() < 1 {
        return 99;
    }
    note_place(check_rule(rule), numbers)
}

// A bare script for a rule: questions 1 to 7. One word: place.
pub fn guard_bare<W: Word>(rule: &[W], script: &[u32], numbers: &mut [u64]) -> u32
    ensures result { result ≡ result_for 1 numbers.old (check_bare (form_by W.IS_WIDE) (W.numbers rule.now) script.now) }
    ensures words { numbers.new ≡ with_words 1 (checked_words (check_bare (form_by W.IS_WIDE) (W.numbers rule.now) script.now)) numbers.old }
{
    if numbers.len() < 1 {
        return 99;
    }
    note_place(check_bare(rule, script), numbers)
}

// An annotated script for a rule: questions 1 to 11. One word: place.
pub fn guard_script<W: Word>(rule: &[W], script: &[W], numbers: &mut [u64]) -> u32
    ensures result { result ≡ result_for 1 numbers.old (check_script (form_by W.IS_WIDE) (W.numbers rule.now) (W.numbers script.now)) }
    ensures words { numbers.new ≡ with_words 1 (checked_words (check_script (form_by W.IS_WIDE) (W.numbers rule.now) (W.numbers script.now))) numbers.old }
{
    if numbers.len() < 1 {
        return 99;
    }
    note_place(check_script(rule, script), numbers)
}

// The woven script for a rule: questions 1 to 7, 12 and 13 first. Two words: place, lines. The lines go to `out`, eight words each.
pub fn guard_weave<W: Word>(rule: &[W], bare: &[u32], out: &mut [W], numbers: &mut [u64]) -> u32
    ensures result { result ≡ result_for 2 numbers.old (weaving (form_by W.IS_WIDE) (W.numbers rule.now) bare.now (W.numbers out.old)) }
    ensures words { numbers.new ≡ with_words 2 (count_words (weaving (form_by W.IS_WIDE) (W.numbers rule.now) bare.now (W.numbers out.old))) numbers.old }
    ensures output { W.numbers out.new ≡ cond (room_for 2 numbers.old) (output_after (form_by W.IS_WIDE) (W.numbers rule.now) bare.now (W.numbers out.old)) (W.numbers out.old) }
{
    if numbers.len() < 2 {
        return 99;
    }
    note_count(weave(rule, bare, out), numbers)
}

// The largest facts for instructions without: questions 1 to 7, 19 and 13 first. Two words: place, facts. The annotated lines go to
// `out`, eight words each.
pub fn guard_facts<W: Word>(
    rule: &[W],
    instructions: &[u32],
    out: &mut [W],
    numbers: &mut [u64],
) -> u32
    ensures result { result ≡ result_for 2 numbers.old (found_answer (form_by W.IS_WIDE) (W.numbers rule.now) instructions.now (W.numbers out.old)) }
    ensures words { numbers.new ≡ with_words 2 (count_words (found_answer (form_by W.IS_WIDE) (W.numbers rule.now) instructions.now (W.numbers out.old))) numbers.old }
    ensures output { W.numbers out.new ≡ cond (room_for 2 numbers.old) (found_output (form_by W.IS_WIDE) (W.numbers rule.now) instructions.now (W.numbers out.old)) (W.numbers out.old) }
{
    if numbers.len() < 2 {
        return 99;
    }
    note_count(find_facts(rule, instructions, out), numbers)
}

// The verdict on a history: questions 1 to 4, 14 and 15 first. Four words: place; 1 where the rule is false somewhere; the lowest
// such index; the number of states where there is none.
pub fn guard_judge<W: Word>(rule: &[W], history: &[u16], numbers: &mut [u64]) -> u32
    ensures result { result ≡ result_for 4 numbers.old (judging (form_by W.IS_WIDE) (W.numbers rule.now) history.now) }
    ensures words { numbers.new ≡ with_words 4 (verdict_words (judging (form_by W.IS_WIDE) (W.numbers rule.now) history.now)) numbers.old }
{
    if numbers.len() < 4 {
        return 99;
    }
    note_verdict(verdict(rule, history), numbers)
}

// The rule on a history whose registers are known only within limits: questions 1 to 4; 14 of the lows, then the highs; 22; 13; 15 of the
// lows, then the highs; 23. Two words: place, indices. The answers go to `out`, a byte an index: 0 false, 1 true, 2 open.
pub fn guard_limits<W: Word>(
    rule: &[W],
    lows: &[u16],
    highs: &[u16],
    out: &mut [u8],
    numbers: &mut [u64],
) -> u32
    ensures result { result ≡ result_for 2 numbers.old (limiting (form_by W.IS_WIDE) (W.numbers rule.now) lows.now highs.now out.old) }
    ensures words { numbers.new ≡ with_words 2 (count_words (limiting (form_by W.IS_WIDE) (W.numbers rule.now) lows.now highs.now out.old)) numbers.old }
    ensures output { out.new ≡ cond (room_for 2 numbers.old) (limits_output (form_by W.IS_WIDE) (W.numbers rule.now) lows.now highs.now out.old) out.old }
{
    if numbers.len() < 2 {
        return 99;
    }
    note_count(limits::judge(rule, lows, highs, out), numbers)
}

// A run: questions 1 to 11, and 15 of the inputs, then steps from a fresh start. 22 words: place, stop, line, steps, presentations,
// inputs read, 16 registers.
pub fn guard_run<W: Word>(
    rule: &[W],
    script: &[W],
    inputs: &[u16],
    budget: u64,
    history: &mut [u16],
    numbers: &mut [u64],
) -> u32
    ensures result { result ≡ result_for 22 numbers.old (running (form_by W.IS_WIDE) (W.numbers rule.now) (W.numbers script.now) inputs.now budget history.old) }
    ensures words { numbers.new ≡ with_words 22 (report_words (report_of (running (form_by W.IS_WIDE) (W.numbers rule.now) (W.numbers script.now) inputs.now budget history.old))) numbers.old }
    ensures left { history.new ≡ cond (room_for 22 numbers.old) (history_after (running (form_by W.IS_WIDE) (W.numbers rule.now) (W.numbers script.now) inputs.now budget history.old) history.old) history.old }
{
    if numbers.len() < 22 {
        return 99;
    }
    note_report(run(rule, script, inputs, budget, history), numbers)
}

// The machine at a fresh start. 25 words: line, presentations, inputs read, kept bits, work bits, 16 registers, ready, priors, next priors,
// the registers that the rule reads.
pub fn guard_fresh<W: Word>(rule: &[W], state: &mut [u64]) -> u32
    ensures result { result ≡ cond (room_for state_length state.old) 0 too_short }
    ensures words { state.new ≡ with_words state_length (state_words (fresh_state_of (form_by W.IS_WIDE) (W.numbers rule.now) [])) state.old }
{
    if state.len() < 25 {
        return 99;
    }
    put_machine(Machine::fresh(rule), state);
    0
}

// One step from the machine in `state` to the next, in its place. A register above 65,535, or ready above 1, leaves everything as it
// was: 98.
pub fn guard_step<W: Word>(
    rule: &[W],
    script: &[W],
    inputs: &[u16],
    history: &mut [u16],
    state: &mut [u64],
) -> u32
    ensures result { result ≡ step_result state.old }
    ensures words { state.new ≡ cond (is_stated state.old) (state_words (stepped (form_by W.IS_WIDE) (W.numbers rule.now) (W.numbers script.now) inputs.now state.old history.old) ++ drop state_length state.old) state.old }
    ensures left { history.new ≡ cond (is_stated state.old) (stepped (form_by W.IS_WIDE) (W.numbers rule.now) (W.numbers script.now) inputs.now state.old history.old).machine.history history.old }
{
    if state.len() < 25 {
        return 99;
    }
    if !state_fits(&state[..]) {
        return 98;
    }
    let before = read_machine(&state[..]);
    let after = before.step(rule, script, inputs, history);
    put_machine(after, state);
    0
}
