// The functions of crate guard over words of the second form for C, in a static library: each calls the one of its name there without the 64, with the same clauses.
// include/guard.h says the same to a reader of C.
#![tactic(auto)]

ghost use Rattle.std.specs.Prelude.{◌≡◌, cond, [], ◌++◌, length, drop};
ghost use Rattle.spec.specs.Rule.{form64, check_rule};
ghost use Rattle.spec.specs.Judging.{judging};
ghost use Rattle.spec.specs.Script.{check_bare};
ghost use Rattle.spec.specs.Check.{check_script};
ghost use Rattle.spec.specs.Machine.{running, report_of, history_after};
ghost use Rattle.spec.specs.Ready.{fresh_state_of};
ghost use Rattle.spec.specs.Weaver.{weaving, output_after};
ghost use Rattle.largest.specs.Largest.{found_answer, found_output};
ghost use Rattle.intervals.specs.Limits.{limiting, limits_output};
ghost use Rattle.grammar.specs.Texting.{texting, count_of, output_of};
ghost use Rattle.numbers.specs.Numbers.{room_for, too_short, with_words, result_for, checked_words, count_words, verdict_words, report_words};
ghost use Rattle.numbers.specs.States.{state_length, state_words, is_stated, step_result, stepped};

mod moving;

#[unsafe(no_mangle)]
pub extern "C" fn guard_text64(text: &[u8], out: &mut [u64], numbers: &mut [u64]) -> u32
    ensures result { result ≡ result_for 2 numbers.old (count_of (texting form64 (length out.old) text.now)) }
    ensures words { numbers.new ≡ with_words 2 (count_words (count_of (texting form64 (length out.old) text.now))) numbers.old }
    ensures output { out.new ≡ cond (room_for 2 numbers.old) (output_of (texting form64 (length out.old) text.now) out.old) out.old }
{
    guard::guard_text(text, out, numbers)
}

#[unsafe(no_mangle)]
pub extern "C" fn guard_rule64(rule: &[u64], numbers: &mut [u64]) -> u32
    ensures result { result ≡ result_for 1 numbers.old (check_rule form64 rule.now) }
    ensures words { numbers.new ≡ with_words 1 (checked_words (check_rule form64 rule.now)) numbers.old }
{
    guard::guard_rule(rule, numbers)
}

#[unsafe(no_mangle)]
pub extern "C" fn guard_bare64(rule: &[u64], script: &[u32], numbers: &mut [u64]) -> u32
    ensures result { result ≡ result_for 1 numbers.old (check_bare form64 rule.now script.now) }
    ensures words { numbers.new ≡ with_words 1 (checked_words (check_bare form64 rule.now script.now)) numbers.old }
{
    guard::guard_bare(rule, script, numbers)
}

#[unsafe(no_mangle)]
pub extern "C" fn guard_script64(rule: &[u64], script: &[u64], numbers: &mut [u64]) -> u32
    ensures result { result ≡ result_for 1 numbers.old (check_script form64 rule.now script.now) }
    ensures words { numbers.new ≡ with_words 1 (checked_words (check_script form64 rule.now script.now)) numbers.old }
{
    guard::guard_script(rule, script, numbers)
}

#[unsafe(no_mangle)]
pub extern "C" fn guard_weave64(
    rule: &[u64],
    bare: &[u32],
    out: &mut [u64],
    numbers: &mut [u64],
) -> u32
    ensures result { result ≡ result_for 2 numbers.old (weaving form64 rule.now bare.now out.old) }
    ensures words { numbers.new ≡ with_words 2 (count_words (weaving form64 rule.now bare.now out.old)) numbers.old }
    ensures output { out.new ≡ cond (room_for 2 numbers.old) (output_after form64 rule.now bare.now out.old) out.old }
{
    guard::guard_weave(rule, bare, out, numbers)
}

#[unsafe(no_mangle)]
pub extern "C" fn guard_facts64(
    rule: &[u64],
    instructions: &[u32],
    out: &mut [u64],
    numbers: &mut [u64],
) -> u32
    ensures result { result ≡ result_for 2 numbers.old (found_answer form64 rule.now instructions.now out.old) }
    ensures words { numbers.new ≡ with_words 2 (count_words (found_answer form64 rule.now instructions.now out.old)) numbers.old }
    ensures output { out.new ≡ cond (room_for 2 numbers.old) (found_output form64 rule.now instructions.now out.old) out.old }
{
    guard::guard_facts(rule, instructions, out, numbers)
}

#[unsafe(no_mangle)]
pub extern "C" fn guard_judge64(rule: &[u64], history: &[u16], numbers: &mut [u64]) -> u32
    ensures result { result ≡ result_for 4 numbers.old (judging form64 rule.now history.now) }
    ensures words { numbers.new ≡ with_words 4 (verdict_words (judging form64 rule.now history.now)) numbers.old }
{
    guard::guard_judge(rule, history, numbers)
}

#[unsafe(no_mangle)]
pub extern "C" fn guard_limits64(
    rule: &[u64],
    lows: &[u16],
    highs: &[u16],
    out: &mut [u8],
    numbers: &mut [u64],
) -> u32
    ensures result { result ≡ result_for 2 numbers.old (limiting form64 rule.now lows.now highs.now out.old) }
    ensures words { numbers.new ≡ with_words 2 (count_words (limiting form64 rule.now lows.now highs.now out.old)) numbers.old }
    ensures output { out.new ≡ cond (room_for 2 numbers.old) (limits_output form64 rule.now lows.now highs.now out.old) out.old }
{
    guard::guard_limits(rule, lows, highs, out, numbers)
}

#[unsafe(no_mangle)]
pub extern "C" fn guard_run64(
    rule: &[u64],
    script: &[u64],
    inputs: &[u16],
    budget: u64,
    history: &mut [u16],
    numbers: &mut [u64],
) -> u32
    ensures result { result ≡ result_for 22 numbers.old (running form64 rule.now script.now inputs.now budget history.old) }
    ensures words { numbers.new ≡ with_words 22 (report_words (report_of (running form64 rule.now script.now inputs.now budget history.old))) numbers.old }
    ensures left { history.new ≡ cond (room_for 22 numbers.old) (history_after (running form64 rule.now script.now inputs.now budget history.old) history.old) history.old }
{
    guard::guard_run(rule, script, inputs, budget, history, numbers)
}

#[unsafe(no_mangle)]
pub extern "C" fn guard_fresh64(rule: &[u64], state: &mut [u64]) -> u32
    ensures result { result ≡ cond (room_for state_length state.old) 0 too_short }
    ensures words { state.new ≡ with_words state_length (state_words (fresh_state_of form64 rule.now [])) state.old }
{
    guard::guard_fresh(rule, state)
}

#[unsafe(no_mangle)]
pub extern "C" fn guard_step64(
    rule: &[u64],
    script: &[u64],
    inputs: &[u16],
    history: &mut [u16],
    state: &mut [u64],
) -> u32
    ensures result { result ≡ step_result state.old }
    ensures words { state.new ≡ cond (is_stated state.old) (state_words (stepped form64 rule.now script.now inputs.now state.old history.old) ++ drop state_length state.old) state.old }
    ensures left { history.new ≡ cond (is_stated state.old) (stepped form64 rule.now script.now inputs.now state.old history.old).machine.history history.old }
{
    guard::guard_step(rule, script, inputs, history, state)
}
