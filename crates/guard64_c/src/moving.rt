// Rules and annotated scripts moved between the stored forms. Two words each: place, and how many nodes or lines were moved.
ghost use Rattle.std.specs.Prelude.{◌≡◌, cond};
ghost use Rattle.moves.specs.Moves.{rule_up, rule_back, script_up, script_back, rule_up_output, rule_back_output, script_up_output, script_back_output};
ghost use Rattle.numbers.specs.Numbers.{room_for, with_words, result_for, count_words};

// A rule from the old form to the second: questions 1 to 4, and 13.
#[unsafe(no_mangle)]
pub extern "C" fn guard_rule_up(rule: &[u32], out: &mut [u64], numbers: &mut [u64]) -> u32
    ensures result { result ≡ result_for 2 numbers.old (rule_up rule.now out.old) }
    ensures words { numbers.new ≡ with_words 2 (count_words (rule_up rule.now out.old)) numbers.old }
    ensures output { out.new ≡ cond (room_for 2 numbers.old) (rule_up_output rule.now out.old) out.old }
{
    guard::moving::guard_rule_up(rule, out, numbers)
}

// And back: questions 1 to 4, 20 and 13.
#[unsafe(no_mangle)]
pub extern "C" fn guard_rule_back(rule: &[u64], out: &mut [u32], numbers: &mut [u64]) -> u32
    ensures result { result ≡ result_for 2 numbers.old (rule_back rule.now out.old) }
    ensures words { numbers.new ≡ with_words 2 (count_words (rule_back rule.now out.old)) numbers.old }
    ensures output { out.new ≡ cond (room_for 2 numbers.old) (rule_back_output rule.now out.old) out.old }
{
    guard::moving::guard_rule_back(rule, out, numbers)
}

// An annotated script to the second form, with its rule in the old: questions 1 to 8, and 13.
#[unsafe(no_mangle)]
pub extern "C" fn guard_script_up(
    rule: &[u32],
    script: &[u32],
    out: &mut [u64],
    numbers: &mut [u64],
) -> u32
    ensures result { result ≡ result_for 2 numbers.old (script_up rule.now script.now out.old) }
    ensures words { numbers.new ≡ with_words 2 (count_words (script_up rule.now script.now out.old)) numbers.old }
    ensures output { out.new ≡ cond (room_for 2 numbers.old) (script_up_output rule.now script.now out.old) out.old }
{
    guard::moving::guard_script_up(rule, script, out, numbers)
}

// And back, with its rule in the second form: questions 1 to 4, 20, 5 to 8, and 13.
#[unsafe(no_mangle)]
pub extern "C" fn guard_script_back(
    rule: &[u64],
    script: &[u64],
    out: &mut [u32],
    numbers: &mut [u64],
) -> u32
    ensures result { result ≡ result_for 2 numbers.old (script_back rule.now script.now out.old) }
    ensures words { numbers.new ≡ with_words 2 (count_words (script_back rule.now script.now out.old)) numbers.old }
    ensures output { out.new ≡ cond (room_for 2 numbers.old) (script_back_output rule.now script.now out.old) out.old }
{
    guard::moving::guard_script_back(rule, script, out, numbers)
}
