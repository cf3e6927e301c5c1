// The lines, written into a lent output.
ghost use Rattle.std.specs.Prelude.{◌+◌, ◌*◌, ◌≤◌, ◌<◌, length, get_or};
ghost use Rattle.sets.specs.Sets.{set_of};
ghost use Rattle.print.specs.Written.{Added, Filled, each_of};
ghost use Rattle.picture.specs.Lines.{answer_word, register_text, registers_text, reason_text, index_text, lines_text};

use print::{add_bytes, add_decimal, add_number};
use sets::has;

// Register r of a set.
fn add_register(on: u64, r: usize, at: usize, out: &mut [u8]) -> usize
    requires { (r < 16) × (at + 4 ≤ length out.old) }
    ensures { Filled 4 (register_text (set_of on) r) at result out.old out.new }
{
    if has(on, r) {
        let end = add_bytes(b" r", at, out);
        return add_decimal(r, end, out);
    }
    at
}

// The registers of a set, rising.
fn add_registers(on: u64, at: usize, out: &mut [u8]) -> usize
    requires { at + 64 ≤ length out.old }
    ensures { Filled 64 (registers_text (set_of on)) at result out.old out.new }
{
    let mut end = at;
    for r in 0..16 {
        end = add_register(on, r, end, out);
    }
    end
}

// The answer as a word.
fn add_answer(answer: u8, at: usize, out: &mut [u8]) -> usize
    requires { at + 5 ≤ length out.old }
    ensures { Filled 5 (answer_word answer) at result out.old out.new }
{
    match answer {
        0 => add_bytes(b"false", at, out),
        1 => add_bytes(b"true", at, out),
        _ => add_bytes(b"open", at, out),
    }
}

// For a breach or an open one, the registers that it depends on.
fn add_reason(answer: u8, on: u64, at: usize, out: &mut [u8]) -> usize
    requires { at + 64 ≤ length out.old }
    ensures { Filled 64 (reason_text answer (set_of on)) at result out.old out.new }
{
    if answer == 1 {
        return at;
    }
    add_registers(on, at, out)
}

// The line of index i.
fn add_index(i: usize, answer: u8, on: u64, at: usize, out: &mut [u8]) -> usize
    requires { (i < 1000) × (at + 74 ≤ length out.old) }
    ensures { Filled 74 (index_text i answer (set_of on)) at result out.old out.new }
{
    let answer_at = add_number(i, b' ', at, out);
    let reason_at = add_answer(answer, answer_at, out);
    let end = add_reason(answer, on, reason_at, out);
    add_bytes(b"\n", end, out)
}

// The lines of the indices, one for each answer.
fn add_indices(answers: &[u8], sets: &[u64], at: usize, out: &mut [u8]) -> usize
    requires { (length answers.now ≤ 1000) × (length answers.now ≤ length sets.now) × (at + 74 * length answers.now ≤ length out.old) }
    ensures { Filled (74 * length answers.now) (each_of (λ i. index_text i (get_or answers.now i 0) (set_of (get_or sets.now i 0))) (length answers.now)) at result out.old out.new }
{
    let mut end = at;
    for (i, answer) in answers.iter().enumerate() {
        end = add_index(i, *answer, sets[i], end, out);
    }
    end
}

// A header with the count, then the lines.
pub(crate) fn put_lines(answers: &[u8], sets: &[u64], out: &mut [u8]) -> usize
    requires { (length answers.now ≤ 1000) × (length answers.now ≤ length sets.now) × (74013 ≤ length out.old) }
    ensures { Added (lines_text (length answers.now) (λ i. get_or answers.now i 0) (λ i. set_of (get_or sets.now i 0))) 0 result out.old out.new }
{
    let count_at = add_bytes(b"indices ", 0, out);
    let lines_at = add_number(answers.len(), b'\n', count_at, out);
    add_indices(answers, sets, lines_at, out)
}
