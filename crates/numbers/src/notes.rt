// Answers as numbers in lent words. Each kind has a function of its own: what a yes writes differs at each, and a refusal's words are one function's.
ghost use Rattle.std.specs.Prelude.{◌≡◌, ◌∷◌, [], ◌++◌, ℕ, ◌+◌, ◌-◌, ◌≤◌, length, take, drop, replicate, Result, Ok, Err, refl};
ghost use Rattle.spec.specs.Questions.{Answer, passed, refused};
ghost use Rattle.rule.specs.Answers.{answer_of, counted_of, verdict_of};
ghost use Rattle.machine.specs.Runs.{stop_of, report_in};
ghost use Rattle.numbers.specs.Numbers.{number_of, counted_by, checked_words, count_words, verdict_words, stop_number, report_words};

use machine::answer::{RunAnswer, Stop};
use rule::answer::{Refusal, Verdict};

// A refusal that is noted: by the number of its question, and its place.
pub trait Numbered: Copy {
    // A count, or such a refusal, as the specification's answer.
    ghost counted: { Result ℕ Self → Answer ℕ };

    fn numbered(self) -> (u32, usize)
        ensures { counted (Err self) ≡ refused result.0 result.1 };

    ghost passes: { (n : ℕ) → counted (Ok n) ≡ passed n };
}

impl Numbered for Refusal {
    ghost counted = { counted_of };

    fn numbered(self) -> (u32, usize) {
        (u32::from(self.question), self.place)
    }

    ghost passes = { λ n. refl };
}

// Any number, whether a question has it or not, and a place.
impl Numbered for (u32, usize) {
    ghost counted = { counted_by };

    fn numbered(self) -> (u32, usize) {
        (self.0, self.1)
    }

    ghost passes = { λ n. refl };
}

// A refusal's words are n: its place, and zeros. The question's number is handed back.
pub(crate) fn note_refusal(question: u32, place: usize, n: usize, numbers: &mut [u64]) -> u32
    requires { (1 ≤ n) × (n ≤ length numbers.old) }
    ensures result { result ≡ question }
    ensures words { numbers.new ≡ place ∷ replicate (n - 1) 0 ++ drop n numbers.old }
{
    numbers[..n].fill(0);
    numbers[0] = place as u64;
    question
}

// The number handed back; the place is written.
pub fn note_place(a: Result<(), Refusal>, numbers: &mut [u64]) -> u32
    requires { 1 ≤ length numbers.old }
    ensures result { result ≡ number_of (answer_of a) }
    ensures words { numbers.new ≡ checked_words (answer_of a) ++ drop 1 numbers.old }
{
    match a {
        Ok(()) => {
            numbers[0] = 0;
            0
        }
        Err(no) => note_refusal(u32::from(no.question), no.place, 1, numbers),
    }
}

// The number handed back; place and count are written. A refusal of any number is noted.
pub fn note_count<E: Numbered>(w: Result<usize, E>, numbers: &mut [u64]) -> u32
    requires { 2 ≤ length numbers.old }
    ensures result { result ≡ number_of (E.counted w) }
    ensures words { numbers.new ≡ count_words (E.counted w) ++ drop 2 numbers.old }
{
    match w {
        Ok(n) => {
            numbers[0] = 0;
            numbers[1] = n as u64;
            0
        }
        Err(refusal) => {
            let (question, place) = refusal.numbered();
            note_refusal(question, place, 2, numbers)
        }
    }
}

// Four words, in this order.
fn note_four(a: u64, b: u64, c: u64, d: u64, numbers: &mut [u64])
    requires { 4 ≤ length numbers.old }
    ensures { numbers.new ≡ a ∷ b ∷ c ∷ d ∷ drop 4 numbers.old }
{
    numbers[0] = a;
    numbers[1] = b;
    numbers[2] = c;
    numbers[3] = d;
}

// The number handed back; place, breach, index and number of states are written.
pub fn note_verdict(v: Result<Verdict, Refusal>, numbers: &mut [u64]) -> u32
    requires { 4 ≤ length numbers.old }
    ensures result { result ≡ number_of (verdict_of v) }
    ensures words { numbers.new ≡ verdict_words (verdict_of v) ++ drop 4 numbers.old }
{
    match v {
        Ok(Verdict::Breach(index)) => {
            note_four(0, 1, index as u64, 0, numbers);
            0
        }
        Ok(Verdict::Clean(states)) => {
            note_four(0, 0, 0, states as u64, numbers);
            0
        }
        Err(no) => note_refusal(u32::from(no.question), no.place, 4, numbers),
    }
}

// The registers become the 16 words from `at` on.
pub fn note_registers(registers: [u16; 16], at: usize, numbers: &mut [u64])
    requires { at + 16 ≤ length numbers.old }
    ensures { numbers.new ≡ take at numbers.old ++ registers ++ drop (at + 16) numbers.old }
{
    for (i, register) in registers.iter().enumerate() {
        numbers[at + i] = u64::from(*register);
    }
}

fn number_of_stop(s: Stop) -> u64
    ensures { result ≡ stop_number (passed (stop_of s)) }
{
    match s {
        Stop::Halted => 1,
        Stop::Spent => 2,
        Stop::Dry => 3,
        Stop::Full => 4,
    }
}

// The number handed back; place, stop, line, steps, presentations, inputs read and the registers are written.
pub fn note_report(a: Result<RunAnswer, Refusal>, numbers: &mut [u64]) -> u32
    requires { 22 ≤ length numbers.old }
    ensures result { result ≡ number_of (report_in a).stop }
    ensures words { numbers.new ≡ report_words (report_in a) ++ drop 22 numbers.old }
{
    match a {
        Ok(ran) => {
            numbers[0] = 0;
            numbers[1] = number_of_stop(ran.stop);
            numbers[2] = ran.line as u64;
            numbers[3] = ran.steps;
            numbers[4] = ran.presentations as u64;
            numbers[5] = ran.reads as u64;
            note_registers(ran.registers, 6, numbers);
            0
        }
        Err(no) => note_refusal(u32::from(no.question), no.place, 22, numbers),
    }
}
