// Words of an output that a rule is written to, in either stored form.
ghost use Rattle.std.specs.Prelude.{◌≡◌, false, ◌++◌, ◌≤◌, ◌<◌, ℕ, length, get_or, drop};
ghost use Rattle.moves.specs.Moves.{Narrow};
ghost use Rattle.rule.specs.Nodes.{fields_in};
ghost use Rattle.text.specs.Answers.{stored_as};

use rule::stored::{Word, narrow_rule};

pub trait Output: Word {
    // A rule in the second form becomes the first words; later words stay. The old form must have space for its fields.
    fn put_rule(rule: &[u64], out: &mut [Self])
        requires { (length rule.now ≤ length out.old) × (Self.IS_WIDE ≡ false → (k : ℕ) → k < length rule.now → Narrow (fields_in (get_or rule.now k 0))) }
        ensures { Self.numbers out.new ≡ stored_as Self.IS_WIDE rule.now ++ drop (length rule.now) (Self.numbers out.old) };
}

impl Output for u32 {
    fn put_rule(rule: &[u64], out: &mut [u32]) {
        narrow_rule(rule, out);
    }
}

impl Output for u64 {
    fn put_rule(rule: &[u64], out: &mut [u64]) {
        out[..rule.len()].copy_from_slice(rule);
    }
}
