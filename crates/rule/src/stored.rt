// Words of the two stored forms: a rule or an annotated script is a slice of 32-bit words of the old form or of 64-bit words of the second.
ghost use Rattle.std.specs.Prelude.{◌≡◌, [], ◌∷◌, ◌++◌, Bool, true, false, List, ℕ, ◌≤◌, ◌<◌, length, get_or, drop};
ghost use Rattle.moves.specs.Moves.{Narrow, widen_rule, narrow_rule};
ghost use Rattle.rule.specs.Nodes.{wide_word, words_in, word_by, form_by, over_at, second_form, Each, each_number, fields_in};

use crate::node::{narrow_node, widen_node};

// A word of one of the two stored forms.
pub trait Word: Copy {
    // Whether it is the second form's.
    ghost IS_WIDE: { Bool };

    // Words as numbers.
    ghost number: { Self → ℕ };

    ghost numbers: { List Self → List ℕ };

    const IS_WIDE: bool;

    // As 64 bits: a word of the old form is the upper half.
    fn widen(self) -> u64
        ensures { result ≡ wide_word IS_WIDE (number self) };

    // As it is stored, of 64 bits: the old form has the upper half.
    fn narrow(word: u64) -> Self
        ensures { number result ≡ word_by IS_WIDE word };

    // A rule in the second form, for which one of the old form needs space.
    fn in_second_form<'a>(rule: &'a [Self], space: &'a mut [u64; 32]) -> &'a [u64]
        requires { length rule.now ≤ (form_by IS_WIDE).width }
        ensures { result.now ≡ second_form IS_WIDE (numbers rule.now) };

    ghost each: { Each number numbers };
}

impl Word for u32 {
    ghost IS_WIDE = { false };

    ghost number = { λ w. w };

    ghost numbers = { λ ws. ws };

    const IS_WIDE: bool = false;

    fn widen(self) -> u64 {
        self as u64 * 4294967296
    }

    fn narrow(word: u64) -> u32 {
        (word / 4294967296) as u32
    }

    fn in_second_form<'a>(rule: &'a [u32], space: &'a mut [u64; 32]) -> &'a [u64] {
        widen_rule(rule, space);
        &space[..rule.len()]
    }

    ghost each = { each_number };
}

impl Word for u64 {
    ghost IS_WIDE = { true };

    ghost number = { λ w. w };

    ghost numbers = { λ ws. ws };

    const IS_WIDE: bool = true;

    fn widen(self) -> u64 {
        self
    }

    fn narrow(word: u64) -> u64 {
        word
    }

    fn in_second_form<'a>(rule: &'a [u64], _space: &'a mut [u64; 32]) -> &'a [u64] {
        rule
    }

    ghost each = { each_number };
}

// How many nodes a rule may have.
pub fn most_nodes<W: Word>() -> usize
    ensures { result ≡ (form_by W.IS_WIDE).width }
{
    if W::IS_WIDE { 64 } else { 32 }
}

// Word i as 64 bits.
pub fn word_at<W: Word>(words: &[W], i: usize) -> u64
    requires { i < length words.now }
    ensures { result ≡ get_or (words_in W.IS_WIDE (W.numbers words.now)) i 0 }
{
    words[i].widen()
}

// Word i becomes v, of which the old form has the upper half.
pub fn put_word<W: Word>(v: u64, i: usize, words: &mut [W])
    requires { i < length words.old }
    ensures { W.numbers words.new ≡ over_at i (word_by W.IS_WIDE v ∷ []) (W.numbers words.old) }
{
    words[i] = W::narrow(v);
}

// A rule of the old form as one of the second, at the start of the output.
pub fn widen_rule(rule: &[u32], out: &mut [u64])
    requires { length rule.now ≤ length out.old }
    ensures { out.new ≡ widen_rule rule.now ++ drop (length rule.now) out.old }
{
    for (k, word) in rule.iter().enumerate() {
        out[k] = widen_node(*word);
    }
}

// And back, where the nodes have space there.
pub fn narrow_rule(rule: &[u64], out: &mut [u32])
    requires { (length rule.now ≤ length out.old) × ((k : ℕ) → k < length rule.now → Narrow (fields_in (get_or rule.now k 0))) }
    ensures { out.new ≡ narrow_rule rule.now ++ drop (length rule.now) out.old }
{
    for (k, word) in rule.iter().enumerate() {
        out[k] = narrow_node(*word);
    }
}
