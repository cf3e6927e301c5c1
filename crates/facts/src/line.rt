// A stored line of either form, read and written: its instruction's word, and its facts.
ghost use Rattle.std.specs.Prelude.{◌≡◌, [], ◌∷◌, map, ◌+◌, ◌*◌, ◌/◌, ◌≤◌, ◌<◌, length, get_or};
ghost use Rattle.sets.specs.Sets.{set_of};
ghost use Rattle.rule.specs.Nodes.{over_at};
ghost use Rattle.script.specs.Lines.{line_in};
ghost use Rattle.facts.specs.FactSets.{facts_of};
ghost use Rattle.facts.specs.Written.{nodes_read, set_stored, stored_line, LineSpace};

use crate::Facts;
use rule::stored::{Word, put_word, word_at};

// The set in the fact word i of line l: a word of the old form has the first 32 nodes.
fn read_set<W: Word>(script: &[W], l: usize, i: usize) -> u64
    requires { (l < length (W.numbers script.now) / 8) × (i < 7) }
    ensures { set_of result ≡ nodes_read W.IS_WIDE (get_or (W.numbers script.now) (8 * l + 1 + i) 0) }
{
    word_at(script, 8 * l + 1 + i)
}

// The facts noted at line l.
pub fn read_facts<W: Word>(script: &[W], l: usize) -> Facts
    requires { l < length (W.numbers script.now) / 8 }
    ensures { facts_of result ≡ (line_in W.IS_WIDE (W.numbers script.now) l).annotation }
{
    Facts {
        t: read_set(script, l, 0),
        f: read_set(script, l, 1),
        a: read_set(script, l, 2),
        b: read_set(script, l, 3),
        m: read_set(script, l, 4),
        w: read_set(script, l, 5),
        c: read_set(script, l, 6),
    }
}

// Four sets in the output, from word i on.
fn put_four<W: Word>(first: u64, second: u64, third: u64, fourth: u64, i: usize, out: &mut [W])
    requires { i + 4 ≤ length (W.numbers out.old) }
    ensures { W.numbers out.new ≡ over_at i (map (set_stored W.IS_WIDE) (first ∷ second ∷ third ∷ fourth ∷ [])) (W.numbers out.old) }
{
    put_word(first, i, out);
    put_word(second, i + 1, out);
    put_word(third, i + 2, out);
    put_word(fourth, i + 3, out);
}

// Line `place` of the output: its eight words.
pub fn put_line<W: Word>(word: u32, x: Facts, place: usize, out: &mut [W])
    requires { LineSpace place (W.numbers out.old) }
    ensures { W.numbers out.new ≡ over_at (8 * place) (stored_line W.IS_WIDE word (facts_of x)) (W.numbers out.old) }
{
    let first = word as u64 * 4294967296;
    let i = 8 * place;
    put_four(first, x.t, x.f, x.a, i, out);
    put_four(x.b, x.m, x.w, x.c, i + 4, out);
}
