// The lines found, written one after another, and their facts counted.
ghost use Rattle.std.specs.Prelude.{◌≡◌, ◌*◌, ◌≤◌, length};
ghost use Rattle.largest.specs.Largest.{facts_in, count_facts};
ghost use Rattle.sets.specs.Sets.{capacity};
ghost use Rattle.rule.specs.Nodes.{over_at};
ghost use Rattle.facts.specs.FactSets.{facts_of};
ghost use Rattle.finder.specs.Rows.{notes_at};
ghost use Rattle.finder.specs.Kept.{kept_lines};

use crate::rows::load;
use facts::Facts;
use facts::line::put_line;
use rule::stored::Word;
use sets::count;

// How many facts x has, over its seven words.
fn count_facts(x: Facts) -> u32
    ensures { (result ≡ facts_in capacity (facts_of x)) × (result ≤ 448) }
{
    count(x.t) + count(x.f) + count(x.a) + count(x.b) + count(x.m) + count(x.w) + count(x.c)
}

// Hands back how many facts the lines have.
pub(crate) fn put_lines<W: Word>(code: &[u32], notes: &[u64], out: &mut [W]) -> usize
    requires { (7 * length code.now ≤ length notes.now) × (8 * length code.now ≤ length (W.numbers out.old)) × (length code.now ≤ 1024) }
    ensures { (result ≡ count_facts capacity (length code.now) (notes_at notes.now))
        × (W.numbers out.new ≡ over_at 0 (kept_lines W.IS_WIDE code.now notes.now (length code.now)) (W.numbers out.old)) }
{
    let mut total = 0usize;
    for (l, word) in code.iter().enumerate() {
        let x = load(notes, l);
        put_line(*word, x, l, out);
        total += count_facts(x) as usize;
    }
    total
}
