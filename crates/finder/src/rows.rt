// The notes of the search, seven words a line.
ghost use Rattle.std.specs.Prelude.{◌≡◌, ◌<◌, ◌≤◌, ◌+◌, ◌*◌, length};
ghost use Rattle.std.proofs.Math.Option.{some};
ghost use Rattle.facts.specs.FactSets.{facts_of};
ghost use Rattle.finder.specs.Rows.{notes_at, met_at, changes_at, HasLine, WayDone, Put};

use crate::flags::raise;
use facts::Facts;

// The facts noted at line l.
pub(crate) fn load(notes: &[u64], l: usize) -> Facts
    requires { 7 * l + 7 ≤ length notes.now }
    ensures { facts_of result ≡ notes_at notes.now l }
{
    let i = 7 * l;
    Facts {
        t: notes[i],
        f: notes[i + 1],
        a: notes[i + 2],
        b: notes[i + 3],
        m: notes[i + 4],
        w: notes[i + 5],
        c: notes[i + 6],
    }
}

// Word i keeps its bits that are in g. Whether some went.
fn meet_at(words: &mut [u64], i: usize, g: u64) -> bool
    requires { i < length words.old }
    ensures { (result ≡ changes_at words.old i g) × (words.new ≡ met_at words.old i g) }
{
    let old = words[i];
    let new = old & g;
    words[i] = new;
    old != new
}

// Line m keeps of its notes those in g, and is flagged if some went.
pub(crate) fn cut(notes: &mut [u64], flags: &mut [u64], m: usize, g: Facts) -> bool
    requires { HasLine m notes.old flags.old }
    ensures { WayDone notes.old flags.old (some m) (facts_of g) notes.new flags.new result }
{
    let i = 7 * m;
    let words = [g.t, g.f, g.a, g.b, g.m, g.w, g.c];
    let mut changed = false;
    for (j, word) in words.iter().enumerate() {
        changed = meet_at(notes, i + j, *word) | changed;
    }
    if changed {
        raise(flags, m);
        return true;
    }
    false
}

// Line l notes x.
pub(crate) fn put(notes: &mut [u64], l: usize, x: Facts)
    requires { 7 * l + 7 ≤ length notes.old }
    ensures { Put notes.old l (facts_of x) notes.new }
{
    let i = 7 * l;
    let words = [x.t, x.f, x.a, x.b, x.m, x.w, x.c];
    notes[i..i + 7].copy_from_slice(&words);
}
