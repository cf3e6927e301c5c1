// A bare script, line after line.
ghost use Rattle.std.specs.Prelude.{◌≡◌, cond, ◌*◌, ◌≤◌, ◌<◌, length};
ghost use Rattle.spec.specs.Script.{bare_code, instruction_at};
ghost use Rattle.spec.specs.Weaver as spec;
ghost use Rattle.spec.specs.Weaver.{line_size, start_of, weave_line, woven_count};
ghost use Rattle.rule.specs.Nodes.{table_in};
ghost use Rattle.facts.specs.Written.{Space, Written};
ghost use Rattle.weaver.specs.Laid.{Laying, Weaving};

use crate::Measured;
use crate::block::{noted, put_block};
use facts::line::put_line;
use layout::{mark_starts, moved_word};
use rule::stored::Word;
use script::instruction::decode;
use script::line::is_present;

// Bare line l, which starts at `place`, into the start of the output. Hands back how many lines it becomes.
fn put_woven<W: Word>(
    rule: &Measured,
    bare: &[u32],
    starts: &[u16; 64],
    size: usize,
    l: usize,
    place: usize,
    out: &mut [W],
) -> usize
    requires { Weaving rule.now.nodes.now bare.now rule.now.sizes.now starts.now size rule.now.shared rule.now.past × (l < length bare.now) × (place ≡ start_of (table_in rule.now.nodes.now) (bare_code bare.now) l)
        × Space 0 (line_size (table_in rule.now.nodes.now) (instruction_at (bare_code bare.now) l)) (W.numbers out.old) }
    ensures { (result ≡ line_size (table_in rule.now.nodes.now) (instruction_at (bare_code bare.now) l))
        × Written W.IS_WIDE 0 (weave_line (table_in rule.now.nodes.now) (bare_code bare.now) place (instruction_at (bare_code bare.now) l)) (W.numbers out.old) (W.numbers out.new) }
{
    if is_present(decode(bare[l])) {
        put_block(rule, size, place, out);
        size
    } else {
        let word = moved_word(rule.nodes, bare, starts, size, l);
        put_line(word, noted(rule.past, 0, 0), 0, out);
        1
    }
}

// How many words n lines take in an output of this form: in both it is eight to a line.
fn words_of<W: Word>(n: usize) -> usize
    requires { n ≤ 1024 }
    ensures { result ≡ 8 * n }
{
    8 * n
}

// Every bare line, each into the part of the output after the lines already written.
fn put_lines<W: Word>(rule: &Measured, bare: &[u32], starts: &[u16; 64], size: usize, out: &mut [W])
    requires { Weaving rule.now.nodes.now bare.now rule.now.sizes.now starts.now size rule.now.shared rule.now.past × Space 0 (woven_count (table_in rule.now.nodes.now) (bare_code bare.now)) (W.numbers out.old) }
    ensures { Written W.IS_WIDE 0 (spec.weave (table_in rule.now.nodes.now) (bare_code bare.now)) (W.numbers out.old) (W.numbers out.new) }
{
    let mut n = 0;
    for l in 0..bare.len() {
        let start = words_of::<W>(n);
        n += put_woven(rule, bare, starts, size, l, n, &mut out[start..]);
    }
}

// The whole script; a block has `size` lines.
pub(crate) fn put_script<W: Word>(rule: &Measured, bare: &[u32], size: usize, out: &mut [W])
    requires { Laying rule.now.nodes.now bare.now rule.now.sizes.now size rule.now.shared rule.now.past × Space 0 (woven_count (table_in rule.now.nodes.now) (bare_code bare.now)) (W.numbers out.old) }
    ensures { Written W.IS_WIDE 0 (spec.weave (table_in rule.now.nodes.now) (bare_code bare.now)) (W.numbers out.old) (W.numbers out.new) }
{
    let mut starts = [0u16; 64];
    mark_starts(rule.nodes, bare, size, &mut starts);
    put_lines(rule, bare, &starts, size, out);
}
