// The text of a listing, written into a lent output.
ghost use Rattle.std.specs.Prelude.{◌+◌, ◌*◌, ◌≤◌, ◌<◌, length};
ghost use Rattle.spec.specs.Questions.{passed};
ghost use Rattle.render.specs.Text.{line_text, lines_text, answer_text};
ghost use Rattle.print.specs.Written.{Added};

use print::{add_bytes, add_number};
use script::instruction::decode;

// Line l, whose first word this is: line, opcode, r, c, target.
fn add_line(l: usize, word: u32, at: usize, out: &mut [u8]) -> usize
    requires { (l < 1024) × (at + 30 ≤ length out.old) }
    ensures { Added (line_text l word) at result out.old out.new }
{
    let x = decode(word);
    let opcode_at = add_number(l, b' ', at, out);
    let r_at = add_number(x.opcode as usize, b' ', opcode_at, out);
    let c_at = add_number(x.r, b' ', r_at, out);
    let target_at = add_number(x.c, b' ', c_at, out);
    add_number(x.target, b'\n', target_at, out)
}

// The first n lines of a script of eight words a line.
fn add_lines(words: &[u32], n: usize, at: usize, out: &mut [u8]) -> usize
    requires { (n ≤ 1024) × (8 * n ≤ length words.now) × (at + 30 * n ≤ length out.old) }
    ensures { Added (lines_text words.now n) at result out.old out.new }
{
    let mut end = at;
    for l in 0..n {
        end = add_line(l, words[8 * l], end, out);
    }
    end
}

// The header and n lines.
pub(crate) fn put_lines(words: &[u32], n: usize, out: &mut [u8]) -> usize
    requires { (n ≤ 1024) × (8 * n ≤ length words.now) × (30732 ≤ length out.old) }
    ensures { Added (answer_text words.now (passed n)) 0 result out.old out.new }
{
    let count_at = add_bytes(b"lines ", 0, out);
    let lines_at = add_number(n, b'\n', count_at, out);
    add_lines(words, n, lines_at, out)
}
