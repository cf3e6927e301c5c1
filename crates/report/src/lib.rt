// What the compile program prints: from the bytes of its input to the bytes of the text.
#![tactic(auto)]

ghost use Rattle.std.specs.Prelude.{◌≡◌, ◌++◌, ◌*◌, ◌+◌, ◌≤◌, ◌<◌, length, take, drop};
ghost use Rattle.spec.specs.Rule.{form32};
ghost use Rattle.grammar.specs.Texting.{texting};
ghost use Rattle.print.specs.Written.{Added, Filled};
ghost use Rattle.rule.specs.Answers.{number_of};
ghost use Rattle.report.specs.Compiled.{without_last, text_in, hex_text, node_text, nodes_text, reason_text, answer_text, compiled_text};

use crate::expected::add_expected;
use crate::mark::add_mark;
use print::{add_bytes, add_refused};
use rule::answer::{Question, Refusal};
use text::read_text;

mod expected;
mod mark;

// The bytes without this byte at their end.
fn without_last(bytes: &[u8], byte: u8) -> &[u8]
    ensures { result.now ≡ without_last byte bytes.now }
{
    let n = bytes.len();
    if n == 0 {
        return bytes;
    }
    if bytes[n - 1] == byte {
        &bytes[..n - 1]
    } else {
        bytes
    }
}

// The text of an input.
fn text_in(bytes: &[u8]) -> &[u8]
    ensures { result.now ≡ text_in bytes.now }
{
    let line = without_last(bytes, b'\n');
    without_last(line, b'\r')
}

fn add_hex(word: u32, at: usize, out: &mut [u8]) -> usize
    requires { at + 8 ≤ length out.old }
    ensures { Filled 8 (hex_text word) at result out.old out.new }
{
    let mut text = [0u8; 16];
    let n = io::hex(word as u64, 8, &mut text);
    add_bytes(&text[..n], at, out)
}

fn add_node(word: u32, at: usize, out: &mut [u8]) -> usize
    requires { at + 9 ≤ length out.old }
    ensures { Filled 9 (node_text word) at result out.old out.new }
{
    let end = add_hex(word, at, out);
    add_bytes(b"\n", end, out)
}

fn add_nodes(words: &[u32], out: &mut [u8]) -> usize
    requires { 9 * length words.now ≤ length out.old }
    ensures { Added (nodes_text words.now) 0 result out.old out.new }
{
    let mut end: usize = 0;
    for word in words {
        end = add_node(*word, end, out);
    }
    end
}

// What is wrong.
fn add_reason(text: &[u8], refusal: Refusal, at: usize, out: &mut [u8]) -> usize
    requires { (length text.now ≤ 65000) × (at + 307 ≤ length out.old) }
    ensures { Added (reason_text text.now (number_of refusal.question) refusal.place) at result out.old out.new }
{
    match refusal.question {
        Question::TextGrammar => {
            let end = add_mark(text, refusal.place, at, out);
            add_expected(text, refusal.place, end, out)
        }
        Question::TextRange => {
            let end = add_mark(text, refusal.place, at, out);
            add_bytes(b"registers go up to r15, numbers up to 16383\n", end, out)
        }
        _ => add_bytes(
            b"a rule has at most 32 nodes, and this one needs more\n",
            at,
            out,
        ),
    }
}

// The answer to a text, at the start of the output.
fn put_answer(text: &[u8], out: &mut [u8]) -> usize
    requires { (length text.now ≤ 65000) × (512 ≤ length out.old) }
    ensures { Added (answer_text text.now (texting form32 32 text.now)) 0 result out.old out.new }
{
    let mut words = [0u32; 32];
    match read_text(text, &mut words) {
        Ok(n) => add_nodes(&words[..n], out),
        Err(refusal) => {
            let end = add_refused(u32::from(refusal.question), refusal.place, 0, out);
            add_reason(text, refusal, end, out)
        }
    }
}

// What is printed for the bytes of an input, at the start of the output; later bytes stay. Hands back its length.
pub fn compile(bytes: &[u8], out: &mut [u8; 512]) -> usize
    ensures { (result ≡ length (compiled_text bytes.now))
        × (out.new ≡ compiled_text bytes.now ++ drop result out.old) }
{
    let text = text_in(bytes);
    if 65000 < text.len() {
        return add_bytes(b"a text has at most 65000 bytes here\n", 0, out);
    }
    put_answer(text, out)
}
