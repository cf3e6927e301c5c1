// Requests of kinds 7 to 9, 17 and 31, which are bytes: kind, a number, byte count, bytes, which fill whole words. Kinds 7 and 17 read them as a
// rule typed as text into an output of that many words, of the old form and of the second; kind 8 is an input of the compile program; kind 9
// reads the text with each of its bytes changed to every byte; kind 31 is an input of the judge_limits program.
ghost use Rattle.std.specs.Prelude.{◌≡◌, ◌<◌, IfOk, length, IfSome};

use crate::digests::{digest, print_lent};
use print::add_bytes;
use requests::printing::{print_counted, print_named, say};
use rule::answer::Refusal;
use std::io;
use text::read_text;
use words::word_at;

// The answer, and the lent output afterwards. An output of that many words is lent, each of ones, which no node is.
fn answer_text(rt: &impl Print, text: &[u8], length: usize) -> io::Result<()> {
    if length <= 64 {
        let mut out = [4294967295u32; 64];
        print_counted(rt, b"nodes", read_text(text, &mut out[..length]))?;
        print_lent(rt, &out[..length])?;
    }
    Ok(())
}

// The same of the second form.
fn answer_long_text(rt: &impl Print, text: &[u8], length: usize) -> io::Result<()> {
    if length <= 80 {
        let mut out = [18446744073709551615u64; 80];
        print_counted(rt, b"nodes", read_text(text, &mut out[..length]))?;
        print_lent(rt, &out[..length])?;
    }
    Ok(())
}

fn answer_compile(rt: &impl Print, bytes: &[u8]) -> io::Result<()> {
    let mut text = [0u8; 512];
    let n = report::compile(bytes, &mut text);
    say(rt, &text[..n])
}

fn answer_file(rt: &impl Print, bytes: &[u8]) -> io::Result<()> {
    let mut text = [0u8; 74013];
    let n = picture::judge_file(bytes, &mut text);
    say(rt, &text[..n])
}

// A place or a count, which is below 65,536 here.
fn word(n: usize) -> u32 {
    (n % 65536) as u32
}

// The number and the place, or 0 and the count.
fn two_words(c: Result<usize, Refusal>) -> [u32; 2] {
    match c {
        Ok(n) => [0, word(n)],
        Err(r) => [u32::from(r.question), word(r.place)],
    }
}

// Goes on with the answer to a text, and the output.
fn digest_text(h: u64, text: &[u8]) -> u64
    requires { h < 4294967291 }
    ensures { result < 4294967291 }
{
    let mut out = [4294967295u32; 32];
    let answer = two_words(read_text(text, &mut out));
    digest(digest(h, &answer), &out)
}

// Goes on with the text with every byte at place i, and restores it.
fn digest_place(h: u64, text: &mut [u8], i: usize) -> u64
    requires { (h < 4294967291) × (i < length text.old) }
    ensures { (result < 4294967291) × (length text.new ≡ length text.old) }
{
    let own = text[i];
    let mut d = h;
    for b in 0..=u8::MAX {
        text[i] = b;
        d = digest_text(d, text);
    }
    text[i] = own;
    d
}

// The same at every place.
fn digest_spoiled(text: &mut [u8]) -> u64
    ensures { result < 4294967291 }
{
    let mut d: u64 = 1;
    for i in 0..text.len() {
        d = digest_place(d, text, i);
    }
    d
}

fn answer_spoiled(rt: &impl Print, text: &[u8]) -> io::Result<()> {
    if text.len() <= 64 {
        let mut own = [0u8; 64];
        add_bytes(text, 0, &mut own);
        print_named(rt, b"digest", digest_spoiled(&mut own[..text.len()]))?;
    }
    Ok(())
}

fn answer(rt: &impl Print, kind: u32, number: usize, bytes: &[u8]) -> io::Result<()> {
    if kind == 7 {
        answer_text(rt, bytes, number)
    } else if kind == 17 {
        answer_long_text(rt, bytes, number)
    } else if kind == 8 {
        answer_compile(rt, bytes)
    } else if kind == 31 {
        answer_file(rt, bytes)
    } else {
        answer_spoiled(rt, bytes)
    }
}

// The request of this kind that starts at word `at`, and where the next one starts.
// The one error is that of a write that failed; nothing of the caller's changes then.
pub(crate) fn request_text(
    rt: &impl Print,
    s: &[u8],
    kind: u32,
    at: usize,
) -> io::Result<Option<usize>>
    requires { at < 16384 }
    ensures { IfOk result (λ next. IfSome next (λ n. at < n)) }
{
    let number = word_at(s, at + 1) as usize;
    let size = word_at(s, at + 2) as usize;
    if 65536 < size {
        return Ok(None);
    }
    let start = 4 * at + 12;
    let end = start + size;
    if s.len() < end {
        return Ok(None);
    }
    answer(rt, kind, number, &s[start..end])?;
    Ok(Some(at + 3 + (size + 3) / 4))
}
