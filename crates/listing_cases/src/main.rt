// Lists the inputs on standard input, one after another. An input stands after a word of 32 bits, high byte first, that is one more than how
// many bytes it has, and fills whole words; a 0 in place of that word is skipped.
#![tactic(auto)]

ghost use Rattle.std.specs.Prelude.{◌<◌, IfOk, IfSome};

use input::read_full;
use render::listing::list;
use std::io;
use words::word_at;

fn answer(rt: &impl Print, bytes: &[u8]) -> io::Result<()> {
    let mut text = [0u8; 32768];
    let length = list(bytes, &mut text);
    rt.write_all(&text[..length])
}

// The input that starts at word `at`, and where the next one starts; nothing where this one is too large or not all there.
// The one error is that of a write that failed; nothing of the caller's changes then.
fn request(rt: &impl Print, s: &[u8], at: usize) -> io::Result<Option<usize>>
    requires { at < 16384 }
    ensures { IfOk result (λ next. IfSome next (λ n. at < n)) }
{
    let size = word_at(s, at) as usize;
    if size == 0 {
        return Ok(Some(at + 1));
    }
    if 65536 < size {
        return Ok(None);
    }
    let start = 4 * at + 4;
    let end = start + size - 1;
    if s.len() < end {
        return Ok(None);
    }
    answer(rt, &s[start..end])?;
    Ok(Some(at + 1 + (size + 2) / 4))
}

// Every input in the bytes, one after another.
fn requests_in(rt: &impl Print, s: &[u8]) -> io::Result<()> {
    let mut at = 0;
    // A step goes over a whole request, however long: no index is counted.
    while at < s.len() / 4 {
        if 16384 <= at {
            return Ok(());
        }
        let Some(next) = request(rt, s, at)? else {
            return Ok(());
        };
        at = next;
    }
    Ok(())
}

// What the input holds comes in blocks of 65,536 bytes, and no request goes over the end of one.
fn main(rt: HostRuntime) -> io::Result<()> {
    let mut bytes = [0u8; 65536];
    for _ in 0..1000 {
        let n = read_full(&mut rt.stdin(), &mut bytes)?;
        if n == 0 {
            return Ok(());
        }
        requests_in(&rt, &bytes[..n])?;
    }
    Ok(())
}
