// The text, and a mark under one of its bytes.
ghost use Rattle.std.specs.Prelude.{◌≡◌, map, ◌+◌, ◌-◌, ◌≤◌, ◌<◌, length, take, drop};
ghost use Rattle.print.specs.Written.{Added, Filled};
ghost use Rattle.report.specs.Compiled.{visible, shown_from, shown_text, pointer_text, mark_text};

use print::add_bytes;

fn shown_from(place: usize) -> usize
    ensures { result ≡ shown_from place }
{
    place.saturating_sub(60)
}

fn show(b: u8) -> u8
    ensures { result ≡ visible b }
{
    match b {
        b' '..=b'~' => b,
        _ => b'?',
    }
}

// The n bytes from `from` on, as a terminal shows them.
fn add_shown(text: &[u8], from: usize, n: usize, at: usize, out: &mut [u8]) -> usize
    requires { (n ≤ length text.now - from) × (at + n ≤ length out.old) }
    ensures { Added (map visible (take n (drop from text.now))) at result out.old out.new }
{
    for i in 0..n {
        out[at + i] = show(text[from + i]);
    }
    at + n
}

// The text around the place.
fn add_text(text: &[u8], place: usize, at: usize, out: &mut [u8]) -> usize
    requires { at + 73 ≤ length out.old }
    ensures { Filled 73 (shown_text text.now place) at result out.old out.new }
{
    let from = shown_from(place);
    let n = text.len().saturating_sub(from).min(72);
    let end = add_shown(text, from, n, at, out);
    add_bytes(b"\n", end, out)
}

// The mark under the place.
fn add_pointer(place: usize, at: usize, out: &mut [u8]) -> usize
    requires { at + 62 ≤ length out.old }
    ensures { Filled 62 (pointer_text place) at result out.old out.new }
{
    let spaces = [b' '; 60];
    let n = place - shown_from(place);
    let end = add_bytes(&spaces[..n], at, out);
    add_bytes(b"^\n", end, out)
}

pub(crate) fn add_mark(text: &[u8], place: usize, at: usize, out: &mut [u8]) -> usize
    requires { at + 135 ≤ length out.old }
    ensures { Filled 135 (mark_text text.now place) at result out.old out.new }
{
    let end = add_text(text, place, at, out);
    add_pointer(place, end, out)
}
