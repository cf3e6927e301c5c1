// What may stand at a place of a text: the words and signs with which a text of the grammar goes on.
ghost use Rattle.std.specs.Prelude.{◌≡◌, true, cond, [], ◌∷◌, ◌+◌, ◌*◌, ◌≤◌, length, map, reverse, take_while};
ghost use Rattle.print.specs.Decimal.{space};
ghost use Rattle.print.specs.Written.{Filled};
ghost use Rattle.report.specs.Compiled.{may_stand, candidates, is_begun, candidate_of, all_short, each_text, items_text, is_letter, letters_before, expected_items, expected_text};

use print::add_bytes;
use text::scan::ask_grammar;
use text::token::matching;

// What is tried, and the word for it.
const CANDIDATES: [(&[u8], &[u8]); 18] = [
    (b"true", b"true"),
    (b"false", b"false"),
    (b"r", b"register"),
    (b"not", b"not"),
    (b"wprev", b"wprev"),
    (b"prev", b"prev"),
    (b"once", b"once"),
    (b"sofar", b"sofar"),
    (b"since", b"since"),
    (b"and", b"and"),
    (b"or", b"or"),
    (b"implies", b"implies"),
    (b"(", b"("),
    (b")", b")"),
    (b"=", b"="),
    (b"<", b"<"),
    (b"0", b"digit"),
    (b" ", b"space"),
];

// The bytes before the place and then these, put into `tried` and asked about.
fn stands(text: &[u8], place: usize, bytes: &[u8], tried: &mut [u8]) -> bool
    requires { (length text.now ≤ 65000) × (length bytes.now ≤ 8) × (length tried.old ≡ 65536) }
    ensures { result ≡ may_stand text.now place bytes.now }
{
    let n = place.min(text.len());
    let start = add_bytes(&text[..n], 0, tried);
    let end = add_bytes(bytes, start, tried);
    match ask_grammar(&tried[..end]) {
        Ok(()) => true,
        Err(stuck) => end <= stuck.place,
    }
}

// Some text of the grammar begins with the bytes before the place and then these.
fn may_stand(text: &[u8], place: usize, bytes: &[u8]) -> bool
    requires { (length text.now ≤ 65000) × (length bytes.now ≤ 8) }
    ensures { result ≡ may_stand text.now place bytes.now }
{
    let mut tried = io::large_buffer();
    stands(text, place, bytes, &mut tried)
}

// They may stand at `start`, where so many of them are typed already, and not all.
fn is_begun(text: &[u8], start: usize, typed: usize, bytes: &[u8]) -> bool
    requires { (length text.now ≤ 65000) × (length bytes.now ≤ 8) }
    ensures { result ≡ is_begun text.now start typed bytes.now }
{
    if bytes.len() <= typed {
        return false;
    }
    if matching(text, start, bytes) != typed {
        return false;
    }
    may_stand(text, start, bytes)
}

// The word for these bytes, where they are.
fn add_item(
    text: &[u8],
    start: usize,
    typed: usize,
    tried: &[u8],
    shown: &[u8],
    at: usize,
    out: &mut [u8],
) -> usize
    requires { (length text.now ≤ 65000) × (length tried.now ≤ 8) × (length shown.now ≤ 8) × (at + 9 ≤ length out.old) }
    ensures { Filled 9 (cond (is_begun text.now start typed tried.now) (space ∷ shown.now) []) at result out.old out.new }
{
    if is_begun(text, start, typed, tried) {
        let end = add_bytes(b" ", at, out);
        return add_bytes(shown, end, out);
    }
    at
}

// The words for these, one after another.
fn add_each(
    text: &[u8],
    start: usize,
    typed: usize,
    tried: &[(&[u8], &[u8])],
    at: usize,
    out: &mut [u8],
) -> usize
    requires { (length text.now ≤ 65000) × (all_short (map candidate_of tried.now) ≡ true) × (at + 9 * length tried.now ≤ length out.old) }
    ensures { Filled (9 * length tried.now) (each_text text.now start typed (map candidate_of tried.now) (length tried.now)) at result out.old out.new }
{
    let mut end = at;
    for (bytes, shown) in tried {
        end = add_item(text, start, typed, bytes, shown, end, out);
    }
    end
}

fn add_candidates(text: &[u8], start: usize, typed: usize, at: usize, out: &mut [u8]) -> usize
    requires { (length text.now ≤ 65000) × (at + 162 ≤ length out.old) }
    ensures { Filled 162 (items_text text.now start typed (length candidates)) at result out.old out.new }
{
    add_each(text, start, typed, &CANDIDATES, at, out)
}

fn is_letter(b: u8) -> bool
    ensures { result ≡ is_letter b }
{
    b.is_ascii_lowercase()
}

// How many letters these bytes end with.
fn last_letters(bytes: &[u8]) -> usize
    ensures { result ≡ length (take_while is_letter (reverse bytes.now)) }
{
    bytes.iter().rev().take_while(|b| is_letter(**b)).count()
}

// How many letters stand just before the place.
fn letters_before(text: &[u8], place: usize) -> usize
    ensures { (result ≤ place) × (result ≡ letters_before text.now place) }
{
    if text.len() < place {
        return 0;
    }
    last_letters(&text[..place])
}

// Within a word the word that it is to be; else what may stand at the place.
fn add_items(text: &[u8], place: usize, at: usize, out: &mut [u8]) -> usize
    requires { (length text.now ≤ 65000) × (at + 162 ≤ length out.old) }
    ensures { Filled 162 (expected_items text.now place) at result out.old out.new }
{
    let n = letters_before(text, place);
    let end = add_candidates(text, place - n, n, at, out);
    if end == at {
        return add_candidates(text, place, 0, at, out);
    }
    end
}

pub(crate) fn add_expected(text: &[u8], place: usize, at: usize, out: &mut [u8]) -> usize
    requires { (length text.now ≤ 65000) × (at + 172 ≤ length out.old) }
    ensures { Filled 172 (expected_text text.now place) at result out.old out.new }
{
    let start = add_bytes(b"expected:", at, out);
    let end = add_items(text, place, start, out);
    add_bytes(b"\n", end, out)
}
