// The tokens of a text, and what they are read from: digits and letters.
ghost use Rattle.std.specs.Prelude.{◌≡◌, ◌&&◌, ◌+◌, ◌-◌, ◌≤◌, ◌<◌, leb, length, drop, take_while};
ghost use Rattle.std.specs.List.{zip};
ghost use Rattle.grammar.specs.Grammar.{is_digit};
ghost use Rattle.grammar.specs.Bytes.{leading_from, digits_in, agreeing};
ghost use Rattle.text.specs.Tokens.{capped, same, found, word_at};

#[derive(Clone, Copy)]
pub enum Prefix {
    Not,
    Wprev,
    Prev,
    Once,
    Sofar,
}

#[derive(Clone, Copy)]
pub enum Operator {
    Since,
    And,
    Or,
    Implies,
}

// A word that waits for an operand.
#[derive(Clone, Copy)]
pub enum WaitingWord {
    Not,
    Wprev,
    Prev,
    Once,
    Sofar,
    Since,
    And,
    Or,
    Implies,
}

// A space is none of the grammar's tokens: it is passed over.
#[derive(Clone, Copy)]
pub enum Token {
    Space,
    Constant { value: bool },
    Prefix { word: Prefix },
    Operator { word: Operator },
    Register { number: u32 },
    Number { number: u32 },
    Open,
    Close,
    Equal,
    Below,
}

// A token and the place behind it.
#[derive(Clone, Copy)]
pub struct Lexeme {
    pub token: Token,
    pub next: usize,
}

#[derive(Clone, Copy)]
pub struct Digits {
    pub value: u32,
    pub next: usize,
}

pub(crate) fn is_digit(b: u8) -> bool
    ensures { result ≡ is_digit b }
{
    b.is_ascii_digit()
}

// Any number of digits has a value that fits: above 16,383 it counts as 16,384, which no node holds.
fn cap(n: u32) -> u32
    ensures { result ≡ capped n }
{
    n.min(16384)
}

// The digits that start at `at`.
pub(crate) fn digits_at(text: &[u8], at: usize) -> Digits
    requires { at ≤ length text.now }
    ensures value { result.value ≡ capped (leading_from 0 (drop at text.now)) }
    ensures next { result.next ≡ at + digits_in (drop at text.now) }
{
    let mut value: u32 = 0;
    for i in at..text.len() {
        let b = text[i];
        if !is_digit(b) {
            return Digits { value, next: i };
        }
        value = cap(10 * value + (b as u32 - 48));
    }
    Digits {
        value,
        next: text.len(),
    }
}

fn same_first(bytes: &[u8], letters: &[u8]) -> usize
    ensures { result ≡ length (take_while same (zip bytes.now letters.now)) }
{
    bytes
        .iter()
        .zip(letters)
        .take_while(|(byte, letter)| byte == letter)
        .count()
}

// How many of these letters stand at `at`.
pub fn matching(text: &[u8], at: usize, letters: &[u8]) -> usize
    ensures { result ≡ agreeing letters.now (drop at text.now) }
{
    let Some(rest) = text.get(at..) else {
        return 0;
    };
    same_first(rest, letters)
}

// A word with these letters: this token, or as an error where it breaks off. It may not touch a word before it.
pub(crate) fn read_word(
    text: &[u8],
    at: usize,
    touching: bool,
    letters: &[u8],
    token: Token,
) -> Result<Lexeme, usize>
    requires { at ≤ length text.now }
    ensures { result ≡ word_at token touching letters.now at text.now }
{
    if touching {
        return Err(at);
    }
    let n = matching(text, at, letters);
    if n < letters.len() {
        Err(at + n)
    } else {
        Ok(Lexeme {
            token,
            next: at + n,
        })
    }
}

// A token of one byte.
pub(crate) fn one_byte(token: Token, at: usize) -> Result<Lexeme, usize>
    requires { at < 18446744073709551615 }
    ensures { result ≡ found token (at + 1) }
{
    Ok(Lexeme {
        token,
        next: at + 1,
    })
}
