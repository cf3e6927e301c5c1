// A text's tokens in turn, and question 16.
ghost use Rattle.std.specs.Prelude.{◌≡◌, ◌≤◌, ◌<◌, ◌≢◌, length, get_or};
ghost use Rattle.grammar.specs.Grammar.{space, letter_r};
ghost use Rattle.rule.specs.Answers.{answer_of};
ghost use Rattle.grammar.specs.Scan.{may_end, question16};
ghost use Rattle.text.specs.Tokens.{word_at};
ghost use Rattle.text.specs.Places.{scan_at, scan_of, scan_after, Reads, close_at};

use crate::token::{Lexeme, Operator, Prefix, Token, digits_at, one_byte, read_word};
use rule::answer::{Question, Refusal};

// What may come next.
#[derive(Clone, Copy)]
pub enum Want {
    Operand,
    Comparison,
    Number,
    Operator,
}

// Between two tokens: what is wanted, how many brackets are open, and whether a word ends just before.
#[derive(Clone, Copy)]
pub struct Between {
    pub want: Want,
    pub depth: usize,
    pub touching: bool,
}

// r and its number touch, and count as a word. The error of this and of what is read below is the place that no text goes on at.
fn read_register(text: &[u8], at: usize, depth: usize, touching: bool) -> Result<Lexeme, usize>
    requires { (at < length text.now) × (get_or text.now at 0 ≡ letter_r) }
    ensures { Reads text.now at Want.Operand depth touching result }
{
    if touching {
        return Err(at);
    }
    let first = at + 1;
    let digits = digits_at(text, first);
    let next = digits.next;
    if next == first {
        return Err(first);
    }
    Ok(Lexeme {
        token: Token::Register {
            number: digits.value,
        },
        next,
    })
}

fn read_constant(
    text: &[u8],
    at: usize,
    touching: bool,
    letters: &[u8],
    value: bool,
) -> Result<Lexeme, usize>
    requires { at ≤ length text.now }
    ensures { result ≡ word_at (Token.Constant value) touching letters.now at text.now }
{
    read_word(text, at, touching, letters, Token::Constant { value })
}

fn read_prefix(
    text: &[u8],
    at: usize,
    touching: bool,
    letters: &[u8],
    word: Prefix,
) -> Result<Lexeme, usize>
    requires { at ≤ length text.now }
    ensures { result ≡ word_at (Token.Prefix word) touching letters.now at text.now }
{
    read_word(text, at, touching, letters, Token::Prefix { word })
}

fn read_infix(
    text: &[u8],
    at: usize,
    touching: bool,
    letters: &[u8],
    word: Operator,
) -> Result<Lexeme, usize>
    requires { at ≤ length text.now }
    ensures { result ≡ word_at (Token.Operator word) touching letters.now at text.now }
{
    read_word(text, at, touching, letters, Token::Operator { word })
}

// The words that an operand begins with differ in their first letters.
fn read_operand(text: &[u8], at: usize, depth: usize, touching: bool) -> Result<Lexeme, usize>
    requires { (at < length text.now) × (get_or text.now at 0 ≢ space) }
    ensures { Reads text.now at Want.Operand depth touching result }
{
    match text[at] {
        b'(' => one_byte(Token::Open, at),
        b'r' => read_register(text, at, depth, touching),
        b't' => read_constant(text, at, touching, b"true", true),
        b'f' => read_constant(text, at, touching, b"false", false),
        b'n' => read_prefix(text, at, touching, b"not", Prefix::Not),
        b'w' => read_prefix(text, at, touching, b"wprev", Prefix::Wprev),
        b'p' => read_prefix(text, at, touching, b"prev", Prefix::Prev),
        b'o' => read_prefix(text, at, touching, b"once", Prefix::Once),
        b's' => read_prefix(text, at, touching, b"sofar", Prefix::Sofar),
        _ => Err(at),
    }
}

fn read_comparison(text: &[u8], at: usize, depth: usize, touching: bool) -> Result<Lexeme, usize>
    requires { (at < length text.now) × (get_or text.now at 0 ≢ space) }
    ensures { Reads text.now at Want.Comparison depth touching result }
{
    match text[at] {
        b'=' => one_byte(Token::Equal, at),
        b'<' => one_byte(Token::Below, at),
        _ => Err(at),
    }
}

fn read_number(text: &[u8], at: usize, depth: usize, touching: bool) -> Result<Lexeme, usize>
    requires { (at < length text.now) × (get_or text.now at 0 ≢ space) }
    ensures { Reads text.now at Want.Number depth touching result }
{
    let digits = digits_at(text, at);
    let next = digits.next;
    if next == at {
        return Err(at);
    }
    Ok(Lexeme {
        token: Token::Number {
            number: digits.value,
        },
        next,
    })
}

fn read_close(at: usize, depth: usize) -> Result<Lexeme, usize>
    requires { at < 18446744073709551615 }
    ensures { result ≡ close_at depth at }
{
    if depth == 0 {
        return Err(at);
    }
    one_byte(Token::Close, at)
}

// The words between two formulas differ in their first letters too.
fn read_operator(text: &[u8], at: usize, depth: usize, touching: bool) -> Result<Lexeme, usize>
    requires { (at < length text.now) × (get_or text.now at 0 ≢ space) }
    ensures { Reads text.now at Want.Operator depth touching result }
{
    match text[at] {
        b')' => read_close(at, depth),
        b's' => read_infix(text, at, touching, b"since", Operator::Since),
        b'a' => read_infix(text, at, touching, b"and", Operator::And),
        b'o' => read_infix(text, at, touching, b"or", Operator::Or),
        b'i' => read_infix(text, at, touching, b"implies", Operator::Implies),
        _ => Err(at),
    }
}

// The space or token that starts at `at`, if it may stand there; else, as an error, the place that no text goes on at.
pub(crate) fn read_token(text: &[u8], at: usize, s: Between) -> Result<Lexeme, usize>
    requires { at < length text.now }
    ensures { Reads text.now at s.want s.depth s.touching result }
{
    if text[at] == b' ' {
        return one_byte(Token::Space, at);
    }
    let want = s.want;
    match want {
        Want::Operand => read_operand(text, at, s.depth, s.touching),
        Want::Comparison => read_comparison(text, at, s.depth, s.touching),
        Want::Number => read_number(text, at, s.depth, s.touching),
        Want::Operator => read_operator(text, at, s.depth, s.touching),
    }
}

pub(crate) fn wanting(want: Want, depth: usize, touching: bool) -> Between
    ensures { scan_of result ≡ scan_at want depth touching }
{
    Between {
        want,
        depth,
        touching,
    }
}

// After a token that may stand there.
pub(crate) fn after_token(s: Between, token: Token) -> Between
    requires { s.depth < 18446744073709551615 }
    ensures { scan_of result ≡ scan_after s.want s.depth token }
{
    let want = s.want;
    let depth = s.depth;
    match token {
        Token::Space => wanting(want, depth, false),
        Token::Constant { .. } => wanting(Want::Operator, depth, true),
        Token::Prefix { .. } => wanting(Want::Operand, depth, true),
        Token::Operator { .. } => wanting(Want::Operand, depth, true),
        Token::Register { .. } => wanting(Want::Comparison, depth, true),
        Token::Number { .. } => wanting(Want::Operator, depth, false),
        Token::Open => wanting(Want::Operand, depth + 1, false),
        Token::Close => wanting(Want::Operator, depth.saturating_sub(1), false),
        Token::Equal => wanting(Want::Number, depth, false),
        Token::Below => wanting(Want::Number, depth, false),
    }
}

// The text may end here.
fn may_end(s: Between) -> bool
    ensures { result ≡ may_end (scan_of s) }
{
    let want = s.want;
    match want {
        Want::Operand => false,
        Want::Comparison => false,
        Want::Number => false,
        Want::Operator => s.depth == 0,
    }
}

// Question 16: the first byte that no continuation could follow, or the length where the text ends too soon.
pub fn ask_grammar(text: &[u8]) -> Result<(), Refusal>
    ensures { answer_of result ≡ question16 text.now }
{
    let mut s = wanting(Want::Operand, 0, false);
    let mut at = 0;
    // A step goes over a whole token, however long: no index is counted.
    while at < text.len() {
        let read = read_token(text, at, s);
        match read {
            Ok(lexeme) => {
                s = after_token(s, lexeme.token);
                at = lexeme.next;
            }
            Err(place) => {
                return Err(Refusal {
                    question: Question::TextGrammar,
                    place,
                });
            }
        }
    }
    if may_end(s) {
        return Ok(());
    }
    Err(Refusal {
        question: Question::TextGrammar,
        place: at,
    })
}
