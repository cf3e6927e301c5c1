// A text's nodes, put into a table while its tokens are read.
ghost use Rattle.std.specs.Prelude.{◌≡◌, suc, ◌+◌, ◌≤◌, length, take};
ghost use Rattle.spec.specs.Questions.{passed};
ghost use Rattle.rule.specs.Nodes.{form_in};
ghost use Rattle.grammar.specs.Grammar as grammar;
ghost use Rattle.grammar.specs.Grammar.{prefix_word, operator_word, strength};
ghost use Rattle.grammar.specs.Scan.{question16};
ghost use Rattle.grammar.specs.Texting.{question17};
ghost use Rattle.grammar.specs.Reading.{awaiting, with_left, rank, unwound, waits};
ghost use Rattle.text.specs.Tokens.{prefix_of, operator_of, tokens_in};
ghost use Rattle.text.specs.Building.{words, begins, begin_cost, finish_cost, token_cost, cost};
ghost use Rattle.text.specs.Stacks.{table_length, waiting_of, stack_of, built_of, owed, Holds, Fitting};
ghost use Rattle.text.specs.Progress.{Builds, progress_at, progress_with, Ready, Takes, TableOf};

use crate::scan::{Want, after_token, read_token, wanting};
use crate::stack::{Height, Pending, push, unwind};
use crate::table::{put_constant, put_not, put_test, put_true};
use crate::token::{Operator, Prefix, Token, WaitingWord};

// How many words wait and nodes are there, and the register and the sign of the atom that is being read.
#[derive(Clone, Copy)]
pub struct Progress {
    pub height: Height,
    pub register: u32,
    pub below: bool,
}

fn prefix_word(word: Prefix) -> WaitingWord
    ensures { waiting_of result ≡ awaiting (prefix_of word) }
{
    match word {
        Prefix::Not => WaitingWord::Not,
        Prefix::Wprev => WaitingWord::Wprev,
        Prefix::Prev => WaitingWord::Prev,
        Prefix::Once => WaitingWord::Once,
        Prefix::Sofar => WaitingWord::Sofar,
    }
}

fn operator_word(word: Operator) -> WaitingWord
    ensures { waiting_of result ≡ with_left (operator_of word) }
{
    match word {
        Operator::Since => WaitingWord::Since,
        Operator::And => WaitingWord::And,
        Operator::Or => WaitingWord::Or,
        Operator::Implies => WaitingWord::Implies,
    }
}

// It ends the words that bind tighter than this, or as tight and group to the left.
fn operator_level(word: Operator) -> usize
    ensures { result ≡ suc (strength (operator_of word)) }
{
    match word {
        Operator::Since => 4,
        Operator::And => 3,
        Operator::Or => 2,
        Operator::Implies => 1,
    }
}

// What a word puts where it is read: true comes before the operand of once and sofar, and or negates its left operand.
fn put_begin(table: &mut [u64; 64], n: usize, word: WaitingWord) -> usize
    requires { (n + begin_cost (waiting_of word) ≤ table_length) × (length table.old ≡ table_length) }
    ensures { Holds table.new result (begins form_in (waiting_of word) (take n table.old)) }
{
    match word {
        WaitingWord::Once => put_true(table, n),
        WaitingWord::Sofar => put_true(table, n),
        WaitingWord::Or => put_not(table, n),
        _ => n,
    }
}

// A word waits, with the last node to its left.
fn wait(
    stack: &mut [Pending; 64],
    top: usize,
    table: &mut [u64; 64],
    count: usize,
    word: WaitingWord,
    depth: usize,
) -> Height
    requires { Fitting stack.old top table.old count × (count + owed (stack_of stack.old top) + (begin_cost (waiting_of word) + finish_cost (waiting_of word)) ≤ table_length) }
    ensures { Builds stack.new result.top table.new result.count (waits (words form_in) depth (waiting_of word) (built_of stack.old top table.old count)) }
{
    let n = put_begin(table, count, word);
    let left = n.saturating_sub(1);
    let t = push(stack, top, Pending { word, left, depth });
    Height { top: t, count: n }
}

// A word between two formulas: what binds its left operand tighter ends.
fn join(
    stack: &mut [Pending; 64],
    top: usize,
    table: &mut [u64; 64],
    count: usize,
    word: WaitingWord,
    depth: usize,
    level: usize,
) -> Height
    requires { Fitting stack.old top table.old count × (count + owed (stack_of stack.old top) + (begin_cost (waiting_of word) + finish_cost (waiting_of word)) ≤ table_length) × (level ≤ 4) }
    ensures { Builds stack.new result.top table.new result.count (waits (words form_in) depth (waiting_of word) (unwound (words form_in) (rank depth level) (stack_of stack.old top) (take count table.old))) }
{
    let ended = unwind(stack, top, table, count, depth, level);
    wait(stack, ended.top, table, ended.count, word, depth)
}

fn prefix_nodes(word: Prefix) -> usize
    ensures { result ≡ token_cost (grammar.word (prefix_word (prefix_of word))) }
{
    match word {
        Prefix::Not => 2,
        Prefix::Wprev => 1,
        Prefix::Prev => 5,
        Prefix::Once => 4,
        Prefix::Sofar => 8,
    }
}

fn operator_nodes(word: Operator) -> usize
    ensures { result ≡ token_cost (grammar.word (operator_word (operator_of word))) }
{
    match word {
        Operator::Since => 1,
        Operator::And => 5,
        Operator::Or => 3,
        Operator::Implies => 1,
    }
}

// How many nodes a token stands for; an atom's one node counts with its number.
fn nodes_for(token: Token) -> usize
    ensures { result ≡ cost (tokens_in token) }
{
    match token {
        Token::Space => 0,
        Token::Constant { value } => if value { 3 } else { 1 },
        Token::Prefix { word } => prefix_nodes(word),
        Token::Operator { word } => operator_nodes(word),
        Token::Register { .. } => 0,
        Token::Number { .. } => 1,
        Token::Open => 0,
        Token::Close => 0,
        Token::Equal => 0,
        Token::Below => 0,
    }
}

fn at_height(progress: Progress, top: usize, count: usize) -> Progress
    ensures { result ≡ progress_at progress top count }
{
    Progress {
        height: Height { top, count },
        ..progress
    }
}

fn with_atom(progress: Progress, register: u32, below: bool) -> Progress
    ensures { result ≡ progress_with progress register below }
{
    Progress {
        register,
        below,
        ..progress
    }
}

// What a token puts and leaves waiting.
fn take_token(
    token: Token,
    progress: Progress,
    depth: usize,
    stack: &mut [Pending; 64],
    table: &mut [u64; 64],
) -> Progress
    requires { Ready stack.old table.old progress token }
    ensures { Takes stack.old table.old progress depth token stack.new table.new result }
{
    let height = progress.height;
    let top = height.top;
    let count = height.count;
    match token {
        Token::Space => progress,
        Token::Constant { value } => at_height(progress, top, put_constant(table, count, value)),
        Token::Prefix { word } => {
            let h = wait(stack, top, table, count, prefix_word(word), depth);
            at_height(progress, h.top, h.count)
        }
        Token::Operator { word } => {
            let h = join(
                stack,
                top,
                table,
                count,
                operator_word(word),
                depth,
                operator_level(word),
            );
            at_height(progress, h.top, h.count)
        }
        Token::Register { number } => with_atom(progress, number, progress.below),
        Token::Number { number } => at_height(
            progress,
            top,
            put_test(table, count, progress.below, progress.register, number),
        ),
        Token::Open => progress,
        Token::Close => progress,
        Token::Equal => with_atom(progress, progress.register, false),
        Token::Below => with_atom(progress, progress.register, true),
    }
}

// The nodes of a text that questions 16 and 17 have let pass, at the start of the table. Hands back how many there are; where there are
// more than allowed, nothing, and the table holds nothing of use.
pub(crate) fn write_nodes(text: &[u8], allowed: usize, table: &mut [u64; 64]) -> Option<usize>
    requires { (question16 text.now ≡ passed tt) × (question17 text.now ≡ passed tt) × (allowed ≤ table_length) × (length table.old ≡ table_length) }
    ensures { TableOf text.now allowed table.new result }
{
    let mut stack = [Pending {
        word: WaitingWord::Not,
        left: 0,
        depth: 0,
    }; 64];
    let mut progress = Progress {
        height: Height { top: 0, count: 0 },
        register: 0,
        below: false,
    };
    let mut s = wanting(Want::Operand, 0, false);
    let mut total: usize = 0;
    let mut at = 0;
    // A step goes over a whole token, however long: no index is counted.
    while at < text.len() {
        let read = read_token(text, at, s);
        // Question 16 has been asked: there is a token.
        let Ok(lexeme) = read else {
            return None;
        };
        let token = lexeme.token;
        total += nodes_for(token);
        if allowed < total {
            return None;
        }
        progress = take_token(token, progress, s.depth, &mut stack, table);
        s = after_token(s, token);
        at = lexeme.next;
    }
    let height = progress.height;
    let ended = unwind(&stack, height.top, table, height.count, 0, 0);
    Some(ended.count)
}
