// The words that wait for an operand, in an array.
ghost use Rattle.std.specs.Prelude.{◌≡◌, ◌∷◌, length, ◌+◌, ◌≤◌, ◌<◌};
ghost use Rattle.grammar.specs.Reading.{level_of, rank};
ghost use Rattle.text.specs.Stacks.{table_length, stack_length, waiting_of, entry_of, stack_of, ends_top, Fitting, Unwinds};

use crate::table::put_end;
use crate::token::WaitingWord;

// A word, the node to its left, and how many brackets are open.
#[derive(Clone, Copy)]
pub struct Pending {
    pub word: WaitingWord,
    pub left: usize,
    pub depth: usize,
}

// How many words wait, and how many nodes are in the table.
#[derive(Clone, Copy)]
pub struct Height {
    pub top: usize,
    pub count: usize,
}

// How tight a word binds what comes: a prefix word and since alike.
fn level_of(word: WaitingWord) -> usize
    ensures { result ≡ level_of (waiting_of word) }
{
    match word {
        WaitingWord::And => 3,
        WaitingWord::Or => 2,
        WaitingWord::Implies => 0,
        _ => 4,
    }
}

pub(crate) fn push(stack: &mut [Pending; 64], top: usize, x: Pending) -> usize
    requires { (top < table_length) × (length stack.old ≡ stack_length) }
    ensures { (result ≡ top + 1) × (length stack.new ≡ stack_length) × (stack_of stack.new result ≡ entry_of x ∷ stack_of stack.old top) }
{
    stack[top] = x;
    top + 1
}

// Whether a word with this level, at a place with so many open brackets, ends the word on top.
fn ends_top(stack: &[Pending; 64], top: usize, depth: usize, level: usize) -> bool
    requires { (top ≤ table_length) × (level ≤ 4) }
    ensures { result ≡ ends_top (rank depth level) (stack_of stack.now top) }
{
    if top == 0 {
        return false;
    }
    let last = stack[top - 1];
    let deep = last.depth;
    if depth < deep {
        return true;
    }
    if deep < depth {
        return false;
    }
    level <= level_of(last.word)
}

// Ends the words that bind as tight as this, or tighter.
pub(crate) fn unwind(
    stack: &[Pending; 64],
    top: usize,
    table: &mut [u64; 64],
    count: usize,
    depth: usize,
    level: usize,
) -> Height
    requires { Fitting stack.now top table.old count × (level ≤ 4) }
    ensures { Unwinds stack.now top table.old count (rank depth level) result.top table.new result.count }
{
    let mut t = top;
    let mut n = count;
    // A stack is popped for as long as a test of its top holds: no index is counted.
    while ends_top(stack, t, depth, level) {
        t -= 1;
        let last = stack[t];
        n = put_end(table, n, last.word, last.left);
    }
    Height { top: t, count: n }
}
