// Nodes put one after the other into a table of 64. `n` are there; each function hands back how many are then.
ghost use Rattle.std.specs.Prelude.{◌≡◌, [], ◌∷◌, ◌++◌, ◌+◌, ◌*◌, ◌≤◌, ◌<◌, length, take};
ghost use Rattle.spec.specs.Rule.{false_node, test_node};
ghost use Rattle.rule.specs.Nodes.{form_in, node_read, NodeSmall};
ghost use Rattle.grammar.specs.Typed.{prev, sofar, and_word, test_of};
ghost use Rattle.grammar.specs.Grammar.{constant_word, word};
ghost use Rattle.grammar.specs.Reading.{awaiting, with_left};
ghost use Rattle.text.specs.Building.{put, put_implies, put_since, put_weak, put_not, put_true, put_constant, finishes, finish_cost, token_cost};
ghost use Rattle.text.specs.Stacks.{table_length, waiting_of, comparison_of, Holds};

use crate::token::WaitingWord;
use rule::node::{Node, node_word};

// One more node.
fn put_node(table: &mut [u64; 64], n: usize, x: Node) -> usize
    requires { (n < table_length) × (length table.old ≡ table_length) × NodeSmall (node_read x) }
    ensures { Holds table.new result (put form_in (node_read x) (take n table.old)) }
{
    table[n] = node_word(x);
    n + 1
}

fn put_false(table: &mut [u64; 64], n: usize) -> usize
    requires { (n < table_length) × (length table.old ≡ table_length) }
    ensures { Holds table.new result (put form_in false_node (take n table.old)) }
{
    put_node(table, n, Node::False)
}

pub(crate) fn put_test(
    table: &mut [u64; 64],
    n: usize,
    below: bool,
    register: u32,
    constant: u32,
) -> usize
    requires { (n < table_length) × (length table.old ≡ table_length) × (register ≤ 15) × (constant ≤ 16383) }
    ensures { Holds table.new result (put form_in (test_node (test_of (comparison_of below) register constant)) (take n table.old)) }
{
    let r = register as usize;
    let c = constant as u16;
    if below {
        put_node(
            table,
            n,
            Node::Below {
                register: r,
                constant: c,
            },
        )
    } else {
        put_node(
            table,
            n,
            Node::Equal {
                register: r,
                constant: c,
            },
        )
    }
}

fn put_implies(table: &mut [u64; 64], n: usize, left: usize) -> usize
    requires { (n < table_length) × (length table.old ≡ table_length) × (left < table_length) }
    ensures { Holds table.new result (put_implies form_in left (take n table.old)) }
{
    let right = n.saturating_sub(1);
    put_node(table, n, Node::Implies { left, right })
}

fn put_since(table: &mut [u64; 64], n: usize, left: usize) -> usize
    requires { (n < table_length) × (length table.old ≡ table_length) × (left < table_length) }
    ensures { Holds table.new result (put_since form_in left (take n table.old)) }
{
    let right = n.saturating_sub(1);
    put_node(table, n, Node::Since { left, right })
}

fn put_weak(table: &mut [u64; 64], n: usize) -> usize
    requires { (n < table_length) × (length table.old ≡ table_length) }
    ensures { Holds table.new result (put_weak form_in (take n table.old)) }
{
    put_node(
        table,
        n,
        Node::WeakPrevious {
            left: n.saturating_sub(1),
        },
    )
}

// Not of the last node.
pub(crate) fn put_not(table: &mut [u64; 64], n: usize) -> usize
    requires { (n + 2 ≤ table_length) × (length table.old ≡ table_length) }
    ensures { Holds table.new result (put_not form_in (take n table.old)) }
{
    let a = put_false(table, n);
    put_implies(table, a, n.saturating_sub(1))
}

pub(crate) fn put_true(table: &mut [u64; 64], n: usize) -> usize
    requires { (n + 3 ≤ table_length) × (length table.old ≡ table_length) }
    ensures { Holds table.new result (put_true form_in (take n table.old)) }
{
    let a = put_false(table, n);
    put_not(table, a)
}

pub(crate) fn put_constant(table: &mut [u64; 64], n: usize, value: bool) -> usize
    requires { (n + token_cost (word (constant_word value)) ≤ table_length) × (length table.old ≡ table_length) }
    ensures { Holds table.new result (put_constant form_in value (take n table.old)) }
{
    if value {
        put_true(table, n)
    } else {
        put_false(table, n)
    }
}

fn put_prev(table: &mut [u64; 64], n: usize) -> usize
    requires { (n + 5 ≤ table_length) × (length table.old ≡ table_length) }
    ensures { Holds table.new result (finishes form_in (awaiting prev) 0 (take n table.old)) }
{
    let a = put_not(table, n);
    let b = put_weak(table, a);
    put_not(table, b)
}

fn put_sofar(table: &mut [u64; 64], n: usize, left: usize) -> usize
    requires { (n + 5 ≤ table_length) × (length table.old ≡ table_length) × (left < table_length) }
    ensures { Holds table.new result (finishes form_in (awaiting sofar) left (take n table.old)) }
{
    let a = put_not(table, n);
    let b = put_since(table, a, left);
    put_not(table, b)
}

fn put_and(table: &mut [u64; 64], n: usize, left: usize) -> usize
    requires { (n + 5 ≤ table_length) × (length table.old ≡ table_length) × (left < table_length) }
    ensures { Holds table.new result (finishes form_in (with_left and_word) left (take n table.old)) }
{
    let a = put_not(table, n);
    let b = put_implies(table, a, left);
    put_not(table, b)
}

// What a word puts whose operand has ended; `left` is the node to its left.
pub(crate) fn put_end(table: &mut [u64; 64], n: usize, word: WaitingWord, left: usize) -> usize
    requires { (n + finish_cost (waiting_of word) ≤ table_length) × (length table.old ≡ table_length) × (left < table_length) }
    ensures { Holds table.new result (finishes form_in (waiting_of word) left (take n table.old)) }
{
    match word {
        WaitingWord::Not => put_not(table, n),
        WaitingWord::Wprev => put_weak(table, n),
        WaitingWord::Prev => put_prev(table, n),
        WaitingWord::Once => put_since(table, n, left),
        WaitingWord::Sofar => put_sofar(table, n, left),
        WaitingWord::Since => put_since(table, n, left),
        WaitingWord::And => put_and(table, n, left),
        WaitingWord::Or => put_implies(table, n, left),
        WaitingWord::Implies => put_implies(table, n, left),
    }
}
