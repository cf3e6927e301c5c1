// Where woven lines go: how many lines a node's decision and a block take, and where each bare line starts.
#![tactic(auto)]

ghost use Rattle.std.specs.Prelude.{◌≡◌, cond, ◌+◌, ◌*◌, ◌≤◌, ◌<◌, length, get_or};
ghost use Rattle.spec.specs.Rule.{Table, node_at, is_past};
ghost use Rattle.spec.specs.Script.{instruction_read, is_present, word_for, bare_code, most_lines};
ghost use Rattle.spec.specs.Weaver.{size_from, work_size, block_size, start_of, woven_count, retarget};
ghost use Rattle.sets.specs.Sets.{set_of};
ghost use Rattle.rule.specs.Nodes.{table_in, RulePasses, node_read, NodeSmall};
ghost use Rattle.layout.specs.Layout.{Shared, Sized, Weavable, Started};

use rule::node::{Node, read_node};
use script::instruction::{decode, encode};
use script::line::{has_target, is_present};
use sets::has;

// How many lines deciding a node takes, by what it is, from the sizes for lower nodes.
pub fn node_size(sizes: &[u16], x: Node) -> u16
    requires { (64 ≤ length sizes.now) × NodeSmall (node_read x) × (size_from (λ j. get_or sizes.now j 0) (node_read x) 0 < 65536) }
    ensures { result ≡ size_from (λ j. get_or sizes.now j 0) (node_read x) 0 }
{
    match x {
        Node::False => 1,
        Node::Implies { left, right } => sizes[left] + sizes[right],
        _ => 2,
    }
}

// How many a mention of it takes, where it is node k and `shared` has the shared nodes: of one of those, 11 and a go.
fn mention_size(sizes: &[u16], shared: u64, k: usize, x: Node) -> u16
    requires { (64 ≤ length sizes.now) × NodeSmall (node_read x) × (size_from (λ j. get_or sizes.now j 0) (node_read x) 0 < 65536) }
    ensures { result ≡ cond (set_of shared k) 2 (size_from (λ j. get_or sizes.now j 0) (node_read x) 0) }
{
    if has(shared, k) {
        2
    } else {
        node_size(sizes, x)
    }
}

fn fill_sizes(rule: &[u64], shared: u64, sizes: &mut [u16])
    requires { RulePasses rule.now × Shared rule.now shared × (64 ≤ length sizes.old) }
    ensures { Sized rule.now sizes.new }
{
    for (k, &word) in rule.iter().enumerate() {
        sizes[k] = mention_size(sizes, shared, k, read_node(word));
    }
}

// How many lines deciding a mention of each node of an accepted rule takes.
pub fn measure_nodes(rule: &[u64], shared: u64, sizes: &mut [u16; 64])
    requires { RulePasses rule.now × Shared rule.now shared }
    ensures { Sized rule.now sizes.new }
{
    fill_sizes(rule, shared, sizes);
}

// How many lines of a block node k accounts for: its code and, if it is a past node, its 12.
fn node_lines(rule: &[u64], sizes: &[u16; 64], shared: u64, k: usize) -> usize
    requires { Sized rule.now sizes.now × Shared rule.now shared × (k < length rule.now) }
    ensures { result ≡ work_size (table_in rule.now) k + cond (is_past (node_at (table_in rule.now) k)) 1 0 }
{
    let x = read_node(rule[k]);
    match x {
        Node::Since { left, right } => sizes[right] as usize + sizes[left] as usize + 6,
        Node::WeakPrevious { left } => sizes[left] as usize + 4,
        _ => {
            if has(shared, k) {
                node_size(sizes, x) as usize + 3
            } else {
                0
            }
        }
    }
}

// How many lines a block has.
pub fn block_size(rule: &[u64], sizes: &[u16; 64], shared: u64) -> usize
    requires { Sized rule.now sizes.now × Shared rule.now shared }
    ensures { result ≡ block_size (table_in rule.now) }
{
    let mut lines: usize = 0;
    for k in 0..rule.len() {
        lines += node_lines(rule, sizes, shared, k);
    }
    lines + sizes[rule.len() - 1] as usize + 1
}

// How many lines a bare line with this word becomes; a block has `size` lines.
fn line_size(word: u32, size: usize) -> usize
    ensures { result ≡ cond (is_present (instruction_read word)) size 1 }
{
    if is_present(decode(word)) { size } else { 1 }
}

// Where bare line `to` starts, from where line `from` does; a block has `size` lines.
fn start_after(bare: &[u32], size: usize, from: usize, start: usize, to: usize) -> usize
    requires { (from ≤ to) × (to ≤ length bare.now) × (length bare.now ≤ most_lines) × (size ≤ most_lines) × (start ≤ most_lines) }
    ensures { (t : Table) → size ≡ block_size t → start ≡ start_of t (bare_code bare.now) from → result ≡ start_of t (bare_code bare.now) to }
{
    let mut n = start;
    for &word in &bare[from..to] {
        n += line_size(word, size);
    }
    n
}

// How many lines a bare script weaves to.
pub fn count_lines(bare: &[u32], size: usize) -> usize
    requires { (length bare.now ≤ most_lines) × (size ≤ most_lines) }
    ensures { (t : Table) → size ≡ block_size t → result ≡ woven_count t (bare_code bare.now) }
{
    start_after(bare, size, 0, 0, bare.len())
}

fn fill_starts(rule: &[u64], bare: &[u32], size: usize, starts: &mut [u16])
    requires { Weavable rule.now bare.now × (size ≡ block_size (table_in rule.now)) × (64 ≤ length starts.old) }
    ensures { Started rule.now bare.now starts.new size }
{
    let mut n = 0;
    for (l, &word) in bare.iter().enumerate() {
        let marked = l % 16 == 0;
        if marked {
            starts[l / 16] = n as u16;
        }
        n += line_size(word, size);
    }
}

// Where every 16th bare line starts. The rule is not looked at: it says what a block is.
pub fn mark_starts(rule: &[u64], bare: &[u32], size: usize, starts: &mut [u16; 64])
    requires { Weavable rule.now bare.now × (size ≡ block_size (table_in rule.now)) }
    ensures { Started rule.now bare.now starts.new size }
{
    fill_starts(rule, bare, size, starts);
}

// Where bare line l starts.
pub fn start_of(rule: &[u64], bare: &[u32], starts: &[u16; 64], size: usize, l: usize) -> usize
    requires { Started rule.now bare.now starts.now size × (l < length bare.now) }
    ensures { result ≡ start_of (table_in rule.now) (bare_code bare.now) l }
{
    let j = l / 16;
    start_after(bare, size, 16 * j, starts[j] as usize, l)
}

// The word of bare line l, a line other than present, with its target moved to where that line starts.
pub fn moved_word(rule: &[u64], bare: &[u32], starts: &[u16; 64], size: usize, l: usize) -> u32
    requires { Started rule.now bare.now starts.now size × (l < length bare.now) }
    ensures { result ≡ word_for (retarget (start_of (table_in rule.now) (bare_code bare.now)) (instruction_read (get_or bare.now l 0))) }
{
    let x = decode(bare[l]);
    if has_target(x) {
        encode(
            x.opcode,
            x.r,
            x.c,
            start_of(rule, bare, starts, size, x.target),
        )
    } else {
        bare[l]
    }
}
