// Rules typed as text: questions 16, 17, 18 and 13, and the nodes of the opened formula, in either stored form.
#![tactic(auto)]

ghost use Rattle.std.specs.Prelude.{◌≡◌, ◌≤◌, length};
ghost use Rattle.grammar.specs.Texting.{texting, count_of, output_of};
ghost use Rattle.rule.specs.Answers.{counted_of};
ghost use Rattle.rule.specs.Nodes.{form_by};
ghost use Rattle.text.specs.Stacks.{table_length};
ghost use Rattle.text.specs.Answers.{Fills, Tells};

use crate::output::Output;
use crate::range::ask_range;
use crate::scan::ask_grammar;
use crate::write::write_nodes;
use rule::answer::{Question, Refusal};
use rule::stored::most_nodes;

pub mod output;
mod range;
pub mod scan;
pub mod stack;
mod table;
pub mod token;
pub mod write;

// The nodes of a text, in a table of the second form, which the words of either form come from. `allowed` is how many nodes that form
// allows, `lent` how many words the output has: they are asked about here, so that an output is written where all have a yes.
fn fill_table(
    text: &[u8],
    allowed: usize,
    lent: usize,
    table: &mut [u64; 64],
) -> Result<usize, Refusal>
    requires { (allowed ≤ table_length) × (length table.old ≡ table_length) }
    ensures { Fills text.now allowed lent table.new result }
{
    ask_grammar(text)?;
    ask_range(text)?;
    let Some(n) = write_nodes(text, allowed, table) else {
        return Err(Refusal {
            question: Question::TextNodeCount,
            place: 0,
        });
    };
    if lent < n {
        return Err(Refusal {
            question: Question::OutputWords,
            place: 0,
        });
    }
    Ok(n)
}

// The table of a rule typed as text, at the start of the output; later words stay, and on refusal all of them.
pub fn read_text<W: Output>(text: &[u8], out: &mut [W]) -> Result<usize, Refusal>
    ensures answer { counted_of result ≡ count_of (texting (form_by W.IS_WIDE) (length (W.numbers out.old)) text.now) }
    ensures output { W.numbers out.new ≡ output_of (texting (form_by W.IS_WIDE) (length (W.numbers out.old)) text.now) (W.numbers out.old) }
    ensures tells { Tells (form_by W.IS_WIDE) text.now (counted_of result) (W.numbers out.new) }
{
    let mut table = [0u64; 64];
    let n = fill_table(text, most_nodes::<W>(), out.len(), &mut table)?;
    W::put_rule(&table[..n], out);
    Ok(n)
}
