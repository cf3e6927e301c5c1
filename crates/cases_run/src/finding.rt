// Requests of kinds 10 and 20: facts are found for instructions, into a lent output of the old form or the second.
use crate::digests::print_lent;
use requests::printing::{print_answer, print_counted, say};
use rule::stored::Word;
use std::io;

// The answer, the lent output afterwards, and what the checker says to the lines in it where there is room for them.
pub(crate) fn answer_finding<W: Word>(
    rt: &impl Print,
    rule: &[W],
    instructions: &[u32],
    out: &mut [W],
) -> io::Result<()> {
    print_counted(rt, b"facts", finder::find_facts(rule, instructions, out))?;
    print_lent(rt, out)?;
    if instructions.len() <= out.len() / 8 {
        say(rt, b"script ")?;
        print_answer(
            rt,
            checker::check_script(rule, &out[..8 * instructions.len()]),
        )?;
    }
    Ok(())
}
