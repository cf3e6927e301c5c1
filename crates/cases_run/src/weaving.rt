// Requests of kinds 5 and 15: a bare script is woven into a lent output, of the old form or the second.
use crate::digests::print_lent;
use requests::printing::{print_answer, print_counted, say};
use rule::stored::Word;
use std::io;

// The answer of weaving, and the lent output afterwards. What a bare script is asked comes first in the second form: no request of it is about
// that alone.
pub(crate) fn answer_weaving<W: Word>(
    rt: &impl Print,
    rule: &[W],
    bare: &[u32],
    out: &mut [W],
) -> io::Result<()> {
    if W::IS_WIDE {
        say(rt, b"bare ")?;
        print_answer(rt, script::check_bare(rule, bare))?;
    }
    print_counted(rt, b"lines", weaver::weave(rule, bare, out))?;
    print_lent(rt, out)
}
