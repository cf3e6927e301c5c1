// Requests of kinds 21 to 24: a rule and a script are moved to the second form, and back, into a lent output. It has ones everywhere.
use crate::digests::print_lent;
use requests::printing::print_counted;
use std::io;

pub(crate) fn answer_up(
    rt: &impl Print,
    kind: u32,
    rule: &[u32],
    script: &[u32],
    length: usize,
) -> io::Result<()> {
    if 16384 < length {
        return Ok(());
    }
    let mut out = [18446744073709551615u64; 16384];
    let lent = &mut out[..length];
    let moved = if kind == 21 {
        mover::rule_up(rule, lent)
    } else {
        mover::script_up(rule, script, lent)
    };
    print_counted(rt, b"moved", moved)?;
    print_lent(rt, lent)
}

pub(crate) fn answer_back(
    rt: &impl Print,
    kind: u32,
    rule: &[u64],
    script: &[u64],
    length: usize,
) -> io::Result<()> {
    if 16384 < length {
        return Ok(());
    }
    let mut out = [4294967295u32; 16384];
    let lent = &mut out[..length];
    let moved = if kind == 22 {
        mover::rule_back(rule, lent)
    } else {
        mover::script_back(rule, script, lent)
    };
    print_counted(rt, b"moved", moved)?;
    print_lent(rt, lent)
}
