// A machine's state, printed.
use crate::printing::{print_named, print_number, print_numbers, say};
use machine::Machine;
use rule::shared::{past_at, work_at};
use rule::stored::Word;
use sets::has;
use std::io;

// The kept bits, or the work bits, of the nodes that have one, rising.
fn print_bits<W: Word>(
    rt: &impl Print,
    name: &[u8],
    rule: &[W],
    work: bool,
    bits: u64,
) -> io::Result<()> {
    say(rt, name)?;
    for k in 0..64 {
        if past_at(rule, k) | (work & work_at(rule, k)) {
            print_number(rt, usize::from(has(bits, k)))?;
        }
    }
    say(rt, b"\n")
}

// A machine's state but for its readiness.
pub fn print_state<W: Word>(rt: &impl Print, m: Machine, rule: &[W]) -> io::Result<()> {
    print_named(rt, b"line", m.line as u64)?;
    print_numbers(rt, b"registers", &m.registers)?;
    print_bits(rt, b"kept", rule, false, m.kept)?;
    print_bits(rt, b"work", rule, true, m.work)?;
    print_named(rt, b"presentations", m.presentations as u64)?;
    print_named(rt, b"reads", m.reads as u64)
}
