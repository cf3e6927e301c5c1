// How answers are printed: a line each, words and numbers. No contract can say what is written, so these functions promise only that they
// end, and they are the program's own. Each hands on the error of a write that fails.
use rule::answer::Refusal;
use std::fmt::Display;
use std::io;

pub fn say(rt: &impl Print, text: &[u8]) -> io::Result<()> {
    rt.write_all(text)
}

pub fn print_number(rt: &impl Print, n: usize) -> io::Result<()> {
    print!(rt; " {n}")
}

// A name and a number, on one line.
pub fn print_named(rt: &impl Print, name: &[u8], n: u64) -> io::Result<()> {
    say(rt, name)?;
    println!(rt; " {n}")
}

pub fn print_refused(rt: &impl Print, r: Refusal) -> io::Result<()> {
    let question = u32::from(r.question);
    let place = r.place;
    println!(rt; "refused {question} {place}")
}

pub fn print_answer(rt: &impl Print, a: Result<(), Refusal>) -> io::Result<()> {
    match a {
        Ok(()) => say(rt, b"passed\n"),
        Err(r) => print_refused(rt, r),
    }
}

// A refusal, or how many of them there are.
pub fn print_counted(rt: &impl Print, name: &[u8], c: Result<usize, Refusal>) -> io::Result<()> {
    match c {
        Ok(n) => print_named(rt, name, n as u64),
        Err(r) => print_refused(rt, r),
    }
}

// A name and numbers of any size, on one line.
pub fn print_numbers<T: Display>(rt: &impl Print, name: &[u8], numbers: &[T]) -> io::Result<()> {
    say(rt, name)?;
    for n in numbers {
        print!(rt; " {n}")?;
    }
    say(rt, b"\n")
}
