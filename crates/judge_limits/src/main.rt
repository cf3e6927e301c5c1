// Judges the file of limits on standard input. What it prints is the answer of `picture::judge_file`.
#![tactic(auto)]

use input::read_full;
use std::io;

// The largest file has 34 words and 1,000 indices of 64 bytes; later bytes are ignored.
fn main(rt: HostRuntime) -> io::Result<()> {
    let mut bytes = [0u8; 65536];
    let n = read_full(&mut rt.stdin(), &mut bytes)?;
    let mut text = [0u8; 74013];
    let length = picture::judge_file(&bytes[..n], &mut text);
    rt.write_all(&text[..length])
}
