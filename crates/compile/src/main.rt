// Compiles the rule typed as text on standard input. What it prints is the answer of `report::compile`.
#![tactic(auto)]

use input::read_full;
use std::io;

// Of a longer input the first 65,536 bytes are read: more than a text may have.
fn main(rt: HostRuntime) -> io::Result<()> {
    let mut bytes = [0u8; 65536];
    let n = read_full(&mut rt.stdin(), &mut bytes)?;
    let mut text = [0u8; 512];
    let length = report::compile(&bytes[..n], &mut text);
    rt.write_all(&text[..length])
}
