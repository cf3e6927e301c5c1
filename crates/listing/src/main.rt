// Lists the woven script of the rule and the bare script on standard input. What it prints is the answer of `render::listing::list`.
#![tactic(auto)]

use input::read_full;
use std::io;

// The largest input has 1 + 32 + 1 + 1,024 words; later bytes are ignored.
fn main(rt: HostRuntime) -> io::Result<()> {
    let mut bytes = [0u8; 4232];
    let n = read_full(&mut rt.stdin(), &mut bytes)?;
    let mut text = [0u8; 32768];
    let length = render::listing::list(&bytes[..n], &mut text);
    rt.write_all(&text[..length])
}
