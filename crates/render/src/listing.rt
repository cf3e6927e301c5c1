// The listing of an input.
ghost use Rattle.std.specs.Prelude.{◌≡◌, ◌++◌, length, drop};
ghost use Rattle.render.specs.Listing.{woven_text, listing_of};

use crate::text::put_lines;
use print::add_refused;
use weaver::weave;
use words::counted::load_counted;

// The rule and the bare script woven, as text at the start of the output.
fn list_woven(rule: &[u32], bare: &[u32], out: &mut [u8; 32768]) -> usize
    ensures { (result ≡ length (woven_text rule.now bare.now))
        × (out.new ≡ woven_text rule.now bare.now ++ drop result out.old) }
{
    let mut words = [0u32; 8192];
    match weave(rule, bare, &mut words) {
        Err(no) => add_refused(u32::from(no.question), no.place, 0, out),
        Ok(n) => put_lines(&words, n, out),
    }
}

// The text for the bytes of an input, at the start of the output; later bytes stay. Hands back its length.
pub fn list(bytes: &[u8], out: &mut [u8; 32768]) -> usize
    ensures { (result ≡ length (listing_of bytes.now))
        × (out.new ≡ listing_of bytes.now ++ drop result out.old) }
{
    let mut rule = [0u32; 32];
    let nodes = load_counted(bytes, 0, &mut rule);
    let mut bare = [0u32; 1024];
    let lines = load_counted(bytes, nodes + 1, &mut bare);
    list_woven(&rule[..nodes], &bare[..lines], out)
}
