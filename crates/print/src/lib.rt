// Bytes and numbers, written one after another into a lent output.
#![tactic(auto)]

ghost use Rattle.std.specs.Prelude.{◌≡◌, ◌+◌, ◌≤◌, ◌<◌, length};
ghost use Rattle.print.specs.Decimal.{digit, decimal, number, refused_text};
ghost use Rattle.print.specs.Written.{Added, Filled};

// These bytes at `at`.
pub fn add_bytes(text: &[u8], at: usize, out: &mut [u8]) -> usize
    requires { at + length text.now ≤ length out.old }
    ensures { Added text.now at result out.old out.new }
{
    let end = at + text.len();
    out[at..end].copy_from_slice(text);
    end
}

// The digit of a number below ten.
fn digit_of(n: usize) -> u8
    requires { n < 10 }
    ensures { result ≡ digit n }
{
    48 + n as u8
}

// The digits of n at `at`. Hands back where they end.
pub fn add_decimal(n: usize, at: usize, out: &mut [u8]) -> usize
    requires { at + length (decimal n) ≤ length out.old }
    ensures { Added (decimal n) at result out.old out.new }
{
    if n < 10 {
        out[at] = digit_of(n);
        return at + 1;
    }
    let k = add_decimal(n / 10, at, out);
    out[k] = digit_of(n % 10);
    k + 1
}

// The same with a byte that ends it.
pub fn add_number(n: usize, end: u8, at: usize, out: &mut [u8]) -> usize
    requires { at + length (number n end) ≤ length out.old }
    ensures { Added (number n end) at result out.old out.new }
{
    let k = add_decimal(n, at, out);
    out[k] = end;
    k + 1
}

// "refused", number, place.
pub fn add_refused(question: u32, place: usize, at: usize, out: &mut [u8]) -> usize
    requires { at + 50 ≤ length out.old }
    ensures { Filled 50 (refused_text question place) at result out.old out.new }
{
    let number_at = add_bytes(b"refused ", at, out);
    let place_at = add_number(question as usize, b' ', number_at, out);
    add_number(place, b'\n', place_at, out)
}
