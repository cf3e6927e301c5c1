// The limits in the bytes of a file.
ghost use Rattle.std.specs.Prelude.{◌≡◌, ◌+◌, ◌*◌, ◌≤◌, ◌<◌, length};
ghost use Rattle.print.specs.Written.{Added};
ghost use Rattle.picture.specs.File.{is_whole, number_at, limits_from};

use words::word_at;

// Whether there are no more indices than a file may have here, and the bytes of each are there. The index count is word `at`.
pub(crate) fn is_whole(bytes: &[u8], at: usize) -> bool
    requires { at ≤ 100 }
    ensures { result ≡ is_whole bytes.now at }
{
    let count = word_at(bytes, at) as usize;
    if 1000 < count {
        return false;
    }
    4 * at + 4 + 64 * count <= bytes.len()
}

// The 16-bit number at byte i, high byte first.
fn number_at(bytes: &[u8], i: usize) -> u16
    requires { i + 1 < length bytes.now }
    ensures { result ≡ number_at bytes.now i }
{
    u16::from_be_bytes([bytes[i], bytes[i + 1]])
}

// The lows (`first` is 0) or the highs (16) of so many indices, of the limits from byte `at` on, at the start of the output.
pub(crate) fn load_limits(bytes: &[u8], at: usize, first: usize, count: usize, out: &mut [u16])
    requires { (first ≤ 16) × (count ≤ 1000) × (at ≤ 1000000) × (at + 64 * count ≤ length bytes.now) × (16 * count ≤ length out.old) }
    ensures { Added (limits_from bytes.now at first (16 * count)) 0 (16 * count) out.old out.new }
{
    for j in 0..16 * count {
        out[j] = number_at(bytes, at + 2 * (32 * (j / 16) + first + j % 16));
    }
}
