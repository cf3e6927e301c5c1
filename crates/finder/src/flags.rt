// Flags for lines, 64 in a word: the lines to look at again.
ghost use Rattle.std.specs.Prelude.{true, false, ◌*◌, ◌/◌, ◌≤◌, ◌<◌, length};
ghost use Rattle.finder.specs.Rows.{FlagSet, NextLine};

use sets::{first_from, with, without};

// Line l gets a flag.
pub(crate) fn raise(flags: &mut [u64], l: usize)
    requires { l / 64 < length flags.old }
    ensures { FlagSet flags.old l true flags.new }
{
    let i = l / 64;
    flags[i] = with(flags[i], l % 64);
}

// Line l loses its flag.
pub(crate) fn lower(flags: &mut [u64], l: usize)
    requires { l / 64 < length flags.old }
    ensures { FlagSet flags.old l false flags.new }
{
    let i = l / 64;
    flags[i] = without(flags[i], l % 64);
}

// The first of the lines that has a flag, from `start` on. It passes over 64 lines at once.
pub(crate) fn next_flag(flags: &[u64], start: usize, lines: usize) -> Option<usize>
    requires { (lines ≤ 64 * length flags.now) × (lines ≤ 1024) }
    ensures { NextLine flags.now start lines result }
{
    let mut from = start % 64;
    for i in start / 64..lines.div_ceil(64) {
        let k = first_from(flags[i], from);
        if k < 64 {
            let l = 64 * i + k;
            return if l < lines { Some(l) } else { None };
        }
        from = 0;
    }
    None
}
