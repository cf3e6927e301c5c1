// An answer with the registers that it depends on.
ghost use Rattle.std.specs.Prelude.{◌≡◌, not, ◌&&◌, false};
ghost use Rattle.sets.specs.Sets.{set_of};
ghost use Rattle.intervals.specs.Reasons;
ghost use Rattle.reasons.specs.Registers.{reason_of};

use sets::union;

// Whether it can be true and whether it can be false, and the registers: register r is bit 63 - r.
#[derive(Clone, Copy)]
pub struct Reason {
    pub yes: bool,
    pub no: bool,
    pub registers: u64,
}

// The opposite depends on the same.
pub fn opposite(a: Reason) -> Reason
    ensures { reason_of result ≡ Reasons.opposite (reason_of a) }
{
    Reason {
        yes: a.no | !a.yes,
        no: a.yes,
        ..a
    }
}

// Of two of which neither is true: the one that is open, both where they are open or false alike.
fn joint(a: Reason, b: Reason) -> u64
    requires { ((a.yes && not a.no) ≡ false) × ((b.yes && not b.no) ≡ false) }
    ensures { set_of result ≡ (Reasons.either (reason_of a) (reason_of b)).registers }
{
    if a.yes & !b.yes {
        return a.registers;
    }
    if b.yes & !a.yes {
        return b.registers;
    }
    union(a.registers, b.registers)
}

// "Or": true where one is, and then by that one; false where both are, by both; else open, by those that are open.
pub fn either(a: Reason, b: Reason) -> Reason
    ensures { reason_of result ≡ Reasons.either (reason_of a) (reason_of b) }
{
    if a.yes & !a.no {
        return a;
    }
    if b.yes & !b.no {
        return b;
    }
    Reason {
        yes: a.yes | b.yes,
        no: true,
        registers: joint(a, b),
    }
}

// "And".
pub fn both(a: Reason, b: Reason) -> Reason
    ensures { reason_of result ≡ Reasons.both (reason_of a) (reason_of b) }
{
    opposite(either(opposite(a), opposite(b)))
}
