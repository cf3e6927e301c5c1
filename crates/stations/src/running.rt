// The turns of the four stations, until the run ends.
ghost use Rattle.std.specs.Prelude.{◌≡◌, List, ℕ, ◌<◌};
ghost use Rattle.turns.specs.Stations.{Four, four, started, run_turns};
ghost use Rattle.rule.specs.Nodes.{form_by};
ghost use Rattle.stations.specs.Views.{given_of, progress_of};
ghost use Rattle.stations.specs.Turns.{counted};

use crate::turning::take_turn;
use crate::{Counts, Progress, Station};
use machine::Machine;
use rule::stored::Word;

// The turn is counted, with what is left of the allowance; a pass is a turn, and a step ends a row of passes.
fn count_turn(c: Counts, left: u64, moved: bool) -> Counts
    requires { (c.turns < 18446744073709551615) × (c.passes < 4) }
    ensures { result ≡ counted c left moved }
{
    Counts {
        left,
        passes: if moved { 0 } else { c.passes + 1 },
        turns: c.turns + 1,
    }
}

// All four start afresh.
fn start<W: Word>(
    allowance: u64,
    station0: Station<'_, W>,
    station1: Station<'_, W>,
    station2: Station<'_, W>,
    station3: Station<'_, W>,
) -> Progress
    ensures { (lent : Four (List ℕ)) → progress_of result lent ≡ started (form_by W.IS_WIDE) (given_of W.numbers (four station0.entry station1.entry station2.entry station3.entry) lent) allowance }
{
    Progress {
        first: Machine::fresh(station0.rule),
        second: Machine::fresh(station1.rule),
        third: Machine::fresh(station2.rule),
        fourth: Machine::fresh(station3.rule),
        counts: Counts {
            left: allowance,
            passes: 0,
            turns: 0,
        },
    }
}

// Turns from a fresh start, until they equal the budget or four successive stations were passed over. The machines are locals of their
// own, so that a turn moves one of them and copies no other.
pub(crate) fn run_turns<W: Word>(
    budget: u64,
    allowance: u64,
    station0: Station<'_, W>,
    station1: Station<'_, W>,
    station2: Station<'_, W>,
    station3: Station<'_, W>,
    history0: &mut [u16],
    history1: &mut [u16],
    history2: &mut [u16],
    history3: &mut [u16],
) -> Progress
    ensures { progress_of result (four history0.new history1.new history2.new history3.new) ≡ run_turns budget (form_by W.IS_WIDE) (given_of W.numbers (four station0.entry station1.entry station2.entry station3.entry) (four history0.old history1.old history2.old history3.old)) (started (form_by W.IS_WIDE) (given_of W.numbers (four station0.entry station1.entry station2.entry station3.entry) (four history0.old history1.old history2.old history3.old)) allowance) }
{
    let p = start(allowance, station0, station1, station2, station3);
    let mut first = p.first;
    let mut second = p.second;
    let mut third = p.third;
    let mut fourth = p.fourth;
    let mut counts = p.counts;
    // No `for`: the turns that it would count are counted for the answer, and a row of passes ends the run before the budget does.
    while (counts.turns < budget) & (counts.passes < 4) {
        match counts.turns % 4 {
            0 => {
                let t = take_turn(first, counts.left, station0, history0);
                first = t.machine;
                counts = count_turn(counts, t.left, t.moved);
            }
            1 => {
                let t = take_turn(second, counts.left, station1, history1);
                second = t.machine;
                counts = count_turn(counts, t.left, t.moved);
            }
            2 => {
                let t = take_turn(third, counts.left, station2, history2);
                third = t.machine;
                counts = count_turn(counts, t.left, t.moved);
            }
            _ => {
                let t = take_turn(fourth, counts.left, station3, history3);
                fourth = t.machine;
                counts = count_turn(counts, t.left, t.moved);
            }
        }
    }
    Progress {
        first,
        second,
        third,
        fourth,
        counts,
    }
}
