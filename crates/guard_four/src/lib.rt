// Four stations with one allowance, for C and Rust to call (2026-10), over words of either stored form; crates guard_four_c and guard_four64_c
// export it to C. It is a library of its own, so that the functions of crate guard keep the code that they have: a step with a second caller
// would no longer be a part of `guard_step`.
#![tactic(auto)]

ghost use Rattle.rule.specs.Nodes.{form_by};
ghost use Rattle.turns.specs.Stations.{four};
ghost use Rattle.numbers.specs.Stations.{ran_over, StationsNoted};

use numbers::fours::{count_states, note_run};
use rule::stored::Word;
use stations::{Station, run_listed};

// A run of four stations with one allowance: question 21, are four states lent; 1 to 11 of each station, and 15 of the inputs of each; then
// turns from a fresh start. What `states` held is not read; the four states' words go there, 25 a state. Three words: place, turns, what is
// left of the allowance.
pub fn guard_stations<W: Word>(
    states: &mut [u64],
    budget: u64,
    allowance: u64,
    rule0: &[W],
    rule1: &[W],
    rule2: &[W],
    rule3: &[W],
    script0: &[W],
    script1: &[W],
    script2: &[W],
    script3: &[W],
    inputs0: &[u16],
    inputs1: &[u16],
    inputs2: &[u16],
    inputs3: &[u16],
    history0: &mut [u16],
    history1: &mut [u16],
    history2: &mut [u16],
    history3: &mut [u16],
    numbers: &mut [u64],
) -> u32
    ensures { StationsNoted (ran_over (form_by W.IS_WIDE) states.old (four (W.numbers rule0.now) (W.numbers rule1.now) (W.numbers rule2.now) (W.numbers rule3.now)) (four (W.numbers script0.now) (W.numbers script1.now) (W.numbers script2.now) (W.numbers script3.now)) (four inputs0.now inputs1.now inputs2.now inputs3.now) (four history0.old history1.old history2.old history3.old) budget allowance) result numbers.old numbers.new states.old states.new (four history0.old history1.old history2.old history3.old) (four history0.new history1.new history2.new history3.new) }
{
    if numbers.len() < 3 {
        return 99;
    }
    let ran = run_listed(
        count_states(&states[..]),
        budget,
        allowance,
        Station {
            rule: rule0,
            script: script0,
            inputs: inputs0,
        },
        Station {
            rule: rule1,
            script: script1,
            inputs: inputs1,
        },
        Station {
            rule: rule2,
            script: script2,
            inputs: inputs2,
        },
        Station {
            rule: rule3,
            script: script3,
            inputs: inputs3,
        },
        history0,
        history1,
        history2,
        history3,
    );
    note_run(ran, states, numbers)
}
