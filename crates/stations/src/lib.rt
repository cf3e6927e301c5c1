// Four stations, one allowance: request 2026-10. A booth of the paper is a station here. Rules and scripts come in either stored form, those
// of all four in the same one.
#![tactic(auto)]

ghost use Rattle.std.specs.Prelude.{◌≡◌, List, ℕ, length, Err};
ghost use Rattle.turns.specs.Stations.{station_count, Four, four, check_stations, running_stations};
ghost use Rattle.rule.specs.Answers.{answer_of};
ghost use Rattle.rule.specs.Nodes.{form_by};
ghost use Rattle.stations.specs.Views.{rules_of, given_of, no_state, no_states, states_of, Answered, ListAnswered, four_in};
ghost use Rattle.stations.specs.Safe.{Safe};

use crate::questions::{ask_inputs, check_stations};
use crate::running::run_turns;
use machine::Machine;
use machine::ready::Readiness;
use rule::answer::{Question, Refusal};
use rule::stored::Word;

mod questions;
mod running;
mod turning;

// What a station is lent and only reads.
#[derive(Clone, Copy)]
pub struct Station<'a, W: Word> {
    pub rule: &'a [W],
    pub script: &'a [W],
    pub inputs: &'a [u16],
}

// What is left of the allowance, how many successive stations were passed over, and how many turns there were.
#[derive(Clone, Copy)]
pub(crate) struct Counts {
    pub left: u64,
    pub passes: u64,
    pub turns: u64,
}

// Where a run of the four stands.
#[derive(Clone, Copy)]
pub(crate) struct Progress {
    pub first: Machine,
    pub second: Machine,
    pub third: Machine,
    pub fourth: Machine,
    pub counts: Counts,
}

// What a run of four stations answers: the turns, and what is left of the allowance.
#[derive(Clone, Copy)]
pub struct Ran {
    pub turns: u64,
    pub left: u64,
}

// The four machines after a run, and its answer.
#[derive(Clone, Copy)]
pub struct FourStates {
    pub first: Machine,
    pub second: Machine,
    pub third: Machine,
    pub fourth: Machine,
    pub answer: Result<Ran, Refusal>,
}

// A machine that holds nothing.
fn no_state() -> Machine
    ensures { result ≡ no_state }
{
    Machine {
        registers: [0u16; 16],
        kept: 0,
        work: 0,
        line: 0,
        presentations: 0,
        reads: 0,
        readiness: Readiness {
            ready: false,
            priors: 0,
            next: 0,
            tested: 0,
        },
    }
}

// Other than four states: question 21.
fn no_four() -> Result<Ran, Refusal>
    ensures { result ≡ Err (record { question = Question.StationCount; place = 0 }) }
{
    Err(Refusal {
        question: Question::StationCount,
        place: 0,
    })
}

// What is asked of the four before they run: questions 1 to 11 of each, and 15 of the inputs of each.
fn ask_all<W: Word>(
    station0: Station<'_, W>,
    station1: Station<'_, W>,
    station2: Station<'_, W>,
    station3: Station<'_, W>,
) -> Result<(), Refusal>
    ensures { (lent : Four (List ℕ)) → answer_of result ≡ check_stations (form_by W.IS_WIDE) station_count (given_of W.numbers (four station0.entry station1.entry station2.entry station3.entry) lent) }
{
    check_stations(station0, station1, station2, station3)?;
    ask_inputs(station0, station1, station2, station3)
}

// A run of four stations with their machines by value: questions 1 to 11 of each, and 15 of the inputs of each; then turns from a
// fresh start. What the machines held is not read; refused, they stay as they are.
fn run_all<W: Word>(
    a: Machine,
    b: Machine,
    c: Machine,
    d: Machine,
    budget: u64,
    allowance: u64,
    station0: Station<'_, W>,
    station1: Station<'_, W>,
    station2: Station<'_, W>,
    station3: Station<'_, W>,
    history0: &mut [u16],
    history1: &mut [u16],
    history2: &mut [u16],
    history3: &mut [u16],
) -> FourStates
    ensures { Answered (running_stations (form_by W.IS_WIDE) station_count (given_of W.numbers (four station0.entry station1.entry station2.entry station3.entry) (four history0.old history1.old history2.old history3.old)) budget allowance) result.answer (four a b c d) (states_of result) (four history0.old history1.old history2.old history3.old) (four history0.new history1.new history2.new history3.new) }
{
    if let Err(refusal) = ask_all(station0, station1, station2, station3) {
        return FourStates {
            first: a,
            second: b,
            third: c,
            fourth: d,
            answer: Err(refusal),
        };
    }
    let p = run_turns(
        budget, allowance, station0, station1, station2, station3, history0, history1, history2,
        history3,
    );
    FourStates {
        first: p.first,
        second: p.second,
        third: p.third,
        fourth: p.fourth,
        answer: Ok(Ran {
            turns: p.counts.turns,
            left: p.counts.left,
        }),
    }
}

// The caller lends the four stations' states and finds them moved on: a list of four states, run and stored back. A list of other
// than four is refused, and nothing changes.
pub fn run_stations<W: Word>(
    states: &mut [Machine],
    budget: u64,
    allowance: u64,
    station0: Station<'_, W>,
    station1: Station<'_, W>,
    station2: Station<'_, W>,
    station3: Station<'_, W>,
    history0: &mut [u16],
    history1: &mut [u16],
    history2: &mut [u16],
    history3: &mut [u16],
) -> Result<Ran, Refusal>
    ensures answered { ListAnswered (running_stations (form_by W.IS_WIDE) (length states.old) (given_of W.numbers (four station0.entry station1.entry station2.entry station3.entry) (four history0.old history1.old history2.old history3.old)) budget allowance) result states.old states.new (four history0.old history1.old history2.old history3.old) (four history0.new history1.new history2.new history3.new) }
    ensures safe { Safe (form_by W.IS_WIDE) (rules_of W.numbers (four station0.entry station1.entry station2.entry station3.entry)) allowance result (four_in states.new) (four history0.new history1.new history2.new history3.new) }
{
    if states.len() != 4 {
        return no_four();
    }
    let ran = run_all(
        states[0], states[1], states[2], states[3], budget, allowance, station0, station1,
        station2, station3, history0, history1, history2, history3,
    );
    states[0] = ran.first;
    states[1] = ran.second;
    states[2] = ran.third;
    states[3] = ran.fourth;
    ran.answer
}

// The same for callers that have no list of machines: `count` is how many states the list would have, and the four states come back by
// value; refused, they hold nothing.
pub fn run_listed<W: Word>(
    count: usize,
    budget: u64,
    allowance: u64,
    station0: Station<'_, W>,
    station1: Station<'_, W>,
    station2: Station<'_, W>,
    station3: Station<'_, W>,
    history0: &mut [u16],
    history1: &mut [u16],
    history2: &mut [u16],
    history3: &mut [u16],
) -> FourStates
    ensures answered { Answered (running_stations (form_by W.IS_WIDE) count (given_of W.numbers (four station0.entry station1.entry station2.entry station3.entry) (four history0.old history1.old history2.old history3.old)) budget allowance) result.answer no_states (states_of result) (four history0.old history1.old history2.old history3.old) (four history0.new history1.new history2.new history3.new) }
    ensures safe { Safe (form_by W.IS_WIDE) (rules_of W.numbers (four station0.entry station1.entry station2.entry station3.entry)) allowance result.answer (states_of result) (four history0.new history1.new history2.new history3.new) }
{
    let none = no_state();
    if count != 4 {
        return FourStates {
            first: none,
            second: none,
            third: none,
            fourth: none,
            answer: no_four(),
        };
    }
    run_all(
        none, none, none, none, budget, allowance, station0, station1, station2, station3,
        history0, history1, history2, history3,
    )
}
