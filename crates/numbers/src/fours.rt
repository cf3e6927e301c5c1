// A run of four stations as numbers (2026-10): its answer, and the four states in one list of words, station k's from 25 * k on.
ghost use Rattle.std.specs.Prelude.{◌≡◌, List, ◌++◌, ℕ, ◌+◌, ◌≤◌, length, take, drop};
ghost use Rattle.turns.specs.Stations.{Four};
ghost use Rattle.machine.specs.Machines.{state_of};
ghost use Rattle.stations.specs.Views.{machines_of, report_in, states_of};
ghost use Rattle.numbers.specs.Numbers.{number_of};
ghost use Rattle.numbers.specs.States.{states_in, state_words};
ghost use Rattle.numbers.specs.Stations.{stations_words, states_words, states_left, FourWords};

use crate::notes::note_refusal;
use crate::states::put_machine;
use machine::Machine;
use rule::answer::Refusal;
use stations::{FourStates, Ran};

// How many states the words are.
pub fn count_states(states: &[u64]) -> usize
    ensures { result ≡ states_in states.now }
{
    if states.len() % 25 == 0 {
        states.len() / 25
    } else {
        0
    }
}

// The number handed back; place, turns and what is left are written.
fn note_stations(a: Result<Ran, Refusal>, numbers: &mut [u64]) -> u32
    requires { 3 ≤ length numbers.old }
    ensures result { result ≡ number_of (report_in a).verdict }
    ensures words { numbers.new ≡ stations_words (report_in a) ++ drop 3 numbers.old }
{
    match a {
        Ok(ran) => {
            numbers[0] = 0;
            numbers[1] = ran.turns;
            numbers[2] = ran.left;
            0
        }
        Err(no) => note_refusal(u32::from(no.question), no.place, 3, numbers),
    }
}

// The machine's words become the 25 from `at` on.
fn put_machine_at(m: Machine, at: usize, states: &mut [u64])
    requires { at + 25 ≤ length states.old }
    ensures { (history : List ℕ) → states.new ≡ take at states.old ++ state_words (state_of m history) ++ drop (at + 25) states.old }
{
    put_machine(m, &mut states[at..]);
}

// The words of the four machines, one after the other.
fn put_states(ran: FourStates, states: &mut [u64])
    requires { length states.old ≡ 100 }
    ensures { (histories : Four (List ℕ)) → states.new ≡ states_words (machines_of (states_of ran) histories) }
{
    put_machine_at(ran.first, 0, states);
    put_machine_at(ran.second, 25, states);
    put_machine_at(ran.third, 50, states);
    put_machine_at(ran.fourth, 75, states);
}

// What a run of four stations answers and leaves: the number handed back, the answer's numbers, and the states where it was made.
pub fn note_run(ran: FourStates, states: &mut [u64], numbers: &mut [u64]) -> u32
    requires { (3 ≤ length numbers.old) × FourWords ran.answer states.old }
    ensures result { result ≡ number_of (report_in ran.answer).verdict }
    ensures words { numbers.new ≡ stations_words (report_in ran.answer) ++ drop 3 numbers.old }
    ensures left { (histories : Four (List ℕ)) → states.new ≡ states_left ran.answer (machines_of (states_of ran) histories) states.old }
{
    if ran.answer.is_ok() {
        put_states(ran, states);
    }
    note_stations(ran.answer, numbers)
}
