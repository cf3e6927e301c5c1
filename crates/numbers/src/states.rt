// A machine's state in lent words: line, presentations, inputs read, kept bits, work bits, 16 registers, ready, priors, next priors, the
// registers that the rule reads.
ghost use Rattle.std.specs.Prelude.{◌≡◌, true, List, ◌++◌, ℕ, ◌≤◌, length, take, drop};
ghost use Rattle.machine.specs.Machines.{readiness_of, state_of};
ghost use Rattle.numbers.specs.States.{readiness_words, state_words, readiness_in, state_in, registers_fit, state_fits};

use crate::notes::note_registers;
use machine::Machine;
use machine::ready::Readiness;

// Whether each of the 16 registers has at most 16 bits. A fold and not `all`: every step asks it, and it has no way out.
fn registers_fit(state: &[u64]) -> bool
    requires { 25 ≤ length state.now }
    ensures { result ≡ registers_fit state.now }
{
    state[5..21]
        .iter()
        .fold(true, |fit, word| fit & (*word <= 65535))
}

// Whether they do, and ready is 0 or 1.
pub fn state_fits(state: &[u64]) -> bool
    requires { 25 ≤ length state.now }
    ensures { result ≡ state_fits state.now }
{
    registers_fit(state) & (state[21] <= 1)
}

fn read_readiness(state: &[u64]) -> Readiness
    requires { 25 ≤ length state.now }
    ensures { readiness_of result ≡ readiness_in state.now }
{
    Readiness {
        ready: state[21] == 1,
        priors: state[22],
        next: state[23],
        tested: state[24],
    }
}

// The machine that the words say.
pub fn read_machine(state: &[u64]) -> Machine
    requires { (25 ≤ length state.now) × (state_fits state.now ≡ true) }
    ensures { (history : List ℕ) → state_of result history ≡ state_in state.now history }
{
    let mut registers = [0u16; 16];
    for (i, register) in registers.iter_mut().enumerate() {
        *register = state[5 + i] as u16;
    }
    Machine {
        registers,
        kept: state[3],
        work: state[4],
        line: state[0] as usize,
        presentations: state[1] as usize,
        reads: state[2] as usize,
        readiness: read_readiness(state),
    }
}

fn put_readiness(x: Readiness, state: &mut [u64])
    requires { 25 ≤ length state.old }
    ensures { state.new ≡ take 21 state.old ++ readiness_words (readiness_of x) ++ drop 25 state.old }
{
    state[21] = x.ready as u64;
    state[22] = x.priors;
    state[23] = x.next;
    state[24] = x.tested;
}

// The machine's words.
pub fn put_machine(m: Machine, state: &mut [u64])
    requires { 25 ≤ length state.old }
    ensures { (history : List ℕ) → state.new ≡ state_words (state_of m history) ++ drop 25 state.old }
{
    put_readiness(m.readiness, state);
    state[0] = m.line as u64;
    state[1] = m.presentations as u64;
    state[2] = m.reads as u64;
    state[3] = m.kept;
    state[4] = m.work;
    note_registers(m.registers, 5, state);
}
