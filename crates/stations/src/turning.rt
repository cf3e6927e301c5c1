// One turn of a station: whether it is passed over, and else its step.
ghost use Rattle.std.specs.Prelude.{◌≡◌, List, ℕ};
ghost use Rattle.spec.specs.Script.{instruction_at};
ghost use Rattle.spec.specs.Check.{code_of};
ghost use Rattle.turns.specs.Stations.{passed_at, left_at};
ghost use Rattle.rule.specs.Nodes.{form_by};
ghost use Rattle.script.specs.Lines.{instruction_in, lines_in};
ghost use Rattle.machine.specs.Machines.{machine_of, state_of};
ghost use Rattle.stations.specs.Views.{station_of};
ghost use Rattle.stations.specs.Turns.{Taken};

use crate::Station;
use machine::Machine;
use rule::stored::Word;
use script::instruction::{Instruction, decode, line_word};
use script::line::{count_lines, is_present};

// A machine after its turn, what is left of the allowance, and whether the machine moved.
#[derive(Clone, Copy)]
pub(crate) struct Turn {
    pub machine: Machine,
    pub left: u64,
    pub moved: bool,
}

// The instruction of a line; past the last a halt.
fn instruction_at<W: Word>(script: &[W], line: usize) -> Instruction
    ensures { instruction_in result ≡ instruction_at (code_of (lines_in W.IS_WIDE (W.numbers script.now))) line }
{
    if count_lines(script) <= line {
        return decode(0);
    }
    decode(line_word(script, line))
}

// Whether a machine that stands at x is passed over: halted, dry or full, or it would present and nothing is left.
fn passed_over(m: Machine, left: u64, x: Instruction, inputs: &[u16], history: &[u16]) -> bool
    ensures { result ≡ passed_at inputs.now (instruction_in x) left (machine_of m history.now) }
{
    m.is_stopped(x, inputs, history) | (is_present(x) & (left == 0))
}

// What is left after x is done: a present takes one.
fn left_after(x: Instruction, left: u64) -> u64
    ensures { result ≡ left_at (instruction_in x) left }
{
    if is_present(x) {
        left.saturating_sub(1)
    } else {
        left
    }
}

// A station's turn: one step, or it is passed over and stays as it is.
pub(crate) fn take_turn<W: Word>(
    m: Machine,
    left: u64,
    station: Station<'_, W>,
    history: &mut [u16],
) -> Turn
    ensures { (lent : List ℕ) → Taken (form_by W.IS_WIDE) (station_of W.numbers station.entry lent) left (state_of m history.old) result history.new }
{
    let x = instruction_at(station.script, m.line);
    if passed_over(m, left, x, station.inputs, &history[..]) {
        return Turn {
            machine: m,
            left,
            moved: false,
        };
    }
    Turn {
        machine: m.step(station.rule, station.script, station.inputs, history),
        left: left_after(x, left),
        moved: true,
    }
}
