// Whether a presentation made now would keep the rule. It is worked out anew where a register that the rule reads was written or a
// presentation made, and nowhere else; all nodes once.
ghost use Rattle.std.specs.Prelude.{◌≡◌, cond, List, ℕ, ◌≤◌, length};
ghost use Rattle.spec.specs.Rule.{Table};
ghost use Rattle.spec.specs.Ready.{worked_out, first_readiness, ready_move};
ghost use Rattle.sets.specs.Sets.{capacity, set_of};
ghost use Rattle.rule.specs.Nodes.{form_by, table_in, table_by};
ghost use Rattle.script.specs.Lines.{instruction_in};
ghost use Rattle.machine.specs.Machines.{readiness_of, writes_register};
ghost use Rattle.machine.specs.Renewals.{renewed};

use rule::judging::watch;
use rule::monitor::{first_priors, tested_registers};
use rule::stored::Word;
use script::instruction::{Instruction, Opcode};
use sets::has;

// No instruction but a present changes the priors: kept bits are the script's, these are not.
#[derive(Clone, Copy)]
pub struct Readiness {
    // Would a presentation made now keep the rule?
    pub ready: bool,
    // Node k's prior is bit 63 - k; and so is its prior after a presentation made now.
    pub priors: u64,
    pub next: u64,
    // Register r is bit 63 - r, 1 where the rule reads it.
    pub tested: u64,
}

// Worked out from the registers and these priors, as the judge does it of a state.
fn work_out(rule: &[u64], registers: [u16; 16], priors: u64, tested: u64) -> Readiness
    requires { length rule.now ≤ capacity }
    ensures { readiness_of result ≡ worked_out (table_in rule.now) registers (set_of priors) (set_of tested) }
{
    let w = watch(rule, &registers, priors);
    Readiness {
        ready: w.found.is_none(),
        priors,
        next: w.priors,
        tested,
    }
}

// Before the first step.
pub(crate) fn first_readiness(rule: &[u64]) -> Readiness
    requires { length rule.now ≤ capacity }
    ensures { readiness_of result ≡ first_readiness (table_in rule.now) }
{
    work_out(rule, [0u16; 16], first_priors(rule), tested_registers(rule))
}

// Whether the instruction writes a register.
fn is_write(x: Instruction) -> bool
    ensures { result ≡ writes_register (instruction_in x) }
{
    matches!(
        x.opcode,
        Opcode::Set | Opcode::Copy | Opcode::Raise | Opcode::Input | Opcode::Lower,
    )
}

// The priors from which instruction x, if it was done, has it worked out anew.
fn renewal_of(x: Instruction, done: bool, before: Readiness) -> Option<u64>
    ensures { (t : Table) (registers : List ℕ) → renewed result t registers (readiness_of before) ≡ cond done (ready_move t (instruction_in x) registers (readiness_of before)) (readiness_of before) }
{
    if !done {
        return None;
    }
    match x.opcode {
        Opcode::Present => Some(before.next),
        _ if is_write(x) & has(before.tested, x.r) => Some(before.priors),
        _ => None,
    }
}

// After instruction x, if it was done: the registers are those afterwards.
pub(crate) fn follow<W: Word>(
    rule: &[W],
    x: Instruction,
    done: bool,
    registers: [u16; 16],
    before: Readiness,
) -> Readiness
    requires { length (W.numbers rule.now) ≤ (form_by W.IS_WIDE).width }
    ensures { readiness_of result ≡ cond done (ready_move (table_by W.IS_WIDE (W.numbers rule.now)) (instruction_in x) registers (readiness_of before)) (readiness_of before) }
{
    match renewal_of(x, done, before) {
        None => before,
        Some(priors) => {
            let mut space = [0u64; 32];
            let table = W::in_second_form(rule, &mut space);
            work_out(table, registers, priors, before.tested)
        }
    }
}
