// The function of crate guard_four over words of the second form for C, in a static library: it calls the one of its name there without the 64,
// with the same clauses.
// include/guard.h says the same to a reader of C.
#![tactic(auto)]

ghost use Rattle.spec.specs.Rule.{form64};
ghost use Rattle.turns.specs.Stations.{four};
ghost use Rattle.numbers.specs.Stations.{ran_over, StationsNoted};

#[unsafe(no_mangle)]
pub extern "C" fn guard_stations64(
    states: &mut [u64],
    budget: u64,
    allowance: u64,
    rule0: &[u64],
    rule1: &[u64],
    rule2: &[u64],
    rule3: &[u64],
    script0: &[u64],
    script1: &[u64],
    script2: &[u64],
    script3: &[u64],
    inputs0: &[u16],
    inputs1: &[u16],
    inputs2: &[u16],
    inputs3: &[u16],
    history0: &mut [u16],
    history1: &mut [u16],
    history2: &mut [u16],
    history3: &mut [u16],
    numbers: &mut [u64],
) -> u32
    ensures { StationsNoted (ran_over form64 states.old (four rule0.now rule1.now rule2.now rule3.now) (four script0.now script1.now script2.now script3.now) (four inputs0.now inputs1.now inputs2.now inputs3.now) (four history0.old history1.old history2.old history3.old) budget allowance) result numbers.old numbers.new states.old states.new (four history0.old history1.old history2.old history3.old) (four history0.new history1.new history2.new history3.new) }
{
    guard_four::guard_stations(
        states, budget, allowance, rule0, rule1, rule2, rule3, script0, script1, script2, script3,
        inputs0, inputs1, inputs2, inputs3, history0, history1, history2, history3, numbers,
    )
}
