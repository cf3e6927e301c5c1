// What is asked of the four stations before a run.
ghost use Rattle.std.specs.Prelude.{◌≡◌, List, ℕ};
ghost use Rattle.spec.specs.Judging.{question15};
ghost use Rattle.spec.specs.Check.{check_script};
ghost use Rattle.turns.specs.Stations.{Four, four, at_station, ask_stations};
ghost use Rattle.rule.specs.Answers.{answer_of};
ghost use Rattle.rule.specs.Nodes.{form_by};
ghost use Rattle.stations.specs.Views.{given_of};

use crate::Station;
use checker::check_script;
use rule::answer::Refusal;
use rule::judging::ask_numbers;
use rule::stored::Word;

// A no of station k has the station as its place.
fn at_station(k: usize, answer: Result<(), Refusal>) -> Result<(), Refusal>
    ensures { answer_of result ≡ at_station k (answer_of answer) }
{
    answer.map_err(|refusal| Refusal {
        place: k,
        ..refusal
    })
}

// The lowest station whose rule or script fails questions 1 to 11.
pub(crate) fn check_stations<W: Word>(
    station0: Station<'_, W>,
    station1: Station<'_, W>,
    station2: Station<'_, W>,
    station3: Station<'_, W>,
) -> Result<(), Refusal>
    ensures { (lent : Four (List ℕ)) → answer_of result ≡ ask_stations (λ x. check_script (form_by W.IS_WIDE) x.rule x.script) (given_of W.numbers (four station0.entry station1.entry station2.entry station3.entry) lent) }
{
    at_station(0, check_script(station0.rule, station0.script))?;
    at_station(1, check_script(station1.rule, station1.script))?;
    at_station(2, check_script(station2.rule, station2.script))?;
    at_station(3, check_script(station3.rule, station3.script))
}

// The lowest station with an input above 16,383.
pub(crate) fn ask_inputs<W: Word>(
    station0: Station<'_, W>,
    station1: Station<'_, W>,
    station2: Station<'_, W>,
    station3: Station<'_, W>,
) -> Result<(), Refusal>
    ensures { (lent : Four (List ℕ)) → answer_of result ≡ ask_stations (λ x. question15 x.inputs) (given_of W.numbers (four station0.entry station1.entry station2.entry station3.entry) lent) }
{
    at_station(0, ask_numbers(station0.inputs))?;
    at_station(1, ask_numbers(station1.inputs))?;
    at_station(2, ask_numbers(station2.inputs))?;
    at_station(3, ask_numbers(station3.inputs))
}
