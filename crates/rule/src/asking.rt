// A question put to every place: to each node, line or number.
ghost use Rattle.std.specs.Prelude.{◌≡◌, Bool, ℕ, ◌<◌};
ghost use Rattle.spec.specs.Questions.{ask};
ghost use Rattle.rule.specs.Answers.{number_of, answer_of};

use crate::answer::{Question, Refusal};

// The question's place is the lowest that does not pass.
pub fn ask_each<F: Fn(usize) -> bool>(
    question: Question,
    count: usize,
    passes: F,
) -> Result<(), Refusal>
    requires { (i : ℕ) → i < count → F.pre passes i }
    ensures { (ok : ℕ → Bool) → ((i : ℕ) (yes : Bool) → i < count → F.post passes i yes → ok i ≡ yes) → answer_of result ≡ ask (number_of question) count ok }
{
    for place in 0..count {
        if !passes(place) {
            return Err(Refusal { question, place });
        }
    }
    Ok(())
}
