// What the refusals tell, in document 01's numbers, and what they are made from.
ghost use Rattle.std.specs.Prelude.{◌≡◌};
ghost use Rattle.solver_call.specs.declared.SolveRefusal.TheVariants.{Record, TooShort as IsShort};
ghost use Rattle.solver_call.specs.Answer.{solve_refusal_outcome};

use super::SolveRefusal;
use answers::{Outcome, refused};
use rules::RecordRefusal;
use solver_listing::TooShort;

// Document 01's number, and the value beside it.
impl From<SolveRefusal> for Outcome {
    ghost from_gives = { λ r t. t ≡ solve_refusal_outcome r };

    fn from(refusal: SolveRefusal) -> Outcome {
        match refusal {
            SolveRefusal::Record(r) => r.into(),
            SolveRefusal::TooShort(n) => refused(6, n as u64),
        }
    }
}

impl From<RecordRefusal> for SolveRefusal {
    ghost from_gives = { λ r e. e ≡ Record r };

    fn from(refusal: RecordRefusal) -> SolveRefusal {
        SolveRefusal::Record(refusal)
    }
}

impl From<TooShort> for SolveRefusal {
    ghost from_gives = { λ s e. e ≡ IsShort s.0 };

    fn from(short: TooShort) -> SolveRefusal {
        SolveRefusal::TooShort(short.0)
    }
}
