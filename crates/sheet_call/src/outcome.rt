// What the refusals tell, in document 01's numbers, and how one is part of another.
ghost use Rattle.std.specs.Prelude.{◌≡◌};
ghost use Rattle.rules.specs.declared.JudgeRefusal.TheVariants.{Record};
ghost use Rattle.sheet_call.specs.declared.SheetRefusal.TheVariants.{Judge};
ghost use Rattle.sheet_call.specs.Answer.{sheet_refusal_outcome};

use super::SheetRefusal;
use answers::{Outcome, refused};
use rules::{JudgeRefusal, RecordRefusal};

// Document 01's number, and the value beside it.
impl From<SheetRefusal> for Outcome {
    ghost from_gives = { λ r t. t ≡ sheet_refusal_outcome r };

    fn from(refusal: SheetRefusal) -> Outcome {
        match refusal {
            SheetRefusal::Judge(r) => r.into(),
            SheetRefusal::TooShort(n) => refused(6, n as u64),
        }
    }
}

impl From<JudgeRefusal> for SheetRefusal {
    ghost from_gives = { λ j r. r ≡ Judge j };

    fn from(refusal: JudgeRefusal) -> SheetRefusal {
        SheetRefusal::Judge(refusal)
    }
}

// The judge's first refusals are the record's.
impl From<RecordRefusal> for SheetRefusal {
    ghost from_gives = { λ e r. r ≡ Judge (Record e) };

    fn from(refusal: RecordRefusal) -> SheetRefusal {
        SheetRefusal::Judge(refusal.into())
    }
}
