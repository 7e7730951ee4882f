// What the refusals tell, in document 01's numbers, and how one is part of another.
ghost use Rattle.std.specs.Prelude.{◌≡◌};
ghost use Rattle.decoder.specs.declared.DecodeRefusal.TheVariants.{Record, Rule};
ghost use Rattle.decoder.specs.Answer.{decode_refusal_outcome};

use super::DecodeRefusal;
use answers::{Outcome, refused};
use rules::{RecordRefusal, RuleRefusal};

// Document 01's number, and the value beside it.
impl From<DecodeRefusal> for Outcome {
    ghost from_gives = { λ r t. t ≡ decode_refusal_outcome r };

    fn from(refusal: DecodeRefusal) -> Outcome {
        match refusal {
            DecodeRefusal::Record(r) => r.into(),
            DecodeRefusal::ValuesLength => refused(8, 0),
            DecodeRefusal::DrawingLength => refused(7, 0),
            DecodeRefusal::Value(n) => refused(9, n as u64),
            DecodeRefusal::Rule(r) => r.into(),
        }
    }
}

impl From<RecordRefusal> for DecodeRefusal {
    ghost from_gives = { λ r d. d ≡ Record r };

    fn from(refusal: RecordRefusal) -> DecodeRefusal {
        DecodeRefusal::Record(refusal)
    }
}

impl From<RuleRefusal> for DecodeRefusal {
    ghost from_gives = { λ r d. d ≡ Rule r };

    fn from(refusal: RuleRefusal) -> DecodeRefusal {
        DecodeRefusal::Rule(refusal)
    }
}
