// What the refusals tell, in document 01's numbers, and how one is part of another.
ghost use Rattle.std.specs.Prelude.{◌≡◌};
ghost use Rattle.rules.specs.declared.JudgeRefusal.TheVariants.{Record, Rule};
ghost use Rattle.rules.specs.Record.{record_refusal_outcome};
ghost use Rattle.rules.specs.Judge.{rule_refusal_outcome, judge_refusal_outcome};

use super::{JudgeRefusal, RecordRefusal, RuleRefusal};
use answers::{Outcome, refused};

// Document 01's number, and the value beside it.
impl From<RecordRefusal> for Outcome {
    ghost from_gives = { λ r t. t ≡ record_refusal_outcome r };

    fn from(refusal: RecordRefusal) -> Outcome {
        match refusal {
            RecordRefusal::Length => refused(1, 0),
            RecordRefusal::Kind => refused(2, 0),
            RecordRefusal::Side => refused(3, 0),
            RecordRefusal::Size => refused(4, 0),
            RecordRefusal::NotACell(x) => refused(5, x as u64),
        }
    }
}

impl From<RuleRefusal> for Outcome {
    ghost from_gives = { λ r t. t ≡ rule_refusal_outcome r };

    fn from(refusal: RuleRefusal) -> Outcome {
        match refusal {
            RuleRefusal::DrawingByte(x) => refused(10, x as u64),
            RuleRefusal::Touching(x) => refused(11, x as u64),
            RuleRefusal::ClueNotMet(x) => refused(12, x as u64),
            RuleRefusal::LinkUnmatched(x) => refused(13, x as u64),
            RuleRefusal::NotTwoLinks(x) => refused(14, x as u64),
            RuleRefusal::NotOneLoop(x) => refused(15, x as u64),
        }
    }
}

impl From<JudgeRefusal> for Outcome {
    ghost from_gives = { λ r t. t ≡ judge_refusal_outcome r };

    fn from(refusal: JudgeRefusal) -> Outcome {
        match refusal {
            JudgeRefusal::Record(r) => r.into(),
            JudgeRefusal::DrawingLength => refused(7, 0),
            JudgeRefusal::Rule(r) => r.into(),
        }
    }
}

impl From<RecordRefusal> for JudgeRefusal {
    ghost from_gives = { λ r j. j ≡ Record r };

    fn from(refusal: RecordRefusal) -> JudgeRefusal {
        JudgeRefusal::Record(refusal)
    }
}

impl From<RuleRefusal> for JudgeRefusal {
    ghost from_gives = { λ r j. j ≡ Rule r };

    fn from(refusal: RuleRefusal) -> JudgeRefusal {
        JudgeRefusal::Rule(refusal)
    }
}
