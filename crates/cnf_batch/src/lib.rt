// Sixty-four value lists in one reading of the clauses: document 02's E8. Bit i of each word belongs to list i.
#![tactic(auto)]

ghost use Rattle.std.specs.Prelude.{◌≡◌, false, ◌<◌, length, get_or, pos};
ghost use Rattle.cnf.specs.Literals.{closes, beyond_at};
ghost use Rattle.cnf_batch.specs.Batch.{literal_word};
ghost use Rattle.cnf_batch.specs.Call.{batch_answer, reading_answer};
ghost use Rattle.cnf_batch.specs.Answer.{batch_outcome, batch_refusal_outcome};

use answers::{Outcome, refused};

// Why a call is refused: 17 (for V alone), 21 and 16.
#[derive(Clone, Copy, Debug, PartialEq, Eq)]
pub enum BatchRefusal {
    Variables,
    Words,
    List(usize),
}

// Document 01's number, and the value beside it.
impl From<BatchRefusal> for Outcome {
    ghost from_gives = { λ r t. t ≡ batch_refusal_outcome r };

    fn from(refusal: BatchRefusal) -> Outcome {
        match refusal {
            BatchRefusal::Variables => refused(17, 0),
            BatchRefusal::Words => refused(21, 0),
            BatchRefusal::List(i) => refused(16, i as u64),
        }
    }
}

// The values of the literal at a place, in all lists.
fn literal_word(list: &[i32], i: usize, words: &[u64]) -> u64
    requires i_in_bounds { i < length list.now }
    requires pos_value { (closes (get_or list.now i (pos 0)) ≡ false) × (beyond_at (length words.now) list.now i ≡ false) }
    ensures { result ≡ literal_word words.now (get_or list.now i (pos 0)) }
{
    let k = cnf::code_at(list, i);
    let w = words[k / 2 - 1];
    if k % 2 == 0 { w } else { !w }
}

// 16, and the word. `satisfied` has the lists that satisfy the clauses read, `clause` those with a true literal in the clause that is being read.
fn read_clauses(list: &[i32], words: &[u64]) -> Result<u64, BatchRefusal>
    ensures { batch_outcome result ≡ reading_answer words.now list.now }
{
    let mut satisfied = u64::MAX;
    let mut clause: u64 = 0;
    for i in 0..list.len() {
        if cnf::code_at(list, i) / 2 > words.len() {
            return Err(BatchRefusal::List(i));
        }
        if cnf::closes_at(list, i) {
            satisfied &= clause;
            clause = 0;
        } else {
            clause |= literal_word(list, i, words);
        }
    }
    if cnf::is_unclosed(list) {
        return Err(BatchRefusal::List(list.len()));
    }
    Ok(satisfied)
}

// Refusals 17, 21 and 16 in order. The list is read once, for 16 and for the word.
pub fn satisfied(variables: usize, list: &[i32], words: &[u64]) -> Result<u64, BatchRefusal>
    ensures { batch_outcome result ≡ batch_answer variables list.now words.now }
{
    if cnf::too_many_variables(variables) {
        return Err(BatchRefusal::Variables);
    }
    if words.len() != variables {
        return Err(BatchRefusal::Words);
    }
    read_clauses(list, words)
}
