// The search: document 01's "Search", by its listed steps under a budget.
#![tactic(auto)]

ghost use Rattle.std.specs.Prelude.{◌≡◌, length};
ghost use Rattle.answers.specs.declared.Outcome.{Outcome};
ghost use Rattle.answers.specs.Outcome.{first_refusal};
ghost use Rattle.search.specs.Trail.{slices};
ghost use Rattle.search.specs.Run.{ending_number};
ghost use Rattle.search.specs.Call.{search_on, handed, Searching, search_rows, IsTaken, hands_taken, by_search};
ghost use Rattle.search_trail.specs.Packed.{Running};
ghost use Rattle.search_step.specs.Steps.{ListFits};
ghost use Rattle.search_call.specs.Answers.{ending_of, end_outcome, search_refusal_outcome, answer_outcome, checked_tells};
ghost use Rattle.search_call.specs.Runs.{hands_run};

use answers::{Outcome, answered, refused};
use cnf::wrong_list;
use search_input::{first_wrong_entry, wrong_lengths};
use search_numbers::wrong_numbers;
use search_step::{Stepped, step};
use search_trail::{clear_from, clear_marks, pack_values};

// The answers of the search.
#[derive(Clone, Copy, Debug, PartialEq, Eq)]
pub enum Ending {
    Found,
    None,
    Halted,
}

// How a search ended: its answer, the steps that this call made, the used count.
#[derive(Clone, Copy, Debug, PartialEq, Eq)]
pub struct End {
    pub ending: Ending,
    pub steps: u64,
    pub used: usize,
}

// Why a call is turned down: 17, 16 and 18 of document 01's table, 22 of E10, and 20 of E1, which is `next`'s only.
#[derive(Clone, Copy, Debug, PartialEq, Eq)]
pub enum SearchRefusal {
    Lengths,
    List(usize),
    Entry(usize),
    Number(usize),
    Untrue,
}

impl Ending {
    // 1, 2 or 3.
    fn number(self) -> u64
        ensures { result ≡ ending_number (ending_of self) }
    {
        match self {
            Ending::Found => 1,
            Ending::None => 2,
            Ending::Halted => 3,
        }
    }
}

// Document 01's values.
impl From<End> for Outcome {
    ghost from_gives = { λ e t. t ≡ end_outcome e };

    fn from(end: End) -> Outcome {
        answered(end.ending.number(), end.steps, end.used as u64)
    }
}

// Document 01's number, and the value beside it.
impl From<SearchRefusal> for Outcome {
    ghost from_gives = { λ r t. t ≡ search_refusal_outcome r };

    fn from(refusal: SearchRefusal) -> Outcome {
        match refusal {
            SearchRefusal::Lengths => refused(17, 0),
            SearchRefusal::List(i) => refused(16, i as u64),
            SearchRefusal::Entry(i) => refused(18, i as u64),
            SearchRefusal::Number(i) => refused(22, i as u64),
            SearchRefusal::Untrue => refused(20, 0),
        }
    }
}

// 17, 16, 18 and 22: the first cause against a list and a trail.
pub fn check(
    variables: usize,
    list: &[i32],
    trail: &[i32],
    marks: &[u8],
    numbers: &[u64],
    used: usize,
) -> Result<(), SearchRefusal>
    ensures { (t : Outcome) → checked_tells result t
        ≡ first_refusal (search_rows
        (search_on variables list.now trail.now marks.now numbers.now used)) t }
{
    if wrong_lengths(variables, trail, marks, used) {
        return Err(SearchRefusal::Lengths);
    }
    if let Some(i) = wrong_list(list, variables) {
        return Err(SearchRefusal::List(i));
    }
    if let Some(i) = first_wrong_entry(variables, trail, marks, used) {
        return Err(SearchRefusal::Entry(i));
    }
    if let Some(i) = wrong_numbers(variables, list, trail, marks, numbers, used) {
        return Err(SearchRefusal::Number(i));
    }
    Ok(())
}

// Steps until one answers, or the budget is used up.
fn run(
    list: &[i32],
    trail: &mut [i32],
    marks: &mut [u8],
    numbers: &mut [u64],
    first: usize,
    budget: u64,
) -> End
    requires running { Running (length marks.old) (slices trail.old marks.old numbers.old) first }
    requires list_fits { ListFits (length marks.old) list.now }
    ensures { handed (end_outcome result) trail.new marks.new numbers.new
        ≡ hands_run list.now budget (slices trail.old marks.old numbers.old) first }
{
    let mut used = first;
    for n in 0..budget {
        let steps = n + 1;
        match step(list, trail, marks, numbers, used) {
            Stepped::MovedTo(u) => used = u,
            Stepped::Found => {
                return End {
                    ending: Ending::Found,
                    steps,
                    used,
                };
            }
            Stepped::None => {
                return End {
                    ending: Ending::None,
                    steps,
                    used,
                };
            }
        }
    }
    End {
        ending: Ending::Halted,
        steps: budget,
        used,
    }
}

// The search of an accepted list from an accepted trail. V is the marks' length.
pub fn searched(
    list: &[i32],
    trail: &mut [i32],
    marks: &mut [u8],
    numbers: &mut [u64],
    used: usize,
    budget: u64,
) -> End
    requires { IsTaken Searching (search_on (length marks.old) list.now trail.old marks.old numbers.old used) }
    ensures { handed (end_outcome result) trail.new marks.new numbers.new
        ≡ hands_taken Searching (search_on (length marks.old) list.now
        trail.old marks.old numbers.old used) budget }
{
    clear_marks(marks, used);
    pack_values(trail, marks, used);
    let end = run(list, trail, marks, numbers, used, budget);
    let last = end.used;
    clear_from(trail, last, 0);
    clear_marks(marks, last);
    clear_from(numbers, last, 0);
    end
}

// The search: V, a clause list, a trail with its marks, its clause numbers and its used count, a budget.
pub fn search(
    variables: usize,
    list: &[i32],
    trail: &mut [i32],
    marks: &mut [u8],
    numbers: &mut [u64],
    used: usize,
    budget: u64,
) -> Result<End, SearchRefusal>
    ensures { handed (answer_outcome result) trail.new marks.new numbers.new
        ≡ by_search (search_on variables list.now trail.old marks.old numbers.old used) budget }
{
    check(variables, list, trail, marks, numbers, used)?;
    Ok(searched(list, trail, marks, numbers, used, budget))
}
