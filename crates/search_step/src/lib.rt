// One step of the search: document 01's "Search", the first of its listed steps that applies.
#![tactic(auto)]

ghost use Rattle.std.specs.Prelude.{◌≡◌, pos, negsuc, length, get_or};
ghost use Rattle.cnf.specs.Clauses.{clause_number};
ghost use Rattle.search.specs.Trail.{slices, entry};
ghost use Rattle.search.specs.Step.{undoes, step};
ghost use Rattle.search_trail.specs.Packed.{Running};
ghost use Rattle.search_step.specs.Steps.{ListFits, Allows, appends, step_handed, hands_next};

use search_scan::{clause_number, first_failed, forced_place, last_mark, lowest_unassigned};
use search_trail::{assign, copy_at, negate_at, unassign, write_not};

// After a step: the used count, or an answer.
#[derive(Clone, Copy)]
pub enum Stepped {
    MovedTo(usize),
    Found,
    None,
}

// Undoes back to the last entry marked 1, negates it, marks it 0 and takes its number away; if no mark is 1, the answer is "none".
fn undo(trail: &mut [i32], marks: &mut [u8], numbers: &mut [u64], used: usize) -> Stepped
    requires { Running (length marks.old) (slices trail.old marks.old numbers.old) used }
    ensures { step_handed result trail.new marks.new numbers.new
        ≡ hands_next undoes (slices trail.old marks.old numbers.old) used }
{
    let Some(i) = last_mark(marks, used) else {
        return Stepped::None;
    };
    unassign(trail, marks, used, i);
    negate_at(trail, i);
    assign(trail, marks, i, 0);
    numbers[i] = 0;
    Stepped::MovedTo(i + 1)
}

// Appends the literal at a place of the list, marked 0, with the number of its clause.
fn append_forced(
    list: &[i32],
    trail: &mut [i32],
    marks: &mut [u8],
    numbers: &mut [u64],
    used: usize,
    place: usize,
) -> Stepped
    requires running { Running (length marks.old) (slices trail.old marks.old numbers.old) used }
    requires allows { Allows (slices trail.old marks.old numbers.old) used (entry (get_or list.now place (pos 0)) 0 (clause_number list.now place)) }
    ensures { let ls = list.now in step_handed result trail.new marks.new numbers.new
        ≡ hands_next (appends (entry (get_or ls place (pos 0)) 0 (clause_number ls place)))
        (slices trail.old marks.old numbers.old) used }
{
    copy_at(trail, used, list, place);
    assign(trail, marks, used, 0);
    numbers[used] = clause_number(list, place);
    Stepped::MovedTo(used + 1)
}

// Appends a variable, by its index from 0, negated and marked 1, with the number 0.
fn append_choice(
    trail: &mut [i32],
    marks: &mut [u8],
    numbers: &mut [u64],
    used: usize,
    index: usize,
) -> Stepped
    requires running { Running (length marks.old) (slices trail.old marks.old numbers.old) used }
    requires allows { Allows (slices trail.old marks.old numbers.old) used (entry (negsuc index) 1 0) }
    ensures { step_handed result trail.new marks.new numbers.new
        ≡ hands_next (appends (entry (negsuc index) 1 0)) (slices trail.old marks.old numbers.old) used }
{
    write_not(trail, used, index + 1);
    assign(trail, marks, used, 1);
    numbers[used] = 0;
    Stepped::MovedTo(used + 1)
}

// One step does the first that applies.
pub fn step(
    list: &[i32],
    trail: &mut [i32],
    marks: &mut [u8],
    numbers: &mut [u64],
    used: usize,
) -> Stepped
    requires running { Running (length marks.old) (slices trail.old marks.old numbers.old) used }
    requires list_fits { ListFits (length marks.old) list.now }
    ensures { step_handed result trail.new marks.new numbers.new
        ≡ hands_next (step (length marks.old) list.now)
        (slices trail.old marks.old numbers.old) used }
{
    if let Some(_) = first_failed(list, marks) {
        return undo(trail, marks, numbers, used);
    }
    if let Some(place) = forced_place(list, marks) {
        return append_forced(list, trail, marks, numbers, used, place);
    }
    let Some(index) = lowest_unassigned(marks) else {
        return Stepped::Found;
    };
    append_choice(trail, marks, numbers, used, index)
}
