// What a step of the search chooses: functions that only read.
#![tactic(auto)]

ghost use Rattle.std.specs.Prelude.{◌≡◌, suc, ◌+◌, ◌-◌, ◌/◌, ◌≤◌, ◌<◌, pos, length, get_or, drop, false};
ghost use Rattle.cnf.specs.Literals.{closes};
ghost use Rattle.cnf.specs.Clauses.{clause_number};
ghost use Rattle.search.specs.Trail.{is_unassigned};
ghost use Rattle.search.specs.Step.{every_literal, fails_but, failed_clause, forced_place, lowest_unassigned};
ghost use Rattle.search_scan.specs.PackedValues.{value_of, packed_values, last_marked, Within};
ghost use Rattle.search_scan.specs.Clause.{forced_up_to, clause_length};

use cnf::{clause_count, closes_at, code_at};

// The number of the value of a code's variable: 1 true, 2 false, else unassigned.
fn number(marks: &[u8], k: usize) -> usize
    requires { (2 ≤ k) × (k / 2 ≤ length marks.now) }
    ensures { result ≡ get_or marks.now (k / 2 - 1) 0 / 2 }
{
    (marks[k / 2 - 1] / 2) as usize
}

// The place after the clause that stands at i: after its closing 0, or the list's end. (It is kept in one variable for both: so the loop, where a step
// spends much of its time, is compiled shorter than with two results.)
fn after_clause(list: &[i32], i: usize) -> usize
    requires { i ≤ length list.now }
    ensures { result ≡ i + clause_length (drop i list.now) }
{
    let mut after = i;
    for j in i..list.len() {
        after = j + 1;
        if closes_at(list, j) {
            return after;
        }
    }
    after
}

// Where the first failed clause begins. At the first literal that is not false the rest of its clause is passed over: so these are no `for`
// loops. (A function of its own as compiled too: where its loops stand does not depend on what calls it.)
#[inline(never)]
pub fn first_failed(list: &[i32], marks: &[u8]) -> Option<usize>
    requires { Within (length marks.now) list.now }
    ensures { result ≡ failed_clause (packed_values marks.now) list.now }
{
    let mut start: usize = 0;
    let found: Option<usize> = 'clauses: loop {
        let mut i = start;
        loop {
            if i >= list.len() {
                break 'clauses None;
            }
            let k = code_at(list, i);
            i += 1;
            if k == 0 {
                break 'clauses Some(start);
            }
            if number(marks, k) != 2 - k % 2 {
                start = after_clause(list, i);
                continue 'clauses;
            }
        }
    };
    found
}

// Are the literals after that at a place, up to the end of the clause, all false or the same one?
fn others_fail(list: &[i32], marks: &[u8], place: usize) -> bool
    requires within { Within (length marks.now) list.now }
    requires place_in_bounds { place < length list.now }
    ensures { let ls = list.now in
        result ≡ every_literal (fails_but (packed_values marks.now) (get_or ls place (pos 0))) (drop (suc place) ls) }
{
    let same = code_at(list, place);
    for i in place + 1..list.len() {
        let k = code_at(list, i);
        if k == 0 {
            return true;
        }
        if k != same && number(marks, k) != 2 - k % 2 {
            return false;
        }
    }
    false
}

// Does a clause force the literal at a place, the first in it that is not false, and is its variable at most `most`?
fn is_forced(list: &[i32], marks: &[u8], place: usize, most: usize) -> bool
    requires within { Within (length marks.now) list.now }
    requires place_in_bounds { place < length list.now }
    requires pos_value { closes (get_or list.now place (pos 0)) ≡ false }
    ensures { result ≡ forced_up_to (packed_values marks.now) most (drop place list.now) }
{
    let k = code_at(list, place);
    if k / 2 > most {
        return false;
    }
    if number(marks, k) == 1 + k % 2 {
        return false;
    }
    others_fail(list, marks, place)
}

// The place of the literal to append: of the clauses that force one, that with the lowest variable, and the earliest of those.
// The variables up to `most` are lower than the lowest so far. At its first literal that is not false a clause is settled, and its rest passed over:
// so this is no `for` loop. (A function of its own as compiled too, as `first_failed` is.)
#[inline(never)]
pub fn forced_place(list: &[i32], marks: &[u8]) -> Option<usize>
    requires { Within (length marks.now) list.now }
    ensures { result ≡ forced_place (packed_values marks.now) list.now }
{
    let mut lowest = None;
    let mut most = marks.len();
    let mut i: usize = 0;
    while i < list.len() {
        let k = code_at(list, i);
        if k == 0 {
            i += 1;
            continue;
        }
        if number(marks, k) == 2 - k % 2 {
            i += 1;
            continue;
        }
        if is_forced(list, marks, i, most) {
            lowest = Some(i);
            most = k / 2 - 1;
        }
        i = after_clause(list, i + 1);
    }
    lowest
}

// The number, from 1, of the clause in which a place is.
pub fn clause_number(list: &[i32], place: usize) -> u64
    requires { place < length list.now }
    ensures { result ≡ clause_number list.now place }
{
    (clause_count(&list[..place]) + 1) as u64
}

fn is_unassigned(byte: u8) -> bool
    ensures { result ≡ is_unassigned (value_of (byte / 2)) }
{
    !matches!(byte / 2, 1 | 2)
}

// The lowest unassigned variable, by its index from 0.
pub fn lowest_unassigned(marks: &[u8]) -> Option<usize>
    ensures { result ≡ lowest_unassigned (length marks.now) (packed_values marks.now) }
{
    for (index, byte) in marks.iter().enumerate() {
        if is_unassigned(*byte) {
            return Some(index);
        }
    }
    None
}

// The last of the used entries that is marked 1.
pub fn last_mark(marks: &[u8], used: usize) -> Option<usize>
    requires { used ≤ length marks.now }
    ensures { result ≡ last_marked marks.now used }
{
    for i in (0..used).rev() {
        if marks[i] % 2 == 1 {
            return Some(i);
        }
    }
    None
}
