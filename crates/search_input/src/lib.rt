// What the search checks of its sizes and of the trail handed in.
#![tactic(auto)]

ghost use Rattle.std.specs.Prelude.{◌≡◌, List, ℕ, ◌+◌, ◌^◌, ◌<◌, ◌≤◌, length};
ghost use Rattle.answers.specs.First.{first_where, Until};
ghost use Rattle.cnf.specs.Literals.{most_variables};
ghost use Rattle.search.specs.Trail.{slices};
ghost use Rattle.search.specs.Call.{wrong_lengths, wrong_entry_at};
ghost use Rattle.search_input.specs.Entries.{faulty_at, used_at, Inside};
ghost use Rattle.search_input.specs.Flags.{NoFlag, is_met, met, met_by, again_at};

use cnf::{code_at, too_many_variables};

// 17: V too large, trail or marks not V long, used over V. The clause numbers beside them, ns, are not asked for.
pub fn wrong_lengths(v: usize, trail: &[i32], marks: &[u8], used: usize) -> bool
    ensures { (ns : List ℕ) → result ≡ wrong_lengths v (slices trail.now marks.now ns) used }
{
    if too_many_variables(v) {
        return true;
    }
    if trail.len() != v {
        return true;
    }
    if marks.len() != v {
        return true;
    }
    used > v
}

// Is the entry wrong by itself?
fn is_faulty(v: usize, trail: &[i32], marks: &[u8], i: usize) -> bool
    requires { (i < length trail.now) × (i < length marks.now) }
    ensures { result ≡ faulty_at v trail.now marks.now i }
{
    let k = code_at(trail, i);
    if k == 0 {
        return true;
    }
    if k / 2 > v {
        return true;
    }
    marks[i] > 1
}

// The first such entry of those used; `used`, if there is none.
fn first_faulty(v: usize, trail: &[i32], marks: &[u8], used: usize) -> usize
    requires { (used ≤ length trail.now) × (used ≤ length marks.now) }
    ensures { Until (faulty_at v trail.now marks.now) used result }
{
    for i in 0..used {
        if is_faulty(v, trail, marks, i) {
            return i;
        }
    }
    used
}

// Was this variable met before, if it has a flag? The flags are for the variables from `low` on.
fn meet(flags: &mut [u8], low: usize, variable: usize) -> bool
    ensures value { result ≡ is_met flags.old low variable }
    ensures flags_after { flags.new ≡ met flags.old low variable }
{
    if variable < low {
        return false;
    }
    let k = variable - low;
    if k >= flags.len() {
        return false;
    }
    let before = flags[k] == 1;
    flags[k] = 1;
    before
}

// The first of n entries on a variable with a flag that an earlier entry stands on; n, if there is none.
fn first_met(trail: &[i32], n: usize, low: usize, flags: &mut [u8]) -> usize
    requires n_in_bounds { n ≤ length trail.now }
    requires no_flag { NoFlag flags.old }
    ensures until { Until (again_at trail.now low (low + length flags.old)) n result }
    ensures flags_after { flags.new ≡ met_by flags.old low trail.now n result }
{
    for i in 0..n {
        if meet(flags, low, code_at(trail, i) / 2) {
            return i;
        }
    }
    n
}

// The same for the SIZE variables from `low` on.
fn in_window<const SIZE: usize>(trail: &[i32], n: usize, low: usize) -> usize
    requires n_in_bounds { n ≤ length trail.now }
    requires size { SIZE < 2 ^ 63 }
    ensures { Until (again_at trail.now low (low + SIZE)) n result }
{
    let mut flags = [0; SIZE];
    first_met(trail, n, low, &mut flags)
}

// The first of n entries on the variable of an earlier one; n, if there is none. Each window of variables takes one pass over the entries up
// to the first found so far; most searches begin with no entry or few variables, and then no large window is cleared.
fn first_again(v: usize, trail: &[i32], n: usize) -> usize
    requires v_le_most_variables { v ≤ most_variables }
    requires n_in_bounds { n ≤ length trail.now }
    requires inside { Inside v trail.now n }
    ensures { Until (used_at trail.now) n result }
{
    if n < 2 {
        return n;
    }
    if v <= 1024 {
        return in_window::<1024>(trail, n, 1);
    }
    let mut first = n;
    for low in (1..=v).step_by(65536) {
        first = in_window::<65536>(trail, first, low);
    }
    first
}

// 18: the first wrong entry of those used, whatever their clause numbers.
pub fn first_wrong_entry(v: usize, trail: &[i32], marks: &[u8], used: usize) -> Option<usize>
    requires v_le_most_variables { v ≤ most_variables }
    requires used_in_bounds { (used ≤ length trail.now) × (used ≤ length marks.now) }
    ensures { (ns : List ℕ) → result ≡ first_where (wrong_entry_at v (slices trail.now marks.now ns)) used }
{
    let faulty = first_faulty(v, trail, marks, used);
    let first = first_again(v, trail, faulty);
    if first < used {
        return Some(first);
    }
    None
}
