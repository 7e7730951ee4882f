// What the search checks of the numbers beside the trail handed in: the clause behind each entry. A table of places keeps the look for a clause short.
#![tactic(auto)]

ghost use Rattle.std.specs.Prelude.{◌≡◌, [], ◌+◌, ◌-◌, ◌<◌, ◌≤◌, pos, length, get_or, drop};
ghost use Rattle.answers.specs.First.{Until};
ghost use Rattle.answers.specs.Lent.{filled};
ghost use Rattle.cnf.specs.Literals.{most_variables, code_of};
ghost use Rattle.cnf.specs.Clauses.{place_after};
ghost use Rattle.search.specs.Trail.{slices, entry_at, trail_of, variable_value};
ghost use Rattle.search.specs.Reasons.{is_reason, wrong_number, wrong_number_at, wrong_numbers};
ghost use Rattle.search_scan.specs.PackedValues.{Within};
ghost use Rattle.search_numbers.specs.Places.{places_by, places_in, IsTable};
ghost use Rattle.search_numbers.specs.Entries.{HasEntries, Readable, numbered_at};
ghost use Rattle.search_numbers.specs.Window.{bytes_of, noted, code_passes, byte_passes, wrong_in};

use cnf::{clause_count, closes_at, code_at};

// The first of the used entries with a number; `used`, if there is none.
fn first_numbered(numbers: &[u64], used: usize) -> usize
    requires { used ≤ length numbers.now }
    ensures { Until (numbered_at numbers.now) used result }
{
    for (i, number) in numbers[..used].iter().enumerate() {
        if *number != 0 {
            return i;
        }
    }
    used
}

// Where the clause after the next n begins, from place i on; the list's end, if there is none.
fn after_clauses(list: &[i32], i: usize, n: usize) -> usize
    ensures { result ≡ i + place_after n (drop i list.now) }
{
    let mut left = n;
    for j in i..list.len() {
        if left == 0 {
            return j;
        }
        if closes_at(list, j) {
            left -= 1;
        }
    }
    list.len().max(i)
}

// Fills a table: where the list begins, and then the clause after every `stride` clauses.
fn fill_table(list: &[i32], stride: usize, table: &mut [usize])
    ensures { table.new ≡ places_by stride list.now (length table.old) }
{
    let mut place: usize = 0;
    for start in table.iter_mut() {
        *start = place;
        place = after_clauses(list, place, stride);
    }
}

// Where the clause with a number begins; the list's end, if there is none. From the last place of the table before it there are few clauses to pass.
fn clause_start(list: &[i32], table: &[usize], stride: usize, number: u64) -> usize
    requires table { IsTable list.now stride table.now }
    requires le_number { 1 ≤ number }
    ensures { result ≡ place_after (number - 1) list.now }
{
    let clauses = (number - 1) as usize;
    let j = (clauses / stride).min(table.len() - 1);
    after_clauses(list, table[j], clauses - j * stride)
}

// Is the literal with a code false, if its variable has a byte? The bytes are for the variables from `low` on.
fn passes(values: &[u8], low: usize, k: usize) -> bool
    ensures { result ≡ code_passes low values.now k }
{
    let variable = k / 2;
    if variable < low {
        return true;
    }
    let x = variable - low;
    if x >= values.len() {
        return true;
    }
    values[x] as usize == 2 - k % 2
}

// Is the clause at a place a reason for the literal of entry i, as far as the window shows?
fn is_reason(list: &[i32], start: usize, trail: &[i32], i: usize, values: &[u8], low: usize) -> bool
    requires { i < length trail.now }
    ensures { result ≡ is_reason (byte_passes low values.now) (get_or trail.now i (pos 0)) (drop start list.now) }
{
    let own = code_at(trail, i);
    let mut has = false;
    for j in start..list.len() {
        let k = code_at(list, j);
        if k == 0 {
            return has;
        }
        if k == own {
            has = true;
        } else if !passes(values, low, k) {
            return false;
        }
    }
    false
}

// Is the number of entry i wrong, as far as the window shows?
fn is_wrong(
    list: &[i32],
    table: &[usize],
    stride: usize,
    trail: &[i32],
    marks: &[u8],
    numbers: &[u64],
    i: usize,
    values: &[u8],
    low: usize,
) -> bool
    requires table { IsTable list.now stride table.now }
    requires has_entries { HasEntries (slices trail.now marks.now numbers.now) (i + 1) }
    ensures { let s = slices trail.now marks.now numbers.now in
        result ≡ wrong_number (byte_passes low values.now) list.now (entry_at s i) }
{
    let number = numbers[i];
    if number == 0 {
        return false;
    }
    if marks[i] == 1 {
        return true;
    }
    let start = clause_start(list, table, stride, number);
    !is_reason(list, start, trail, i, values, low)
}

// Makes the literal of entry i true, if its variable is in the window.
fn note(trail: &[i32], i: usize, values: &mut [u8], low: usize)
    requires { i < length trail.now }
    ensures { values.new ≡ noted low values.old (code_of (get_or trail.now i (pos 0))) }
{
    let k = code_at(trail, i);
    let variable = k / 2;
    if variable < low {
        return;
    }
    let x = variable - low;
    if x >= values.len() {
        return;
    }
    values[x] = 1 + (k % 2) as u8;
}

// The first of n entries whose number is wrong as far as the window shows; n, if there is none.
fn first_wrong(
    list: &[i32],
    table: &[usize],
    stride: usize,
    trail: &[i32],
    marks: &[u8],
    numbers: &[u64],
    n: usize,
    values: &mut [u8],
    low: usize,
) -> usize
    requires table { IsTable list.now stride table.now }
    requires has_entries { HasEntries (slices trail.now marks.now numbers.now) n }
    requires values_value { values.old ≡ bytes_of (variable_value []) low (length values.old) }
    ensures fact { let s = slices trail.now marks.now numbers.now in
        Until (wrong_in low (low + length values.old) list.now s) n result }
    ensures values_after { let s = slices trail.now marks.now numbers.now in
        values.new ≡ bytes_of (variable_value (trail_of s result)) low (length values.old) }
{
    for i in 0..n {
        if is_wrong(list, table, stride, trail, marks, numbers, i, values, low) {
            return i;
        }
        note(trail, i, values, low);
    }
    n
}

// The first of n entries whose number is wrong; n, if there is none. Each window of variables takes one pass over the entries up to the first
// found so far; few variables need no large window, which would be cleared first.
fn in_windows(
    v: usize,
    list: &[i32],
    table: &[usize],
    stride: usize,
    trail: &[i32],
    marks: &[u8],
    numbers: &[u64],
    n: usize,
) -> usize
    requires readable { Readable v list.now (slices trail.now marks.now numbers.now) n }
    requires table { IsTable list.now stride table.now }
    ensures { let s = slices trail.now marks.now numbers.now in
        Until (wrong_number_at list.now s) n result }
{
    if v <= 1024 {
        let mut bytes = [0; 1024];
        return first_wrong(list, table, stride, trail, marks, numbers, n, &mut bytes, 1);
    }
    let mut first = n;
    for low in (1..=v).step_by(262144) {
        let mut bytes = [0; 262144];
        first = first_wrong(
            list, table, stride, trail, marks, numbers, first, &mut bytes, low,
        );
    }
    first
}

// The same with a table of places, one at least, which is filled first.
fn with_places(
    v: usize,
    list: &[i32],
    stride: usize,
    table: &mut [usize],
    trail: &[i32],
    marks: &[u8],
    numbers: &[u64],
    n: usize,
) -> usize
    requires readable { Readable v list.now (slices trail.now marks.now numbers.now) n }
    requires le_stride { (1 ≤ stride) × (1 ≤ length table.old) }
    ensures fact { let s = slices trail.now marks.now numbers.now in
        Until (wrong_number_at list.now s) n result }
    ensures table_after { table.new ≡ places_by stride list.now (length table.old) }
{
    fill_table(list, stride, table);
    in_windows(v, list, table, stride, trail, marks, numbers, n)
}

// The same with as much of a table as the list needs: a place for each clause if it is long enough.
fn with_table(
    v: usize,
    list: &[i32],
    table: &mut [usize],
    trail: &[i32],
    marks: &[u8],
    numbers: &[u64],
    n: usize,
) -> usize
    requires readable { Readable v list.now (slices trail.now marks.now numbers.now) n }
    requires in_bounds { 1 ≤ length table.old }
    ensures fact { let s = slices trail.now marks.now numbers.now in
        Until (wrong_number_at list.now s) n result }
    ensures table_after { table.new ≡ filled table.old (places_in (length table.old) list.now) }
{
    let clauses = clause_count(list);
    let stride = clauses / table.len() + 1;
    let places = clauses.min(table.len() - 1) + 1;
    with_places(
        v,
        list,
        stride,
        &mut table[..places],
        trail,
        marks,
        numbers,
        n,
    )
}

// The same: few variables and short lists need no large table.
fn first_wrong_number(
    v: usize,
    list: &[i32],
    trail: &[i32],
    marks: &[u8],
    numbers: &[u64],
    n: usize,
) -> usize
    requires { Readable v list.now (slices trail.now marks.now numbers.now) n }
    ensures { let s = slices trail.now marks.now numbers.now in
        Until (wrong_number_at list.now s) n result }
{
    if v <= 1024 || list.len() <= 1024 {
        return with_table(v, list, &mut [0; 1024], trail, marks, numbers, n);
    }
    with_table(v, list, &mut [0; 32768], trail, marks, numbers, n)
}

// 22: there are not V numbers, or the first of the used entries whose number is wrong. If all used entries have 0, the list is not gone through.
pub fn wrong_numbers(
    v: usize,
    list: &[i32],
    trail: &[i32],
    marks: &[u8],
    numbers: &[u64],
    used: usize,
) -> Option<usize>
    requires v_le_most_variables { v ≤ most_variables }
    requires within { Within v list.now }
    requires used_in_bounds { (used ≤ length trail.now) × (used ≤ length marks.now) }
    requires used_le_v { used ≤ v }
    ensures { let s = slices trail.now marks.now numbers.now in
        result ≡ wrong_numbers v list.now s used }
{
    if numbers.len() != v {
        return Some(0);
    }
    if first_numbered(numbers, used) == used {
        return None;
    }
    let first = first_wrong_number(v, list, trail, marks, numbers, used);
    if first < used {
        return Some(first);
    }
    None
}
