// The trail in the three lent buffers while a search runs: the functions that write it.
#![tactic(auto)]

ghost use Rattle.std.specs.Prelude.{◌≡◌, ◌++◌, ◌-◌, ◌<◌, ◌≤◌, ◌^◌, pos, neg_ℤ, nat_abs, length, get_or, set, take, replicate};
ghost use Rattle.cnf.specs.Literals.{code_of, most_variables};
ghost use Rattle.search_theory.specs.Legal.{Legal};
ghost use Rattle.search_scan.specs.PackedValues.{bare_marks};
ghost use Rattle.search_trail.specs.Packed.{packed_trail, packed_marks, Packed, HasByte, with_value, made_true, assigned};

use cnf::{code_at, negated};

// Copies a literal of the list to a place of the trail.
pub fn copy_at(trail: &mut [i32], i: usize, list: &[i32], k: usize)
    requires { (i < length trail.old) × (k < length list.now) }
    ensures { trail.new ≡ set trail.old i (get_or list.now k (pos 0)) }
{
    let l = list[k];
    trail[i] = l;
}

// Negates the literal at a place of the trail.
pub fn negate_at(trail: &mut [i32], i: usize)
    requires { (i < length trail.old) × (nat_abs (get_or trail.old i (pos 0)) < 2 ^ 31) }
    ensures { trail.new ≡ set trail.old i (neg_ℤ (get_or trail.old i (pos 0))) }
{
    let l = trail[i];
    let m = -l;
    trail[i] = m;
}

// Writes "not" a variable at a place of the trail.
pub fn write_not(trail: &mut [i32], i: usize, variable: usize)
    requires { (i < length trail.old) × (variable ≤ most_variables) }
    ensures { trail.new ≡ set trail.old i (neg_ℤ (pos variable)) }
{
    trail[i] = negated(variable);
}

// Puts the number of a value above the mark in the byte of a code's variable.
fn set_value(marks: &mut [u8], k: usize, n: u8)
    requires has_byte { HasByte marks.old k }
    requires n_bound { n ≤ 2 }
    ensures { marks.new ≡ with_value marks.old k n }
{
    let x = k / 2 - 1;
    marks[x] = marks[x] % 2 + n * 2;
}

// Makes the literal at a place true.
fn make_true(trail: &[i32], marks: &mut [u8], i: usize)
    requires i_in_bounds { i < length trail.now }
    requires has_byte { HasByte marks.old (code_of (get_or trail.now i (pos 0))) }
    ensures { marks.new ≡ made_true trail.now marks.old i }
{
    let k = code_at(trail, i);
    set_value(marks, k, 1 + (k % 2) as u8);
}

// Uses the entry at a place: its literal is made true, and it is marked. Its variable's byte may be its own, so that is written first.
pub fn assign(trail: &[i32], marks: &mut [u8], i: usize, mark: u8)
    requires i_in_bounds { (i < length trail.now) × (i < length marks.old) × (mark ≤ 1) }
    requires has_byte { HasByte marks.old (code_of (get_or trail.now i (pos 0))) }
    ensures { marks.new ≡ assigned trail.now marks.old i mark }
{
    make_true(trail, marks, i);
    marks[i] = marks[i] / 2 * 2 + mark;
}

// Takes the values of the entries from `to` on away again.
pub fn unassign(trail: &[i32], marks: &mut [u8], used: usize, to: usize)
    requires packed { Packed (length marks.old) trail.now marks.old used }
    requires to_le_used { to ≤ used }
    ensures { marks.new ≡ packed_marks trail.now marks.old to }
{
    for i in (to..used).rev() {
        let k = code_at(trail, i);
        set_value(marks, k, 0);
    }
}

// Puts the values that the used entries give above the marks.
pub fn pack_values(trail: &[i32], marks: &mut [u8], used: usize)
    requires packed { Packed (length marks.old) trail.now marks.old 0 }
    requires legal { Legal (length marks.old) (packed_trail trail.now marks.old used) }
    ensures { marks.new ≡ packed_marks trail.now marks.old used }
{
    for i in 0..used {
        make_true(trail, marks, i);
    }
}

// Writes a zero from a place on.
pub fn clear_from<T: Copy>(buffer: &mut [T], used: usize, zero: T)
    requires { used ≤ length buffer.old }
    ensures { buffer.new ≡ take used buffer.old ++ replicate (length buffer.old - used) zero }
{
    for element in buffer[used..].iter_mut() {
        *element = zero;
    }
}

// Takes the values away from the used marks, and writes 0 from there on.
pub fn clear_marks(marks: &mut [u8], used: usize)
    requires { used ≤ length marks.old }
    ensures { marks.new ≡ take used (bare_marks marks.old) ++ replicate (length marks.old - used) 0 }
{
    for mark in marks[..used].iter_mut() {
        *mark %= 2;
    }
    clear_from(marks, used, 0);
}
