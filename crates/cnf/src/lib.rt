// Clause lists: the check of V and of a list, the number of clauses, and the few functions that touch an i32.
#![tactic(auto)]

ghost use Rattle.std.specs.Prelude.{◌≡◌, [], ◌∷◌, ◌+◌, ◌-◌, ◌/◌, ◌%◌, ◌^◌, ◌<◌, ◌≤◌, length, get_or, pos, neg_ℤ};
ghost use Rattle.answers.specs.First.{first_where};
ghost use Rattle.answers.specs.Writer.{Puts};
ghost use Rattle.cnf.specs.Literals.{closes, code_of, most_variables, too_many_variables, beyond_at, unclosed, wrong_list};
ghost use Rattle.cnf.specs.Clauses.{clause_count};

use answers::Writer;

// The code of the literal at a place: twice its variable, and 1 more for "not".
pub fn code_at(list: &[i32], i: usize) -> usize
    requires { i < length list.now }
    ensures { result ≡ code_of (get_or list.now i (pos 0)) }
{
    let literal = list[i];
    literal.unsigned_abs() as usize * 2 + usize::from(literal < 0)
}

// Does a clause end at a place?
pub fn closes_at(list: &[i32], i: usize) -> bool
    requires { i < length list.now }
    ensures { result ≡ closes (get_or list.now i (pos 0)) }
{
    list[i] == 0
}

// A variable as a literal of a list; 0 closes a clause.
pub fn literal(variable: usize) -> i32
    requires { variable ≤ most_variables }
    ensures { result ≡ pos variable }
{
    variable as i32
}

// "Not" a variable.
pub fn negated(variable: usize) -> i32
    requires { variable ≤ most_variables }
    ensures { result ≡ neg_ℤ (pos variable) }
{
    -(variable as i32)
}

// Puts a variable, or the closing 0.
pub fn put(out: &mut Writer<i32>, variable: usize)
    requires { (variable ≤ most_variables) × (out.old.place < 2 ^ 64 - 1) }
    ensures { Puts out.old (pos variable ∷ []) out.new }
{
    out.put(literal(variable));
}

// Puts "not" a variable.
pub fn put_not(out: &mut Writer<i32>, variable: usize)
    requires { (variable ≤ most_variables) × (out.old.place < 2 ^ 64 - 1) }
    ensures { Puts out.old (neg_ℤ (pos variable) ∷ []) out.new }
{
    out.put(negated(variable));
}

// 17, for V alone.
pub fn too_many_variables(v: usize) -> bool
    ensures { result ≡ too_many_variables v }
{
    v > 16777216
}

// The first literal beyond V.
fn first_beyond(list: &[i32], v: usize) -> Option<usize>
    ensures { result ≡ first_where (beyond_at v list.now) (length list.now) }
{
    for i in 0..list.len() {
        if code_at(list, i) / 2 > v {
            return Some(i);
        }
    }
    None
}

// Is the list not empty, and does it not end in 0?
pub fn is_unclosed(list: &[i32]) -> bool
    ensures { result ≡ unclosed list.now }
{
    let n = list.len();
    if n == 0 {
        return false;
    }
    code_at(list, n - 1) != 0
}

// 16: where a list is wrong for V.
pub fn wrong_list(list: &[i32], v: usize) -> Option<usize>
    ensures { result ≡ wrong_list v list.now }
{
    if let Some(i) = first_beyond(list, v) {
        return Some(i);
    }
    is_unclosed(list).then_some(list.len())
}

// The closing zeros of a part of a list. As compiled, four counts of 32 bits are made at a time; of 64 bits it would be two.
fn closed_in(part: &[i32]) -> u32
    requires { length part.now < 2 ^ 32 }
    ensures { result ≡ clause_count part.now }
{
    let mut n: u32 = 0;
    for literal in part {
        if *literal == 0 {
            n += 1;
        }
    }
    n
}

// The number of clauses: the closing zeros of parts of 2^31 elements, and of what is left.
pub fn clause_count(list: &[i32]) -> usize
    ensures { result ≡ clause_count list.now }
{
    let mut n: usize = 0;
    for part in list.chunks(2147483648) {
        n += closed_in(part) as usize;
    }
    n
}
