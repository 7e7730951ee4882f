// Puts clauses by the numbers of their variables: a function for each shape of clause, and one for each run of clauses.
// Beyond the end of the list nothing is written, and the writer's place is counted all the same. Each loop but that of
// `at_most_one` holds the writer in a variable of its own.
#![tactic(auto, using(crate::proofs::Turns::shapes))]

ghost use Rattle.std.specs.Prelude.{◌+◌, ◌<◌, ◌^◌};
ghost use Rattle.answers.specs.Writer.{Puts};
ghost use Rattle.encoder_shapes.specs.Limits.{WithinLimits};
ghost use Rattle.encoder_shapes.specs.Shapes.{unit, unit_not, not_both, implies, or_not, implies_either, both_imply, literals, at_least_one, or_at_least_one};
ghost use Rattle.encoder_shapes.specs.Shapes.{each_unit_not, each_not_both, each_implies, each_both_imply, at_most_one};

use answers::Writer;
use cnf::{literal, negated, put};

// [a]
pub fn unit(out: &mut Writer<i32>, a: usize)
    requires { WithinLimits out.old.place (unit a) }
    ensures { Puts out.old (unit a) out.new }
{
    out.put_slice(&[literal(a), 0]);
}

// [−a]
pub fn unit_not(out: &mut Writer<i32>, a: usize)
    requires { WithinLimits out.old.place (unit_not a) }
    ensures { Puts out.old (unit_not a) out.new }
{
    out.put_slice(&[negated(a), 0]);
}

// [−a −b]
pub fn not_both(out: &mut Writer<i32>, a: usize, b: usize)
    requires { WithinLimits out.old.place (not_both a b) }
    ensures { Puts out.old (not_both a b) out.new }
{
    out.put_slice(&[negated(a), negated(b), 0]);
}

// [−a b]
pub fn implies(out: &mut Writer<i32>, a: usize, b: usize)
    requires { WithinLimits out.old.place (implies a b) }
    ensures { Puts out.old (implies a b) out.new }
{
    out.put_slice(&[negated(a), literal(b), 0]);
}

// [a −b]
pub fn or_not(out: &mut Writer<i32>, a: usize, b: usize)
    requires { WithinLimits out.old.place (or_not a b) }
    ensures { Puts out.old (or_not a b) out.new }
{
    out.put_slice(&[literal(a), negated(b), 0]);
}

// [−a b c]
pub fn implies_either(out: &mut Writer<i32>, a: usize, b: usize, c: usize)
    requires { WithinLimits out.old.place (implies_either a b c) }
    ensures { Puts out.old (implies_either a b c) out.new }
{
    out.put_slice(&[negated(a), literal(b), literal(c), 0]);
}

// [−a −b c]
pub fn both_imply(out: &mut Writer<i32>, a: usize, b: usize, c: usize)
    requires { WithinLimits out.old.place (both_imply a b c) }
    ensures { Puts out.old (both_imply a b c) out.new }
{
    out.put_slice(&[negated(a), negated(b), literal(c), 0]);
}

// The n numbers from the first on.
fn literals(out: &mut Writer<i32>, first: usize, n: usize)
    requires { WithinLimits out.old.place (literals first n) }
    ensures { Puts out.old (literals first n) out.new }
{
    let mut own = out.take();
    for k in 0..n {
        put(&mut own, first + k);
    }
    *out = own;
}

// [the n numbers from the first on]
pub fn at_least_one(out: &mut Writer<i32>, first: usize, n: usize)
    requires { WithinLimits out.old.place (at_least_one first n) }
    ensures { Puts out.old (at_least_one first n) out.new }
{
    literals(out, first, n);
    put(out, 0);
}

// [a, the n numbers from the first on]
pub fn or_at_least_one(out: &mut Writer<i32>, a: usize, first: usize, n: usize)
    requires { WithinLimits out.old.place (or_at_least_one a first n) }
    ensures { Puts out.old (or_at_least_one a first n) out.new }
{
    put(out, a);
    at_least_one(out, first, n);
}

// [−b], for the n numbers b from the first on.
pub fn each_unit_not(out: &mut Writer<i32>, first: usize, n: usize)
    requires { WithinLimits out.old.place (each_unit_not first n) }
    ensures { Puts out.old (each_unit_not first n) out.new }
{
    let mut own = out.take();
    for k in 0..n {
        unit_not(&mut own, first + k);
    }
    *out = own;
}

// [−a −b], for the n numbers b from the first on.
pub fn each_not_both(out: &mut Writer<i32>, a: usize, first: usize, n: usize)
    requires { WithinLimits out.old.place (each_not_both a first n) }
    ensures { Puts out.old (each_not_both a first n) out.new }
{
    let mut own = out.take();
    for k in 0..n {
        not_both(&mut own, a, first + k);
    }
    *out = own;
}

// [−a b], for the n numbers b from the first on.
pub fn each_implies(out: &mut Writer<i32>, a: usize, first: usize, n: usize)
    requires { WithinLimits out.old.place (each_implies a first n) }
    ensures { Puts out.old (each_implies a first n) out.new }
{
    let mut own = out.take();
    for k in 0..n {
        implies(&mut own, a, first + k);
    }
    *out = own;
}

// [−a −b c], for n numbers b and c that go on from these.
pub fn each_both_imply(out: &mut Writer<i32>, a: usize, b: usize, c: usize, n: usize)
    requires { WithinLimits out.old.place (each_both_imply a b c n) }
    ensures { Puts out.old (each_both_imply a b c n) out.new }
{
    let mut own = out.take();
    for k in 0..n {
        both_imply(&mut own, a, b + k, c + k);
    }
    *out = own;
}

// [−a −b], for each pair of the n numbers from the first on.
pub fn at_most_one(out: &mut Writer<i32>, first: usize, n: usize)
    requires within_limits { WithinLimits out.old.place (at_most_one first n) }
    requires n_bound { first + n < 2 ^ 64 }
    ensures { Puts out.old (at_most_one first n) out.new }
{
    for k in 0..n {
        each_not_both(out, first + k, first + k + 1, n - (k + 1));
    }
}
