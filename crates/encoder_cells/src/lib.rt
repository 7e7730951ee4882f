// Writes the clauses of an open cell: families 1, 3, 4 and 5 of document 01, by the numbers of their variables.
#![tactic(auto, using(encoder_shapes::proofs::Turns::shapes))]

ghost use Rattle.std.specs.Prelude.{◌+◌, ◌-◌, ◌≤◌, ◌<◌};
ghost use Rattle.answers.specs.Writer.{Puts};
ghost use Rattle.cnf.specs.Literals.{most_variables};
ghost use Rattle.answers.specs.Lists.{joined};
ghost use Rattle.encoder_shapes.specs.Limits.{WithinLimits, PartsWithinLimits};
ghost use Rattle.encoder_cells.specs.Cell.{literal_if_present, not_both_if_present, any_parts, pair_parts, touching_parts, white_ends, white_parts, one_way_parts};
ghost use Rattle.encoder_cells.specs.Cell.{link_parts, eastward_parts, start_parts, nearer, nearer_parts, distance_parts};

use answers::Writer;
use cnf::{put, put_not};
use encoder_numbers::{CellNumbers, NeighbourNumbers};
use encoder_shapes::{
    each_both_imply, each_implies, each_not_both, implies, not_both, or_at_least_one, or_not,
};

fn literal_if_present(out: &mut Writer<i32>, a: usize)
    requires { WithinLimits out.old.place (literal_if_present a) }
    ensures { Puts out.old (literal_if_present a) out.new }
{
    if a == 0 {
        return;
    }
    put(out, a);
}

// [−a −b], if both are there.
fn not_both_if_present(out: &mut Writer<i32>, a: usize, b: usize)
    requires { WithinLimits out.old.place (not_both_if_present a b) }
    ensures { Puts out.old (not_both_if_present a b) out.new }
{
    if a == 0 {
        return;
    }
    if b == 0 {
        return;
    }
    not_both(out, a, b);
}

// 1. Touching.
pub fn touching_at(out: &mut Writer<i32>, x: CellNumbers)
    requires { PartsWithinLimits out.old.place (touching_parts x) }
    ensures { Puts out.old (joined (touching_parts x)) out.new }
{
    not_both_if_present(out, x.black, x.east.black);
    not_both_if_present(out, x.black, x.south.black);
}

// [z, those of the four that are there]
fn any_four(out: &mut Writer<i32>, z: usize, n: usize, e: usize, s: usize, w: usize)
    requires { PartsWithinLimits out.old.place (any_parts z n e s w) }
    ensures { Puts out.old (joined (any_parts z n e s w)) out.new }
{
    put(out, z);
    literal_if_present(out, n);
    literal_if_present(out, e);
    literal_if_present(out, s);
    literal_if_present(out, w);
    put(out, 0);
}

// [−a −b], for each pair of the four that are there.
fn pairs_four(out: &mut Writer<i32>, n: usize, e: usize, s: usize, w: usize)
    requires { PartsWithinLimits out.old.place (pair_parts n e s w) }
    ensures { Puts out.old (joined (pair_parts n e s w)) out.new }
{
    not_both_if_present(out, n, e);
    not_both_if_present(out, n, s);
    not_both_if_present(out, n, w);
    not_both_if_present(out, e, s);
    not_both_if_present(out, e, w);
    not_both_if_present(out, s, w);
}

// [−(x→y) −Zx] [−(x→y) −Zy]
fn white_ends(out: &mut Writer<i32>, z: usize, y: NeighbourNumbers)
    requires { WithinLimits out.old.place (white_ends z y) }
    ensures { Puts out.old (white_ends z y) out.new }
{
    if y.out == 0 {
        return;
    }
    not_both(out, y.out, z);
    not_both(out, y.out, y.black);
}

fn all_white_ends(out: &mut Writer<i32>, x: CellNumbers)
    requires { PartsWithinLimits out.old.place (white_parts x) }
    ensures { Puts out.old (joined (white_parts x)) out.new }
{
    white_ends(out, x.black, x.north);
    white_ends(out, x.black, x.east);
    white_ends(out, x.black, x.south);
    white_ends(out, x.black, x.west);
}

// [−(x→y) −(y→x)], east then south.
fn one_ways(out: &mut Writer<i32>, x: CellNumbers)
    requires { PartsWithinLimits out.old.place (one_way_parts x) }
    ensures { Puts out.old (joined (one_way_parts x)) out.new }
{
    not_both_if_present(out, x.east.out, x.east.back);
    not_both_if_present(out, x.south.out, x.south.back);
}

// 3. Links.
pub fn links_at(out: &mut Writer<i32>, x: CellNumbers)
    requires { PartsWithinLimits out.old.place (link_parts x) }
    ensures { Puts out.old (joined (link_parts x)) out.new }
{
    all_white_ends(out, x);
    any_four(
        out,
        x.black,
        x.north.out,
        x.east.out,
        x.south.out,
        x.west.out,
    );
    pairs_four(out, x.north.out, x.east.out, x.south.out, x.west.out);
    any_four(
        out,
        x.black,
        x.north.back,
        x.east.back,
        x.south.back,
        x.west.back,
    );
    pairs_four(out, x.north.back, x.east.back, x.south.back, x.west.back);
    one_ways(out, x);
}

// [−Sx x→east], or [−Sx] without an open east neighbour.
fn eastward(out: &mut Writer<i32>, s: usize, e: usize)
    requires { PartsWithinLimits out.old.place (eastward_parts s e) }
    ensures { Puts out.old (joined (eastward_parts s e)) out.new }
{
    put_not(out, s);
    literal_if_present(out, e);
    put(out, 0);
}

// 4. Start.
pub fn start_at(out: &mut Writer<i32>, x: CellNumbers)
    requires { PartsWithinLimits out.old.place (start_parts x) }
    ensures { Puts out.old (joined (start_parts x)) out.new }
{
    not_both(out, x.start, x.black);
    each_implies(out, x.start, 1, x.rank);
    eastward(out, x.start, x.east.out);
}

// [−(x→y) −Q(x,k) Q(y,k−1)], k = 1 to F − 1.
fn nearer(out: &mut Writer<i32>, q: usize, f: usize, y: NeighbourNumbers)
    requires within_limits { WithinLimits out.old.place (nearer q f y) }
    requires f_nonzero { (0 < f) × (q ≤ most_variables) }
    ensures { Puts out.old (nearer q f y) out.new }
{
    if y.out == 0 {
        return;
    }
    each_both_imply(out, y.out, q + 1, y.distance, f - 1);
}

fn all_nearer(out: &mut Writer<i32>, f: usize, x: CellNumbers)
    requires parts_within_limits { PartsWithinLimits out.old.place (nearer_parts f x) }
    requires f_nonzero { (0 < f) × (x.distance ≤ most_variables) }
    ensures { Puts out.old (joined (nearer_parts f x)) out.new }
{
    nearer(out, x.distance, f, x.north);
    nearer(out, x.distance, f, x.east);
    nearer(out, x.distance, f, x.south);
    nearer(out, x.distance, f, x.west);
}

// 5. Distance.
pub fn distance_at(out: &mut Writer<i32>, f: usize, x: CellNumbers)
    requires parts_within_limits { PartsWithinLimits out.old.place (distance_parts f x) }
    requires f_nonzero { (0 < f) × (x.distance ≤ most_variables) }
    ensures { Puts out.old (joined (distance_parts f x)) out.new }
{
    or_at_least_one(out, x.black, x.distance, f);
    each_not_both(out, x.black, x.distance, f);
    implies(out, x.start, x.distance);
    or_not(out, x.start, x.distance);
    each_not_both(out, x.start, x.distance + 1, f - 1);
    all_nearer(out, f, x);
}
