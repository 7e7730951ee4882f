// Writes the families of clauses, in document 01's order.
#![tactic(auto, using(encoder_shapes::proofs::Turns::shapes))]

ghost use Rattle.std.specs.Prelude.{◌≤◌, ◌<◌};
ghost use Rattle.answers.specs.Writer.{Puts};
ghost use Rattle.rules.specs.Record.{size};
ghost use Rattle.rules.specs.Read.{rules_board};
ghost use Rattle.cnf.specs.Literals.{most_variables};
ghost use Rattle.answers.specs.Lists.{each, joined};
ghost use Rattle.encoder.specs.Variables.{opens, at_cell};
ghost use Rattle.encoder.specs.Clauses.{start, clause_list, list_of};
ghost use Rattle.encoder_shapes.specs.Limits.{WithinLimits, PartsWithinLimits};
ghost use Rattle.encoder_call.specs.Families.{family_at, family_parts};

use super::Family;
use answers::Writer;
use encoder_cells::{distance_at, links_at, start_at, touching_at};
use encoder_lines::clue_lines;
use encoder_numbers::CellNumbers;
use encoder_numbers::cells::cell_numbers;
use encoder_numbers::numbering::Numbering;
use encoder_shapes::at_least_one;
use judge_cells::cells::is_open;

// What a family says of an open cell.
fn open_cell(family: Family, out: &mut Writer<i32>, f: usize, x: CellNumbers)
    requires parts_within_limits { PartsWithinLimits out.old.place (family_parts «family» f x) }
    requires f_nonzero { (0 < f) × (x.distance ≤ most_variables) }
    ensures { Puts out.old (joined (family_parts «family» f x)) out.new }
{
    match family {
        Family::Touching => touching_at(out, x),
        Family::Links => links_at(out, x),
        Family::Start => start_at(out, x),
        Family::Distance => distance_at(out, f, x),
    }
}

// What a family says of a cell: nothing of one that is not open.
fn cell(family: Family, out: &mut Writer<i32>, numbering: &Numbering, x: usize)
    requires fact { let b = rules_board numbering.now.board in WithinLimits out.old.place (list_of b (at_cell b (family_at «family» b) x)) }
    requires x_bound { x < size numbering.now.board.grid }
    ensures { let b = rules_board numbering.now.board in Puts out.old (list_of b (at_cell b (family_at «family» b) x)) out.new }
{
    if is_open(&numbering.board, x) {
        let numbers = cell_numbers(numbering, x);
        open_cell(family, out, numbering.sizes.opens, numbers);
    }
}

// What a family says of all cells.
fn cells(family: Family, out: &mut Writer<i32>, numbering: &Numbering)
    requires { let b = rules_board numbering.now.board in WithinLimits out.old.place (list_of b (each (opens b) (family_at «family» b))) }
    ensures { let b = rules_board numbering.now.board in Puts out.old (list_of b (each (opens b) (family_at «family» b))) out.new }
{
    for x in 0..numbering.board.grid.size() {
        cell(family, out, numbering, x);
    }
}

// 4. Start: [all S], whose numbers come after those of Z; then cell by cell.
fn start(out: &mut Writer<i32>, numbering: &Numbering)
    requires { let b = rules_board numbering.now.board in WithinLimits out.old.place (list_of b (start b)) }
    ensures { let b = rules_board numbering.now.board in Puts out.old (list_of b (start b)) out.new }
{
    let f = numbering.sizes.opens;
    at_least_one(out, f + 1, f);
    cells(Family::Start, out, numbering);
}

// All families, in order.
pub fn all_families(out: &mut Writer<i32>, numbering: &Numbering)
    requires { WithinLimits out.old.place (clause_list (rules_board numbering.now.board)) }
    ensures { Puts out.old (clause_list (rules_board numbering.now.board)) out.new }
{
    cells(Family::Touching, out, numbering);
    clue_lines(out, numbering);
    cells(Family::Links, out, numbering);
    start(out, numbering);
    cells(Family::Distance, out, numbering);
}
