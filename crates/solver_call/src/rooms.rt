// Whether the lent buffers have what a grid needs.
ghost use Rattle.std.specs.Prelude.{◌≡◌};
ghost use Rattle.answers.specs.declared.Outcome.{Outcome};
ghost use Rattle.answers.specs.Outcome.{first_refusal};
ghost use Rattle.solver_listing.specs.Room.{room_tells};
ghost use Rattle.solver_call.specs.Room.{short_rows};
ghost use Rattle.solver_call.specs.Answer.{lent_of};

use super::Needs;
use solver_listing::TooShort;
use solver_listing::rooms::work_room;

// 6: the first buffer that is shorter than needed.
pub fn first_short(
    list: &[i32],
    trail: &[i32],
    marks: &[u8],
    numbers: &[u64],
    values: &[u8],
    drawing: &[u8],
    needed: Needs,
) -> Result<(), TooShort>
    ensures { (t : Outcome) → room_tells result t ≡ first_refusal (short_rows (lent_of list.now trail.now
        marks.now numbers.now values.now drawing.now) needed) t }
{
    work_room(
        list,
        trail,
        marks,
        numbers,
        needed.elements,
        needed.variables,
    )?;
    if values.len() < needed.variables {
        return Err(TooShort(needed.variables));
    }
    if drawing.len() < needed.cells {
        return Err(TooShort(needed.cells));
    }
    Ok(())
}
