// The judge of a drawing: document 01's "The drawing and its judge". Each cause is sought over the whole board before the next.
#![tactic(auto)]

ghost use Rattle.std.specs.Prelude.{◌≡◌, ◌<◌, ◌≤◌, length};
ghost use Rattle.answers.specs.First.{first_where};
ghost use Rattle.answers.specs.Outcome.{first_refusal};
ghost use Rattle.rules.specs.Record.{size};
ghost use Rattle.rules.specs.Read.{rules_board};
ghost use Rattle.rules.specs.Board.{neighbour};
ghost use Rattle.rules.specs.Drawing.{link_at};
ghost use Rattle.rules.specs.Walk.{loop_cells};
ghost use Rattle.rules.specs.Judge.{not_one_loop, rule_rows, judge_rows, judge_answer, says_yes, rule_verdict_outcome, verdict_outcome};
ghost use Rattle.judge.specs.WalkMarks.{ones_at, unseen_at};

use judge_cells::Test;
use judge_cells::cells::{first, white_at};
use judge_cells::drawing::other;
use rules::board::{Board, Drawn};
use rules::record::read;
use rules::{Direction, JudgeRefusal, MOST_CELLS, RuleRefusal};
use rules_board::{go, opposite};

// Marks the cells that the walk from s eastward passes until it is at s again.
fn trace(drawn: &Drawn, s: usize, seen: &mut [u8])
    requires s_bound { s < size drawn.now.board.grid }
    requires g_in_bounds { size drawn.now.board.grid ≤ length seen.old }
    ensures { seen.new ≡ ones_at (loop_cells (size drawn.now.board.grid) (neighbour drawn.now.board.grid) (link_at drawn.now.drawing.now) s) seen.old }
{
    let mut x = s;
    let mut d = Direction::East;
    for _ in 0..drawn.board.grid.size() {
        seen[x] = 1;
        x = go(drawn.board.grid, x, d);
        if x == s {
            break;
        }
        d = other(drawn.drawing[x], opposite(d));
    }
}

fn unseen_at(drawn: &Drawn, seen: &[u8], x: usize) -> bool
    requires g_in_bounds { size drawn.now.board.grid ≤ length seen.now }
    requires x_bound { x < size drawn.now.board.grid }
    ensures { result ≡ unseen_at (rules_board drawn.now.board) drawn.now.drawing.now seen.now x }
{
    seen[x] == 0 && white_at(drawn, x)
}

// The first white cell that is not marked.
fn first_unseen(drawn: &Drawn, seen: &[u8]) -> Option<usize>
    requires { size drawn.now.board.grid ≤ length seen.now }
    ensures { result ≡ first_where (unseen_at (rules_board drawn.now.board) drawn.now.drawing.now seen.now) (size drawn.now.board.grid) }
{
    for x in 0..drawn.board.grid.size() {
        if unseen_at(drawn, seen, x) {
            return Some(x);
        }
    }
    None
}

// 15: no white cell, or the first white cell not on the first white cell's loop.
fn not_one_loop(drawn: &Drawn) -> Option<usize>
    ensures { result ≡ not_one_loop (rules_board drawn.now.board) drawn.now.drawing.now }
{
    let Some(s) = first(Test::White, drawn) else {
        return Some(0);
    };
    let mut seen = [0u8; MOST_CELLS];
    trace(drawn, s, &mut seen);
    first_unseen(drawn, &seen)
}

// 10 to 15, in order.
pub fn judge_rules(drawn: &Drawn) -> Result<(), RuleRefusal>
    ensures { rule_verdict_outcome result ≡ first_refusal (rule_rows (rules_board drawn.now.board) drawn.now.drawing.now) says_yes }
{
    if let Some(x) = first(Test::DrawingByte, drawn) {
        return Err(RuleRefusal::DrawingByte(x));
    }
    if let Some(x) = first(Test::Touching, drawn) {
        return Err(RuleRefusal::Touching(x));
    }
    if let Some(x) = first(Test::ClueNotMet, drawn) {
        return Err(RuleRefusal::ClueNotMet(x));
    }
    if let Some(x) = first(Test::LinkUnmatched, drawn) {
        return Err(RuleRefusal::LinkUnmatched(x));
    }
    if let Some(x) = first(Test::NotTwoLinks, drawn) {
        return Err(RuleRefusal::NotTwoLinks(x));
    }
    if let Some(x) = not_one_loop(drawn) {
        return Err(RuleRefusal::NotOneLoop(x));
    }
    Ok(())
}

// 7, then the rules.
pub fn judge_grid(board: &Board, drawing: &[u8]) -> Result<(), JudgeRefusal>
    ensures { verdict_outcome result ≡ first_refusal (judge_rows (rules_board board.now) drawing.now) says_yes }
{
    if drawing.len() != board.grid.size() {
        return Err(JudgeRefusal::DrawingLength);
    }
    judge_rules(&Drawn {
        board: *board,
        drawing,
    })?;
    Ok(())
}

// The judge says yes, or names the first cause against it.
pub fn judge(record: &[u8], drawing: &[u8]) -> Result<(), JudgeRefusal>
    ensures { verdict_outcome result ≡ judge_answer «record».now drawing.now }
{
    let board = read(record)?;
    judge_grid(&board, drawing)
}
