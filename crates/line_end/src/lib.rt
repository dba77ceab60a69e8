// Where the line of a corner ends: on the edge of the sector, away from the goal.
#![tactic(auto)]

ghost use Rattle.std.specs.Prelude.{◌≡◌, ◌<◌, ◌≤◌, ltb};
ghost use Rattle.fields.specs.Cell.{Inside};
ghost use Rattle.line_nearest.specs.Line.{nearest};
ghost use Rattle.line_end.specs.LineEnd.{edge_away, after, further, first_leaving, slanted_end, line_end, line_end_answer};
ghost use Rattle.line_end.specs.Away.{HoldsSlanted, HoldsStraight, EndRefused};
ghost use Rattle.line_end.specs.Mirror.{HoldsMirrored};

use fields::FieldCell;
use refusals::Refusal;

// What the call answers: 0 and the cell that the line ends in, or the number of a refusal.
#[repr(C)]
#[derive(Clone, Copy)]
pub struct LineEnd {
    pub number: u8,
    pub cell: FieldCell,
}

// The edge column or row away from the goal: 9 where the corner lies beyond the goal's column or row, else 0.
fn edge_away(beyond: bool) -> usize
    ensures { result ≡ edge_away beyond }
{
    if beyond { 9 } else { 0 }
}

// How many columns or rows lie between one and the edge away from the goal, which is 9 or 0.
fn after(beyond: bool, x: usize) -> usize
    requires { x < 10 }
    ensures { (result ≡ after beyond x) × (result < 10) }
{
    if beyond { 9 - x } else { x }
}

// The column or row that lies `d` further on from one, towards that edge.
fn further(beyond: bool, x: usize, d: usize) -> usize
    requires { (x < 10) × (d ≤ after beyond x) }
    ensures { result ≡ further beyond x d }
{
    if beyond { x + d } else { x - d }
}

// How many rows the line lies off the goal's row, k columns from the goal: the nearest whole number to k * rise / span, and of two equally near the
// smaller.
#[tactic(auto, unfolding(line_nearest::specs::Line::nearest))]
fn nearest_row(rise: usize, span: usize, k: usize) -> usize
    requires { (rise < 10) × (0 < span) × (span < 10) × (k < 20) }
    ensures { result ≡ nearest rise span k }
{
    (2 * (k * rise) + span - 1) / (2 * span)
}

// In which column the line ends, counted from the corner's own: the first in which it has left rows 0 to 9, or else the edge column. From the goal's row
// `behind` rows are left to the edge, and from the corner's column `columns` columns.
fn first_leaving(rise: usize, span: usize, behind: usize, columns: usize) -> usize
    requires { (rise < 10) × (0 < span) × (span < 10) × (columns < 10) }
    ensures { (result ≡ first_leaving rise span behind columns) × (result ≤ columns) }
{
    for j in 0..columns {
        let k = span + j;
        if nearest_row(rise, span, k) > behind {
            return j;
        }
    }
    columns
}

// The end of a line whose corner shares neither column nor row with the goal.
#[tactic(auto, unfolding(crate::specs::LineEnd::slanted_end))]
fn slanted_end(corner: FieldCell, goal: FieldCell) -> FieldCell
    requires { Inside corner × Inside goal × (corner.column ≡ goal.column → ⊥) }
    ensures { result ≡ slanted_end (ltb goal.column corner.column) (ltb goal.row corner.row) corner goal }
{
    let rightward = corner.column > goal.column;
    let downward = corner.row > goal.row;
    let rise = goal.row.abs_diff(corner.row);
    let span = goal.column.abs_diff(corner.column);
    let behind = after(downward, goal.row);
    let j = first_leaving(rise, span, behind, after(rightward, corner.column));
    let rows = behind.min(nearest_row(rise, span, span + j));
    FieldCell {
        column: further(rightward, corner.column, j),
        row: further(downward, goal.row, rows),
    }
}

// The cell that the line from `corner`, away from `goal`, ends in.
#[tactic(auto, unfolding(crate::specs::LineEnd::line_end, crate::specs::LineEnd::end_by))]
fn corner_line_end(corner: FieldCell, goal: FieldCell) -> FieldCell
    requires { Inside corner × Inside goal }
    ensures { result ≡ line_end corner goal }
{
    let FieldCell { column, row } = corner;
    if column == goal.column {
        let row = edge_away(row > goal.row);
        return FieldCell { column, row };
    }
    if row == goal.row {
        let column = edge_away(column > goal.column);
        return FieldCell { column, row };
    }
    slanted_end(corner, goal)
}

// Where the line of a corner ends, or 13 for a column or row outside 0 to 9.
#[tactic(auto, unfolding(crate::specs::LineEnd::line_end_answer))]
pub fn check_los_corner_propagation(corner: FieldCell, goal: FieldCell) -> LineEnd
    ensures answer { result ≡ line_end_answer corner goal }
    ensures slanted { HoldsSlanted corner goal result }
    ensures straight { HoldsStraight corner goal result }
    ensures mirrored { HoldsMirrored corner goal result }
    ensures refused { (result.number ≡ 0 → ⊥) → EndRefused result }
{
    if corner.is_inside() && goal.is_inside() {
        let cell = corner_line_end(corner, goal);
        return LineEnd { number: 0, cell };
    }
    LineEnd {
        number: Refusal::Outside.number(),
        cell: FieldCell { column: 0, row: 0 },
    }
}
