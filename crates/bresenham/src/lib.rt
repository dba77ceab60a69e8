// The cells of a line by Bresenham's algorithm.
#![tactic(auto)]

ghost use Rattle.std.specs.Prelude.{◌≡◌, ◌&&◌, ◌≤◌, ◌<◌};
ghost use Rattle.fields.specs.Cell.{cell, inside, Inside, index_of};
ghost use Rattle.line_nearest.specs.Line.{distance, toward, cell_on_axes, line, called, line_call, shallow_call, steep_call};
ghost use Rattle.bresenham.specs.Inner.{major_of, minor_of, walked, list_place, listed, DrawnIn, told_line};
ghost use Rattle.line_nearest.specs.Nearest.{column_of, row_of, HoldsNearestLine, HoldsNearestWalk, CellsBeyond, LineRefused};

use fields::{CellList, FieldCell};
use line_nearest::Line;
use refusals::Refusal;

// Whether two cells both lie in the sector.
fn both_inside(source: FieldCell, target: FieldCell) -> bool
    ensures { result ≡ (inside source && inside target) }
{
    source.is_inside() && target.is_inside()
}

// A cell's coordinate on a walk's major axis, and on its minor one: of a steep walk the rows are the major one.
fn major(steep: bool, cell: FieldCell) -> usize
    ensures { result ≡ major_of steep cell }
{
    if steep { cell.row } else { cell.column }
}

fn minor(steep: bool, cell: FieldCell) -> usize
    ensures { result ≡ minor_of steep cell }
{
    if steep { cell.column } else { cell.row }
}

// The coordinate that is `offset` from `a` on the way to `b`.
#[tactic(auto, unfolding(line_nearest::specs::Line::toward))]
fn moved(a: usize, b: usize, offset: usize) -> usize
    requires { (a < 10) × (b < 10) × (offset ≤ distance a b) }
    ensures { (result ≡ toward a b offset) × (result < 10) }
{
    if a <= b { a + offset } else { a - offset }
}

// The index of the cell at a walk's major and minor coordinate.
fn index_on_axes(steep: bool, major: usize, minor: usize) -> u8
    requires { (major < 10) × (minor < 10) }
    ensures { result ≡ index_of (cell_on_axes steep major minor) }
{
    let index = if steep {
        major * 10 + minor
    } else {
        minor * 10 + major
    };
    index as u8
}

// Where step k of a walk of `span` steps stands in the list: at place k, or as many places before the last where the walk is listed backwards.
fn list_place(back: bool, span: usize, k: usize) -> usize
    requires { k ≤ span }
    ensures { (result ≡ list_place back span k) × (result ≤ span) }
{
    if back { span - k } else { k }
}

// Draws a walk, which gains one in its major coordinate at each step, and lists its cells, backwards where `back` says so.
// `difference` is that of the Rust plus twice the span, which is never below 0.
#[tactic(auto, using(crate::proofs::Drawn::major_in, crate::proofs::Drawn::minor_in))]
fn walk(steep: bool, back: bool, from: FieldCell, to: FieldCell) -> CellList<10>
    requires { Inside from × Inside to × (major_of steep from ≤ major_of steep to) }
    ensures { DrawnIn (listed back (walked steep from to)) result }
{
    let start = major(steep, from);
    let span = major(steep, to) - start;
    let count = span + 1;
    let near = minor(steep, from);
    let far = minor(steep, to);
    let rise = near.abs_diff(far);
    let mut drawn = CellList::none();
    let mut difference = 2 * rise + span;
    let mut offset = 0;
    for k in 0..count {
        let place = list_place(back, span, k);
        drawn.cells[place] = index_on_axes(steep, start + k, moved(near, far, offset));
        if difference > 2 * span {
            offset += 1;
            difference = difference + 2 * rise - 2 * span;
        } else {
            difference += 2 * rise;
        }
    }
    drawn.count = count;
    drawn
}

// The walk between any two cells, by itself; no cells where the target's major coordinate is lower.
fn walk_alone(steep: bool, source: FieldCell, target: FieldCell) -> Result<CellList<10>, Refusal>
    ensures { told_line result ≡ called source target (walked steep source target) }
{
    if !both_inside(source, target) {
        return Err(Refusal::Outside);
    }
    if major(steep, target) < major(steep, source) {
        return Ok(CellList::none());
    }
    Ok(walk(steep, false, source, target))
}

// What is told of a line: the cells at its indexes, or the number of a refusal.
fn told_line(drawn: Result<CellList<10>, Refusal>) -> Line
    ensures { result ≡ told_line drawn }
{
    match drawn {
        Ok(drawn) => Line {
            number: 0,
            cells: drawn
                .cells
                .map(|index| FieldCell::from_index(usize::from(index))),
            count: drawn.count,
        },
        Err(refusal) => Line {
            number: refusal.number(),
            cells: [FieldCell { column: 0, row: 0 }; 10],
            count: 0,
        },
    }
}

// Steps through the columns, at most one row aside at each; no cells where the target's column is lower, and 13 where a cell lies outside the sector.
// With as many columns as rows, or more, it is Bresenham's line and ends at the target.
pub fn walk_bresenham_shallow(col_0: usize, row_0: usize, col_1: usize, row_1: usize) -> Line
    ensures answer { result ≡ shallow_call (cell col_0 row_0) (cell col_1 row_1) }
    ensures nearest { HoldsNearestWalk column_of row_of (cell col_0 row_0) (cell col_1 row_1) result }
    ensures list { CellsBeyond result }
    ensures refused { (result.number ≡ 0 → ⊥) → LineRefused result }
{
    let source = FieldCell {
        column: col_0,
        row: row_0,
    };
    let target = FieldCell {
        column: col_1,
        row: row_1,
    };
    told_line(walk_alone(false, source, target))
}

// Steps through the rows, at most one column aside at each; no cells where the target's row is lower, and 13 where a cell lies outside the sector.
// With as many rows as columns, or more, it is Bresenham's line and ends at the target.
pub fn walk_bresenham_steep(col_0: usize, row_0: usize, col_1: usize, row_1: usize) -> Line
    ensures answer { result ≡ steep_call (cell col_0 row_0) (cell col_1 row_1) }
    ensures nearest { HoldsNearestWalk row_of column_of (cell col_0 row_0) (cell col_1 row_1) result }
    ensures list { CellsBeyond result }
    ensures refused { (result.number ≡ 0 → ⊥) → LineRefused result }
{
    let source = FieldCell {
        column: col_0,
        row: row_0,
    };
    let target = FieldCell {
        column: col_1,
        row: row_1,
    };
    told_line(walk_alone(true, source, target))
}

// Draws the line from `source` to `target`: the indexes of its cells, both of these included.
pub fn draw_cells_between_points(source: FieldCell, target: FieldCell) -> CellList<10>
    requires { (Inside source) × (Inside target) }
    ensures { DrawnIn (line source target) result }
{
    let columns = source.column.abs_diff(target.column);
    let rows = source.row.abs_diff(target.row);
    if rows < columns {
        if source.column <= target.column {
            return walk(false, false, source, target);
        }
        return walk(false, true, target, source);
    }
    if source.row <= target.row {
        return walk(true, false, source, target);
    }
    walk(true, true, target, source)
}

// The cells on the line from `source` to `target`, both of them included; 13 where a column or row lies outside 0 to 9.
pub fn get_cells_between_points(source: FieldCell, target: FieldCell) -> Line
    ensures answer { result ≡ line_call source target }
    ensures nearest { HoldsNearestLine source target result }
    ensures list { CellsBeyond result }
    ensures refused { (result.number ≡ 0 → ⊥) → LineRefused result }
{
    if !both_inside(source, target) {
        return told_line(Err(Refusal::Outside));
    }
    told_line(Ok(draw_cells_between_points(source, target)))
}
