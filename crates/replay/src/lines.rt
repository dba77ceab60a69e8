// The records of the line calls.
use fields::FieldCell;
use line_end::LineEnd;
use line_nearest::Line;
use replay_records::{byte_at, part, usize_at};

// The cell whose column and row stand at these places.
fn cell_at(bytes: &[u8], column: usize, row: usize) -> FieldCell {
    FieldCell {
        column: usize_at(bytes, column),
        row: usize_at(bytes, row),
    }
}

// From source to target.
pub fn line_of(bytes: &[u8]) -> Line {
    bresenham::get_cells_between_points(cell_at(bytes, 0, 1), cell_at(bytes, 2, 3))
}

// From corner and goal.
pub fn end_of(bytes: &[u8]) -> LineEnd {
    line_end::check_los_corner_propagation(cell_at(bytes, 0, 1), cell_at(bytes, 2, 3))
}

// Whether the cells of a line are those at ten indexes.
fn same_cells(cells: [FieldCell; 10], indexes: &[u8]) -> bool {
    (0..10).all(|i| cells[i].as_1d_index() == usize_at(indexes, i))
}

// Number, count, ten indexes.
pub fn same_line(line: Line, bytes: &[u8]) -> bool {
    line.number == byte_at(bytes, 0)
        && line.count == usize_at(bytes, 1)
        && same_cells(line.cells, part(bytes, 2, 12))
}

// Number, column, row, 0.
pub fn same_end(end: LineEnd, bytes: &[u8]) -> bool {
    end.number == byte_at(bytes, 0)
        && end.cell.column == usize_at(bytes, 1)
        && end.cell.row == usize_at(bytes, 2)
        && byte_at(bytes, 3) == 0
}

// A record: source, target; number, count, ten indexes.
pub fn line_agrees(record: &[u8]) -> bool {
    same_line(line_of(part(record, 0, 4)), part(record, 4, 16))
}

// A record: corner, goal; number, column, row, 0.
pub fn line_end_agrees(record: &[u8]) -> bool {
    same_end(end_of(part(record, 0, 4)), part(record, 4, 8))
}
