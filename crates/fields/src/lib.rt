// Cells of a sector, and steps from one to the next.
#![tactic(auto)]

ghost use Rattle.std.specs.Prelude.{◌≡◌, ◌<◌, Some};
ghost use Rattle.fields.specs.CellList.{no_cells, pushed, pushed_if};
ghost use Rattle.fields.specs.Cell.{inside, index_of, cell_at, index_or, the_cell_in, stepped};
ghost use Rattle.fields.specs.declared.FieldCell.{FieldCell};
ghost use Rattle.fields.specs.Steps.{BySums, Undone};
ghost use Rattle.fields.specs.Inner.{Near, StaysInside};

use utilities::CompassDir;

// A list of cells by their indexes: N places, and how many of them are listed, in the first places.
#[derive(Clone, Copy)]
pub struct CellList<const N: usize> {
    pub cells: [u8; N],
    pub count: usize,
}

impl<const N: usize> CellList<N> {
    // No cells: every place holds 0.
    pub fn none() -> CellList<N>
        ensures { result ≡ no_cells N }
    {
        CellList {
            cells: [0; N],
            count: 0,
        }
    }

    // Lists one cell more, where there is a place left.
    pub fn push(&mut self, cell: u8)
        requires { self.old.count < N }
        ensures { self.new ≡ pushed cell self.old }
    {
        self.cells[self.count] = cell;
        self.count += 1;
    }

    // Lists one cell more where it counts. It is written in either case: callers whose lists are written once for each cell that is looked at have no
    // branch there, and a place left.
    pub fn push_if(&mut self, counts: bool, cell: u8)
        requires { self.old.count < N }
        ensures { self.new ≡ pushed_if counts cell self.old }
    {
        self.cells[self.count] = cell;
        self.count += usize::from(counts);
    }
}

// ID of a cell within a field.
#[repr(C)]
#[derive(Clone, Copy)]
pub struct FieldCell {
    pub column: usize,
    pub row: usize,
}

impl FieldCell {
    // The cell at a column and a row, or none where one of them is above 9. It stands for the Rust's `new`, which panics there: document 01 names it as
    // a wrapper. Nothing here calls it.
    pub fn new(column: usize, row: usize) -> Option<FieldCell>
        ensures { result ≡ the_cell_in column row }
    {
        if column > 9 {
            return None;
        }
        if row > 9 {
            return None;
        }
        Some(FieldCell { column, row })
    }

    // The cell at an index, which is row times 10 plus column.
    pub fn from_index(index: usize) -> FieldCell
        ensures { result ≡ cell_at index }
    {
        FieldCell {
            column: index % 10,
            row: index / 10,
        }
    }

    // Whether a cell lies in the sector.
    pub fn is_inside(self) -> bool
        ensures { result ≡ inside self }
    {
        let column = self.column;
        let row = self.row;
        if column < 10 {
            return row < 10;
        }
        false
    }

    // The index of a cell; 100, which no cell has, for one outside the sector.
    pub fn as_1d_index(self) -> usize
        ensures { result ≡ index_or 100 self }
    {
        let column = self.column;
        let row = self.row;
        if 9 < column {
            return 100;
        }
        if 9 < row {
            return 100;
        }
        row * 10 + column
    }

    // The cell one step away, at the sums of the cell's column and row and the direction's differences, or none where one of them leaves
    // the sector.
    pub fn get_in_compass_direction(self, dir: CompassDir) -> Option<FieldCell>
        requires { Near self }
        ensures answer { result ≡ stepped self dir }
        ensures by_sums { BySums self dir result }
        ensures undone { Undone self dir result }
    {
        if !dir.points() {
            return None;
        }
        let added = dir.differences();
        let column = self.column as i64 + added.column;
        let row = self.row as i64 + added.row;
        if 0 <= column && column <= 9 && 0 <= row && row <= 9 {
            return Some(FieldCell {
                column: column as usize,
                row: row as usize,
            });
        }
        None
    }
}

// The index of the cell one step away from the cell at an index, where the step stays in the sector: rows are ten apart, columns one. It takes no
// division by ten, as the cell's own column and row would, so that what is read at the index does not wait for one.
pub fn index_beside(index: usize, dir: CompassDir) -> usize
    requires { StaysInside index dir }
    ensures { (n : FieldCell) → stepped (cell_at index) dir ≡ Some n → (result ≡ index_of n) × (result < 100) }
{
    let added = dir.differences();
    (index as i64 + added.row * 10 + added.column) as usize
}
