// A place on the floor, of 80 columns by 80 rows, and where an arrow leads from it.

ghost use Rattle.std.specs.Prelude.{◌≡◌, ℕ, ◌+◌, ◌*◌, ◌%◌, ◌<◌};

// Its column and row are the floor's: it is made from a sector and a cell, or by a step that stays on the floor, and by nothing else.
#[derive(Clone, Copy)]
pub struct Spot {
    column: usize,
    row: usize,
    ghost column_on: { column < 80 },
    ghost row_on: { row < 80 },
}

impl Spot {
    ghost use Rattle.leg_journey.specs.Place.{place_of, the_sector_in, the_cell_in};
    ghost use Rattle.leg_moves.specs.Inner.{place_at, LeadsOn};

    // The place of a sector's cell.
    pub fn place_of(sector: u8, cell: u8) -> Spot
        requires { (sector < 64) × (cell < 100) }
        ensures { place_at result ≡ place_of sector cell }
    {
        let s = usize::from(sector);
        let c = usize::from(cell);
        Spot {
            column: s % 8 * 10 + c % 10,
            row: s / 8 * 10 + c / 10,
        }
    }

    // The sector that it lies in.
    pub fn sector(self) -> u8
        ensures { result ≡ the_sector_in (place_at self) }
    {
        let sector = self.row / 10 * 8 + self.column / 10;
        sector as u8
    }

    // The cell that it is, in its sector.
    pub fn cell(self) -> u8
        ensures { result ≡ the_cell_in (place_at self) }
    {
        let cell = self.row % 10 * 10 + self.column % 10;
        cell as u8
    }

    // Where its byte stands in the sheet.
    pub fn index(self) -> usize
        ensures { (result ≡ the_sector_in (place_at self) * 100 + the_cell_in (place_at self)) × (result < 6400) }
    {
        usize::from(self.sector()) * 100 + usize::from(self.cell())
    }

    // Where a byte's direction leads from here: to the place at the sums of the column and row and the direction's differences, where both lie on the
    // floor; nowhere if it has none.
    pub fn led_by(self, byte: u8) -> Option<Spot>
        ensures { LeadsOn (byte % 16) self result }
    {
        let dir = flow_bits::get_compass_dir_from_bits(byte);
        if !dir.points() {
            return None;
        }
        let added = dir.differences();
        let column = self.column as i64 + added.column;
        let row = self.row as i64 + added.row;
        if 0 <= column && column <= 79 && 0 <= row && row <= 79 {
            return Some(Spot {
                column: column as usize,
                row: row as usize,
            });
        }
        None
    }
}
