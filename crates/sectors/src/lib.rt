// Sectors of a floor, eight rows of eight, and the sector across a boundary.
#![tactic(auto)]

ghost use Rattle.std.specs.Prelude.{◌≡◌};
ghost use Rattle.sectors.specs.Floor.{across};

use utilities::CompassDir;

// The sector one step away, or none where that is off the floor.
pub fn get_in_compass_direction(sector: usize, dir: CompassDir) -> Option<usize>
    ensures { result ≡ across sector dir }
{
    if 63 < sector {
        return None;
    }
    if !dir.points() {
        return None;
    }
    let added = dir.differences();
    let column = (sector % 8) as i64 + added.column;
    let row = (sector / 8) as i64 + added.row;
    if 0 <= column && column <= 7 && 0 <= row && row <= 7 {
        return Some(row as usize * 8 + column as usize);
    }
    None
}
