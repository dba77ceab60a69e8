// The records of legs.
ghost use Rattle.std.specs.Prelude.{◌≤◌, length};

use crate::integration::same_build;
use integration_field::BuildAnswer;
use refusals::Refusal;
use replay_records::{byte_at, front, part, short_at, usize_at};

// A sector's bytes put where they stand, if there is such a sector.
fn put_sector(whole: &mut [u8], sector: usize, bytes: &[u8])
    requires { (sector ≤ 255) × (length bytes.now ≤ 100) }
{
    let first = 100 * sector;
    let last = first + 100;
    if last <= whole.len() {
        let end = first + bytes.len();
        whole[first..end].copy_from_slice(bytes);
    }
}

// The k-th hundred of the parts put in the sector that the k-th step names, as far as there are any.
fn put_sectors(whole: &mut [u8], steps: &[u8], parts: &[u8]) {
    for k in 0..16 {
        put_sector(
            whole,
            usize_at(steps, 8 * k),
            part(parts, 100 * k, 100 * k + 100),
        );
    }
}

// A leg, with the sight of its goal or without: chosen here, as in `integration`.
fn plan_by_sight(sight: bool, floor: &[u8], steps: &[u8], sheet: &mut [u8]) -> Result<(), Refusal> {
    if sight {
        return leg::plan_leg(floor, steps, sheet);
    }
    leg::plan_leg_without_sight(floor, steps, sheet)
}

// A record: step count, 16 steps, 16 times 100 costs; number, 16 times 100 bytes of the sheet.
pub fn leg_agrees(record: &[u8], sight: bool) -> bool {
    let count = usize_at(record, 0);
    let steps = part(record, 1, 1 + 8 * count);
    let mut floor = [1u8; 6400];
    put_sectors(&mut floor, steps, part(record, 129, 129 + 100 * count));
    let mut expected = [0x55u8; 6400];
    put_sectors(&mut expected, steps, part(record, 1730, 1730 + 100 * count));
    let mut sheet = [0x55u8; 6400];
    let planned = plan_by_sight(sight, &floor, steps, &mut sheet);
    refusals::number(planned) == byte_at(record, 1729) && sheet.as_slice() == expected.as_slice()
}

// The field of a leg's step, with the sight of the leg's goal or without: chosen here, as in `integration`.
fn field_by_sight(sight: bool, floor: &[u8], steps: &[u8], place: usize) -> BuildAnswer {
    if sight {
        return leg_field::leg_field(floor, steps, place);
    }
    leg_field::leg_field_without_sight(floor, steps, place)
}

// A record: length of the floor in 16 bits, length of the steps, place in 16 bits, 136 bytes for the steps, 16 times 100
// costs; number, waves, field.
pub fn field_agrees(record: &[u8], sight: bool) -> bool {
    let length = usize_at(record, 2);
    let steps = part(record, 5, 5 + length);
    let mut costs = [1u8; 6401];
    let floor = front(&mut costs, short_at(record, 0, 1));
    put_sectors(floor, steps, part(record, 141, 141 + 100 * (length / 8)));
    let answer = field_by_sight(sight, floor, steps, short_at(record, 3, 4));
    same_build(answer, part(record, 1741, 2344))
}
