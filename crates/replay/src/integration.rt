// The records of init, build and the sector calls.
use integration_field::BuildAnswer;
use integration_started::InitAnswer;
use replay_records::{byte_at, field_of, part, same_field, usize_at};

// Number, field.
pub fn same_init(answer: InitAnswer, bytes: &[u8]) -> bool {
    answer.number == byte_at(bytes, 0) && same_field(answer.field, part(bytes, 1, 602))
}

// Number, waves, field.
pub fn same_build(answer: BuildAnswer, bytes: &[u8]) -> bool {
    answer.number == byte_at(bytes, 0)
        && answer.waves == usize_at(bytes, 1)
        && same_field(answer.field, part(bytes, 2, 603))
}

// A record: 100 costs, 8 bytes of step; number, field.
pub fn init_agrees(record: &[u8]) -> bool {
    let answer = integration_init::init(part(record, 0, 100), part(record, 100, 108));
    same_init(answer, part(record, 108, 710))
}

// A record: 100 costs, the field; number, waves, field.
pub fn build_agrees(record: &[u8]) -> bool {
    let given = field_of(part(record, 100, 701));
    let answer = integration_build::build(part(record, 0, 100), given);
    same_build(answer, part(record, 701, 1304))
}

// The sector call, with the sight of a goal or without. Handed in as a closure, the call would have to be promised to be callable at every record.
fn plan_by_sight(
    sight: bool,
    costs: &[u8],
    step: &[u8],
    previous: Option<&[u32]>,
    sheet: &mut [u8],
) -> BuildAnswer {
    if sight {
        return sector::plan_sector(costs, step, previous, sheet);
    }
    sector::plan_sector_without_sight(costs, step, previous, sheet)
}

// A record: 100 costs, 8 bytes of step, has_previous, 100 previous numbers; number, waves, field, sheet.
pub fn sector_agrees(record: &[u8], sight: bool) -> bool {
    let given = field_of(part(record, 109, 509));
    let previous = (byte_at(record, 108) == 1).then_some(given.field.as_slice());
    let mut sheet = [0x55u8; 100];
    let answer = plan_by_sight(
        sight,
        part(record, 0, 100),
        part(record, 100, 108),
        previous,
        &mut sheet,
    );
    same_build(answer, part(record, 509, 1112)) && sheet.as_slice() == part(record, 1112, 1212)
}
