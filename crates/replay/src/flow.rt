// The records of the flow calls, of the byte readers and of arrivals. The flow calls do not look at a field's list, so none is
// recorded.
use replay_records::{byte_at, field_of, part, usize_at};

// A record: 8 bytes of step, cells, has_previous, 100 previous numbers; number, sheet.
pub fn new_agrees(record: &[u8]) -> bool {
    let field = field_of(part(record, 8, 408));
    let given = field_of(part(record, 409, 809));
    let previous = (byte_at(record, 408) == 1).then_some(given.field.as_slice());
    let mut sheet = [0x55u8; 100];
    let made = flow_new::new(part(record, 0, 8), field, previous, &mut sheet);
    refusals::number(made) == byte_at(record, 809) && sheet.as_slice() == part(record, 810, 910)
}

// A record: cells, sheet; number, sheet.
pub fn build_agrees(record: &[u8]) -> bool {
    let mut sheet = [0u8; 100];
    let given = part(record, 400, 500);
    sheet[..given.len()].copy_from_slice(given);
    let field = field_of(part(record, 0, 400));
    let built = flow_build::build(field, &mut sheet);
    refusals::number(built) == byte_at(record, 500) && sheet.as_slice() == part(record, 501, 601)
}

// A record: byte; the five flags, the direction's number, 0.
pub fn readers_agree(record: &[u8]) -> bool {
    let byte = byte_at(record, 0);
    let read = [
        byte,
        u8::from(flow_bits::is_pathable(byte)),
        u8::from(flow_bits::is_goal(byte)),
        u8::from(flow_bits::is_portal_goal(byte)),
        u8::from(flow_bits::has_line_of_sight(byte)),
        u8::from(flow_bits::is_wall(byte)),
        flow_bits::get_compass_dir_from_bits(byte).number(),
        0,
    ];
    read.as_slice() == record
}

// A record: length of the sheet, 101 bytes for the sheet; number, 100 numbers of moves.
pub fn arrivals_agree(record: &[u8]) -> bool {
    let sheet = usize_at(record, 0);
    if sheet > 101 {
        return false;
    }
    let found = flow_following::arrivals(part(record, 1, 1 + sheet));
    found.number == byte_at(record, 102) && found.moves.as_slice() == part(record, 103, 203)
}
