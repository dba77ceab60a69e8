// The records of refusals: lengths and steps at the limits of the table. A refused call answers zeros beside its number, and
// leaves the sheet as it was.
use crate::integration::{same_build, same_init};
use crate::lines::{end_of, line_of, same_end, same_line};
use integration_field::{BuildAnswer, IntegrationField};
use refusals::number;
use replay_records::{byte_at, front, part, short_at, usize_at};

// A call's number, as the record has it in a byte; 255, which none has, where it is refused and answers anything but the recorded number and zeros.
fn settled(number: u8, same: bool) -> u8 {
    if number == 0 || same { number } else { 255 }
}

fn init_number(record: &[u8], costs: &[u8], step: &[u8]) -> u8 {
    let answer = integration_init::init(costs, step);
    settled(answer.number, same_init(answer, part(record, 157, 158)))
}

fn build_number(record: &[u8], answer: BuildAnswer) -> u8 {
    settled(answer.number, same_build(answer, part(record, 157, 158)))
}

fn line_number(record: &[u8]) -> u8 {
    let line = line_of(part(record, 15, 19));
    settled(line.number, same_line(line, part(record, 157, 158)))
}

fn line_end_number(record: &[u8]) -> u8 {
    let end = end_of(part(record, 15, 19));
    settled(end.number, same_end(end, part(record, 157, 158)))
}

// A field of zeros with a record's count and its one corner.
fn given_field(record: &[u8]) -> IntegrationField {
    let mut los_corners = [0usize; 100];
    let place = usize_at(record, 12);
    if place < 100 {
        los_corners[place] = short_at(record, 13, 14);
    }
    IntegrationField {
        field: [0; 100],
        los_corners,
        count: short_at(record, 10, 11),
        positions: [0; 100],
    }
}

// A wall put at its place among the costs, where there is such a place.
fn put_wall(costs: &mut [u8], wall: usize) {
    if wall < costs.len() {
        costs[wall] = 255;
    }
}

// The calls that a record can name.
#[derive(Clone, Copy)]
enum Call {
    Init,
    Build,
    FlowNew,
    FlowBuild,
    Sector,
    Leg,
    Line,
    LineEnd,
}

impl Call {
    // The call that a byte names.
    fn named(byte: u8) -> Option<Call> {
        match byte {
            0 => Some(Call::Init),
            1 => Some(Call::Build),
            2 => Some(Call::FlowNew),
            3 => Some(Call::FlowBuild),
            4 => Some(Call::Sector),
            5 => Some(Call::Leg),
            6 => Some(Call::Line),
            7 => Some(Call::LineEnd),
            _ => None,
        }
    }
}

// The number of a call.
fn call_number(
    call: Call,
    record: &[u8],
    costs: &[u8],
    step: &[u8],
    previous: Option<&[u32]>,
    sheet: &mut [u8],
) -> u8 {
    let field = given_field(record);
    match call {
        Call::Init => init_number(record, costs, step),
        Call::Build => build_number(record, integration_build::build(costs, field)),
        Call::FlowNew => number(flow_new::new(step, field, previous, sheet)),
        Call::FlowBuild => number(flow_build::build(field, sheet)),
        Call::Sector => build_number(record, sector::plan_sector(costs, step, previous, sheet)),
        Call::Leg => number(leg::plan_leg(costs, step, sheet)),
        Call::Line => line_number(record),
        Call::LineEnd => line_end_number(record),
    }
}

// A record: the call, lengths of costs, sheet and step, has_previous, length of previous, corner count, a corner's place and
// value, four coordinates, the place of one wall among the costs, 136 step bytes; number, two zeros.
pub fn refusal_agrees(record: &[u8]) -> bool {
    let costs_length = short_at(record, 1, 2);
    let sheet_length = short_at(record, 3, 4);
    let step_length = short_at(record, 5, 6);
    let previous_length = short_at(record, 8, 9);
    if costs_length > 6401 || sheet_length > 6401 || step_length > 136 || previous_length > 101 {
        return false;
    }
    let mut costs = [1u8; 6401];
    put_wall(&mut costs, short_at(record, 19, 20));
    let previous = [0u32; 101];
    let mut sheet = [0x55u8; 6401];
    let has_previous = byte_at(record, 7) == 1;
    // a byte that names no call gets a number that none has
    let number = match Call::named(byte_at(record, 0)) {
        None => 255,
        Some(call) => call_number(
            call,
            record,
            part(&costs, 0, costs_length),
            part(record, 21, 21 + step_length),
            has_previous.then_some(&previous[..previous_length]),
            front(&mut sheet, sheet_length),
        ),
    };
    let before = [0x55u8; 6401];
    number == byte_at(record, 157) && (number == 0 || sheet.as_slice() == before.as_slice())
}
