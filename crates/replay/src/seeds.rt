// The records of practice floors, and of what the practice printer prints.
use replay_records::{byte_at, part, usize_at, word_at};

// A record: seed; 100 costs, goal.
pub fn floor_agrees(record: &[u8]) -> bool {
    let floor = practice::practice_floor(word_at(record, 0));
    floor.goal == byte_at(record, 104) && floor.costs.as_slice() == part(record, 4, 104)
}

// A record: length of the input, 8 bytes of input; length of the text, 213 bytes of text.
pub fn text_agrees(record: &[u8]) -> bool {
    let length = usize_at(record, 0);
    if length > 8 {
        return false;
    }
    let mut out = [0u8; 213];
    let count = practice_text::report(part(record, 1, 1 + length), &mut out);
    count == usize_at(record, 9) && out.as_slice() == part(record, 10, 223)
}
