// The records of bounds: two floors and a step.
use replay_records::{byte_at, part, same_words, usize_at};

// Whether a hundred marks are those that stand in a byte each.
fn same_marks(marks: [bool; 100], bytes: &[u8]) -> bool {
    (0..100).all(|i| u8::from(marks[i]) == byte_at(bytes, i))
}

// A record: lengths of low, high and step, 101 bytes for each floor, 9 of step; number, least, greatest, marks.
pub fn bounds_agree(record: &[u8]) -> bool {
    let low = usize_at(record, 0);
    let high = usize_at(record, 1);
    let step = usize_at(record, 2);
    if low > 101 || high > 101 || step > 9 {
        return false;
    }
    let found = bounds::bounds(
        part(record, 3, 3 + low),
        part(record, 104, 104 + high),
        part(record, 205, 205 + step),
    );
    found.number == byte_at(record, 214)
        && same_words(&found.least, part(record, 215, 615))
        && same_words(&found.greatest, part(record, 615, 1015))
        && same_marks(found.sure, part(record, 1015, 1115))
}
