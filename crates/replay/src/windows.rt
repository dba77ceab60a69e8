// The records of window costs and of tours: the costs of a sector and the steps of its windows.
use replay_records::{byte_at, part, same_words, short_at, usize_at, word_at};
use window_square::WindowRow;

// Whether eight rows are those that stand one after the other.
fn same_rows(rows: [WindowRow; 8], bytes: &[u8]) -> bool {
    (0..8).all(|i| same_words(&rows[i].costs, part(bytes, 32 * i, 32 * i + 32)))
}

// A record: lengths of costs and steps, 101 bytes for the costs, 136 for the steps; number, and the square, row by row.
pub fn costs_agree(record: &[u8]) -> bool {
    let costs = usize_at(record, 0);
    let steps = usize_at(record, 1);
    if costs > 101 || steps > 136 {
        return false;
    }
    let found = window_costs::window_costs(
        part(record, 2, 2 + costs),
        part(record, 103, 103 + steps),
    );
    found.number == byte_at(record, 239) && same_rows(found.rows, part(record, 240, 496))
}

// A record: lengths of costs and steps, limit, 101 bytes for the costs, 136 for the steps; number, whether an order is
// found, the order, its sum, the number tried and the least figure.
pub fn tour_agrees(record: &[u8]) -> bool {
    let costs = usize_at(record, 0);
    let steps = usize_at(record, 1);
    if costs > 101 || steps > 136 {
        return false;
    }
    let found = tour::window_tour(
        part(record, 4, 4 + costs),
        part(record, 105, 105 + steps),
        short_at(record, 2, 3) as u16,
    );
    found.number == byte_at(record, 241)
        && u8::from(found.found) == byte_at(record, 242)
        && found.order.as_slice() == part(record, 243, 251)
        && found.sum == word_at(record, 251)
        && found.tried == word_at(record, 255)
        && found.least == word_at(record, 259)
}
