// The records of a cart's moves and ways.
use replay_records::{byte_at, part, short_at};

// Whether the move and the way from a place are those that stand there. Twelve bytes: sector and cell of the place; of the
// move number, outcome, sector, cell; of the way the same, and the number of moves in 16 bits.
fn cart_agrees(sheet: &[u8], bytes: &[u8]) -> bool {
    let sector = byte_at(bytes, 0);
    let cell = byte_at(bytes, 1);
    let made = leg_moves::next_move(sheet, sector, cell);
    let way = leg_moves::way(sheet, sector, cell);
    let told = [
        made.number,
        made.outcome,
        made.sector,
        made.cell,
        way.number,
        way.outcome,
        way.sector,
        way.cell,
    ];
    told.as_slice() == part(bytes, 2, 10) && usize::from(way.moves) == short_at(bytes, 10, 11)
}

// Whether the moves and the ways from sixty-four places are those that stand there.
fn all_agree(sheet: &[u8], bytes: &[u8]) -> bool {
    (0..64).all(|k| cart_agrees(sheet, part(bytes, 12 * k, 12 * k + 12)))
}

// A record: length of the sheet in 16 bits, 6,401 bytes for the sheet; 64 places with their moves and ways.
pub fn carts_agree(record: &[u8]) -> bool {
    let length = short_at(record, 0, 1);
    if length > 6401 {
        return false;
    }
    all_agree(part(record, 2, 2 + length), part(record, 6403, 7171))
}
