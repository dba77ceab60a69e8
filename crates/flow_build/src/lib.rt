// The flow field of an integration field: each cell's byte gets the direction of its best neighbour. The Rust looks around from one cell after the
// other; here all cells look together, one direction a pass, in the order of a look: N, E, S, W, NE, SE, SW, NW.
// A look goes by one number for each neighbour, its key: 0 for a goal or a portal, which is taken; 1 for a cell that no cost has reached, where the look
// ends; 65537 for a wall, or a diagonal past one, which is passed over; for any other cell its cost plus 2. `best` holds the key of each cell's look so
// far, and `bits` the direction found. A look changes only at a lower key, so that of equals the earliest stays, and never after it has ended. After
// the eight passes each cell gets its byte from these two numbers.
#![tactic(auto)]

ghost use Rattle.std.specs.Prelude.{◌≡◌, true, ◌+◌, ◌*◌, ◌<◌};
ghost use Rattle.fields.specs.Cell.{Inside, index_of};
ghost use Rattle.flow_byte.specs.Look.{look_around, flow_build};
ghost use Rattle.flow_arrows.specs.Promise.{BuildArrows};
ghost use Rattle.refusals.specs.Refusal.{told};
ghost use Rattle.flow_build.specs.Flow.{build_number, build_sheet};
ghost use Rattle.flow_build.specs.Inner.{LooksHeld, LooksOn, cell_key, cell_keys, KeysSeen, seen_key, is_noted, key_after, bits_after};
ghost use Rattle.flow_build.specs.Inner.{is_kept, NoneLooks, held_byte, byte_after, held_bytes, nothing_found};

use fields::FieldCell;
use flow_bits::{BITS_DEFAULT, BITS_IMPASSABLE, BITS_PATHABLE};
use integration_field::IntegrationField;
use refusals::Refusal;
use utilities::CompassDir;

// The key of a goal or a portal, and of a look that has taken one.
const KEY_TAKEN: u32 = 0;

// The key of a cell that no cost has reached, and of a look that has ended at one.
const KEY_ENDED: u32 = 1;

// The key of a wall, and of a look that has found nothing: above every other.
const KEY_NOTHING: u32 = 65537;

// A cell's key: the lower, the better. It is the cost plus 2, save where a look takes the cell, ends at it or passes over it.
#[tactic(auto, unfolding(crate::specs::Inner::cell_key))]
fn key_of(word: u32) -> u32
    ensures { result ≡ cell_key word }
{
    if integration_bits::is_impassable(word) {
        return KEY_NOTHING;
    }
    if integration_bits::is_goal(word) {
        return KEY_TAKEN;
    }
    if integration_bits::is_portal(word) {
        return KEY_TAKEN;
    }
    let low = integration_bits::low_bits(word);
    if low == 65535 {
        return KEY_ENDED;
    }
    low + 2
}

// The keys of all cells.
fn keys_of(cells: &[u32; 100]) -> [u32; 100]
    ensures { result ≡ cell_keys cells.now }
{
    let mut keys: [u32; 100] = [0; 100];
    for i in 0..100 {
        keys[i] = key_of(cells[i]);
    }
    keys
}

// The key of a neighbour as a cell sees it: nothing, where the move is diagonal and passes a wall.
fn seen_key(cells: &[u32; 100], keys: &[u32; 100], from: FieldCell, to: FieldCell) -> u32
    requires { KeysSeen cells.now keys.now from to }
    ensures { result ≡ seen_key cells.now (index_of from) (index_of to) }
{
    // The places are worked out here: `as_1d_index` would test each cell again.
    let key = keys[to.row * 10 + to.column];
    let in_row = cells[from.row * 10 + to.column];
    let in_column = cells[to.row * 10 + from.column];
    if integration_bits::passes_wall(from, to, in_row, in_column) {
        return KEY_NOTHING;
    }
    key
}

// Whether a look changes at the key that it sees: it has not ended, and the key is lower than its own. A look that has taken a goal or a portal has the
// lowest key, and changes no more.
#[tactic(auto, unfolding(crate::specs::Inner::is_noted))]
fn is_noted(seen: u32, key: u32) -> bool
    ensures { result ≡ is_noted seen key }
{
    (key != KEY_ENDED) & (seen < key)
}

// The key of a look after it has seen another.
#[tactic(auto, unfolding(crate::specs::Inner::key_after))]
fn key_after(seen: u32, key: u32) -> u32
    ensures { result ≡ key_after seen key }
{
    if is_noted(seen, key) { seen } else { key }
}

// The bits of a look's direction after it has seen a key. A cell that ends the look leaves it the best direction so far.
#[tactic(auto, unfolding(crate::specs::Inner::bits_after))]
fn bits_after(seen: u32, key: u32, dir: u8, bits: u8) -> u8
    ensures { result ≡ bits_after seen key dir bits }
{
    if is_noted(seen, key) & (seen != KEY_ENDED) {
        dir
    } else {
        bits
    }
}

// One cell looks in one direction; outside the sector there is nothing to see. The four arrays are lent one by one, for speed: with the cells and
// their keys in a struct a sector's flow field took 30 % longer, and with `best` and `bits` in another 3.6 times as long.
fn look_from(
    cells: &[u32; 100],
    keys: &[u32; 100],
    from: FieldCell,
    dir: CompassDir,
    best: &mut [u32; 100],
    bits: &mut [u8; 100],
)
    requires { Inside from × (keys.now ≡ cell_keys cells.now) }
    ensures { LooksOn cells.now dir (index_of from) (index_of from + 1)
        best.old bits.old best.new bits.new }
{
    let Some(to) = from.get_in_compass_direction(dir) else {
        return;
    };
    let seen = seen_key(cells, keys, from, to);
    let pointed = flow_bits::convert_compass_dir_to_bits_dir(dir);
    let index = from.row * 10 + from.column;
    let key = best[index];
    let found = bits[index];
    // Both are written in either case: with a branch that depends on a cell, sectors on random floors took 59 to 79 % longer.
    best[index] = key_after(seen, key);
    bits[index] = bits_after(seen, key, pointed, found);
}

// The cells of one row look in one direction.
fn look_from_row(
    cells: &[u32; 100],
    keys: &[u32; 100],
    row: usize,
    dir: CompassDir,
    best: &mut [u32; 100],
    bits: &mut [u8; 100],
)
    requires { (row < 10) × (keys.now ≡ cell_keys cells.now) }
    ensures { LooksOn cells.now dir (row * 10) (row * 10 + 10)
        best.old bits.old best.new bits.new }
{
    for column in 0..10 {
        look_from(cells, keys, FieldCell { column, row }, dir, best, bits);
    }
}

// One pass: all cells look in one direction.
fn look_in_direction(
    cells: &[u32; 100],
    keys: &[u32; 100],
    dir: CompassDir,
    best: &mut [u32; 100],
    bits: &mut [u8; 100],
)
    requires { keys.now ≡ cell_keys cells.now }
    ensures { LooksOn cells.now dir 0 100 best.old bits.old best.new bits.new }
{
    for row in 0..10 {
        look_from_row(cells, keys, row, dir, best, bits);
    }
}

// All cells look at their sides, then at their corners. In a loop over the eight directions a pass would be compiled once for all of them, and most
// sectors took about twice as long.
fn look_around(cells: &[u32; 100], best: &mut [u32; 100], bits: &mut [u8; 100])
    ensures { LooksHeld nothing_found best.old bits.old
        → LooksHeld (look_around cells.now) best.new bits.new }
{
    let keys = keys_of(cells);
    look_in_direction(cells, &keys, CompassDir::North, best, bits);
    look_in_direction(cells, &keys, CompassDir::East, best, bits);
    look_in_direction(cells, &keys, CompassDir::South, best, bits);
    look_in_direction(cells, &keys, CompassDir::West, best, bits);
    look_in_direction(cells, &keys, CompassDir::NorthEast, best, bits);
    look_in_direction(cells, &keys, CompassDir::SouthEast, best, bits);
    look_in_direction(cells, &keys, CompassDir::SouthWest, best, bits);
    look_in_direction(cells, &keys, CompassDir::NorthWest, best, bits);
}

// Whether a cell keeps its byte: it can be walked already, or is impassable.
fn is_kept(byte: u8) -> bool
    ensures { result ≡ is_kept byte }
{
    flow_bits::is_pathable(byte) | flow_bits::is_impassable(byte)
}

// Whether no cell looks. All cells are tested in either case: leaving at the first that looks made an open goal's sector take 6 to 13 % longer.
fn none_looks(sheet: &[u8; 100]) -> bool
    ensures { result ≡ true → NoneLooks sheet.now }
{
    let mut kept = true;
    for byte in sheet {
        kept &= is_kept(*byte);
    }
    kept
}

// The byte of a cell that has looked: the direction or-ed on; impassable where there is none, and where the look has ended.
#[tactic(auto, unfolding(crate::specs::Inner::held_byte))]
fn looked_byte(byte: u8, key: u32, bits: u8) -> u8
    ensures { result ≡ held_byte byte key bits }
{
    let start = if key == KEY_ENDED {
        byte | BITS_IMPASSABLE
    } else {
        byte
    };
    let pointed = if bits == BITS_DEFAULT {
        BITS_IMPASSABLE
    } else {
        BITS_PATHABLE | bits
    };
    start | pointed
}

// A cell's new byte, from the byte that it had and what its look has come to. (The Rust's `calculate_flow_cell` looks around from the cell first; here
// all cells have looked together.)
fn byte_after(byte: u8, key: u32, bits: u8) -> u8
    ensures { result ≡ byte_after byte key bits }
{
    if is_kept(byte) {
        return byte;
    }
    looked_byte(byte, key, bits)
}

// Gives every cell its new byte, by what its look has come to.
fn point_cells(best: &[u32; 100], bits: &[u8; 100], sheet: &mut [u8; 100])
    ensures { sheet.new ≡ held_bytes best.now bits.now sheet.old }
{
    for i in 0..100 {
        sheet[i] = byte_after(sheet[i], best[i], bits[i]);
    }
}

// The new bytes of all cells: they look around, unless each keeps its byte anyway, and then each gets its byte.
fn calculate_flow_cells(cells: &[u32; 100], sheet: &mut [u8; 100])
    ensures { sheet.new ≡ flow_build cells.now sheet.old }
{
    if none_looks(sheet) {
        return;
    }
    let mut best: [u32; 100] = [KEY_NOTHING; 100];
    let mut bits: [u8; 100] = [BITS_DEFAULT; 100];
    look_around(cells, &mut best, &mut bits);
    point_cells(&best, &bits, sheet);
}

// The flow field of an integration field, over the 100 bytes of a sheet.
pub fn build_cells(field: IntegrationField, sheet: &mut [u8; 100])
    ensures { sheet.new ≡ flow_build field.field sheet.old }
{
    // A copy of the cells alone: where they are lent from the field, all of it is copied to the stack.
    let cells = field.field;
    calculate_flow_cells(&cells, sheet);
}

// The flow field of an integration field, by hand: from the sheet's bytes, whatever they are; a sheet that is not 100 bytes is refused, and stays.
pub fn build(field: IntegrationField, sheet: &mut [u8]) -> Result<(), Refusal>
    ensures number { told result ≡ build_number sheet.old }
    ensures sheet { sheet.new ≡ build_sheet field.field sheet.old }
    ensures arrows { BuildArrows field.field sheet.old sheet.new }
{
    let Some(bytes) = sheet.as_mut_array::<100>() else {
        return Err(Refusal::Sheet);
    };
    build_cells(field, bytes);
    Ok(())
}
