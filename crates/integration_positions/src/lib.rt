// Which corner each cell belongs to: the earliest of the list with a walk that arrives at the cell's built cost. After building, the corners have their
// turns in list order. Each hands its position on, from itself, over the moves that come to exactly the built cost of the cell they enter, into the
// cells that have no position yet.
#![tactic(auto)]

ghost use Rattle.std.specs.Prelude.{◌≡◌, List, map, ℕ, ◌+◌, ◌<◌, ◌≤◌, length, get_or, take};
ghost use Rattle.utilities.specs.Compass.{orthogonal};
ghost use Rattle.utilities.specs.Lists.{below};
ghost use Rattle.fields.specs.Cell.{cell_at, stepped};
ghost use Rattle.integration_field.specs.Position.{positions};
ghost use Rattle.integration_positions.specs.Inner.{entered_from, Lowered, Placing, placing, placed_at, placed_to, placed_around, kept_of};
ghost use Rattle.integration_positions.specs.Inner.{StandsFor, HasRoom, StepsTo, Written, BuiltOn, Flood, FloodedOn, GoneOn, Decided};
ghost use Rattle.integration_positions.specs.Inner.{PlaceReady, FloodReady, CornerReady, CornersReady, BuiltFrom};

use fields::FieldCell;
use utilities::CompassDir;

// The entry of a cell that building left as it was: above every cell's value, so that no move is made into the cell.
const LEFT_ALONE: u32 = 65536;

// The entry of a cell that has its position: above every cell's value too, so that the cell takes no other.
const PLACED: u32 = 65537;

// The position that no corner has.
const NO_POSITION: u8 = 255;

// The value that a neighbour has if a move from it into this cell comes to the built cost: that cost less the cell's own. `LEFT_ALONE` where building
// left the cell as it was.
#[tactic(auto, unfolding(crate::specs::Inner::entered_from))]
fn entered_at(cost: u8, before: u32, built: u32) -> u32
    requires { (built ≡ before → ⊥) → cost ≤ built }
    ensures { result ≡ entered_from cost before built }
{
    if built == before {
        return LEFT_ALONE;
    }
    built - u32::from(cost)
}

// For every cell, the value of the neighbours from which a move comes to its built cost.
fn entered_from(costs: &[u8; 100], before: &[u32; 100], built: &[u32; 100]) -> [u32; 100]
    requires { Lowered costs.now before.now built.now }
    ensures { result
        ≡ map (λ x. entered_from (get_or costs.now x 0) (get_or before.now x 0) (get_or built.now x 0)) (below 100) }
{
    let mut entered = [0; 100];
    for i in 0..100 {
        entered[i] = entered_at(costs[i], before[i], built[i]);
    }
    entered
}

// Places a cell that has no position yet, if a move from this value comes to its built cost: its entry becomes `PLACED`, and it is queued. Answers how
// many cells are queued. (The queue is an array beside a count, and not a list that is lent: with one, building a field took 9 % longer.)
fn place_at(
    entered: &mut [u32; 100],
    queue: &mut [u8; 101],
    queued: usize,
    value: u32,
    index: usize,
) -> usize
    requires { PlaceReady entered.old queue.old queued value index }
    ensures { StepsTo entered.old queue.old queued entered.new queue.new result
        (λ values p. placed_at values value p index) }
{
    let old = entered[index];
    let taken = old == value;
    // Both are written in either case: with a branch that depends on a cell, sectors on random floors took 5 to 15 % longer. For that the queue has a
    // place more than there are cells.
    let new = if taken { PLACED } else { old };
    entered[index] = new;
    queue[queued] = index as u8;
    queued + usize::from(taken)
}

// Places the neighbour of a cell in one direction, if there is one and a move from the cell comes to its built cost. The step says whether there is one;
// its index is worked out from the cell's own. Answers how many cells are queued.
fn place_towards(
    entered: &mut [u32; 100],
    queue: &mut [u8; 101],
    queued: usize,
    value: u32,
    from: usize,
    dir: CompassDir,
) -> usize
    requires { (value ≤ 65536) × HasRoom entered.old queue.old queued }
    ensures { StepsTo entered.old queue.old queued entered.new queue.new result
        (λ values p. placed_to values value p (stepped (cell_at from) dir)) }
{
    let here = FieldCell::from_index(from);
    let Some(neighbour) = here.get_in_compass_direction(dir) else {
        return queued;
    };
    let index = fields::index_beside(from, dir);
    place_at(entered, queue, queued, value, index)
}

// Places those neighbours of a cell to which a move comes at their built cost, in the order N, E, S, W. Answers how many cells are queued.
fn place_around(
    entered: &mut [u32; 100],
    queue: &mut [u8; 101],
    queued: usize,
    value: u32,
    from: usize,
) -> usize
    requires { (value ≤ 65536) × HasRoom entered.old queue.old queued }
    ensures { StepsTo entered.old queue.old queued entered.new queue.new result
        (λ values p. placed_around values value p (cell_at from) orthogonal) }
{
    let one = place_towards(entered, queue, queued, value, from, CompassDir::North);
    let two = place_towards(entered, queue, one, value, from, CompassDir::East);
    let three = place_towards(entered, queue, two, value, from, CompassDir::South);
    place_towards(entered, queue, three, value, from, CompassDir::West)
}

// Hands a corner's position on, as a flood fill does: each queued cell, from place `gone` on, takes the position, and its neighbours that are placed
// from it are queued behind the others. Ends when all queued cells have had their turn. Answers how many cells are queued then.
fn flood(
    built: &[u32; 100],
    entered: &mut [u32; 100],
    positions: &mut [u8; 100],
    queue: &mut [u8; 101],
    gone: usize,
    queued: usize,
    position: u8,
) -> usize
    requires { FloodReady entered.old queue.old gone queued position }
    ensures { HasRoom entered.new queue.new result × ((costs before corners values : List ℕ) (s : Placing)
        → BuiltOn costs before corners built.now values
        → StandsFor values entered.old queue.old queued s
        → Written gone positions.old s
        → Flood costs before corners built.now values position gone s
        → FloodedOn costs before corners built.now values position entered.new s
        (placing positions.new queue.new result)) }
{
    // The queue grows while it is gone through, so its end is asked for at each turn.
    let mut count = queued;
    let mut i = gone;
    while i < count {
        let from = usize::from(queue[i]);
        let value = integration_bits::low_bits(built[from]);
        positions[from] = position;
        count = place_around(entered, queue, count, value, from);
        i += 1;
    }
    count
}

// A corner that building left alone takes its own position, if it has none, and the position is handed on from there. Answers how many cells are queued then.
fn place_corner(
    built: &[u32; 100],
    entered: &mut [u32; 100],
    positions: &mut [u8; 100],
    queue: &mut [u8; 101],
    queued: usize,
    position: u8,
    corner: usize,
) -> usize
    requires { CornerReady entered.old queue.old queued position corner }
    ensures { HasRoom entered.new queue.new result × ((costs before corners values : List ℕ)
        → BuiltOn costs before corners built.now values
        → position < length corners
        → get_or corners position 0 ≡ corner
        → GoneOn costs before corners built.now values position entered.old
        (placing positions.old queue.old queued)
        → GoneOn costs before corners built.now values (position + 1) entered.new
        (placing positions.new queue.new result)) }
{
    let more = place_at(entered, queue, queued, LEFT_ALONE, corner);
    flood(built, entered, positions, queue, queued, more, position)
}

// Hands on the positions of all corners, in list order.
fn place_corners(
    built: &[u32; 100],
    entered: &mut [u32; 100],
    positions: &mut [u8; 100],
    corners: &[usize; 100],
    count: usize,
)
    requires { CornersReady entered.old positions.old corners.now count }
    ensures { (costs before : List ℕ)
        → BuiltOn costs before (take count corners.now) built.now entered.old
        → Decided costs before (take count corners.now) built.now entered.old positions.new }
{
    let mut queue = [0; 101];
    let mut queued = 0;
    for place in 0..count {
        let corner = corners[place];
        let position = place as u8;
        queued = place_corner(
            built, entered, positions, &mut queue, queued, position, corner,
        );
    }
}

// The position that a cell keeps: none where it was wall, in sight or flagged GOAL before building.
fn kept(before: u32, position: u8) -> u8
    ensures { result ≡ kept_of before position }
{
    if integration_bits::is_impassable(before) {
        return NO_POSITION;
    }
    if integration_bits::is_los(before) {
        return NO_POSITION;
    }
    if integration_bits::is_goal(before) {
        return NO_POSITION;
    }
    position
}

// For every cell, the position that it keeps.
fn keep(before: &[u32; 100], positions: &[u8; 100]) -> [u8; 100]
    ensures { result ≡ map (λ x. kept_of (get_or before.now x 0) (get_or positions.now x 0)) (below 100) }
{
    let mut left = [0; 100];
    for i in 0..100 {
        left[i] = kept(before[i], positions[i]);
    }
    left
}

// For each cell of a built field the position of the corner that it belongs to, 255 where it belongs to none.
pub fn corner_positions(
    costs: &[u8; 100],
    before: &[u32; 100],
    built: &[u32; 100],
    corners: &[usize; 100],
    count: usize,
) -> [u8; 100]
    requires { BuiltFrom costs.now before.now built.now corners.now count }
    ensures { result ≡ positions costs.now before.now (take count corners.now) }
{
    // Without corners no cell belongs to one.
    if count == 0 {
        return [NO_POSITION; 100];
    }
    let mut entered = entered_from(costs, before, built);
    let mut positions = [NO_POSITION; 100];
    place_corners(built, &mut entered, &mut positions, corners, count);
    keep(before, &positions)
}
