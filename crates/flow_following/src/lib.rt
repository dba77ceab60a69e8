// Following the arrows of a sheet from all of its cells at once: how many moves it takes to arrive.
// Each cell makes its own move. Then all go on in rounds, and a round doubles the moves: where a cell's moves have led to another cell, that cell's
// own moves tell where as many more lead. So each cell is looked at a few times in each of at most seven rounds, however far its arrows lead.
#![tactic(auto)]

ghost use Rattle.std.specs.Prelude.{◌≡◌, true, map, ◌<◌, ◌%◌, get_or};
ghost use Rattle.utilities.specs.Lists.{below};
ghost use Rattle.fields.specs.Cell.{cell_at, stepped};
ghost use Rattle.flow_bits.specs.Byte.{dir_of};
ghost use Rattle.flow_arrivals.specs.Following.{is_arrival};
ghost use Rattle.flow_arrivals.specs.Inner.{first_trail, trail_after, doubled_trail, ShortTrails, AllArrived, told_moves};
ghost use Rattle.flow_arrivals.specs.Arrivals.{moves_from, arrivals_answer};
ghost use Rattle.utilities.specs.Padded.{AllZero};
ghost use Rattle.flow_arrivals.specs.Promise.{ArrivalsTold};
ghost use Rattle.flow_arrivals_planned.specs.Promise.{WindowArrives, SightlessArrives, LegTold};

use fields::FieldCell;
use flow_arrivals::Arrivals;
use refusals::Refusal;

// The number of moves of a cell whose arrows never arrive.
const NEVER: u8 = 255;

// One move in a trail. A cell's trail is one number: how many moves were made from the cell, times this, and the index of the cell where they lead.
const MOVE: u16 = 256;

// Whether the arrows have arrived at a byte: it reads as goal, in sight or portal goal.
fn is_arrival(byte: u8) -> bool
    ensures { result ≡ is_arrival byte }
{
    flow_bits::is_goal(byte)
        || flow_bits::has_line_of_sight(byte)
        || flow_bits::is_portal_goal(byte)
}

// Where a cell's byte points: a cell, or out of the sector, as a byte with no direction does too.
fn next_cell(byte: u8, index: usize) -> Option<FieldCell>
    ensures { result ≡ stepped (cell_at index) (dir_of byte) }
{
    let from = FieldCell::from_index(index);
    let dir = flow_bits::get_compass_dir_from_bits(byte);
    from.get_in_compass_direction(dir)
}

// The trail of a cell after its own move. A byte that has arrived makes none. A move that leaves the sector leads to the cell itself, so that the
// moves go on and never arrive.
fn first_trail(byte: u8, index: usize) -> u16
    requires { index < 100 }
    ensures { result ≡ first_trail byte index }
{
    let own = index as u16;
    if is_arrival(byte) {
        return own;
    }
    let Some(to) = next_cell(byte, index) else {
        return MOVE + own;
    };
    MOVE + to.as_1d_index() as u16
}

// The trails of all cells after their own moves.
fn first_trails(sheet: &[u8; 100]) -> [u16; 100]
    ensures { result ≡ map (trail_after sheet.now 1) (below 100) }
{
    let mut trails = [0; 100];
    for i in 0..100 {
        trails[i] = first_trail(sheet[i], i);
    }
    trails
}

// The index of the cell where a trail leads.
fn led_to(trail: u16) -> usize
    ensures { result ≡ trail % 256 }
{
    (trail % MOVE) as usize
}

// A round: each trail goes on by as many moves again, those of the cell where it leads.
fn doubled(trails: &[u16; 100]) -> [u16; 100]
    requires { ShortTrails trails.now }
    ensures { result ≡ map (doubled_trail trails.now) (below 100) }
{
    let mut further = [0; 100];
    for i in 0..100 {
        let trail = trails[i];
        further[i] = trail / MOVE * MOVE + trails[led_to(trail)];
    }
    further
}

// Whether every cell has arrived, by trails of so many moves: none has made them all. All trails are tested in either case: leaving at the first that
// has not arrived made an open goal's arrivals take 19 % longer.
fn all_arrived(trails: &[u16; 100], made: u16) -> bool
    requires { made < 100 }
    ensures { result ≡ true → AllArrived trails.now made }
{
    let all = made * MOVE;
    let mut arrived = true;
    for trail in trails {
        arrived &= *trail < all;
    }
    arrived
}

// The number of moves that a trail tells at the end. Cells that are passed before the arrows arrive are all different, and a sector has 100: arrows
// that have not arrived after 99 moves never do.
fn told_moves(trail: u16) -> u8
    ensures { result ≡ told_moves trail }
{
    let moves = trail / MOVE;
    if 99 < moves {
        return NEVER;
    }
    moves as u8
}

// The numbers of moves that all trails tell. By `map` arrivals took a third more.
fn all_told(trails: &[u16; 100]) -> [u8; 100]
    ensures { result ≡ map (λ x. told_moves (get_or trails.now x 0)) (below 100) }
{
    let mut moves = [0; 100];
    for i in 0..100 {
        moves[i] = told_moves(trails[i]);
    }
    moves
}

// How many moves bring each cell's arrows to a byte that has arrived, or never. Seven rounds make 128 moves out of one; fewer do where all cells
// have arrived before.
fn all_moves(sheet: &[u8; 100]) -> [u8; 100]
    ensures { result ≡ map (moves_from sheet.now) (below 100) }
{
    let mut trails = first_trails(sheet);
    let mut made: u16 = 1;
    while made < 100 && !all_arrived(&trails, made) {
        trails = doubled(&trails);
        made += made;
    }
    all_told(&trails)
}

// The call for arrivals: number 2 for a sheet that is not 100 bytes. Nothing that is lent is written.
pub fn arrivals(sheet: &[u8]) -> Arrivals
    ensures answer { result ≡ arrivals_answer sheet.now }
    ensures told { result.number ≡ 0 → ArrivalsTold sheet.now result.moves }
    ensures by_window { result.number ≡ 0 → WindowArrives sheet.now result.moves }
    ensures whole_way { result.number ≡ 0 → LegTold sheet.now result.moves }
    ensures without_sight { result.number ≡ 0 → SightlessArrives sheet.now result.moves }
    ensures refused { (result.number ≡ 0 → ⊥) → AllZero 0 result.moves }
{
    let Some(sheet) = sheet.as_array::<100>() else {
        return Arrivals {
            number: Refusal::Sheet.number(),
            moves: [0; 100],
        };
    };
    Arrivals {
        number: 0,
        moves: all_moves(sheet),
    }
}
