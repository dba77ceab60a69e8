// Starting a field: walls, then window cells or the goal, and from a goal the sight of it.
#![tactic(auto)]

ghost use Rattle.std.specs.Prelude.{◌≡◌, false, ◌||◌, List, [], ◌∷◌, ℕ, suc, ◌+◌, ◌<◌, replicate};
ghost use Rattle.utilities.specs.Compass.{orthogonal};
ghost use Rattle.fields.specs.Cell.{cell_at, stepped};
ghost use Rattle.fields.specs.CellList.{held};
ghost use Rattle.integration_field.specs.Promise.{ZeroField};
ghost use Rattle.refusals.specs.Refusal.{number_of};
ghost use Rattle.route.specs.Target.{target_of};
ghost use Rattle.integration_field.specs.Word.{is_los, is_goal, is_blocked};
ghost use Rattle.integration_field.specs.Diagonal.{wall_at};
ghost use Rattle.integration_field.specs.Listed.{with_corners};
ghost use Rattle.line_end_table.specs.Ends.{EndsFor};
ghost use Rattle.route.specs.Inner.{held_cells, held_target, WindowHeld, TargetHeld};
ghost use Rattle.integration_started.specs.Started.{started_at, started_from, started_without, started, init_refused, init_answer, StartedField};
ghost use Rattle.integration_started.specs.CornerLine.{corner_line};
ghost use Rattle.integration_started.specs.Sight.{wall_or, walls, marked, stopped, line_marked, extended, unless_wall, side_tried, wall_met};
ghost use Rattle.integration_started.specs.Sight.{spread_to, spread_towards, spread_around, wave_spread, sight_after};
ghost use Rattle.integration_walks.specs.Promise.{OnceBuilt};
ghost use Rattle.flow_arrows.specs.Promise.{OnceBuiltArrows};
ghost use Rattle.integration_init.specs.Held.{sight_of, Holds, Ready, Applied, AppliedAll, HoldsAll, NoWall, Lent, InWave};
ghost use Rattle.integration_init.specs.Inner.{ToMark, ToMarkLine, AtWall, FromCell, AtWave, BeforeWave, AtGoal};

use fields::{CellList, FieldCell};
use integration_bits::{
    INT_BITS_CORNER, INT_BITS_GOAL, INT_BITS_IMPASSABLE, INT_BITS_LOS, INT_BITS_PORTAL,
    INT_BITS_WAVE_BLOCKED,
};
use integration_field::IntegrationField;
use integration_started::InitAnswer;
use refusals::Refusal;
use route::{RouteStep, Target};
use utilities::CompassDir;

// A wave of sight: the goal that it comes from, what it costs, and for each cell the one in which a line ends that a corner there draws away from the goal.
#[derive(Drop)]
struct Wave {
    goal: usize,
    cost: u32,
    ends: [u8; 100],
}

// Whether the cell at an index is a wall.
fn is_wall_at(field: &IntegrationField, n: usize) -> bool
    requires { n < 100 }
    ensures { result ≡ wall_at field.now.field n }
{
    integration_bits::is_impassable(field.field[n])
}

// Whether a line stops before cell n, which it enters from `previous`: n is a wall, or the move there is diagonal and passes one.
fn is_stopped(field: &IntegrationField, previous: usize, n: usize) -> bool
    requires { (previous < 100) × (n < 100) }
    ensures { result ≡ stopped field.now.field previous n }
{
    if is_wall_at(field, n) {
        return true;
    }
    let from = FieldCell::from_index(previous);
    let to = FieldCell::from_index(n);
    let in_row = field.field[from.row * 10 + to.column];
    let in_column = field.field[to.row * 10 + from.column];
    integration_bits::passes_wall(from, to, in_row, in_column)
}

// A cell that a line goes over is flagged BLOCKED and CORNER with its value, and listed as a corner, unless a line has marked it before.
fn mark(field: &mut IntegrationField, n: usize, value: u32)
    requires { ToMark field.old n value }
    ensures { Applied (marked value n) field.old field.new }
{
    if integration_bits::is_blocked(field.field[n]) {
        return;
    }
    field.los_corners[field.count] = n;
    field.count += 1;
    field.field[n] = value + INT_BITS_WAVE_BLOCKED + INT_BITS_CORNER;
}

// The cell at one side of a cell, where there is one and it is no wall.
fn open_side(field: &IntegrationField, from: usize, side: CompassDir) -> Option<FieldCell>
    requires { from < 100 }
    ensures { result ≡ unless_wall field.now.field (stepped (cell_at from) side) }
{
    let Some(n) = FieldCell::from_index(from).get_in_compass_direction(side) else {
        return None;
    };
    if is_wall_at(field, n.as_1d_index()) {
        return None;
    }
    Some(n)
}

// Whether sight leaves a cell as it is: its word has BLOCKED, GOAL or LOS, which one mask tells.
#[tactic(auto, using(crate::proofs::Masks::three_mask))]
fn is_left_alone(word: u32) -> bool
    ensures { result ≡ ((is_blocked word || is_goal word) || is_los word) }
{
    word & (INT_BITS_WAVE_BLOCKED | INT_BITS_GOAL | INT_BITS_LOS) != 0
}

impl Wave {
    // Marks the cells of a corner's line up to where it stops; the i-th gets the wave's cost + 1 + i.
    fn mark_line(&self, field: &mut IntegrationField, corner: usize, line: &[u8])
        requires { ToMarkLine field.old corner line.now self.now.cost }
        ensures { Applied (line_marked self.now.cost 0 corner line.now) field.old field.new }
    {
        let mut previous = corner;
        let mut value = self.cost + 1;
        for &cell in line {
            let n = usize::from(cell);
            if is_stopped(field, previous, n) {
                return;
            }
            mark(field, n, value);
            previous = n;
            value += 1;
        }
    }

    // A corner hides what lies behind it, seen from the goal: the line from the corner to the edge of the sector, away from the goal, is drawn and its
    // cells are marked.
    fn extend_los_corner(&self, field: &mut IntegrationField, corner: usize)
        requires { (Ready field.old) × (InWave (EndsFor self.now.goal self.now.ends) self.now.cost self.now.goal corner) }
        ensures { Applied (extended (corner_line self.now.goal) self.now.cost corner) field.old field.new }
    {
        let from = FieldCell::from_index(corner);
        let end = FieldCell::from_index(usize::from(self.ends[corner]));
        let line = bresenham::draw_cells_between_points(from, end);
        self.mark_line(field, corner, &line.cells[..line.count]);
    }

    // Where a wall ends, sight goes past it: if the cells beside the wall and beside `from`, which met it, lie in the sector and are no walls, the one
    // beside the wall is a corner, and its line is drawn.
    fn try_side(&self, field: &mut IntegrationField, from: usize, wall: usize, side: CompassDir)
        requires { AtWall self.now field.old from wall }
        ensures { Applied (side_tried (corner_line self.now.goal) self.now.cost from wall side) field.old field.new }
    {
        let Some(_) = open_side(field, from, side) else {
            return;
        };
        let Some(corner) = open_side(field, wall, side) else {
            return;
        };
        self.extend_los_corner(field, corner.as_1d_index());
    }

    // Tries both sides of a wall, across the direction in which it was met.
    fn meet_wall(&self, field: &mut IntegrationField, from: usize, wall: usize, dir: CompassDir)
        requires { AtWall self.now field.old from wall }
        ensures { Applied (wall_met (corner_line self.now.goal) self.now.cost from wall dir) field.old field.new }
    {
        let side = dir.lower_side();
        self.try_side(field, from, wall, side);
        self.try_side(field, from, wall, side.inverse());
    }

    // Sight comes to cell n from its neighbour `from`: n is left as it is, or is a wall and met, or comes into sight and is queued for the next wave.
    // Most often it is in sight already, and no cell in sight is a wall: so that is asked first, with one test.
    fn spread_to(
        &self,
        field: &mut IntegrationField,
        next: &mut CellList<100>,
        from: usize,
        dir: CompassDir,
        n: usize,
    )
        requires { (FromCell self.now field.old next.old from) × (n < 100) }
        ensures { AppliedAll (spread_to (corner_line self.now.goal) self.now.cost from dir n) field.old next.old field.new next.new }
    {
        let word = field.field[n];
        if is_left_alone(word) {
            return;
        }
        if integration_bits::is_impassable(word) {
            self.meet_wall(field, from, n, dir);
            return;
        }
        field.field[n] = self.cost + INT_BITS_LOS;
        next.push(n as u8);
    }

    // Sight goes on from cell `from` in one direction, if there is a neighbour. The step says whether there is one; its index is worked out from that of
    // `from`.
    fn spread_towards(
        &self,
        field: &mut IntegrationField,
        next: &mut CellList<100>,
        from: usize,
        dir: CompassDir,
    )
        requires { FromCell self.now field.old next.old from }
        ensures { AppliedAll (spread_towards (corner_line self.now.goal) self.now.cost from dir (stepped (cell_at from) dir))
            field.old next.old field.new next.new }
    {
        let Some(_) = FieldCell::from_index(from).get_in_compass_direction(dir) else {
            return;
        };
        let n = fields::index_beside(from, dir);
        self.spread_to(field, next, from, dir, n);
    }

    // Sight goes on from cell `from` to its neighbours, in the order N, E, S, W.
    fn spread_around(&self, field: &mut IntegrationField, next: &mut CellList<100>, from: usize)
        requires { FromCell self.now field.old next.old from }
        ensures { AppliedAll (spread_around (corner_line self.now.goal) self.now.cost from orthogonal) field.old next.old field.new next.new }
    {
        for side in 0..4 {
            let dir = CompassDir::from_boundary(side);
            self.spread_towards(field, next, from, dir);
        }
    }

    // Sight goes on from each cell of the wave, and the cells that come into sight are listed as the next wave.
    fn spread_wave(
        &self,
        field: &mut IntegrationField,
        cells: &CellList<100>,
        next: &mut CellList<100>,
    )
        requires { AtWave self.now field.old cells.now next.old }
        ensures { HoldsAll (wave_spread (corner_line self.now.goal) self.now.cost (held cells.now) (sight_of field.old [])) field.new next.new }
    {
        next.count = 0;
        for &cell in &cells.cells[..cells.count] {
            self.spread_around(field, next, usize::from(cell));
        }
    }

    // Spreads sight, one wave a call, until a wave is empty or the falling number is 0. The cells of this wave and the places for the next one are lent
    // from above, and change places in the call for the next wave: so a wave takes no memory of its own.
    fn propagate_los(
        &mut self,
        field: &mut IntegrationField,
        cells: &mut CellList<100>,
        next: &mut CellList<100>,
        falling: usize,
    )
        requires { BeforeWave self.old field.old cells.old next.old falling }
        ensures { (before : List ℕ) (k : ℕ) → self.old.cost ≡ suc k
            → sight_of field.old (held cells.old) ≡ sight_after (corner_line self.old.goal) before self.old.goal k
            → Holds (sight_after (corner_line self.old.goal) before self.old.goal (k + falling)) field.new }
    {
        if falling == 0 {
            return;
        }
        if cells.count == 0 {
            return;
        }
        self.spread_wave(field, cells, next);
        self.cost += 1;
        self.propagate_los(field, next, cells, falling - 1)
    }
}

// Whether some cell is a wall. The contract says what the caller needs: where the answer is no, no cell is a wall.
fn has_wall(field: &IntegrationField) -> bool
    ensures { result ≡ false → NoWall field.now.field }
{
    field
        .field
        .iter()
        .any(|word| integration_bits::is_impassable(*word))
}

// Where the lines of a goal's corners end, for the waves of its sight: read from the table of line ends. Without a wall there is no corner and no line:
// then they are zeros, which nothing reads.
fn ends_to_lend(field: &IntegrationField, goal: usize) -> [u8; 100]
    requires { goal < 100 }
    ensures { Lent goal result field.now.field }
{
    if has_wall(field) {
        return line_end_table::read_ends(goal);
    }
    [0; 100]
}

// Spreads sight from the goal, which is the one cell of the first wave.
fn spread_sight(field: &mut IntegrationField, goal: usize)
    requires { AtGoal field.old goal }
    ensures { (before : List ℕ) → sight_of field.old (goal ∷ []) ≡ sight_after (corner_line goal) before goal 0
        → Holds (sight_after (corner_line goal) before goal 100) field.new }
{
    let mut wave = Wave {
        goal,
        cost: 1,
        ends: ends_to_lend(field, goal),
    };
    let mut cells: CellList<100> = CellList::none();
    let mut next: CellList<100> = CellList::none();
    cells.push(goal as u8);
    wave.propagate_los(field, &mut cells, &mut next, 100);
}

// What a cell holds at first, by its cost: 65535, and cost 255 makes it a wall.
fn wall_or(cost: u8) -> u32
    ensures { result ≡ wall_or cost }
{
    if cost == 255 {
        return 65535 + INT_BITS_IMPASSABLE;
    }
    65535
}

// Sets every cell to what it holds at first. By the array's `map` it was measured to take some 400 ns more, of some 2,000 for a field's start.
fn mark_walls(costs: &[u8; 100], cells: &mut [u32; 100])
    ensures { cells.new ≡ walls costs.now }
{
    for i in 0..100 {
        cells[i] = wall_or(costs[i]);
    }
}

// A field of which no cell is marked, with no corner and no position.
fn unmarked() -> IntegrationField
    ensures { result ≡ with_corners (replicate 100 65535) [] }
{
    IntegrationField {
        field: [65535; 100],
        los_corners: [0; 100],
        count: 0,
        positions: [255; 100],
    }
}

// The field that starts at window cells, which need not lie side by side: they are marked as portals and listed as corners in order.
pub fn start_at(costs: &[u8; 100], window: CellList<10>) -> IntegrationField
    requires { WindowHeld window }
    ensures { result ≡ started_at costs.now (held_cells window) }
{
    let mut field = unmarked();
    mark_walls(costs, &mut field.field);
    for i in 0..window.count {
        let n = usize::from(window.cells[i]);
        field.field[n] = INT_BITS_PORTAL;
        field.los_corners[i] = n;
    }
    field.count = window.count;
    field
}

// The field that starts from a goal, with the sight of it.
fn start_from(costs: &[u8; 100], goal: usize) -> IntegrationField
    requires { goal < 100 }
    ensures { result ≡ started_from costs.now goal }
{
    let mut field = unmarked();
    mark_walls(costs, &mut field.field);
    field.field[goal] = INT_BITS_GOAL;
    spread_sight(&mut field, goal);
    field
}

// The field that starts from a goal without the sight of it: the goal is the one listed corner.
#[tactic(auto, unfolding(integration_started::specs::Started::started_without, integration_started::specs::Sight::with_goal))]
fn start_without(costs: &[u8; 100], goal: usize) -> IntegrationField
    requires { goal < 100 }
    ensures { result ≡ started_without costs.now goal }
{
    let mut field = unmarked();
    mark_walls(costs, &mut field.field);
    field.field[goal] = INT_BITS_GOAL;
    field.los_corners[0] = goal;
    field.count = 1;
    field
}

// The field that a target starts: from its window's cells, or from its goal with sight or without.
#[tactic(auto, unfolding(integration_started::specs::Started::started))]
pub fn start(costs: &[u8; 100], target: Target) -> IntegrationField
    requires { TargetHeld target }
    ensures { result ≡ started costs.now (held_target target) }
{
    match target {
        Target::Window(window) => start_at(costs, window),
        Target::Goal(goal) => start_from(costs, goal),
        Target::Corner(goal) => start_without(costs, goal),
    }
}

// A refused answer: its number, and every other part zero.
fn refused(refusal: Refusal) -> InitAnswer
    ensures { result ≡ init_refused (number_of refusal) }
{
    InitAnswer {
        number: refusal.number(),
        field: IntegrationField::zeros(),
    }
}

// Starts a field on 100 cost bytes for a step of 8 bytes, or answers why not: 1, 3, 4 to 8, or 16.
pub fn init(costs: &[u8], step: &[u8]) -> InitAnswer
    ensures answer { result ≡ init_answer costs.now step.now }
    ensures started { result.number ≡ 0 → StartedField costs.now (target_of step.now) result.field }
    ensures built { result.number ≡ 0 → OnceBuilt costs.now (target_of step.now) result.field }
    ensures arrows { result.number ≡ 0 → OnceBuiltArrows costs.now step.now result.field }
    ensures refused { (result.number ≡ 0 → ⊥) → ZeroField result.field }
{
    let Ok(square) = <&[u8; 100]>::try_from(costs) else {
        return refused(Refusal::CostBytes);
    };
    if let Err(refusal) = step_numbers::step_number_on(costs, step) {
        return refused(refusal);
    }
    let target = RouteStep::new(step).as_target();
    InitAnswer {
        number: 0,
        field: start(square, target),
    }
}
