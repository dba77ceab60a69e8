// The library that others link. Each export hands on to the call of its name, and promises the same.
#![tactic(auto)]

ghost use Rattle.std.specs.Prelude.{true, false, ◌≡◌, ◌↔◌, take, drop};
ghost use Rattle.utilities.specs.Compass.{number_of};
ghost use Rattle.utilities.specs.Padded.{AllZero};
ghost use Rattle.fields.specs.Cell.{cell};
ghost use Rattle.line_nearest.specs.Line.{line_call, shallow_call, steep_call};
ghost use Rattle.line_nearest.specs.Nearest.{column_of, row_of, HoldsNearestLine, HoldsNearestWalk, CellsBeyond, LineRefused};
ghost use Rattle.line_end.specs.LineEnd.{line_end_answer};
ghost use Rattle.line_end.specs.Away.{HoldsSlanted, HoldsStraight, EndRefused};
ghost use Rattle.line_end.specs.Mirror.{HoldsMirrored};
ghost use Rattle.route.specs.Step.{is_window};
ghost use Rattle.route.specs.Target.{target_of, without_sight, TargetTold};
ghost use Rattle.integration_field.specs.Listed.{list_of};
ghost use Rattle.integration_field.specs.Answer.{build_answer};
ghost use Rattle.integration_field.specs.Promise.{LeastWalks, Counted, EarliestCorners, ListKept, ZeroField, BuildRefused};
ghost use Rattle.integration_started.specs.Started.{init_answer, StartedField};
ghost use Rattle.integration_walks.specs.Promise.{StartedPositions, OnceBuilt, BuildsStarted};
ghost use Rattle.flow_bits.specs.Byte.{dir_of, is_pathable, has_line_of_sight, is_goal, is_portal_goal, is_wall};
ghost use Rattle.flow_arrows.specs.Promise.{BuildArrows, OnceBuiltArrows, StartedArrows};
ghost use Rattle.flow_arrivals.specs.Arrivals.{arrivals_answer};
ghost use Rattle.flow_arrivals.specs.Promise.{ArrivalsTold};
ghost use Rattle.flow_arrivals_planned.specs.Promise.{WindowArrives, SightlessArrives, LegTold};
ghost use Rattle.flow_new.specs.Flow.{new_number, new_sheet};
ghost use Rattle.flow_build.specs.Flow.{build_number, build_sheet};
ghost use Rattle.sector.specs.Sector.{sector_answer, sector_sheet, sector_answer_by, sector_sheet_by};
ghost use Rattle.sector.specs.Previous.{WithoutPrevious, TargetOnWall};
ghost use Rattle.sector.specs.Promise.{Planned, PlannedWithout};
ghost use Rattle.bounds_told.specs.Bounds.{bounds_answer};
ghost use Rattle.bounds_told.specs.Promise.{CostBounds, SureMarks, BoundsRefused, NoBounds};
ghost use Rattle.bounds.specs.Promise.{floor_bytes};
ghost use Rattle.window_square.specs.Square.{square_in, window_costs_answer};
ghost use Rattle.window_square.specs.Promise.{WindowSquare, SquareRefused, WrongCount, NotAmong};
ghost use Rattle.tour_plan.specs.Plan.{tour_in, tour_answer};
ghost use Rattle.tour_plan.specs.Promise.{TourPlanned, TourRefused};
ghost use Rattle.step_list.specs.Steps.{steps_of};
ghost use Rattle.leg_plan.specs.Leg.{leg_number, leg_sheet, leg_number_by, leg_sheet_by};
ghost use Rattle.leg_plan.specs.Closed.{LegClosed};
ghost use Rattle.leg_plan.specs.Walls.{LegOnWall};
ghost use Rattle.leg_plan.specs.Promise.{LegPlanned, LegPlannedBy};
ghost use Rattle.leg_journey.specs.Journey.{LegArrives, LegArrivesAtGoal};
ghost use Rattle.leg_journey.specs.Place.{place_of};
ghost use Rattle.leg_field.specs.Field.{field_answer_by};
ghost use Rattle.leg_field.specs.Promise.{FieldPlanned, AsLeg, BeyondList};
ghost use Rattle.leg_moves.specs.Answers.{move_answer, way_answer};
ghost use Rattle.leg_moves.specs.Promise.{CartNumbered, MoveRefused, WayRefused, MoveTold, WayTold, LegDriven, WayToGoal};
ghost use Rattle.leg_file.specs.File.{write_number, written_file, file_steps, file_answer};
ghost use Rattle.leg_file.specs.Promise.{ReadBack, WrittenSame, FileRefused};
ghost use Rattle.practice.specs.Floor.{practice_floor};
ghost use Rattle.practice.specs.Promise.{PracticeTold};
ghost use Rattle.version.specs.Version.{version_number};

use bounds_told::Bounds;
use fields::FieldCell;
use flow_arrivals::Arrivals;
use integration_field::{BuildAnswer, IntegrationField};
use integration_started::InitAnswer;
use leg_file::LegFile;
use leg_moves::{CartMove, CartWay};
use line_end::LineEnd;
use line_nearest::Line;
use practice::PracticeFloor;
use tour_plan::WindowTour;
use window_square::WindowCosts;

// The sector call: the field that a step starts, built, and its flow bytes, or number 1, 2, 3, 4 to 8, 16, 17, or 12.
#[unsafe(no_mangle)]
pub extern "C" fn hanjolum_sector(
    costs: &[u8],
    step: &[u8],
    has_previous: bool,
    previous: &[u32],
    sheet: &mut [u8],
) -> BuildAnswer
    ensures answer { result ≡ sector_answer costs.now step.now has_previous previous.now sheet.old }
    ensures sheet { sheet.new
        ≡ sector_sheet costs.now step.now has_previous previous.now sheet.old }
    ensures planned { result.number ≡ 0 → Planned costs.now (target_of step.now) result.field.field result.waves sheet.new }
    ensures positions { result.number ≡ 0
        → StartedPositions costs.now (target_of step.now) result.field.field result.field.positions }
    ensures refused { (result.number ≡ 0 → ⊥) → BuildRefused result }
    ensures target { result.number ≡ 0 → TargetTold step.now }
    ensures sixteen { (result.number ≡ 16) ↔ TargetOnWall costs.now step.now sheet.old }
    ensures seventeen { (result.number ≡ 17) ↔ WithoutPrevious costs.now step.now has_previous sheet.old }
{
    sector::plan_sector(costs, step, has_previous.then_some(previous), sheet)
}

// A sector planned without sight: a goal is the one listed corner, so that every arrow leads to it; a step with a window is planned as it is with
// sight. Its numbers are those of the sector call.
#[unsafe(no_mangle)]
pub extern "C" fn hanjolum_sector_without_sight(
    costs: &[u8],
    step: &[u8],
    has_previous: bool,
    previous: &[u32],
    sheet: &mut [u8],
) -> BuildAnswer
    ensures answer { result
        ≡ sector_answer_by false costs.now step.now has_previous previous.now sheet.old }
    ensures sheet { sheet.new
        ≡ sector_sheet_by false costs.now step.now has_previous previous.now sheet.old }
    ensures planned { result.number ≡ 0
        → Planned costs.now (without_sight (target_of step.now)) result.field.field result.waves sheet.new }
    ensures positions { result.number ≡ 0
        → StartedPositions costs.now (without_sight (target_of step.now)) result.field.field result.field.positions }
    ensures without { result.number ≡ 0 → PlannedWithout costs.now step.now result.field sheet.new }
    ensures window { is_window step.now ≡ true
        → (result ≡ sector_answer costs.now step.now has_previous previous.now sheet.old)
        × (sheet.new ≡ sector_sheet costs.now step.now has_previous previous.now sheet.old) }
    ensures refused { (result.number ≡ 0 → ⊥) → BuildRefused result }
    ensures target { result.number ≡ 0 → TargetTold step.now }
    ensures sixteen { (result.number ≡ 16) ↔ TargetOnWall costs.now step.now sheet.old }
    ensures seventeen { (result.number ≡ 17) ↔ WithoutPrevious costs.now step.now has_previous sheet.old }
{
    sector::plan_sector_without_sight(costs, step, has_previous.then_some(previous), sheet)
}

// The least and greatest built costs over all floors between two, and the cells that are sure, or number 1, 3, 4 to 8, 16, or 18.
#[unsafe(no_mangle)]
pub extern "C" fn hanjolum_bounds(low: &[u8], high: &[u8], step: &[u8]) -> Bounds
    ensures answer { result ≡ bounds_answer low.now high.now step.now }
    ensures bounded { result.number ≡ 0 → CostBounds low.now high.now (target_of step.now) result.least result.greatest }
    ensures sure { result.number ≡ 0
        → SureMarks low.now high.now (target_of step.now)
        (floor_bytes step.now) result.least result.greatest result.sure }
    ensures refused { (result.number ≡ 0 → ⊥) → BoundsRefused result }
    ensures eighteen { (result.number ≡ 18) ↔ NoBounds low.now high.now step.now }
{
    bounds::bounds(low, high, step)
}

// The square of costs from window to window inside one sector, or number 1, 3, 19, or of one step before the next 4 to 8, 16, or 20.
#[unsafe(no_mangle)]
pub extern "C" fn hanjolum_window_costs(costs: &[u8], steps: &[u8]) -> WindowCosts
    ensures answer { result ≡ window_costs_answer costs.now steps.now }
    ensures least { result.number ≡ 0 → WindowSquare costs.now (steps_of steps.now) (square_in result.rows) }
    ensures refused { (result.number ≡ 0 → ⊥) → SquareRefused (square_in result.rows) }
    ensures nineteen { (result.number ≡ 19) ↔ WrongCount costs.now steps.now }
    ensures twenty { (result.number ≡ 20) ↔ NotAmong costs.now steps.now }
{
    window_costs::window_costs(costs, steps)
}

// A tour of the windows of one sector: the best of as many orders as the limit says, and the least figure, or the numbers of window costs.
#[unsafe(no_mangle)]
pub extern "C" fn hanjolum_window_tour(costs: &[u8], steps: &[u8], limit: u16) -> WindowTour
    ensures answer { result ≡ tour_answer costs.now steps.now limit }
    ensures planned { result.number ≡ 0 → TourPlanned costs.now (steps_of steps.now) limit (tour_in result) }
    ensures refused { (result.number ≡ 0 → ⊥) → TourRefused result }
    ensures nineteen { (result.number ≡ 19) ↔ WrongCount costs.now steps.now }
    ensures twenty { (result.number ≡ 20) ↔ NotAmong costs.now steps.now }
{
    tour::window_tour(costs, steps, limit)
}

// A leg of one to sixteen steps, planned onto the sheet of a floor: 0, or number 1 to 10, 15, or 16.
#[unsafe(no_mangle)]
pub extern "C" fn hanjolum_leg(floor: &[u8], steps: &[u8], sheet: &mut [u8]) -> u8
    ensures number { result ≡ leg_number floor.now steps.now sheet.old }
    ensures sheet { sheet.new ≡ leg_sheet floor.now steps.now sheet.old }
    ensures planned { result ≡ 0 → LegPlanned floor.now (steps_of steps.now) sheet.old sheet.new }
    ensures arrives { result ≡ 0 → LegArrives floor.now (steps_of steps.now) sheet.new }
    ensures fifteen { (result ≡ 15) ↔ LegClosed true floor.now steps.now sheet.old }
    ensures sixteen { (result ≡ 16) ↔ LegOnWall floor.now steps.now sheet.old }
{
    refusals::number(leg::plan_leg(floor, steps, sheet))
}

// A leg whose goal's own sector is planned without sight, so that every arrow leads to the goal: 0, or number 1 to 10, 15, or 16.
#[unsafe(no_mangle)]
pub extern "C" fn hanjolum_leg_without_sight(floor: &[u8], steps: &[u8], sheet: &mut [u8]) -> u8
    ensures number { result ≡ leg_number_by false floor.now steps.now sheet.old }
    ensures sheet { sheet.new ≡ leg_sheet_by false floor.now steps.now sheet.old }
    ensures planned { result ≡ 0 → LegPlannedBy false floor.now (steps_of steps.now) sheet.old sheet.new }
    ensures arrives { result ≡ 0 → LegArrivesAtGoal floor.now (steps_of steps.now) sheet.new }
    ensures fifteen { (result ≡ 15) ↔ LegClosed false floor.now steps.now sheet.old }
    ensures sixteen { (result ≡ 16) ↔ LegOnWall floor.now steps.now sheet.old }
{
    refusals::number(leg::plan_leg_without_sight(floor, steps, sheet))
}

// For each cell of a sheet, the number of moves after which its arrows arrive, 255 where they never do, or number 2.
#[unsafe(no_mangle)]
pub extern "C" fn hanjolum_arrivals(sheet: &[u8]) -> Arrivals
    ensures answer { result ≡ arrivals_answer sheet.now }
    ensures told { result.number ≡ 0 → ArrivalsTold sheet.now result.moves }
    ensures by_window { result.number ≡ 0 → WindowArrives sheet.now result.moves }
    ensures whole_way { result.number ≡ 0 → LegTold sheet.now result.moves }
    ensures without_sight { result.number ≡ 0 → SightlessArrives sheet.now result.moves }
    ensures refused { (result.number ≡ 0 → ⊥) → AllZero 0 result.moves }
{
    flow_following::arrivals(sheet)
}

// The built field of a leg's step, as the leg plans it, or number 1, 3, 21, 4 to 10, 16, or 15.
#[unsafe(no_mangle)]
pub extern "C" fn hanjolum_leg_field(floor: &[u8], steps: &[u8], place: usize) -> BuildAnswer
    ensures answer { result ≡ field_answer_by true floor.now steps.now place }
    ensures planned { result.number ≡ 0 → FieldPlanned true floor.now (steps_of steps.now) place result }
    ensures as_leg { AsLeg true floor.now steps.now place result.number }
    ensures beyond { (result.number ≡ 21) ↔ BeyondList floor.now steps.now place }
    ensures refused { (result.number ≡ 0 → ⊥) → BuildRefused result }
{
    leg_field::leg_field(floor, steps, place)
}

// The built field of a leg's step, as the leg without sight plans it, or number 1, 3, 21, 4 to 10, 16, or 15.
#[unsafe(no_mangle)]
pub extern "C" fn hanjolum_leg_field_without_sight(
    floor: &[u8],
    steps: &[u8],
    place: usize,
) -> BuildAnswer
    ensures answer { result ≡ field_answer_by false floor.now steps.now place }
    ensures planned { result.number ≡ 0 → FieldPlanned false floor.now (steps_of steps.now) place result }
    ensures as_leg { AsLeg false floor.now steps.now place result.number }
    ensures beyond { (result.number ≡ 21) ↔ BeyondList floor.now steps.now place }
    ensures refused { (result.number ≡ 0 → ⊥) → BuildRefused result }
{
    leg_field::leg_field_without_sight(floor, steps, place)
}

// One move of a cart over the floor, by the byte of its place: where it leads, or why it stands still, or number 2, 4, or 5.
#[unsafe(no_mangle)]
pub extern "C" fn hanjolum_move(sheet: &[u8], sector: u8, cell: u8) -> CartMove
    ensures answer { result ≡ move_answer sheet.now sector cell }
    ensures numbers { CartNumbered sheet.now sector cell result.number }
    ensures refused { (result.number ≡ 0 → ⊥) → MoveRefused result }
    ensures told { result.number ≡ 0 → MoveTold sheet.now (place_of sector cell) result }
    ensures driven { LegDriven sheet.now }
{
    leg_moves::next_move(sheet, sector, cell)
}

// The moves of a cart until it stands still, where and why, or that it never does, or number 2, 4, or 5.
#[unsafe(no_mangle)]
pub extern "C" fn hanjolum_way(sheet: &[u8], sector: u8, cell: u8) -> CartWay
    ensures answer { result ≡ way_answer sheet.now sector cell }
    ensures numbers { CartNumbered sheet.now sector cell result.number }
    ensures refused { (result.number ≡ 0 → ⊥) → WayRefused result }
    ensures told { result.number ≡ 0 → WayTold sheet.now (place_of sector cell) result }
    ensures to_goal { result.number ≡ 0 → WayToGoal sheet.now sector cell result }
{
    leg_moves::way(sheet, sector, cell)
}

// A list of steps, written as a file to a buffer exactly as long: 0, or number 3 or 2.
#[unsafe(no_mangle)]
pub extern "C" fn hanjolum_leg_file_write(steps: &[u8], file: &mut [u8]) -> u8
    ensures number { result ≡ write_number steps.now file.old }
    ensures file { file.new ≡ written_file steps.now file.old }
    ensures back { ReadBack steps.now file.old file.new result }
{
    refusals::number(leg_writer::write(steps, file))
}

// The place of the steps in a file, or number 14.
#[unsafe(no_mangle)]
pub extern "C" fn hanjolum_leg_file_read(file: &[u8]) -> LegFile
    ensures answer { result ≡ file_answer file.now }
    ensures part { take result.length (drop result.start file.now) ≡ file_steps file.now }
    ensures same { WrittenSame file.now (take result.length (drop result.start file.now)) }
    ensures refused { (result.number ≡ 0 → ⊥) → FileRefused result }
{
    leg_reader::locate(file)
}

// The practice floor of a seed: 100 costs, and a goal of cost 1.
#[unsafe(no_mangle)]
pub extern "C" fn hanjolum_practice_floor(seed: u32) -> PracticeFloor
    ensures floor { result ≡ practice_floor seed }
    ensures told { PracticeTold seed result }
{
    practice::practice_floor(seed)
}

// The field that a step starts on a sector's costs, or number 1, 3, 4 to 8, or 16.
#[unsafe(no_mangle)]
pub extern "C" fn hanjolum_init(costs: &[u8], step: &[u8]) -> InitAnswer
    ensures answer { result ≡ init_answer costs.now step.now }
    ensures started { result.number ≡ 0 → StartedField costs.now (target_of step.now) result.field }
    ensures built { result.number ≡ 0 → OnceBuilt costs.now (target_of step.now) result.field }
    ensures arrows { result.number ≡ 0 → OnceBuiltArrows costs.now step.now result.field }
    ensures refused { (result.number ≡ 0 → ⊥) → ZeroField result.field }
{
    integration_init::init(costs, step)
}

// A field given by hand, built on a sector's costs, or number 1 or 11.
#[unsafe(no_mangle)]
pub extern "C" fn hanjolum_build(costs: &[u8], field: IntegrationField) -> BuildAnswer
    ensures answer { result ≡ build_answer costs.now field }
    ensures least { result.number ≡ 0 → LeastWalks costs.now field.field (list_of field) result.field.field }
    ensures counted { result.number ≡ 0 → Counted costs.now field.field (list_of field) result.field.field result.waves }
    ensures positions { result.number ≡ 0 → EarliestCorners costs.now field.field (list_of field) result.field.field result.field.positions }
    ensures started { BuildsStarted costs.now field result }
    ensures arrows { StartedArrows costs.now field result.field.field }
    ensures list { result.number ≡ 0 → ListKept field result.field }
    ensures refused { (result.number ≡ 0 → ⊥) → BuildRefused result }
{
    integration_build::build(costs, field)
}

// The flow field of a step, by hand: starting flags and the window's directions, or number 2, 3, 4 to 8, or 12.
#[unsafe(no_mangle)]
pub extern "C" fn hanjolum_flow_new(
    step: &[u8],
    field: IntegrationField,
    has_previous: bool,
    previous: &[u32],
    sheet: &mut [u8],
) -> u8
    ensures number { result ≡ new_number step.now has_previous previous.now sheet.old }
    ensures sheet { sheet.new ≡ new_sheet step.now field.field has_previous previous.now sheet.old }
{
    refusals::number(flow_new::new(step, field, has_previous.then_some(previous), sheet))
}

// The flow field of an integration field, by hand, from the bytes of the sheet, or number 2.
#[unsafe(no_mangle)]
pub extern "C" fn hanjolum_flow_build(field: IntegrationField, sheet: &mut [u8]) -> u8
    ensures number { result ≡ build_number sheet.old }
    ensures sheet { sheet.new ≡ build_sheet field.field sheet.old }
    ensures arrows { BuildArrows field.field sheet.old sheet.new }
{
    refusals::number(flow_build::build(field, sheet))
}

// The line from one cell to another: its cells and their count, or number 13.
#[unsafe(no_mangle)]
pub extern "C" fn hanjolum_line(
    source_column: usize,
    source_row: usize,
    target_column: usize,
    target_row: usize,
) -> Line
    ensures answer { result ≡ line_call (cell source_column source_row) (cell target_column target_row) }
    ensures nearest { HoldsNearestLine (cell source_column source_row) (cell target_column target_row) result }
    ensures list { CellsBeyond result }
    ensures refused { (result.number ≡ 0 → ⊥) → LineRefused result }
{
    let source = FieldCell {
        column: source_column,
        row: source_row,
    };
    let target = FieldCell {
        column: target_column,
        row: target_row,
    };
    bresenham::get_cells_between_points(source, target)
}

// The walk from one cell to another through the columns: its cells and their count, or number 13.
#[unsafe(no_mangle)]
pub extern "C" fn hanjolum_walk_bresenham_shallow(
    col_0: usize,
    row_0: usize,
    col_1: usize,
    row_1: usize,
) -> Line
    ensures answer { result ≡ shallow_call (cell col_0 row_0) (cell col_1 row_1) }
    ensures nearest { HoldsNearestWalk column_of row_of (cell col_0 row_0) (cell col_1 row_1) result }
    ensures list { CellsBeyond result }
    ensures refused { (result.number ≡ 0 → ⊥) → LineRefused result }
{
    bresenham::walk_bresenham_shallow(col_0, row_0, col_1, row_1)
}

// The walk from one cell to another through the rows: its cells and their count, or number 13.
#[unsafe(no_mangle)]
pub extern "C" fn hanjolum_walk_bresenham_steep(
    col_0: usize,
    row_0: usize,
    col_1: usize,
    row_1: usize,
) -> Line
    ensures answer { result ≡ steep_call (cell col_0 row_0) (cell col_1 row_1) }
    ensures nearest { HoldsNearestWalk row_of column_of (cell col_0 row_0) (cell col_1 row_1) result }
    ensures list { CellsBeyond result }
    ensures refused { (result.number ≡ 0 → ⊥) → LineRefused result }
{
    bresenham::walk_bresenham_steep(col_0, row_0, col_1, row_1)
}

// Where the line of a corner ends, away from the goal, or number 13.
#[unsafe(no_mangle)]
pub extern "C" fn hanjolum_line_end(
    corner_column: usize,
    corner_row: usize,
    goal_column: usize,
    goal_row: usize,
) -> LineEnd
    ensures answer { result ≡ line_end_answer (cell corner_column corner_row) (cell goal_column goal_row) }
    ensures slanted { HoldsSlanted (cell corner_column corner_row) (cell goal_column goal_row) result }
    ensures straight { HoldsStraight (cell corner_column corner_row) (cell goal_column goal_row) result }
    ensures mirrored { HoldsMirrored (cell corner_column corner_row) (cell goal_column goal_row) result }
    ensures refused { (result.number ≡ 0 → ⊥) → EndRefused result }
{
    let corner = FieldCell {
        column: corner_column,
        row: corner_row,
    };
    let goal = FieldCell {
        column: goal_column,
        row: goal_row,
    };
    line_end::check_los_corner_propagation(corner, goal)
}

// A cell can be walked.
#[unsafe(no_mangle)]
pub extern "C" fn hanjolum_is_pathable(byte: u8) -> bool
    ensures { result ≡ is_pathable byte }
{
    flow_bits::is_pathable(byte)
}

// A cell is the goal.
#[unsafe(no_mangle)]
pub extern "C" fn hanjolum_is_goal(byte: u8) -> bool
    ensures { result ≡ is_goal byte }
{
    flow_bits::is_goal(byte)
}

// A cell leads into the next sector.
#[unsafe(no_mangle)]
pub extern "C" fn hanjolum_is_portal_goal(byte: u8) -> bool
    ensures { result ≡ is_portal_goal byte }
{
    flow_bits::is_portal_goal(byte)
}

// A cell has the goal in sight.
#[unsafe(no_mangle)]
pub extern "C" fn hanjolum_has_line_of_sight(byte: u8) -> bool
    ensures { result ≡ has_line_of_sight byte }
{
    flow_bits::has_line_of_sight(byte)
}

// A cell is a wall.
#[unsafe(no_mangle)]
pub extern "C" fn hanjolum_is_wall(byte: u8) -> bool
    ensures { result ≡ is_wall byte }
{
    flow_bits::is_wall(byte)
}

// The number of the direction that a byte names: 0 North to 7 NorthWest, 8 none.
#[unsafe(no_mangle)]
pub extern "C" fn hanjolum_get_compass_dir_from_bits(byte: u8) -> u8
    ensures { result ≡ number_of (dir_of byte) }
{
    flow_bits::get_compass_dir_from_bits(byte).number()
}

// The version of the library, as one number.
#[unsafe(no_mangle)]
pub extern "C" fn hanjolum_version() -> u32
    ensures answer { result ≡ version_number 1 3 0 }
{
    version::version()
}
