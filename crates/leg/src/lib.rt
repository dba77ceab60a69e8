// A leg: a plan for one to sixteen sectors, step by step from the goal's. What its bytes alone show to be wrong is refused first. Then all steps are
// started and built without writing, which shows whether a window is closed; if none is, they are built once more, and each is written to its own
// sector's part of the lent sheet.
#![tactic(auto)]

ghost use Rattle.std.specs.Prelude.{◌≡◌, true, false, ◌↔◌, List, ℕ, length, is_some};
ghost use Rattle.utilities.specs.Compass.{side_of};
ghost use Rattle.refusals.specs.Refusal.{told};
ghost use Rattle.route.specs.Table.{first_number};
ghost use Rattle.route.specs.Step.{sector_of};
ghost use Rattle.route.specs.Inner.{held_cells, held_target, WindowHeld};
ghost use Rattle.flow_byte.specs.Previous.{given};
ghost use Rattle.sector.specs.Sector.{sector_field};
ghost use Rattle.sector.specs.Inner.{flow_bytes};
ghost use Rattle.sectors.specs.Floor.{across};
ghost use Rattle.step_list.specs.Steps.{steps_of};
ghost use Rattle.leg_plan.specs.Closed.{LegClosed};
ghost use Rattle.leg_plan.specs.Walls.{LegOnWall};
ghost use Rattle.leg_plan.specs.Leg.{names, names_twice, some_goal, out_of_order, is_sector, disconnected, floor_number, each_rows, judged_rows};
ghost use Rattle.leg_plan.specs.Leg.{part, step_field, step_bytes, some_closed, with_part, planned, leg_number, leg_sheet, leg_number_by, leg_sheet_by};
ghost use Rattle.leg_plan.specs.Inner.{LegReady};
ghost use Rattle.leg_plan.specs.Promise.{LegPlanned, LegPlannedBy};
ghost use Rattle.leg_journey.specs.Journey.{LegArrives, LegArrivesAtGoal, Arrives};
ghost use Rattle.leg.specs.Inner.{StepReady, WriteReady};

use fields::CellList;
use integration_field::IntegrationField;
use refusals::Refusal;
use route::{PortalWindow, RouteStep, STEP_BOUNDARY, STEP_MARK, STEP_SECTOR, Target};
use utilities::CompassDir;

// Refused with 4 to 8, or 16, on its own sector's costs. A sector that is off the floor has no costs to cut.
fn floor_number(floor: &[u8; 6400], step: &[u8; 8]) -> Result<(), Refusal>
    ensures { told result ≡ floor_number floor.now step.now }
{
    let sector = step[STEP_SECTOR];
    if 63 < sector {
        return Err(Refusal::StepBytes);
    }
    let at = usize::from(sector) * 100;
    step_numbers::step_number_on(&floor[at..at + 100], step)
}

// Refused with 4 to 8, or 16, as the first step that is refused.
fn each_step(floor: &[u8; 6400], steps: &[[u8; 8]]) -> Result<(), Refusal>
    ensures { told result ≡ first_number (each_rows floor.now steps.now) }
{
    for step in steps {
        floor_number(floor, step)?;
    }
    Ok(())
}

// Whether some step names the sector.
fn is_named(steps: &[[u8; 8]], sector: u8) -> bool
    ensures { result ≡ names sector steps.now }
{
    steps.iter().any(|step| step[STEP_SECTOR] == sector)
}

// Whether a sector is named again by a later step.
fn is_named_twice(steps: &[[u8; 8]]) -> bool
    ensures { result ≡ names_twice steps.now }
{
    for k in 0..steps.len() {
        if is_named(&steps[k + 1..], steps[k][STEP_SECTOR]) {
            return true;
        }
    }
    false
}

// Whether some step has no window.
fn has_goal(steps: &[[u8; 8]]) -> bool
    ensures { result ≡ some_goal steps.now }
{
    steps.iter().any(|step| step[STEP_MARK] != 1)
}

// Number 9's condition: the first step has a window, a later one has none, or a sector is named twice.
fn is_out_of_order(steps: &[[u8; 8]]) -> bool
    ensures { result ≡ out_of_order steps.now }
{
    let Some(first) = steps.first() else {
        return false;
    };
    first[STEP_MARK] == 1 || has_goal(&steps[1..]) || is_named_twice(steps)
}

// Whether the other sector lies across a sector's boundary.
fn faces(sector: u8, boundary: u8, other: u8) -> bool
    ensures { result ≡ is_sector other (across sector (side_of boundary)) }
{
    let side = CompassDir::from_boundary(boundary);
    let Some(found) = sectors::get_in_compass_direction(usize::from(sector), side) else {
        return false;
    };
    found == usize::from(other)
}

// Number 10's condition: across the boundary of a later step lies another sector than that of the step before, or none.
fn is_disconnected(steps: &[[u8; 8]]) -> bool
    ensures { result ≡ disconnected steps.now }
{
    for k in 1..steps.len() {
        let step = &steps[k];
        if !faces(
            step[STEP_SECTOR],
            step[STEP_BOUNDARY],
            steps[k - 1][STEP_SECTOR],
        ) {
            return true;
        }
    }
    false
}

// A leg with a sheet of so many bytes, before a step is planned: refused with 1 to 10, or 16.
pub fn leg_number(floor: &[u8], steps: &[u8], sheet_length: usize) -> Result<(), Refusal>
    ensures { (sheet : List ℕ) → length sheet ≡ sheet_length → told result ≡ first_number (judged_rows floor.now steps.now sheet) }
{
    let Ok(floor) = <&[u8; 6400]>::try_from(floor) else {
        return Err(Refusal::CostBytes);
    };
    if sheet_length != 6400 {
        return Err(Refusal::Sheet);
    }
    if step_list::is_no_step_list(steps) {
        return Err(Refusal::StepList);
    }
    let (steps, _) = steps.as_chunks::<8>();
    each_step(floor, steps)?;
    if is_out_of_order(steps) {
        return Err(Refusal::LegOrder);
    }
    if is_disconnected(steps) {
        return Err(Refusal::NotAcross);
    }
    Ok(())
}

// A step's field on its own sector's costs, started and built, without positions.
pub fn build_step(floor: &[u8], sector: usize, target: Target) -> IntegrationField
    requires { StepReady floor.now sector target }
    ensures { result.field ≡ (sector_field (part floor.now sector) (held_target target)).field }
{
    let at = sector * 100;
    let costs = <&[u8; 100]>::try_from(&floor[at..at + 100]).unwrap();
    integration_target::build_target(costs, target)
}

// Whether a window of the leg has no counting cell: the steps are started and built in order, each with the built cells of the step before. The last
// is not built, since no step comes behind it.
pub fn is_some_closed(floor: &[u8], steps: &[u8], sight: bool) -> bool
    requires { LegReady floor.now steps.now }
    ensures { result ≡ some_closed sight floor.now (steps_of steps.now) }
{
    let (steps, _) = steps.as_chunks::<8>();
    let mut previous: Option<[u32; 100]> = None;
    for k in 0..steps.len() {
        let step = &steps[k];
        let target = leg_counting::leg_target(step, sight, previous.as_ref());
        if leg_counting::is_closed(target) {
            return true;
        }
        if k + 1 == steps.len() {
            return false;
        }
        let sector = RouteStep::new(step).sector;
        previous = Some(build_step(floor, sector, target).field);
    }
    false
}

// Writes the flow bytes of a built field to a sector's own part of the sheet.
fn write_part(
    portal: Option<PortalWindow>,
    window: CellList<10>,
    built: IntegrationField,
    previous: Option<&[u32; 100]>,
    part: &mut [u8],
)
    requires held { WindowHeld window }
    requires full { length part.old ≡ 100 }
    ensures { part.new ≡ flow_bytes portal (held_cells window) built.field (is_some previous.entry) (given previous.entry) }
{
    if let Some(bytes) = part.as_mut_array::<100>() {
        sector::write(portal, window, built, previous, bytes);
    }
}

// Writes a step: its field is started and built once more, and written to its sector's own part of the sheet. Answers the built cells. A window is
// parsed of a step with a goal too: no cell is then written as one of it.
fn write_step(
    floor: &[u8],
    step: &[u8; 8],
    sight: bool,
    previous: Option<&[u32; 100]>,
    sheet: &mut [u8],
) -> [u32; 100]
    requires { WriteReady floor.now step.now sheet.old }
    ensures cells { result ≡ step_field sight floor.now (is_some previous.entry) (given previous.entry) step.now }
    ensures wrote { sheet.new ≡ with_part sheet.old (sector_of step.now)
        (step_bytes sight floor.now (is_some previous.entry) (given previous.entry) step.now) }
{
    let sector = RouteStep::new(step).sector;
    let target = leg_counting::leg_target(step, sight, previous);
    let built = build_step(floor, sector, target);
    let portal = Some(PortalWindow::new(step));
    let at = sector * 100;
    write_part(
        portal,
        target.window(),
        built,
        previous,
        &mut sheet[at..at + 100],
    );
    built.field
}

// Writes the steps in order, each with the built cells of the step before.
fn write_steps(floor: &[u8], steps: &[u8], sight: bool, sheet: &mut [u8])
    requires { (LegReady floor.now steps.now) × (length sheet.old ≡ 6400) }
    ensures { sheet.new ≡ planned sight floor.now (steps_of steps.now) sheet.old }
{
    let (steps, _) = steps.as_chunks::<8>();
    let mut previous: Option<[u32; 100]> = None;
    for step in steps {
        let cells = write_step(floor, step, sight, previous.as_ref(), sheet);
        previous = Some(cells);
    }
}

// The leg, with the sight of the goal or without: planned, or refused with its number. It goes over its steps twice, so
// that all steps are planned before the sheet is written: first they are started and built, which finds 15, then also written.
fn plan_by_sight(floor: &[u8], steps: &[u8], sight: bool, sheet: &mut [u8]) -> Result<(), Refusal>
    ensures number { told result ≡ leg_number_by sight floor.now steps.now sheet.old }
    ensures sheet { sheet.new ≡ leg_sheet_by sight floor.now steps.now sheet.old }
    ensures planned { told result ≡ 0 → LegPlannedBy sight floor.now (steps_of steps.now) sheet.old sheet.new }
    ensures arrives { told result ≡ 0 → Arrives sight floor.now (steps_of steps.now) sheet.new }
    ensures fifteen { (told result ≡ 15) ↔ LegClosed sight floor.now steps.now sheet.old }
    ensures sixteen { (told result ≡ 16) ↔ LegOnWall floor.now steps.now sheet.old }
{
    leg_number(floor, steps, sheet.len())?;
    if is_some_closed(floor, steps, sight) {
        return Err(Refusal::NoCountingCell);
    }
    write_steps(floor, steps, sight, sheet);
    Ok(())
}

// The leg: planned, or refused with its number.
pub fn plan_leg(floor: &[u8], steps: &[u8], sheet: &mut [u8]) -> Result<(), Refusal>
    ensures number { told result ≡ leg_number floor.now steps.now sheet.old }
    ensures sheet { sheet.new ≡ leg_sheet floor.now steps.now sheet.old }
    ensures planned { told result ≡ 0 → LegPlanned floor.now (steps_of steps.now) sheet.old sheet.new }
    ensures arrives { told result ≡ 0 → LegArrives floor.now (steps_of steps.now) sheet.new }
    ensures fifteen { (told result ≡ 15) ↔ LegClosed true floor.now steps.now sheet.old }
    ensures sixteen { (told result ≡ 16) ↔ LegOnWall floor.now steps.now sheet.old }
{
    plan_by_sight(floor, steps, true, sheet)
}

// The leg without sight: the goal of the first step is the one listed corner of its sector, so that all arrows lead to the goal. It is
// planned, or refused with its number.
pub fn plan_leg_without_sight(floor: &[u8], steps: &[u8], sheet: &mut [u8]) -> Result<(), Refusal>
    ensures number { told result ≡ leg_number_by false floor.now steps.now sheet.old }
    ensures sheet { sheet.new ≡ leg_sheet_by false floor.now steps.now sheet.old }
    ensures planned { told result ≡ 0 → LegPlannedBy false floor.now (steps_of steps.now) sheet.old sheet.new }
    ensures arrives { told result ≡ 0 → LegArrivesAtGoal floor.now (steps_of steps.now) sheet.new }
    ensures fifteen { (told result ≡ 15) ↔ LegClosed false floor.now steps.now sheet.old }
    ensures sixteen { (told result ≡ 16) ↔ LegOnWall floor.now steps.now sheet.old }
{
    plan_by_sight(floor, steps, false, sheet)
}
