// The sector call: a field is started and built on the sector's costs for a step's target, and its flow bytes are written to the sheet; or the call is
// refused with its number.
#![tactic(auto)]

ghost use Rattle.std.specs.Prelude.{◌≡◌, ◌↔◌, true, false, not, ◌&&◌, List, ℕ, length, is_some, IfOk};
ghost use Rattle.route.specs.Step.{is_window, route_step};
ghost use Rattle.route.specs.Target.{by_window, window_of, target_of, without_sight, by_sight, TargetTold};
ghost use Rattle.route.specs.Inner.{route_target, listed_target, held_cells, held_target, WindowHeld, TargetHeld};
ghost use Rattle.refusals.specs.Refusal.{told};
ghost use Rattle.integration_field.specs.Promise.{BuildRefused};
ghost use Rattle.integration_field.specs.Answer.{answer_of};
ghost use Rattle.integration_started.specs.Started.{started};
ghost use Rattle.integration_walks.specs.Promise.{StartedPositions};
ghost use Rattle.flow_byte.specs.Previous.{given};
ghost use Rattle.sector.specs.Previous.{WithoutPrevious, TargetOnWall};
ghost use Rattle.sector.specs.Sector.{sector_number, sector_field, sector_answer, sector_sheet, sector_answer_by, sector_sheet_by};
ghost use Rattle.sector.specs.Inner.{flow_bytes};
ghost use Rattle.sector.specs.Promise.{Planned, PlannedWithout};

use fields::CellList;
use integration_field::{BuildAnswer, IntegrationField};
use refusals::Refusal;
use route::{PortalWindow, RouteStep, Target};

// Number 17's condition: a window without a previous field. `target` is the step's own.
fn lacks_previous(target: Target, previous: Option<&[u32]>) -> bool
    ensures { result ≡ (by_window (held_target target) && not (is_some previous.entry)) }
{
    matches!(target, Target::Window(_)) && previous.is_none()
}

// The previous field of a call, as an array, or why the call is refused: 3 to 8, 16, 17 or 12. `target` is the step's own.
fn accepted_previous<'a>(
    costs: &[u8; 100],
    step: &[u8],
    target: Target,
    previous: Option<&'a [u32]>,
) -> Result<Option<&'a [u32; 100]>, Refusal>
    requires { target ≡ listed_target (route_target (route_step step.now)) }
    ensures number { (sheet : List ℕ) → length sheet ≡ 100
        → told result ≡ sector_number costs.now step.now (is_some previous.entry) (given previous.entry) sheet }
    ensures same { IfOk result (λ p. (is_some p ≡ is_some previous.entry) × (given p ≡ given previous.entry)) }
{
    step_numbers::number_with_target(costs, step, target)?;
    if lacks_previous(target, previous) {
        return Err(Refusal::NoPrevious);
    }
    flow_new::of_100(previous)
}

// Writes the flow bytes of a built field to 100 lent bytes: those of a new flow field, then built. `portal` is the step's whole window, `window` the
// cells of it that the field was started from.
pub fn write(
    portal: Option<PortalWindow>,
    window: CellList<10>,
    built: IntegrationField,
    previous: Option<&[u32; 100]>,
    sheet: &mut [u8; 100],
)
    requires { WindowHeld window }
    ensures { sheet.new ≡ flow_bytes portal (held_cells window) built.field (is_some previous.entry) (given previous.entry) }
{
    flow_new::new_cells(portal, window, built, previous, sheet);
    flow_build::build_cells(built, sheet);
}

// Plans a target: its field, started and built with its positions, is answered, and its flow bytes are written. `portal` is the step's whole window.
fn run(
    costs: &[u8; 100],
    target: Target,
    portal: Option<PortalWindow>,
    previous: Option<&[u32; 100]>,
    sheet: &mut [u8; 100],
) -> BuildAnswer
    requires { TargetHeld target }
    ensures answer { result ≡ answer_of 0 costs.now (started costs.now (held_target target)) }
    ensures sheet { sheet.new ≡ flow_bytes portal (window_of (held_target target)) (sector_field costs.now (held_target target)).field
        (is_some previous.entry) (given previous.entry) }
{
    let field = integration_init::start(costs, target);
    let answer = integration_build::build_with_positions(costs, field);
    let built = answer.field;
    write(portal, target.window(), built, previous, sheet);
    answer
}

// The sector call, with the sight of a goal or without: a refused one writes nothing.
fn plan_by_sight(
    costs: &[u8],
    step: &[u8],
    sight: bool,
    previous: Option<&[u32]>,
    sheet: &mut [u8],
) -> BuildAnswer
    ensures answer { result ≡ sector_answer_by sight costs.now step.now (is_some previous.entry) (given previous.entry) sheet.old }
    ensures sheet { sheet.new
        ≡ sector_sheet_by sight costs.now step.now (is_some previous.entry) (given previous.entry) sheet.old }
    ensures planned { result.number ≡ 0
        → Planned costs.now (by_sight sight (target_of step.now)) result.field.field result.waves sheet.new }
    ensures positions { result.number ≡ 0
        → StartedPositions costs.now (by_sight sight (target_of step.now)) result.field.field result.field.positions }
    ensures refused { (result.number ≡ 0 → ⊥) → BuildRefused result }
    ensures target { result.number ≡ 0 → TargetTold step.now }
    ensures sixteen { (result.number ≡ 16) ↔ TargetOnWall costs.now step.now sheet.old }
    ensures seventeen { (result.number ≡ 17) ↔ WithoutPrevious costs.now step.now (is_some previous.entry) sheet.old }
{
    let Ok(costs) = <&[u8; 100]>::try_from(costs) else {
        return integration_field::refused(Refusal::CostBytes.number());
    };
    let Some(bytes) = sheet.as_mut_array::<100>() else {
        return integration_field::refused(Refusal::Sheet.number());
    };
    let route_step = RouteStep::new(step);
    let target = route_step.as_target();
    match accepted_previous(costs, step, target, previous) {
        Ok(previous) => run(
            costs,
            target.by_sight(sight),
            route_step.portal,
            previous,
            bytes,
        ),
        Err(refusal) => integration_field::refused(refusal.number()),
    }
}

// The sector call: a refused one writes nothing.
pub fn plan_sector(
    costs: &[u8],
    step: &[u8],
    previous: Option<&[u32]>,
    sheet: &mut [u8],
) -> BuildAnswer
    ensures answer { result ≡ sector_answer costs.now step.now (is_some previous.entry) (given previous.entry) sheet.old }
    ensures sheet { sheet.new
        ≡ sector_sheet costs.now step.now (is_some previous.entry) (given previous.entry) sheet.old }
    ensures planned { result.number ≡ 0 → Planned costs.now (target_of step.now) result.field.field result.waves sheet.new }
    ensures positions { result.number ≡ 0
        → StartedPositions costs.now (target_of step.now) result.field.field result.field.positions }
    ensures refused { (result.number ≡ 0 → ⊥) → BuildRefused result }
    ensures target { result.number ≡ 0 → TargetTold step.now }
    ensures sixteen { (result.number ≡ 16) ↔ TargetOnWall costs.now step.now sheet.old }
    ensures seventeen { (result.number ≡ 17) ↔ WithoutPrevious costs.now step.now (is_some previous.entry) sheet.old }
{
    plan_by_sight(costs, step, true, previous, sheet)
}

// The sector call without sight: a goal is the one listed corner, so that every arrow leads to it; a step with a window is planned as it is with
// sight. A refused call writes nothing.
pub fn plan_sector_without_sight(
    costs: &[u8],
    step: &[u8],
    previous: Option<&[u32]>,
    sheet: &mut [u8],
) -> BuildAnswer
    ensures answer { result
        ≡ sector_answer_by false costs.now step.now (is_some previous.entry) (given previous.entry) sheet.old }
    ensures sheet { sheet.new
        ≡ sector_sheet_by false costs.now step.now (is_some previous.entry) (given previous.entry) sheet.old }
    ensures planned { result.number ≡ 0
        → Planned costs.now (without_sight (target_of step.now)) result.field.field result.waves sheet.new }
    ensures positions { result.number ≡ 0
        → StartedPositions costs.now (without_sight (target_of step.now)) result.field.field result.field.positions }
    ensures without { result.number ≡ 0 → PlannedWithout costs.now step.now result.field sheet.new }
    ensures window { is_window step.now ≡ true
        → (result ≡ sector_answer costs.now step.now (is_some previous.entry) (given previous.entry) sheet.old)
        × (sheet.new ≡ sector_sheet costs.now step.now (is_some previous.entry) (given previous.entry) sheet.old) }
    ensures refused { (result.number ≡ 0 → ⊥) → BuildRefused result }
    ensures target { result.number ≡ 0 → TargetTold step.now }
    ensures sixteen { (result.number ≡ 16) ↔ TargetOnWall costs.now step.now sheet.old }
    ensures seventeen { (result.number ≡ 17) ↔ WithoutPrevious costs.now step.now (is_some previous.entry) sheet.old }
{
    plan_by_sight(costs, step, false, previous, sheet)
}
