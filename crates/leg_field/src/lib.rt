// The field behind a leg: the built field of one of its steps, as the leg plans it.
#![tactic(auto)]

ghost use Rattle.std.specs.Prelude.{◌≡◌, true, false, ◌↔◌, ◌/◌, ◌<◌, ◌≤◌, length};
ghost use Rattle.refusals.specs.Refusal.{told};
ghost use Rattle.route.specs.Table.{first_number};
ghost use Rattle.route.specs.Inner.{held_target};
ghost use Rattle.integration_field.specs.Answer.{answer_of};
ghost use Rattle.integration_field.specs.Promise.{BuildRefused};
ghost use Rattle.integration_started.specs.Started.{started};
ghost use Rattle.step_list.specs.Steps.{steps_of};
ghost use Rattle.leg_plan.specs.Leg.{part};
ghost use Rattle.leg_plan.specs.Inner.{LegReady};
ghost use Rattle.leg.specs.Inner.{StepReady};
ghost use Rattle.leg_field.specs.Field.{field_rows, field_number_by, field_answer_by};
ghost use Rattle.leg_field.specs.Promise.{FieldPlanned, AsLeg, BeyondList};
ghost use Rattle.leg_field.specs.Inner.{Handed, FieldAt};

use integration_field::BuildAnswer;
use refusals::Refusal;
use route::{RouteStep, STEP_LENGTH, Target};

// Refused before a step is planned, with 1, 3, 21, 4 to 10, or 16.
fn field_number(floor: &[u8], steps: &[u8], place: usize) -> Result<(), Refusal>
    ensures { told result ≡ first_number (field_rows floor.now steps.now place) }
{
    if floor.len() != 6400 {
        return Err(Refusal::CostBytes);
    }
    if step_list::is_no_step_list(steps) {
        return Err(Refusal::StepList);
    }
    if steps.len() / STEP_LENGTH <= place {
        return Err(Refusal::Place);
    }
    leg::leg_number(floor, steps, 6400)
}

// The built cells of the step before a place, if there is one: the steps up to it are started and built in order, each with the built cells of the
// step before.
fn cells_before(floor: &[u8], steps: &[u8], sight: bool, place: usize) -> Option<[u32; 100]>
    requires { LegReady floor.now steps.now × (place ≤ length steps.now / 8) }
    ensures { Handed sight floor.now steps.now place result }
{
    let (steps, _) = steps.as_chunks::<8>();
    let mut previous: Option<[u32; 100]> = None;
    for step in &steps[..place] {
        let target = leg_counting::leg_target(step, sight, previous.as_ref());
        let sector = RouteStep::new(step).sector;
        previous = Some(leg::build_step(floor, sector, target).field);
    }
    previous
}

// A step's field on its own sector's costs, started and built, with positions.
fn field_of(floor: &[u8], sector: usize, target: Target) -> BuildAnswer
    requires { StepReady floor.now sector target }
    ensures { result ≡ answer_of 0 (part floor.now sector) (started (part floor.now sector) (held_target target)) }
{
    let at = sector * 100;
    let costs = <&[u8; 100]>::try_from(&floor[at..at + 100]).unwrap();
    let field = integration_init::start(costs, target);
    integration_build::build_with_positions(costs, field)
}

// Refused before a step is planned, or with 15 where a window of any step is closed, as the leg finds it.
fn number_by_sight(floor: &[u8], steps: &[u8], sight: bool, place: usize) -> Result<(), Refusal>
    ensures { told result ≡ field_number_by sight floor.now steps.now place }
{
    field_number(floor, steps, place)?;
    if leg::is_some_closed(floor, steps, sight) {
        return Err(Refusal::NoCountingCell);
    }
    Ok(())
}

// The field of the step at a place of a leg that is not refused.
fn field_at(floor: &[u8], steps: &[u8], sight: bool, place: usize) -> BuildAnswer
    requires { LegReady floor.now steps.now × (place < length steps.now / 8) }
    ensures { FieldAt sight floor.now (steps_of steps.now) place result }
{
    let previous = cells_before(floor, steps, sight, place);
    let step = &steps.as_chunks::<8>().0[place];
    let target = leg_counting::leg_target(step, sight, previous.as_ref());
    field_of(floor, RouteStep::new(step).sector, target)
}

// The call, with the sight of the goal or without: refused, or the field of the step at the place.
fn field_by_sight(floor: &[u8], steps: &[u8], sight: bool, place: usize) -> BuildAnswer
    ensures answer { result ≡ field_answer_by sight floor.now steps.now place }
    ensures planned { result.number ≡ 0 → FieldPlanned sight floor.now (steps_of steps.now) place result }
    ensures as_leg { AsLeg sight floor.now steps.now place result.number }
    ensures beyond { (result.number ≡ 21) ↔ BeyondList floor.now steps.now place }
    ensures refused { (result.number ≡ 0 → ⊥) → BuildRefused result }
{
    match number_by_sight(floor, steps, sight, place) {
        Ok(()) => field_at(floor, steps, sight, place),
        Err(refusal) => integration_field::refused(refusal.number()),
    }
}

// The field of a leg's step: nothing that is lent is written.
pub fn leg_field(floor: &[u8], steps: &[u8], place: usize) -> BuildAnswer
    ensures answer { result ≡ field_answer_by true floor.now steps.now place }
    ensures planned { result.number ≡ 0 → FieldPlanned true floor.now (steps_of steps.now) place result }
    ensures as_leg { AsLeg true floor.now steps.now place result.number }
    ensures beyond { (result.number ≡ 21) ↔ BeyondList floor.now steps.now place }
    ensures refused { (result.number ≡ 0 → ⊥) → BuildRefused result }
{
    field_by_sight(floor, steps, true, place)
}

// The field of a step of the leg that is planned without sight: nothing that is lent is written.
pub fn leg_field_without_sight(floor: &[u8], steps: &[u8], place: usize) -> BuildAnswer
    ensures answer { result ≡ field_answer_by false floor.now steps.now place }
    ensures planned { result.number ≡ 0 → FieldPlanned false floor.now (steps_of steps.now) place result }
    ensures as_leg { AsLeg false floor.now steps.now place result.number }
    ensures beyond { (result.number ≡ 21) ↔ BeyondList floor.now steps.now place }
    ensures refused { (result.number ≡ 0 → ⊥) → BuildRefused result }
{
    field_by_sight(floor, steps, false, place)
}
