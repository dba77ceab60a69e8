// The numbers 3 to 8 with which a step of a route is refused, and number 16 on its sector's costs.
#![tactic(auto)]

ghost use Rattle.std.specs.Prelude.{◌≡◌, [], ◌∷◌};
ghost use Rattle.route.specs.Window.{on_edge};
ghost use Rattle.route.specs.Step.{route_step, each_step, step_number, some_wall_cost, step_number_on};
ghost use Rattle.route.specs.Inner.{route_target, listed_target, held_cells, held_target, is_wall_target, WindowHeld, TargetHeld};
ghost use Rattle.refusals.specs.Refusal.{told};

use fields::CellList;
use refusals::Refusal;
use route::{RouteStep, Target};
use utilities::CompassDir;

// Whether a cell lies on a side's edge; a direction that is no side has none.
#[tactic(auto, unfolding(route::specs::Window::on_edge))]
fn on_edge(boundary: CompassDir, index: usize) -> bool
    ensures { result ≡ on_edge boundary index }
{
    match boundary {
        CompassDir::North => index / 10 == 0,
        CompassDir::East => index % 10 == 9,
        CompassDir::South => index / 10 == 9,
        CompassDir::West => index % 10 == 0,
        _ => false,
    }
}

// 6, 7 or 8 for a step with this window that is refused.
#[tactic(auto, unfolding(route::specs::Step::each_step))]
fn window_number(first: u8, last: u8, boundary: u8) -> Result<(), Refusal>
    ensures { told result ≡ each_step (0 ∷ 0 ∷ 1 ∷ first ∷ last ∷ boundary ∷ 0 ∷ 0 ∷ []) }
{
    if 99 < first || 99 < last || 3 < boundary {
        return Err(Refusal::Window);
    }
    let side = CompassDir::from_boundary(boundary);
    if !on_edge(side, usize::from(first)) || !on_edge(side, usize::from(last)) {
        return Err(Refusal::OffEdge);
    }
    if last < first {
        return Err(Refusal::FirstAfterLast);
    }
    Ok(())
}

// 3 to 8 for a step that is refused.
#[tactic(auto, unfolding(route::specs::Step::step_number, route::specs::Step::each_step))]
pub fn step_number(step: &[u8]) -> Result<(), Refusal>
    ensures { told result ≡ step_number step.now }
{
    let [sector, goal, mark, first, last, boundary, zero, other_zero] = *step else {
        return Err(Refusal::StepList);
    };
    if 63 < sector || 1 < mark || zero != 0 || other_zero != 0 {
        return Err(Refusal::StepBytes);
    }
    if mark == 1 {
        return window_number(first, last, boundary);
    }
    if 99 < goal {
        return Err(Refusal::Goal);
    }
    Ok(())
}

// Whether a window cell has cost 255.
fn has_wall_cell(costs: &[u8], window: CellList<10>) -> bool
    requires { WindowHeld window }
    ensures { result ≡ some_wall_cost costs.now (held_cells window) }
{
    window.cells[..window.count]
        .iter()
        .any(|cell| route::byte_at(costs, usize::from(*cell)) == 255)
}

// Number 16's condition: the goal, or a window cell, has cost 255.
fn is_wall_target(costs: &[u8], target: Target) -> bool
    requires { TargetHeld target }
    ensures { result ≡ is_wall_target costs.now (held_target target) }
{
    match target {
        Target::Goal(goal) | Target::Corner(goal) => route::byte_at(costs, goal) == 255,
        Target::Window(window) => has_wall_cell(costs, window),
    }
}

// 3 to 8, or 16, for a step that is refused on its sector's costs. `target` is the step's own, made before the step is judged.
pub fn number_with_target(costs: &[u8], step: &[u8], target: Target) -> Result<(), Refusal>
    requires { target ≡ listed_target (route_target (route_step step.now)) }
    ensures { told result ≡ step_number_on costs.now step.now }
{
    step_number(step)?;
    if is_wall_target(costs, target) {
        return Err(Refusal::OnWall);
    }
    Ok(())
}

// The number of a step on its sector's costs, where no target is made yet.
pub fn step_number_on(costs: &[u8], step: &[u8]) -> Result<(), Refusal>
    ensures { told result ≡ step_number_on costs.now step.now }
{
    let target = RouteStep::new(step).as_target();
    number_with_target(costs, step, target)
}
