// The call for bounds: its number, and for two floors and a window step each cell's least and greatest built cost over all floors between them, and
// which cells are sure.
#![tactic(auto)]

ghost use Rattle.std.specs.Prelude.{◌≡◌, ◌↔◌, not, ◌&&◌, ◌||◌, ltb, eqb, IfOk};
ghost use Rattle.utilities.specs.Lists.{below};
ghost use Rattle.refusals.specs.Refusal.{told};
ghost use Rattle.route.specs.Target.{to_window, target_of};
ghost use Rattle.route.specs.Inner.{WindowHeld, held_cells};
ghost use Rattle.bounds_told.specs.Bounds.{some_of, no_range, bounds_number, refused_bounds, accepted_bounds, bounds_answer};
ghost use Rattle.bounds_told.specs.Promise.{CostBounds, SureMarks, BoundsRefused, NoBounds};
ghost use Rattle.bounds.specs.Promise.{floor_bytes};

use bounds_told::Bounds;
use fields::CellList;
use refusals::Refusal;
use route::{RouteStep, Target};

// Whether two costs cannot be the least and the greatest of a cell: the first is above the second, or only one of them is 255.
fn is_no_range(from: u8, to: u8) -> bool
    ensures { result ≡ (ltb to from || ((eqb from 255 && not (eqb to 255)) || (eqb to 255 && not (eqb from 255)))) }
{
    to < from || (from == 255) != (to == 255)
}

// Whether the two costs of some cell cannot be its least and greatest.
fn has_no_range(low: &[u8; 100], high: &[u8; 100]) -> bool
    ensures { result ≡ some_of (no_range low.now high.now) (below 100) }
{
    for i in 0..100 {
        if is_no_range(low[i], high[i]) {
            return true;
        }
    }
    false
}

// Builds for a window on both floors: the built costs on each, and the cells that are sure by them.
fn run(low: &[u8; 100], high: &[u8; 100], window: CellList<10>) -> Bounds
    requires { WindowHeld window }
    ensures { result ≡ accepted_bounds low.now high.now (to_window (held_cells window)) }
{
    let lowest = integration_target::build_window(low, window);
    let least = bounds_sure::costs_of(&lowest.field);
    let highest = integration_target::build_window(high, window);
    let greatest = bounds_sure::costs_of(&highest.field);
    let sure = bounds_sure::sure_cells(&lowest.field, &least, &greatest);
    Bounds {
        number: 0,
        least,
        greatest,
        sure,
    }
}

// The bounds, or why the call is refused: 1 for either floor, 3 to 8, 16 on either floor, then 18.
fn bounds_found(low: &[u8], high: &[u8], step: &[u8]) -> Result<Bounds, Refusal>
    ensures number { told result ≡ bounds_number low.now high.now step.now }
    ensures run { IfOk result (λ b. b ≡ accepted_bounds low.now high.now (target_of step.now)) }
{
    let Some(low) = low.as_array::<100>() else {
        return Err(Refusal::CostBytes);
    };
    let Some(high) = high.as_array::<100>() else {
        return Err(Refusal::CostBytes);
    };
    let target = RouteStep::new(step).as_target();
    step_numbers::number_with_target(low, step, target)?;
    step_numbers::number_with_target(high, step, target)?;
    let Target::Window(window) = target else {
        return Err(Refusal::BoundsInput);
    };
    if has_no_range(low, high) {
        return Err(Refusal::BoundsInput);
    }
    Ok(run(low, high, window))
}

// A refused answer: its number, and every other part zero.
fn refused(number: u8) -> Bounds
    ensures { result ≡ refused_bounds number }
{
    Bounds {
        number,
        least: [0; 100],
        greatest: [0; 100],
        sure: [false; 100],
    }
}

// The call for bounds: nothing that is lent is written.
pub fn bounds(low: &[u8], high: &[u8], step: &[u8]) -> Bounds
    ensures answer { result ≡ bounds_answer low.now high.now step.now }
    ensures bounded { result.number ≡ 0 → CostBounds low.now high.now (target_of step.now) result.least result.greatest }
    ensures sure { result.number ≡ 0 → SureMarks low.now high.now (target_of step.now)
        (floor_bytes step.now) result.least result.greatest result.sure }
    ensures refused { (result.number ≡ 0 → ⊥) → BoundsRefused result }
    ensures eighteen { (result.number ≡ 18) ↔ NoBounds low.now high.now step.now }
{
    match bounds_found(low, high, step) {
        Ok(bounds) => bounds,
        Err(refusal) => refused(refusal.number()),
    }
}
