// The call for a tour of the windows of one sector: Job 13's number and square, and the tour over it.
#![tactic(auto)]

ghost use Rattle.std.specs.Prelude.{◌≡◌, ◌↔◌};
ghost use Rattle.step_list.specs.Steps.{steps_of};
ghost use Rattle.window_square.specs.Promise.{WrongCount, NotAmong};
ghost use Rattle.tour_plan.specs.Plan.{refused_tour, accepted_tour, tour_in, tour_answer};
ghost use Rattle.tour_plan.specs.Promise.{TourPlanned, TourRefused};

use refusals::Refusal;
use route::STEP_LENGTH;
use tour_plan::WindowTour;
use tour_sums::{SearchedTour, Tour};

// A refused answer: its number, and every other part zero.
fn refused(number: u8) -> WindowTour
    ensures { result ≡ refused_tour number }
{
    WindowTour {
        number,
        found: false,
        order: [0; 8],
        sum: 0,
        tried: 0,
        least: 0,
    }
}

// An accepted answer: number 0, and the tour.
fn accepted(tour: SearchedTour) -> WindowTour
    ensures { result ≡ accepted_tour tour }
{
    let none = Tour {
        order: [0; 8],
        sum: 0,
    };
    let Tour { order, sum } = tour.best.unwrap_or(none);
    WindowTour {
        number: 0,
        found: tour.best.is_some(),
        order,
        sum,
        tried: tour.tried,
        least: tour.least,
    }
}

// The call for a tour: nothing that is lent is written.
pub fn window_tour(costs: &[u8], steps: &[u8], limit: u16) -> WindowTour
    ensures answer { result ≡ tour_answer costs.now steps.now limit }
    ensures planned { result.number ≡ 0 → TourPlanned costs.now (steps_of steps.now) limit (tour_in result) }
    ensures refused { (result.number ≡ 0 → ⊥) → TourRefused result }
    ensures nineteen { (result.number ≡ 19) ↔ WrongCount costs.now steps.now }
    ensures twenty { (result.number ≡ 20) ↔ NotAmong costs.now steps.now }
{
    let Ok(bytes) = <&[u8; 100]>::try_from(costs) else {
        return refused(Refusal::CostBytes.number());
    };
    match window_steps::window_costs_number(costs, steps) {
        Ok(()) => {
            let square = window_costs::window_square(bytes, steps);
            let tour = tour_search::search_tours(square, steps.len() / STEP_LENGTH, limit);
            accepted(tour)
        }
        Err(refusal) => refused(refusal.number()),
    }
}
