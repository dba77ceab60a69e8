// The call for window costs: its number, and for the windows of one sector the square of their costs, a column for each window that is built for.
#![tactic(auto)]

ghost use Rattle.std.specs.Prelude.{◌≡◌, ◌↔◌, map};
ghost use Rattle.utilities.specs.Lists.{below};
ghost use Rattle.step_list.specs.Steps.{steps_of};
ghost use Rattle.window_square.specs.Square.{square_entry, cost_square, square_in, refused_window_costs, window_costs_answer};
ghost use Rattle.window_square.specs.Promise.{WindowSquare, SquareRefused, WrongCount, NotAmong};
ghost use Rattle.window_square.specs.Inner.{WindowsReady};

use refusals::Refusal;
use window_square::{WindowCosts, WindowRow};

// Column j of the square: what it costs from each window to the one at place j of the list, for which alone the sector is built. 65535 where the list
// has none there.
fn column_at(costs: &[u8; 100], steps: &[u8], j: usize) -> [u32; 8]
    requires { WindowsReady costs.now steps.now }
    ensures { result ≡ map (λ i. square_entry costs.now (steps_of steps.now) i j) (below 8) }
{
    if j >= steps.len() / route::STEP_LENGTH {
        return [65535; 8];
    }
    let window = window_columns::target_at(steps, j).window();
    let built = integration_target::build_window(costs, window);
    window_columns::column_of(&built.field, steps)
}

// The square of costs: filled column by column, then turned into rows.
pub fn window_square(costs: &[u8; 100], steps: &[u8]) -> [[u32; 8]; 8]
    requires { WindowsReady costs.now steps.now }
    ensures { result ≡ cost_square costs.now (steps_of steps.now) }
{
    let mut columns = [[0u32; 8]; 8];
    for j in 0..8 {
        columns[j] = column_at(costs, steps, j);
    }
    window_columns::square_of(columns)
}

// A refused answer: its number, and every other part zero.
fn refused(number: u8) -> WindowCosts
    ensures { result ≡ refused_window_costs number }
{
    WindowCosts {
        number,
        rows: [WindowRow { costs: [0; 8] }; 8],
    }
}

// The call for window costs: nothing that is lent is written.
pub fn window_costs(costs: &[u8], steps: &[u8]) -> WindowCosts
    ensures answer { result ≡ window_costs_answer costs.now steps.now }
    ensures least { result.number ≡ 0 → WindowSquare costs.now (steps_of steps.now) (square_in result.rows) }
    ensures refused { (result.number ≡ 0 → ⊥) → SquareRefused (square_in result.rows) }
    ensures nineteen { (result.number ≡ 19) ↔ WrongCount costs.now steps.now }
    ensures twenty { (result.number ≡ 20) ↔ NotAmong costs.now steps.now }
{
    let Ok(square) = <&[u8; 100]>::try_from(costs) else {
        return refused(Refusal::CostBytes.number());
    };
    match window_steps::window_costs_number(costs, steps) {
        Ok(()) => WindowCosts {
            number: 0,
            rows: window_columns::rows_of(window_square(square, steps)),
        },
        Err(refusal) => refused(refusal.number()),
    }
}
