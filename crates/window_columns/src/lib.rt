// Window costs, column by column: the least costs of each window's cells in one built field; and columns turned into the rows of a square.
#![tactic(auto)]

ghost use Rattle.std.specs.Prelude.{◌≡◌, map, ◌/◌, ◌<◌, length};
ghost use Rattle.utilities.specs.Lists.{below};
ghost use Rattle.route.specs.Target.{target_of};
ghost use Rattle.route.specs.Inner.{held_cells, held_target, WindowHeld, TargetHeld};
ghost use Rattle.step_list.specs.Steps.{steps_of};
ghost use Rattle.step_list.specs.Inner.{step_at};
ghost use Rattle.window_square.specs.Square.{least_built};
ghost use Rattle.window_square.specs.Promise.{cost_at};
ghost use Rattle.window_square.specs.Inner.{WindowSteps, least_from, held_row};

use fields::CellList;
use route::{RouteStep, STEP_LENGTH, Target};
use window_square::WindowRow;

// The least built cost of the cells of a window.
fn least_built(cells: &[u32; 100], window: CellList<10>) -> u32
    requires { WindowHeld window }
    ensures { result ≡ least_built cells.now (held_cells window) }
{
    let mut least = 65535u32;
    for i in 0..window.count {
        least = least.min(integration_bits::low_bits(cells[usize::from(window.cells[i])]));
    }
    least
}

// The target of the step at a place of the list.
pub fn target_at(steps: &[u8], k: usize) -> Target
    requires { WindowSteps steps.now × (k < length steps.now / 8) }
    ensures { TargetHeld result × (held_target result ≡ target_of (step_at steps.now k)) }
{
    let at = k * STEP_LENGTH;
    RouteStep::new(&steps[at..at + STEP_LENGTH]).as_target()
}

// The least built cost of the cells of the window at a place of the list; 65535 where the list has none there.
fn least_from(cells: &[u32; 100], steps: &[u8], i: usize) -> u32
    requires { WindowSteps steps.now }
    ensures { result ≡ least_from cells.now (steps_of steps.now) i }
{
    if i >= steps.len() / STEP_LENGTH {
        return 65535;
    }
    least_built(cells, target_at(steps, i).window())
}

// The least built cost of each window's cells, at its place of eight; 65535 where the list has none.
pub fn column_of(cells: &[u32; 100], steps: &[u8]) -> [u32; 8]
    requires { WindowSteps steps.now }
    ensures { result ≡ map (least_from cells.now (steps_of steps.now)) (below 8) }
{
    std::array::from_fn(|i| least_from(cells, steps, i))
}

// Row i of a square that is known by its columns: what stands at place i of each.
fn row_of(columns: [[u32; 8]; 8], i: usize) -> [u32; 8]
    requires { i < 8 }
    ensures { result ≡ map (λ j. cost_at columns j i) (below 8) }
{
    let mut row = [0u32; 8];
    for j in 0..8 {
        row[j] = columns[j][i];
    }
    row
}

// The rows of a square that is known by its columns.
pub fn square_of(columns: [[u32; 8]; 8]) -> [[u32; 8]; 8]
    ensures { result ≡ map (λ i. map (λ j. cost_at columns j i) (below 8)) (below 8) }
{
    let mut square = [[0u32; 8]; 8];
    for i in 0..8 {
        square[i] = row_of(columns, i);
    }
    square
}

// A square as it is answered, a record for each row.
pub fn rows_of(square: [[u32; 8]; 8]) -> [WindowRow; 8]
    ensures { result ≡ map (held_row square) (below 8) }
{
    // `square.map` was tried: that it gives these rows was not proved.
    let mut rows = [WindowRow { costs: [0; 8] }; 8];
    for i in 0..8 {
        rows[i] = WindowRow { costs: square[i] };
    }
    rows
}
