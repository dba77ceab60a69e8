// The number with which a list of windows is refused: 1, 3, 19, then 4 to 8, 16 and 20 of one step before the next.
#![tactic(auto)]

ghost use Rattle.std.specs.Prelude.{◌≡◌, length};
ghost use Rattle.refusals.specs.Refusal.{told};
ghost use Rattle.route.specs.Table.{first_number};
ghost use Rattle.step_list.specs.Steps.{steps_of};
ghost use Rattle.window_square.specs.Square.{window_step_number, window_step_rows, window_costs_number};

use refusals::Refusal;
use route::{STEP_LENGTH, STEP_MARK, STEP_SECTOR};

// 4 to 8, 16, or 20 for a step that is refused among the windows of a sector.
fn window_step_number(costs: &[u8], sector: u8, step: &[u8]) -> Result<(), Refusal>
    requires { length step.now ≡ 8 }
    ensures { told result ≡ window_step_number costs.now sector step.now }
{
    step_numbers::step_number_on(costs, step)?;
    if step[STEP_MARK] != 1 || step[STEP_SECTOR] != sector {
        return Err(Refusal::OtherSector);
    }
    Ok(())
}

// 4 to 8, 16, or 20 for the first step that is refused.
fn each_window_step(costs: &[u8], sector: u8, steps: &[u8]) -> Result<(), Refusal>
    ensures { told result ≡ first_number (window_step_rows costs.now sector (steps_of steps.now)) }
{
    for k in 0..steps.len() / STEP_LENGTH {
        let at = k * STEP_LENGTH;
        window_step_number(costs, sector, &steps[at..at + STEP_LENGTH])?;
    }
    Ok(())
}

// The line of the table by which a list of windows is refused.
pub fn window_costs_number(costs: &[u8], steps: &[u8]) -> Result<(), Refusal>
    ensures { told result ≡ window_costs_number costs.now steps.now }
{
    if costs.len() != 100 {
        return Err(Refusal::CostBytes);
    }
    if steps.len() % STEP_LENGTH != 0 {
        return Err(Refusal::StepList);
    }
    let count = steps.len() / STEP_LENGTH;
    if count < 2 || 8 < count {
        return Err(Refusal::WindowCount);
    }
    each_window_step(costs, steps[STEP_SECTOR], steps)
}
