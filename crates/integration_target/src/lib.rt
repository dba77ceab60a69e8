// A target's field, started and built, for callers that need no positions.
#![tactic(auto)]

ghost use Rattle.std.specs.Prelude.{◌≡◌};
ghost use Rattle.route.specs.declared.Target.TheVariants.{Window};
ghost use Rattle.route.specs.Inner.{WindowHeld, TargetHeld};
ghost use Rattle.integration_target.specs.Inner.{target_field};

use fields::CellList;
use integration_field::IntegrationField;
use route::Target;

// A sector's field, started from a target and built, without positions.
pub fn build_target(costs: &[u8; 100], target: Target) -> IntegrationField
    requires { TargetHeld target }
    ensures { result ≡ target_field costs.now target }
{
    let field = integration_init::start(costs, target);
    integration_build::build_without_positions(costs, field)
}

// A sector's field, started from a window's cells and built, without positions: for callers that plan to windows alone. No sight is spread from a window, so
// that no function beneath this one lays out the table of line ends.
pub fn build_window(costs: &[u8; 100], window: CellList<10>) -> IntegrationField
    requires { WindowHeld window }
    ensures { result ≡ target_field costs.now (Window window) }
{
    let field = integration_init::start_at(costs, window);
    integration_build::build_without_positions(costs, field)
}
