// Number 3 of a list of steps.
#![tactic(auto)]

ghost use Rattle.std.specs.Prelude.{◌≡◌};
ghost use Rattle.route.specs.Step.{no_step_list};

// Number 3's condition for a list of steps: none, more than 16, or bytes that make no whole step.
#[tactic(auto, unfolding(route::specs::Step::no_step_list))]
pub fn is_no_step_list(steps: &[u8]) -> bool
    ensures { result ≡ no_step_list steps.now }
{
    let length = steps.len();
    length == 0 || 128 < length || length % route::STEP_LENGTH != 0
}
