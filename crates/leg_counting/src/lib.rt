// The window cells that count in a leg, from which a later step starts: a window cell counts if one of the facing cells that it compares was reached in
// the sector before.
#![tactic(auto)]

ghost use Rattle.std.specs.Prelude.{◌≡◌, ◌<◌, is_some};
ghost use Rattle.route.specs.Window.{select, cells_between, listed};
ghost use Rattle.route.specs.Inner.{listed_target};
ghost use Rattle.flow_byte.specs.Previous.{given};
ghost use Rattle.leg_counting.specs.Counting.{counts, leg_target};
ghost use Rattle.leg_counting.specs.Inner.{found_closed};

use fields::CellList;
use route::{PortalWindow, RouteStep, Target};

// Whether a window cell counts: some facing cell that it compares was reached. `previous` is the built field of the step before.
#[tactic(auto, unfolding(crate::specs::Counting::counts))]
fn counts(portal: PortalWindow, previous: &[u32; 100], index: usize) -> bool
    requires { index < 100 }
    ensures { result ≡ counts portal previous.now index }
{
    let seen = flow_new::seen_values(portal, previous, index);
    seen.straight < 65535 || seen.lower < 65535 || seen.higher < 65535
}

// The cells of a window that count, in order; of any window, also one that no step's bytes make.
pub fn counting_cells(portal: PortalWindow, previous: &[u32; 100]) -> CellList<10>
    ensures { result ≡ listed (select (counts portal previous.now) (cells_between portal.boundary portal.start portal.end)) }
{
    let all = portal.get_all_window_cells();
    let mut window = CellList::none();
    for place in 0..all.count {
        let cell = all.cells[place];
        if counts(portal, previous, usize::from(cell)) {
            window.push(cell);
        }
    }
    window
}

// What a step of a leg starts from: the first its goal, with the sight of it or without, a later one the cells of its window that count.
pub fn leg_target(step: &[u8], sight: bool, previous: Option<&[u32; 100]>) -> Target
    ensures { result ≡ listed_target (leg_target sight (is_some previous.entry) (given previous.entry) step.now) }
{
    match previous {
        Some(previous) => Target::Window(counting_cells(PortalWindow::new(step), previous)),
        None => RouteStep::new(step).as_target().by_sight(sight),
    }
}

// Whether a target is a window without cells.
pub fn is_closed(target: Target) -> bool
    ensures { result ≡ found_closed target }
{
    match target {
        Target::Window(window) => window.count == 0,
        _ => false,
    }
}
