// A step of a route, parsed: its window's cells, and the target that a sector's field starts from.
#![tactic(auto)]

ghost use Rattle.std.specs.Prelude.{◌≡◌, ◌+◌, ◌*◌, ◌%◌, ◌<◌, length, get_or};
ghost use Rattle.route.specs.Window.{edge, stride, between, cells_between, listed, facing};
ghost use Rattle.route.specs.Step.{portal_of, route_step};
ghost use Rattle.route.specs.Inner.{route_target, listed_target, own_window, unsighted, sighted_by};

use fields::CellList;
use utilities::CompassDir;

// How many bytes a step has, and the places of those that say something; the last two are zero.
pub const STEP_LENGTH: usize = 8;

pub const STEP_SECTOR: usize = 0;

pub const STEP_GOAL: usize = 1;

pub const STEP_MARK: usize = 2;

pub const STEP_FIRST: usize = 3;

pub const STEP_LAST: usize = 4;

pub const STEP_BOUNDARY: usize = 5;

// The start and end index of a portal, and the side of the sector that it sits on.
#[derive(Clone, Copy)]
pub struct PortalWindow {
    pub start: usize,
    pub end: usize,
    pub boundary: CompassDir,
}

// A parsed step: its sector, its goal cell, and its window where it has one, which is then what it leads to.
#[derive(Clone, Copy)]
pub struct RouteStep {
    pub sector: usize,
    pub goal: usize,
    pub portal: Option<PortalWindow>,
}

// What a sector's field starts from: the goal cell, with the sight of it; the cells of a window; or the goal cell without sight, as the one listed corner.
#[derive(Clone, Copy)]
pub enum Target {
    Goal(usize),
    Window(CellList<10>),
    Corner(usize),
}

// The byte at a place, 0 where there is none.
pub fn byte_at(bytes: &[u8], place: usize) -> u8
    ensures { result ≡ get_or bytes.now place 0 }
{
    bytes.get(place).copied().unwrap_or(0)
}

// By how much the indexes of two neighbours on a side's edge differ: 1 along a row, 10 down a column.
pub fn stride_of(boundary: CompassDir) -> usize
    ensures { result ≡ stride boundary }
{
    let added = boundary.differences();
    if added.column == 0 { 1 } else { 10 }
}

// How many cells a side's edge has; a direction that is no side has no edge.
fn edge_length(boundary: CompassDir) -> usize
    ensures { result ≡ length (edge boundary) }
{
    match boundary {
        CompassDir::North | CompassDir::East | CompassDir::South | CompassDir::West => 10,
        _ => 0,
    }
}

// A cell of a side's edge, by its place from the left or the top.
fn edge_cell(boundary: CompassDir, place: usize) -> usize
    requires { place < length (edge boundary) }
    ensures { result ≡ get_or (edge boundary) place 0 }
{
    let first = match boundary {
        CompassDir::East => 9,
        CompassDir::South => 90,
        _ => 0,
    };
    first + place * stride_of(boundary)
}

// Whether a cell's index lies from the first to the last, both included.
fn is_between(first: usize, last: usize, cell: usize) -> bool
    ensures { result ≡ between first last cell }
{
    (first..=last).contains(&cell)
}

// The cell of the next sector that faces a cell across a boundary: one step on, where after 9 comes 0 and before 0 comes 9.
pub fn facing_cell(boundary: CompassDir, index: usize) -> usize
    ensures { result ≡ facing boundary index }
{
    let added = boundary.differences();
    let column = (index % 10 + 10) as i64 + added.column;
    let row = (index / 10 + 10) as i64 + added.row;
    row as usize % 10 * 10 + column as usize % 10
}

impl RouteStep {
    // Parses a step's bytes; a byte that is not there counts as 0.
    pub fn new(step: &[u8]) -> RouteStep
        ensures { result ≡ route_step step.now }
    {
        let sector = usize::from(byte_at(step, STEP_SECTOR));
        let goal = usize::from(byte_at(step, STEP_GOAL));
        let portal = (byte_at(step, STEP_MARK) == 1).then(|| PortalWindow::new(step));
        RouteStep {
            sector,
            goal,
            portal,
        }
    }

    // What a sector's field starts from for this step: its window's cells, or its goal with sight.
    pub fn as_target(self) -> Target
        ensures { result ≡ listed_target (route_target self) }
    {
        match self.portal {
            Some(portal) => Target::Window(portal.get_all_window_cells()),
            None => Target::Goal(self.goal),
        }
    }
}

impl Target {
    // The target with the sight of a goal, or without: then a goal is to be the one listed corner. Of a window nothing changes.
    pub fn by_sight(self, sight: bool) -> Target
        ensures { result ≡ sighted_by sight self }
    {
        match self {
            Target::Goal(goal) if !sight => Target::Corner(goal),
            target => target,
        }
    }

    // The window's cells; beside a goal there are none.
    pub fn window(self) -> CellList<10>
        ensures { result ≡ own_window self }
    {
        match self {
            Target::Window(window) => window,
            _ => CellList::none(),
        }
    }
}

impl PortalWindow {
    // Parses the window of a step's bytes, whatever its mark.
    pub fn new(step: &[u8]) -> PortalWindow
        ensures { result ≡ portal_of step.now }
    {
        let start = usize::from(byte_at(step, STEP_FIRST));
        let end = usize::from(byte_at(step, STEP_LAST));
        let boundary = CompassDir::from_boundary(byte_at(step, STEP_BOUNDARY));
        PortalWindow {
            start,
            end,
            boundary,
        }
    }

    // The indices of every cell along the window, left to right or top to bottom.
    pub fn get_all_window_cells(self) -> CellList<10>
        ensures { result ≡ listed (cells_between self.boundary self.start self.end) }
    {
        let mut window = CellList::none();
        for place in 0..edge_length(self.boundary) {
            let cell = edge_cell(self.boundary, place);
            if is_between(self.start, self.end, cell) {
                window.push(cell as u8);
            }
        }
        window
    }
}
