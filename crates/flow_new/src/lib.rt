// A new flow field: the flags that each cell starts with, and the directions of the window cells.
#![tactic(auto)]

ghost use Rattle.std.specs.Prelude.{◌≡◌, ◌<◌, eqb, is_some, IfOk};
ghost use Rattle.route.specs.Inner.{WindowHeld, held_cells};
ghost use Rattle.flow_byte.specs.New.{start_of, facing_bits, facing_value, unless_end, seen_values, window_bits};
ghost use Rattle.flow_byte.specs.Previous.{given};
ghost use Rattle.refusals.specs.Refusal.{told};
ghost use Rattle.flow_new.specs.Flow.{misfit_number, new_number, new_sheet};
ghost use Rattle.flow_new.specs.Inner.{start_bytes, with_bits, first_bytes};

use fields::CellList;
use flow_bits::{
    BITS_DEFAULT, BITS_GOAL, BITS_HAS_LOS, BITS_IMPASSABLE, BITS_PATHABLE, BITS_PORTAL_GOAL,
};
use flow_byte::SeenValues;
use integration_field::IntegrationField;
use refusals::Refusal;
use route::{PortalWindow, RouteStep};
use utilities::CompassDir;

// The cost of a cell that is not seen: above every other.
const UNSEEN: u32 = 0x10000;

// The flags that a cell starts with.
#[tactic(auto, unfolding(flow_byte::specs::New::start_of))]
fn starting_flags(word: u32) -> u8
    ensures { result ≡ start_of word }
{
    if integration_bits::is_goal(word) {
        return BITS_GOAL | BITS_PATHABLE | BITS_HAS_LOS;
    }
    if integration_bits::is_portal(word) {
        return BITS_PORTAL_GOAL | BITS_PATHABLE;
    }
    if integration_bits::is_los(word) {
        return BITS_HAS_LOS | BITS_PATHABLE;
    }
    if integration_bits::is_impassable(word) {
        return BITS_IMPASSABLE;
    }
    BITS_DEFAULT
}

// The bits that point at the cheapest of the three cells that a window cell faces.
#[tactic(auto, unfolding(flow_byte::specs::New::facing_bits))]
fn facing_bits(boundary: CompassDir, seen: SeenValues) -> u8
    ensures { result ≡ facing_bits boundary seen.lower seen.straight seen.higher }
{
    let bits = flow_bits::convert_compass_dir_to_bits_dir(boundary);
    let side = boundary.lower_side();
    if seen.straight <= seen.lower && seen.straight <= seen.higher {
        return bits;
    }
    if seen.lower <= seen.straight && seen.lower <= seen.higher {
        return bits + flow_bits::convert_compass_dir_to_bits_dir(side);
    }
    bits + flow_bits::convert_compass_dir_to_bits_dir(side.inverse())
}

// The cost of the cell that faces a window cell across the boundary, in the field of the sector there.
fn facing_value(previous: &[u32; 100], boundary: CompassDir, index: usize) -> u32
    ensures { result ≡ facing_value previous.now boundary index }
{
    let cell = route::facing_cell(boundary, index);
    integration_bits::low_bits(previous[cell])
}

// The cost of the cell that faces `beside`, which lies next to a window cell on one side. The window's end cell on that side does not see it.
fn side_value(
    previous: &[u32; 100],
    boundary: CompassDir,
    index: usize,
    end: usize,
    beside: usize,
) -> u32
    ensures { result ≡ unless_end (eqb index end) (facing_value previous.now boundary beside) }
{
    if index == end {
        return UNSEEN;
    }
    facing_value(previous, boundary, beside)
}

// The costs that a window cell compares: of the cell that faces it, and of those beside that one.
pub fn seen_values(window: PortalWindow, previous: &[u32; 100], index: usize) -> SeenValues
    requires { index < 100 }
    ensures { result ≡ seen_values window previous.now index }
{
    let boundary = window.boundary;
    let stride = route::stride_of(boundary);
    let before = index.saturating_sub(stride);
    let after = index + stride;
    SeenValues {
        lower: side_value(previous, boundary, index, window.start, before),
        straight: facing_value(previous, boundary, index),
        higher: side_value(previous, boundary, index, window.end, after),
    }
}

// The bits of a window cell: straight across the boundary, without a previous field or in a window of one cell; else to the cheapest facing cell.
#[tactic(auto, unfolding(flow_byte::specs::New::window_bits, flow_byte::specs::New::facing_choice))]
fn portal_direction(window: PortalWindow, previous: Option<&[u32; 100]>, index: usize) -> u8
    requires { index < 100 }
    ensures { result ≡ window_bits window (is_some previous.entry) (given previous.entry) index }
{
    let boundary = window.boundary;
    let Some(previous) = previous else {
        return flow_bits::convert_compass_dir_to_bits_dir(boundary);
    };
    if window.start == window.end {
        return flow_bits::convert_compass_dir_to_bits_dir(boundary);
    }
    facing_bits(boundary, seen_values(window, previous, index))
}

// The flags that all cells start with. By `map` a new flow field took more than twice the time.
fn start_cells(cells: &[u32; 100]) -> [u8; 100]
    ensures { result ≡ start_bytes cells.now }
{
    let mut flags = [0; 100];
    for i in 0..100 {
        flags[i] = starting_flags(cells[i]);
    }
    flags
}

// The bits of the window cells, or-ed on one after the other.
fn point_portals(
    portal: PortalWindow,
    window: CellList<10>,
    previous: Option<&[u32; 100]>,
    sheet: &mut [u8; 100],
)
    requires { WindowHeld window }
    ensures { sheet.new ≡ with_bits portal (is_some previous.entry) (given previous.entry) (held_cells window) sheet.old }
{
    for cell in &window.cells[..window.count] {
        let cell = usize::from(*cell);
        sheet[cell] |= portal_direction(portal, previous, cell);
    }
}

// The first bytes of all cells: their flags, and the window cells' bits, each by the whole of the step's window.
pub fn new_cells(
    portal: Option<PortalWindow>,
    window: CellList<10>,
    field: IntegrationField,
    previous: Option<&[u32; 100]>,
    sheet: &mut [u8; 100],
)
    requires { WindowHeld window }
    ensures { sheet.new ≡ first_bytes portal (held_cells window) field.field (is_some previous.entry) (given previous.entry) }
{
    let cells = field.field;
    *sheet = start_cells(&cells);
    if let Some(portal) = portal {
        point_portals(portal, window, previous, sheet);
    }
}

// A previous field as an array: refused where one is lent that is not 100 numbers.
pub fn of_100(previous: Option<&[u32]>) -> Result<Option<&[u32; 100]>, Refusal>
    ensures refused { told result ≡ misfit_number (is_some previous.entry) (given previous.entry) }
    ensures same { IfOk result (λ p. (is_some p ≡ is_some previous.entry) × (given p ≡ given previous.entry)) }
{
    let Some(numbers) = previous else {
        return Ok(None);
    };
    let Ok(numbers) = <&[u32; 100]>::try_from(numbers) else {
        return Err(Refusal::PreviousLength);
    };
    Ok(Some(numbers))
}

// A new flow field for a step of a route, by hand: starting flags and the window's directions.
pub fn new(
    step: &[u8],
    field: IntegrationField,
    previous: Option<&[u32]>,
    sheet: &mut [u8],
) -> Result<(), Refusal>
    ensures number { told result ≡ new_number step.now (is_some previous.entry) (given previous.entry) sheet.old }
    ensures sheet { sheet.new ≡ new_sheet step.now field.field (is_some previous.entry) (given previous.entry) sheet.old }
{
    let Some(bytes) = sheet.as_mut_array::<100>() else {
        return Err(Refusal::Sheet);
    };
    step_numbers::step_number(step)?;
    let previous = of_100(previous)?;
    let route_step = RouteStep::new(step);
    let window = route_step.as_target().window();
    new_cells(route_step.portal, window, field, previous, bytes);
    Ok(())
}
