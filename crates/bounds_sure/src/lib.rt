// The built costs of a field's cells, and which cells are sure by them: the permitted neighbours of each are compared.
#![tactic(auto)]

ghost use Rattle.std.specs.Prelude.{◌≡◌, List, [], ◌∷◌, map, ℕ, ◌<◌, ltb, get_or, ◌&&◌, option_to_list, IfSome};
ghost use Rattle.utilities.specs.Lists.{below};
ghost use Rattle.fields.specs.Cell.{Inside, index_of};
ghost use Rattle.fields.specs.CellList.{held};
ghost use Rattle.integration_field.specs.Word.{is_portal};
ghost use Rattle.integration_field.specs.Listed.{Indexes};
ghost use Rattle.flow_byte.specs.New.{is_in};
ghost use Rattle.flow_byte.specs.Look.{is_passed_over};
ghost use Rattle.flow_arrows.specs.Arrows.{built_cost};
ghost use Rattle.bounds_told.specs.Bounds.{some_of, permitted_along, permitted_from, is_below_others, is_sure};

use fields::{CellList, FieldCell};
use utilities::CompassDir;

// Whether the look from a cell passes over a neighbour: it is a wall, or the move there is diagonal and passes one.
fn is_passed_over(cells: &[u32; 100], from: FieldCell, to: FieldCell) -> bool
    requires { Inside from × Inside to }
    ensures { result ≡ is_passed_over cells.now (index_of from) (index_of to) }
{
    let word = cells[to.row * 10 + to.column];
    if integration_bits::is_impassable(word) {
        return true;
    }
    let in_row = cells[from.row * 10 + to.column];
    let in_column = cells[to.row * 10 + from.column];
    integration_bits::passes_wall(from, to, in_row, in_column)
}

// The neighbour in one direction, by its index, if it is permitted.
fn permitted_towards(cells: &[u32; 100], index: usize, dir: CompassDir) -> Option<u8>
    requires { index < 100 }
    ensures found { option_to_list result ≡ permitted_along cells.now index (dir ∷ []) }
    ensures inside { IfSome result (λ n. n < 100) }
{
    let from = FieldCell::from_index(index);
    let Some(to) = from.get_in_compass_direction(dir) else {
        return None;
    };
    if is_passed_over(cells, from, to) {
        return None;
    }
    Some(to.as_1d_index() as u8)
}

// The permitted neighbours of a cell, in the order of its look.
#[derive(Clone, Copy)]
struct Neighbours {
    listed: CellList<8>,
    ghost cells_in: { Indexes 8 listed.cells listed.count },
}

// The permitted neighbours of a cell: its sides, then its corners.
fn permitted_from(cells: &[u32; 100], index: usize) -> Neighbours
    requires { index < 100 }
    ensures { held result.listed ≡ permitted_from cells.now index }
{
    let mut listed = CellList::none();
    for dir in [
        CompassDir::North,
        CompassDir::East,
        CompassDir::South,
        CompassDir::West,
        CompassDir::NorthEast,
        CompassDir::SouthEast,
        CompassDir::SouthWest,
        CompassDir::NorthWest,
    ] {
        if let Some(to) = permitted_towards(cells, index, dir) {
            listed.push(to);
        }
    }
    Neighbours { listed }
}

impl Neighbours {
    // Whether one of them is a window cell.
    fn has_window(self, cells: &[u32; 100]) -> bool
        ensures { result ≡ some_of (λ n. is_portal (get_or cells.now n 0)) (held self.listed) }
    {
        for n in &self.listed.cells[..self.listed.count] {
            if integration_bits::is_portal(cells[usize::from(*n)]) {
                return true;
            }
        }
        false
    }

    // Whether the greatest cost of one of them is strictly below the least cost of all others.
    fn is_below_others(self, least: &[u32; 100], greatest: &[u32; 100], one: u8) -> bool
        requires { one < 100 }
        ensures { result ≡ is_below_others least.now greatest.now (held self.listed) one }
    {
        let most = greatest[usize::from(one)];
        for other in &self.listed.cells[..self.listed.count] {
            if *other != one && least[usize::from(*other)] <= most {
                return false;
            }
        }
        true
    }

    // Whether one of them is reached, and its greatest cost strictly below the least cost of all others.
    fn has_least(self, least: &[u32; 100], greatest: &[u32; 100]) -> bool
        ensures { result ≡ some_of
            (λ n. ltb (get_or greatest.now n 0) 65535 && is_below_others least.now greatest.now (held self.listed) n)
            (held self.listed) }
    {
        for one in &self.listed.cells[..self.listed.count] {
            if greatest[usize::from(*one)] < 65535 && self.is_below_others(least, greatest, *one) {
                return true;
            }
        }
        false
    }
}

// Whether a cell is sure (02, "Job 9"): neither wall nor window cell itself, it has among its permitted neighbours a window cell, or one whose greatest
// cost is below the least cost of all others. The window cells are those flagged as portals.
fn is_sure(cells: &[u32; 100], least: &[u32; 100], greatest: &[u32; 100], index: usize) -> bool
    requires { index < 100 }
    ensures { (window : List ℕ)
        → ((n : ℕ) → n < 100 → is_portal (get_or cells.now n 0) ≡ is_in n window)
        → result ≡ is_sure cells.now window least.now greatest.now index }
{
    let word = cells[index];
    if integration_bits::is_impassable(word) {
        return false;
    }
    if integration_bits::is_portal(word) {
        return false;
    }
    let neighbours = permitted_from(cells, index);
    neighbours.has_window(cells) || neighbours.has_least(least, greatest)
}

// Which cells are sure.
pub fn sure_cells(cells: &[u32; 100], least: &[u32; 100], greatest: &[u32; 100]) -> [bool; 100]
    ensures { (window : List ℕ)
        → ((n : ℕ) → n < 100 → is_portal (get_or cells.now n 0) ≡ is_in n window)
        → result ≡ map (is_sure cells.now window least.now greatest.now) (below 100) }
{
    let mut sure = [false; 100];
    for i in 0..100 {
        sure[i] = is_sure(cells, least, greatest, i);
    }
    sure
}

// The cost of each cell, without its flags. `map` over an array is slower than the loop.
pub fn costs_of(cells: &[u32; 100]) -> [u32; 100]
    ensures { result ≡ map (built_cost cells.now) (below 100) }
{
    let mut costs = [0; 100];
    for i in 0..100 {
        costs[i] = integration_bits::low_bits(cells[i]);
    }
    costs
}
