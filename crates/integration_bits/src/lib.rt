// The bits of an integration field's cell: its cost and its flags, their readers, and the walls that bar a move. All 32 bits together are the cell's
// word; the low 16 are its cost, or value.
#![tactic(auto)]

ghost use Rattle.std.specs.Prelude.{◌≡◌, not, ◌&&◌, ◌||◌, eqb};
ghost use Rattle.integration_field.specs.Word.{low, is_los, is_goal, is_blocked, is_portal, is_impassable};

use fields::FieldCell;

// Flags a cell as having line of sight.
pub const INT_BITS_LOS: u32 = 0x10000;

// Flags a cell as being the goal.
pub const INT_BITS_GOAL: u32 = 0x20000;

// Flags a cell to prevent wavefront propagation.
pub const INT_BITS_WAVE_BLOCKED: u32 = 0x40000;

// Flags a cell as a portal.
pub const INT_BITS_PORTAL: u32 = 0x80000;

// Flags a cell as being impassable.
pub const INT_BITS_IMPASSABLE: u32 = 0x2000000;

// Flags a cell as being a corner, of which build's first wave is made.
pub const INT_BITS_CORNER: u32 = 0x4000000;

// The bits of a cell's cost.
const INT_FILTER_BITS_COST: u32 = 0xffff;

// Each flag has its reader; one for all of them, given the flag, would be as long as the test.

// Whether a cell is in sight of the goal.
pub fn is_los(word: u32) -> bool
    ensures { result ≡ is_los word }
{
    word & INT_BITS_LOS == INT_BITS_LOS
}

// Whether a cell is the goal.
pub fn is_goal(word: u32) -> bool
    ensures { result ≡ is_goal word }
{
    word & INT_BITS_GOAL == INT_BITS_GOAL
}

// Whether sight does not go into a cell, because a corner's line went over it.
pub fn is_blocked(word: u32) -> bool
    ensures { result ≡ is_blocked word }
{
    word & INT_BITS_WAVE_BLOCKED == INT_BITS_WAVE_BLOCKED
}

// Whether a cell is a window cell.
pub fn is_portal(word: u32) -> bool
    ensures { result ≡ is_portal word }
{
    word & INT_BITS_PORTAL == INT_BITS_PORTAL
}

// Whether a cell is a wall.
pub fn is_impassable(word: u32) -> bool
    ensures { result ≡ is_impassable word }
{
    word & INT_BITS_IMPASSABLE == INT_BITS_IMPASSABLE
}

// A cell's cost, without its flags.
pub fn low_bits(word: u32) -> u32
    ensures { result ≡ low word }
{
    word & INT_FILTER_BITS_COST
}

// Whether a move between two cells is diagonal and passes a wall: the cell beside it in the row that it leaves, or the one in the column.
pub fn passes_wall(from: FieldCell, to: FieldCell, in_row: u32, in_column: u32) -> bool
    ensures { result ≡ ((not (eqb from.row to.row) && not (eqb from.column to.column))
        && (is_impassable in_row || is_impassable in_column)) }
{
    from.row != to.row
        && from.column != to.column
        && (is_impassable(in_row) || is_impassable(in_column))
}
