// The bits of a flow byte: its flags and its direction, and their readers.
#![tactic(auto)]

ghost use Rattle.std.specs.Prelude.{◌≡◌};
ghost use Rattle.flow_bits.specs.Byte.{bits_of, dir_of, is_pathable, is_impassable, has_line_of_sight, is_goal, is_portal_goal, is_wall};

use utilities::CompassDir;

// The bits of the directions.
const BITS_NORTH: u8 = 0b0000_0001;

const BITS_EAST: u8 = 0b0000_0010;

const BITS_SOUTH: u8 = 0b0000_0100;

const BITS_WEST: u8 = 0b0000_1000;

const BITS_NORTH_EAST: u8 = 0b0000_0011;

const BITS_SOUTH_EAST: u8 = 0b0000_0110;

const BITS_SOUTH_WEST: u8 = 0b0000_1100;

const BITS_NORTH_WEST: u8 = 0b0000_1001;

// No bits.
pub const BITS_DEFAULT: u8 = 0b0000_0000;

// The flags.
pub const BITS_PATHABLE: u8 = 0b0001_0000;

pub const BITS_HAS_LOS: u8 = 0b0010_0000;

pub const BITS_GOAL: u8 = 0b0100_0000;

pub const BITS_PORTAL_GOAL: u8 = 0b1000_0000;

// The flags of a wall: all three above.
pub const BITS_IMPASSABLE: u8 = 0b1110_0000;

// The low half of a byte, where its direction stands.
const BITS_COST_FILTER: u8 = 0b0000_1111;

// A direction's bits.
pub fn convert_compass_dir_to_bits_dir(dir: CompassDir) -> u8
    ensures { result ≡ bits_of dir }
{
    match dir {
        CompassDir::North => BITS_NORTH,
        CompassDir::East => BITS_EAST,
        CompassDir::South => BITS_SOUTH,
        CompassDir::West => BITS_WEST,
        CompassDir::NorthEast => BITS_NORTH_EAST,
        CompassDir::SouthEast => BITS_SOUTH_EAST,
        CompassDir::SouthWest => BITS_SOUTH_WEST,
        CompassDir::NorthWest => BITS_NORTH_WEST,
        CompassDir::Zero => BITS_DEFAULT,
    }
}

// A cell can be walked.
pub fn is_pathable(byte: u8) -> bool
    ensures { result ≡ is_pathable byte }
{
    byte & BITS_PATHABLE == BITS_PATHABLE
}

// A cell is the goal.
pub fn is_goal(byte: u8) -> bool
    ensures { result ≡ is_goal byte }
{
    byte & BITS_GOAL == BITS_GOAL && is_pathable(byte)
}

// A cell leads into the next sector.
pub fn is_portal_goal(byte: u8) -> bool
    ensures { result ≡ is_portal_goal byte }
{
    byte & BITS_PORTAL_GOAL == BITS_PORTAL_GOAL && is_pathable(byte)
}

// A cell has the goal in sight.
pub fn has_line_of_sight(byte: u8) -> bool
    ensures { result ≡ has_line_of_sight byte }
{
    byte & BITS_HAS_LOS == BITS_HAS_LOS && is_pathable(byte)
}

// A cell is a wall.
pub fn is_wall(byte: u8) -> bool
    ensures { result ≡ is_wall byte }
{
    byte & BITS_IMPASSABLE == BITS_IMPASSABLE && !is_pathable(byte)
}

// The direction to walk in, Zero where the low half is no direction's bits.
pub fn get_compass_dir_from_bits(byte: u8) -> CompassDir
    ensures { result ≡ dir_of byte }
{
    match byte & BITS_COST_FILTER {
        BITS_NORTH => CompassDir::North,
        BITS_EAST => CompassDir::East,
        BITS_SOUTH => CompassDir::South,
        BITS_WEST => CompassDir::West,
        BITS_NORTH_EAST => CompassDir::NorthEast,
        BITS_SOUTH_EAST => CompassDir::SouthEast,
        BITS_SOUTH_WEST => CompassDir::SouthWest,
        BITS_NORTH_WEST => CompassDir::NorthWest,
        _ => CompassDir::Zero,
    }
}

// All of the impassable bits are set.
pub fn is_impassable(byte: u8) -> bool
    ensures { result ≡ is_impassable byte }
{
    byte & BITS_IMPASSABLE == BITS_IMPASSABLE
}
