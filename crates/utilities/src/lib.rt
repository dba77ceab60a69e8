// The eight directions: what each adds to a column and a row, its opposite, its number and its sides.
#![tactic(auto)]

ghost use Rattle.std.specs.Prelude.{◌≡◌};
ghost use Rattle.utilities.specs.Compass.{differences, rises, opposite, number_of, points, lower_side, side_of};

// A direction. Row 0 is north; `Zero` is none.
#[derive(Clone, Copy, Debug, PartialEq, Eq)]
pub enum CompassDir {
    North,
    East,
    South,
    West,
    NorthEast,
    SouthEast,
    SouthWest,
    NorthWest,
    Zero,
}

// What a direction adds to a cell's column and to its row.
#[derive(Clone, Copy)]
pub struct Differences {
    pub column: i64,
    pub row: i64,
}

// The pair of differences of a direction.
fn pair(column: i64, row: i64) -> Differences
    ensures { result ≡ record { column = column; row = row } }
{
    Differences { column, row }
}

// How much a difference adds; 0 where it takes away.
pub fn rises(difference: i64) -> usize
    ensures { result ≡ rises difference }
{
    difference.max(0) as usize
}

impl CompassDir {
    // The direction's differences.
    pub fn differences(self) -> Differences
        ensures { result ≡ differences self }
    {
        match self {
            CompassDir::North => pair(0, -1),
            CompassDir::East => pair(1, 0),
            CompassDir::South => pair(0, 1),
            CompassDir::West => pair(-1, 0),
            CompassDir::NorthEast => pair(1, -1),
            CompassDir::SouthEast => pair(1, 1),
            CompassDir::SouthWest => pair(-1, 1),
            CompassDir::NorthWest => pair(-1, -1),
            CompassDir::Zero => pair(0, 0),
        }
    }

    // The opposite direction.
    pub fn inverse(self) -> CompassDir
        ensures { result ≡ opposite self }
    {
        match self {
            CompassDir::North => CompassDir::South,
            CompassDir::East => CompassDir::West,
            CompassDir::South => CompassDir::North,
            CompassDir::West => CompassDir::East,
            CompassDir::NorthEast => CompassDir::SouthWest,
            CompassDir::SouthEast => CompassDir::NorthWest,
            CompassDir::SouthWest => CompassDir::NorthEast,
            CompassDir::NorthWest => CompassDir::SouthEast,
            CompassDir::Zero => CompassDir::Zero,
        }
    }

    // The direction's number: 0 North to 7 NorthWest in the order of a look, 8 Zero.
    pub fn number(self) -> u8
        ensures { result ≡ number_of self }
    {
        match self {
            CompassDir::North => 0,
            CompassDir::East => 1,
            CompassDir::South => 2,
            CompassDir::West => 3,
            CompassDir::NorthEast => 4,
            CompassDir::SouthEast => 5,
            CompassDir::SouthWest => 6,
            CompassDir::NorthWest => 7,
            CompassDir::Zero => 8,
        }
    }

    // Whether it is a direction at all: `Zero` is none.
    pub fn points(self) -> bool
        ensures { result ≡ points self }
    {
        self != CompassDir::Zero
    }

    // Of the two sides that lie square to a direction, the one of the lower index: West of North and South, North of East and West.
    pub fn lower_side(self) -> CompassDir
        ensures { result ≡ lower_side self }
    {
        let added = self.differences();
        if added.column == 0 {
            return CompassDir::West;
        }
        CompassDir::North
    }

    // The side of a sector that a step's boundary byte names; Zero for a byte that names none.
    pub fn from_boundary(boundary: u8) -> CompassDir
        ensures { result ≡ side_of boundary }
    {
        match boundary {
            0 => CompassDir::North,
            1 => CompassDir::East,
            2 => CompassDir::South,
            3 => CompassDir::West,
            _ => CompassDir::Zero,
        }
    }
}
