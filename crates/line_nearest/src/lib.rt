// The line between two cells and its two walks: what they are, and the theorem that they are the nearest-cell line.
#![tactic(auto)]

use fields::FieldCell;

// The cells of a line, and how many they are; the places beyond hold 0. A refused call's number says why.
#[repr(C)]
#[derive(Clone, Copy)]
pub struct Line {
    pub number: u8,
    pub cells: [FieldCell; 10],
    pub count: usize,
}
