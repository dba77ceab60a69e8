// Bounds of built costs over all floors between two: definitions and theorems, and the record of the call.
#![tactic(auto)]

// What the call for bounds answers: its number, each cell's least and greatest built cost, and whether the cell is sure.
#[repr(C)]
#[derive(Clone, Copy)]
pub struct Bounds {
    pub number: u8,
    pub least: [u32; 100],
    pub greatest: [u32; 100],
    pub sure: [bool; 100],
}
