// Costs from window to window inside one sector: definitions and theorems, and the records of their code.
#![tactic(auto)]

// A row of the square: the costs from one window to each of eight.
#[repr(C)]
#[derive(Clone, Copy)]
pub struct WindowRow {
    pub costs: [u32; 8],
}

// What the call for window costs answers: its number, and a square of costs, from window i to window j in row i at place j.
#[repr(C)]
#[derive(Clone, Copy)]
pub struct WindowCosts {
    pub number: u8,
    pub rows: [WindowRow; 8],
}
