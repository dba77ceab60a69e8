// A tour of the windows of one sector: the definition of what the call answers, its theorem, and its record.
#![tactic(auto)]

// What the call for a tour answers: its number, the best order tried and its sum, the number of orders tried, and the least figure.
#[repr(C)]
#[derive(Clone, Copy)]
pub struct WindowTour {
    pub number: u8,
    pub found: bool,
    pub order: [u8; 8],
    pub sum: u32,
    pub tried: u32,
    pub least: u32,
}
