// A leg as a file: the mark `LEG`, version 1, the step count and the steps. No byte of a step is judged here.
#![tactic(auto)]

// What reading a file answers: its number, and where the steps stand in it.
#[repr(C)]
#[derive(Clone, Copy)]
pub struct LegFile {
    pub number: u8,
    pub start: usize,
    pub length: usize,
}
