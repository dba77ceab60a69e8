// The rules of a flow byte: what it starts as, and what a look for a direction has come to.
#![tactic(auto)]

// The costs that a window cell compares: of the cell that faces it, and of those that face its neighbours in the window.
#[derive(Clone, Copy)]
pub struct SeenValues {
    pub lower: u32,
    pub straight: u32,
    pub higher: u32,
}
