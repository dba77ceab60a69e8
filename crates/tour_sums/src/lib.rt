// Tours of windows over the square of their costs: the best of the orders tried, and the least figure of document 02 (Job 14), a lower bound that no
// order's sum goes under.
#![tactic(auto)]

// An order of windows: their numbers, with 0 in the places behind them, and the sum of its moves.
#[derive(Clone, Copy)]
pub struct Tour {
    pub order: [u8; 8],
    pub sum: u32,
}

// What a tour of windows answers: the best order tried, unless none counts, the number of orders tried, and the least figure.
#[derive(Clone, Copy)]
pub struct SearchedTour {
    pub best: Option<Tour>,
    pub tried: u32,
    pub least: u32,
}
