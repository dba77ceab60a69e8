// A tour of 2 to 8 windows: from the first window, each other once, no way back, with the smallest sum of the orders tried. Each order is made from
// the one before, and the sums of its moves are kept place by place, so that they are made anew only from the first place that changed on.
#![tactic(auto)]

ghost use Rattle.std.specs.Prelude.{◌≡◌, ◌-◌, ◌<◌, ◌≤◌, get_or, take};
ghost use Rattle.tour_orders.specs.Orders.{orders, factorial};
ghost use Rattle.tour_orders.specs.Told.{AllOrders};
ghost use Rattle.tour_sums.specs.Tours.{move_cost, no_tour, best_tour, tried_count, searched_tour, told_tour};
ghost use Rattle.tour_sums.specs.Promise.{TourSquare, BestAnswer, LeastAnswer};
ghost use Rattle.tour_search.specs.Inner.{WindowNumbers, MovesReady, weight, weighed, SumsKept, lowest, taken};

use tour_sums::{SearchedTour, Tour};

// What a move of 65535 weighs, and the lowest sum while no order is found: more than the moves of any order that counts.
const NO_ORDER: u32 = 524288;

// What the move into the window at a place of an order weighs: its cost, from window a to window b in row a at place b. A 65535 weighs so much
// that one sum tells both what an order comes to and whether it counts.
fn move_weight(square: &[[u32; 8]; 8], order: &[u8; 8], at: usize) -> u32
    requires { (1 ≤ at) × (at < 8) × WindowNumbers order.now }
    ensures { result ≡ weight (move_cost square.now (get_or order.now (at - 1) 0) (get_or order.now at 0)) }
{
    let from = usize::from(order[at - 1]);
    let to = usize::from(order[at]);
    let cost = square[from][to];
    if cost == 65535 {
        return NO_ORDER;
    }
    cost
}

// Sums an order's moves from a place on, and keeps the sum at each place. Answers the whole sum.
fn add_moves(
    square: &[[u32; 8]; 8],
    order: &[u8; 8],
    n: usize,
    from: usize,
    sums: &mut [u32; 8],
) -> u32
    requires { MovesReady square.now n order.now from sums.old }
    ensures { (result ≡ weighed square.now order.now (n - 1))
        × SumsKept square.now order.now n sums.new }
{
    let mut sum = sums[from - 1];
    for at in from..n {
        sum += move_weight(square, order, at);
        sums[at] = sum;
    }
    sum
}

// The sum that another order must come below: that of the best so far, or NO_ORDER where there is none.
fn lowest(best: Option<Tour>) -> u32
    ensures { result ≡ lowest best }
{
    best.map_or(NO_ORDER, |tour| tour.sum)
}

// An order with its sum, as the best so far. Few orders are taken, and so this is a call of its own: put into its caller, it would read the bytes of
// every order as one word right after they were moved about, for which the processor waits.
#[inline(never)]
fn taken(order: &[u8; 8], sum: u32) -> Option<Tour>
    ensures { result ≡ taken order.now sum }
{
    Some(Tour { order: *order, sum })
}

// The best of the first orders of the dictionary: an order is taken where its sum is lower than all before.
fn best_tour(square: &[[u32; 8]; 8], n: usize, tried: usize) -> Option<Tour>
    requires { TourSquare square.now n × (tried ≤ factorial (n - 1)) }
    ensures { result ≡ best_tour square.now no_tour (take tried (orders n)) }
{
    let mut order = tour_ranking::first_order(n);
    let mut changed = 1usize;
    let mut sums = [0u32; 8];
    let mut best: Option<Tour> = None;
    for _place in 0..tried {
        let sum = add_moves(square, &order, n, changed, &mut sums);
        if sum < lowest(best) {
            best = taken(&order, sum);
        }
        changed = tour_ranking::next_order(&mut order, n);
    }
    best
}

// The number of orders tried: the limit or all, the smaller.
fn tried_count(n: usize, limit: u16) -> usize
    requires { (1 ≤ n) × (n ≤ 8) }
    ensures { result ≡ tried_count n limit }
{
    usize::from(limit).min(tour_ranking::factorial(n - 1))
}

// The best tour of the windows 0 to n - 1 over the square of their costs, of as many orders as the limit says; and the least figure.
pub fn search_tours(square: [[u32; 8]; 8], n: usize, limit: u16) -> SearchedTour
    requires { TourSquare square n }
    ensures answer { result ≡ searched_tour square n limit }
    ensures orders { AllOrders n (orders n) }
    ensures best { BestAnswer square n limit (told_tour result) }
    ensures least { LeastAnswer square n (told_tour result) }
{
    let tried = tried_count(n, limit);
    SearchedTour {
        best: best_tour(&square, n, tried),
        tried: tried as u32,
        least: tour_entries::least_figure(square, n),
    }
}
