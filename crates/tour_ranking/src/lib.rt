// The orders of windows, each made from the one before: the first order of the dictionary of all orders, and the next behind an order.
#![tactic(auto)]

ghost use Rattle.std.specs.Prelude.{◌≡◌, ℕ, ◌+◌, ◌-◌, ◌<◌, ◌≤◌, length, get_or, set};
ghost use Rattle.tour_orders.specs.Orders.{factorial};
ghost use Rattle.tour_ranking.specs.Inner.{order_at, LastRise, LastAbove, Reversed, NextMade};

// In how many orders `count` numbers stand.
pub fn factorial(count: usize) -> usize
    requires { count ≤ 7 }
    ensures { result ≡ factorial count }
{
    let mut product = 1usize;
    for number in 0..count {
        product *= number + 1;
    }
    product
}

// The first order: the window numbers as they rise, with 0 in the places behind them.
pub fn first_order(n: usize) -> [u8; 8]
    requires { (1 ≤ n) × (n ≤ 8) }
    ensures { result ≡ order_at n 0 }
{
    let mut order = [0u8; 8];
    for window in 0..n {
        order[window] = window as u8;
    }
    order
}

// The last place, but for the first, whose number is below the next; the first where there is none.
fn last_rise(order: &[u8; 8], n: usize) -> usize
    requires { (2 ≤ n) × (n ≤ 8) }
    ensures { (result + 1 < n) × ((place : ℕ) → LastRise order.now n place → result ≡ place) }
{
    (1..n - 1)
        .rev()
        .find(|&at| order[at] < order[at + 1])
        .unwrap_or(0)
}

// The last place whose number is above that at an earlier place; the place behind that one where there is none.
fn last_above(order: &[u8; 8], n: usize, at: usize) -> usize
    requires { (at + 1 < n) × (n ≤ 8) }
    ensures { (result < n) × ((place : ℕ) → LastAbove order.now n at place → result ≡ place) }
{
    let number = order[at];
    (at + 1..n)
        .rev()
        .find(|&to| number < order[to])
        .unwrap_or(at + 1)
}

// The numbers from one place to another, the last of them first. By the library's call, which is made for long lists, a tour of eight windows takes a
// sixth longer.
fn reverse(order: &mut [u8; 8], first: usize, last: usize)
    requires { (first ≤ last) × (last < 8) }
    ensures { length order.old ≡ 8 → Reversed first last order.old order.new }
{
    for i in 0..(last + 1 - first) / 2 {
        order.swap(first + i, last - i);
    }
}

// The next order of the dictionary, in place of one that is not the last. Behind the last rise the numbers fall, so that no order of them is left:
// the number there gives way to the next above it, and those behind start anew, as they rise. Answers the first place that changed.
pub fn next_order(order: &mut [u8; 8], n: usize) -> usize
    requires { (2 ≤ n) × (n ≤ 8) }
    ensures { (place : ℕ) → place + 1 < factorial (n - 1) → order.old ≡ order_at n place
        → NextMade n (order_at n (place + 1)) order.old result order.new }
{
    let at = last_rise(order, n);
    let to = last_above(order, n, at);
    order.swap(at, to);
    reverse(order, at + 1, n - 1);
    at
}
