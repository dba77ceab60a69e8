// Practice floors: from a seed of 32 bits the costs of a sector and a goal, the same wherever they are made.
#![tactic(auto)]

ghost use Rattle.std.specs.Prelude.{◌≡◌, ◌<◌, ◌≤◌, map, take, drop};
ghost use Rattle.practice.specs.Values.{next_value, values_to};
ghost use Rattle.practice.specs.Floor.{cost_of, practice_floor};
ghost use Rattle.practice.specs.Promise.{PracticeTold};

// 100 costs by cell, and the goal's cell, whose cost is 1.
#[repr(C)]
#[derive(Clone, Copy)]
pub struct PracticeFloor {
    pub costs: [u8; 100],
    pub goal: u8,
}

// The value that follows the first n: up to the 55th it adds a constant to the one before it; later it is the sum of those 24 and 55 places before.
#[tactic(auto, using(crate::proofs::Values::behind_adds, crate::proofs::Values::behind_sums))]
fn next_value(values: &[u32; 156], n: usize) -> u32
    requires { (1 ≤ n) × (n < 156) }
    ensures { result ≡ next_value (take n values.now) }
{
    if n < 55 {
        return values[n - 1].wrapping_add(2654435769);
    }
    values[n - 24].wrapping_add(values[n - 55])
}

// The first 156 values of a seed: 55 to begin with, one for each cell, and the goal's.
fn values_of(seed: u32) -> [u32; 156]
    ensures { result ≡ values_to seed 155 }
{
    let mut values = [0u32; 156];
    values[0] = seed;
    for n in 1..156 {
        values[n] = next_value(&values, n);
    }
    values
}

// The cost that a value's top byte gives.
#[tactic(auto, unfolding(crate::specs::Floor::cost_of))]
fn cost_of(value: u32) -> u8
    ensures { result ≡ cost_of value }
{
    let top = value / 16777216;
    if top < 128 {
        return 1;
    }
    if top <= 191 {
        return 10;
    }
    255
}

// The costs of the 100 cells, by the values that follow the first 55.
fn draw_costs(values: &[u32; 156]) -> [u8; 100]
    ensures { result ≡ map cost_of (drop 55 (take 155 values.now)) }
{
    std::array::from_fn(|i| cost_of(values[55 + i]))
}

// The floor of a seed.
pub fn practice_floor(seed: u32) -> PracticeFloor
    ensures floor { result ≡ practice_floor seed }
    ensures told { PracticeTold seed result }
{
    let values = values_of(seed);
    let mut costs = draw_costs(&values);
    let goal = (values[155] % 100) as u8;
    costs[usize::from(goal)] = 1;
    PracticeFloor { costs, goal }
}
