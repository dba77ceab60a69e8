// The least figure of a tour: over the windows but the first, the sum of the cheapest entry into each from another.
#![tactic(auto)]

ghost use Rattle.std.specs.Prelude.{◌≡◌, ◌<◌, ◌≤◌};
ghost use Rattle.tour_sums.specs.Tours.{cheapest_entry, least_figure};
ghost use Rattle.tour_sums.specs.Promise.{TourSquare};

// The cheapest entry into a window from another; from itself there is none.
fn cheapest_entry(square: &[[u32; 8]; 8], n: usize, window: usize) -> u32
    requires { (n ≤ 8) × (window < 8) }
    ensures { result ≡ cheapest_entry square.now window n }
{
    let mut cheapest = 65535u32;
    for from in 0..n {
        if from != window {
            cheapest = cheapest.min(square[from][window]);
        }
    }
    cheapest
}

// The least figure.
pub fn least_figure(square: [[u32; 8]; 8], n: usize) -> u32
    requires { TourSquare square n }
    ensures { result ≡ least_figure square n }
{
    let mut least = 0u32;
    for window in 1..n {
        least += cheapest_entry(&square, n, window);
    }
    least
}
