// The whole numbers of which `max_degree` takes the least.
ghost use Rattle.std.specs.Prelude.{◌≡◌, ◌-◌, ◌/◌, ◌<◌, ◌≤◌, min};
ghost use Rattle.statistics.specs.Degrees.{root};

// The root of n, or the cap where the root is above it: the root is looked for no further than the cap, so that no power overflows.
pub fn root_to(n: usize, p: u32, cap: usize) -> usize
    requires { (0 < p) × (p ≤ 5) × (cap ≤ 15) }
    ensures { result ≡ min (root p n) cap }
{
    for r in 0..cap {
        if (r + 1).pow(p) > n {
            return r;
        }
    }
    cap
}

// The least of the four, the root and the cap being one number already.
pub fn least_of(smooth: usize, ratio: usize, n: usize) -> usize
    requires { 0 < ratio }
    ensures { result ≡ min (min smooth (n / ratio - 1)) (n - 1) }
{
    smooth
        .min((n / ratio).saturating_sub(1))
        .min(n.saturating_sub(1))
}
