// Sums in index order from +0. Each has its own loop: tried as a `fold` of a closure, the proof didn't close, and a loop that is handed a closure has to
// say what it asks of it, which is no plainer.
ghost use Rattle.std.specs.Prelude.{◌≡◌, map};
ghost use Rattle.std.specs.Float.{binary64};
ghost use Rattle.std.specs.Float.Ieee.{sub};
ghost use Rattle.value.specs.Total.{total_f};
ghost use Rattle.statistics.specs.Variances.{square};

pub fn total(a: &[f64]) -> f64
    ensures { result ≡ total_f a.now }
{
    let mut v = 0.0;
    for x in a {
        v += x;
    }
    v
}

// Of the squares.
pub fn squares(a: &[f64]) -> f64
    ensures { result ≡ total_f (map square a.now) }
{
    let mut v = 0.0;
    for x in a {
        v += x * x;
    }
    v
}

// Of the squares of what the numbers are above m.
pub fn squares_about(a: &[f64], m: f64) -> f64
    ensures { result ≡ total_f (map (λ x. square (sub binary64 x m)) a.now) }
{
    let mut v = 0.0;
    for x in a {
        let d = x - m;
        v += d * d;
    }
    v
}
