// Two numbers at once, side by side in a vector: each becomes what one by itself becomes.
ghost use Rattle.std.specs.Prelude.{◌≡◌, [], ◌∷◌};
ghost use Rattle.loops.specs.Places.{table};
ghost use Rattle.value.specs.Absolute.{abs_f};
ghost use Rattle.value.specs.Lanes.{Paired, lane};
ghost use Rattle.value.specs.Power.{power_f};

use std::simd::prelude::*;

// |x| and |y|; +0 for −0. No branch hangs on a sign, as one does in the library's `abs`: the signs of residuals can't be foretold.
#[inline(always)]
pub fn pair_abs(x: f64, y: f64) -> [f64; 2]
    ensures { result ≡ abs_f x ∷ abs_f y ∷ [] }
{
    let zero = f64x2::splat(0.0);
    let v = f64x2::from_array([x, y]);
    let size = v.simd_lt(zero).select(-v, v);
    v.simd_eq(zero).select(zero, size).to_array()
}

// x and y to the powers 0 to 15.
#[inline(always)]
pub fn pair_powers(x: f64, y: f64) -> [f64x2; 16]
    ensures first { lane 0 result ≡ table (power_f x) 16 }
    ensures second { lane 1 result ≡ table (power_f y) 16 }
    ensures paired { Paired result }
{
    let x1 = f64x2::from_array([x, y]);
    let x2 = x1 * x1;
    let x3 = x1 * x2;
    let x4 = x2 * x2;
    let x5 = x1 * x4;
    let x6 = x2 * x4;
    let x7 = x3 * x4;
    let x8 = x4 * x4;
    [
        f64x2::splat(1.0),
        x1,
        x2,
        x3,
        x4,
        x5,
        x6,
        x7,
        x8,
        x1 * x8,
        x2 * x8,
        x3 * x8,
        x4 * x8,
        x5 * x8,
        x6 * x8,
        x7 * x8,
    ]
}
