// The number functions that document 01 puts in the place of what polyfit takes from other libraries.
// Each is promised, for every double, to be the definition of `specs/` that states 01's words.
#![tactic(auto)]

mod bits;
mod logarithm;
mod pairs;
mod square_root;

ghost use Rattle.std.specs.Prelude.{◌≡◌};
ghost use Rattle.loops.specs.Places.{table};
ghost use Rattle.value.specs.Absolute.{abs_f};
ghost use Rattle.value.specs.Finite.{finite};
ghost use Rattle.value.specs.Maximum.{maximum_f};
ghost use Rattle.value.specs.Power.{power_f};

pub use bits::{from_bits, to_bits};
pub use logarithm::ln;
pub use pairs::{pair_abs, pair_powers};
pub use square_root::{put_roots, sqrt};

// Whether x is no NaN and no infinity.
pub fn is_finite(x: f64) -> bool
    ensures { result ≡ finite x }
{
    x.is_finite()
}

// |x|; +0 for −0.
pub fn abs(x: f64) -> f64
    ensures { result ≡ abs_f x }
{
    x.abs()
}

// The larger, or the other one beside a NaN; the first of two that are equal, which the library's `max` leaves open.
pub fn maximum(a: f64, b: f64) -> f64
    ensures { result ≡ maximum_f a b }
{
    if a.is_nan() {
        return b;
    }
    if b.is_nan() {
        return a;
    }
    if a < b {
        return b;
    }
    a
}

// x to the powers 0 to 15. Each square is worked out once: 14 products in all.
pub fn powers(x: f64) -> [f64; 16]
    ensures { result ≡ table (power_f x) 16 }
{
    let x2 = x * x;
    let x3 = x * x2;
    let x4 = x2 * x2;
    let x5 = x * x4;
    let x6 = x2 * x4;
    let x7 = x3 * x4;
    let x8 = x4 * x4;
    [
        1.0,
        x,
        x2,
        x3,
        x4,
        x5,
        x6,
        x7,
        x8,
        x * x8,
        x2 * x8,
        x3 * x8,
        x4 * x8,
        x5 * x8,
        x6 * x8,
        x7 * x8,
    ]
}
