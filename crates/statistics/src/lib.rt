// polyfit's `statistics.rs`: scores, the bound on the degree, medians, losses and variances.
#![tactic(auto)]

ghost use Rattle.std.specs.Prelude.{◌≡◌, [], ◌∷◌, ◌<◌, ◌≤◌, map, true};
ghost use Rattle.loops.specs.Fold.{all_of};
ghost use Rattle.value.specs.Absolute.{abs_f};
ghost use Rattle.value.specs.Finite.{finite};
ghost use Rattle.value.specs.Total.{total_f};
ghost use Rattle.statistics.specs.Scores.{z_score, table_score, t_score};
ghost use Rattle.statistics.specs.Degrees.{max_degree};
ghost use Rattle.statistics.specs.Medians.{median_of, median_absolute_deviation};
ghost use Rattle.statistics.specs.Losses.{huber_const, huber_loss, losses};
ghost use Rattle.statistics.specs.Variances.{residual_variance, stddev_and_mean};

mod order;
mod sums;
mod table;
mod whole;

use basis::{CoefficientCount, Degree};
use std::simd::prelude::*;

#[derive(Clone, Copy)]
pub enum Confidence {
    P80,
    P90,
    P95,
    P98,
    P99,
    P999,
    Custom(f64),
}

#[derive(Clone, Copy)]
pub enum DegreeBound {
    Conservative,
    Relaxed,
    Aggressive,
    Custom(Degree),
}

#[derive(Clone, Copy)]
pub enum Tolerance {
    None,
    Absolute(f64),
    Variance(f64),
    Measurement(f64),
}

#[derive(Clone, Copy)]
pub struct StddevAndMean {
    pub stddev: f64,
    pub mean: f64,
}

// The z score of a confidence; a Custom one carries its z score.
pub fn z_score(confidence: Confidence) -> f64
    ensures { result ≡ z_score confidence }
{
    match confidence {
        Confidence::P80 => 1.281,
        Confidence::P90 => 1.644,
        Confidence::P95 => 1.959,
        Confidence::P98 => 2.326,
        Confidence::P99 => 2.575,
        Confidence::P999 => 3.290,
        Confidence::Custom(z) => z,
    }
}

// The table's entry in the column of the confidence; Custom has none, and gives its z score.
fn table_score(confidence: Confidence, df: usize) -> f64
    requires { (0 < df) × (df ≤ 30) }
    ensures { result ≡ table_score confidence df }
{
    let column = match confidence {
        Confidence::P80 => 0,
        Confidence::P90 => 1,
        Confidence::P95 => 2,
        Confidence::P98 => 3,
        Confidence::P99 => 4,
        Confidence::P999 => 5,
        Confidence::Custom(z) => return z,
    };
    table::entry(df, column)
}

// The t score of a confidence for df degrees of freedom: the table's row up to 30, the z score from 31 on.
pub fn t_score(confidence: Confidence, df: usize) -> f64
    ensures { result ≡ t_score confidence df }
{
    if df == 0 {
        return f64::INFINITY;
    }
    if df <= 30 {
        return table_score(confidence, df);
    }
    z_score(confidence)
}

// The highest degree to be tried with n samples.
pub fn max_degree(bound: DegreeBound, n: usize) -> Degree
    ensures { result.0 ≡ max_degree bound n }
{
    Degree(match bound {
        DegreeBound::Conservative => whole::least_of(whole::root_to(n, 5, 8), 15, n),
        DegreeBound::Relaxed => whole::least_of(whole::root_to(n, 3, 15), 8, n),
        DegreeBound::Aggressive => whole::least_of(n.saturating_sub(1), 8, n),
        DegreeBound::Custom(d) => d.0.min(n.saturating_sub(1)),
    })
}

// The median of the sizes of numbers.
fn median_of_sizes(a: &[f64]) -> f64
    ensures { result ≡ median_of (map abs_f a.now) }
{
    order::median_from(a, 0.0)
}

// The median absolute deviation, by the median d of the sizes. Of numbers with a finite median none is a NaN, and none has a deviation from it that is one.
fn deviation_from(a: &[f64], d: f64) -> f64
    requires { d ≡ median_of (map abs_f a.now) }
    ensures { result ≡ median_absolute_deviation a.now }
{
    if value::is_finite(d) {
        return order::median_of_some(a, d);
    }
    order::median_from(a, d)
}

// The median absolute deviation of residuals. It takes their sizes, so that these may stand there too.
pub fn median_absolute_deviation(a: &[f64]) -> f64
    ensures { result ≡ median_absolute_deviation a.now }
{
    deviation_from(a, median_of_sizes(a))
}

// The Huber constant.
pub fn huber_const() -> f64
    ensures { result ≡ huber_const }
{
    1.345
}

// The Huber loss of a residual r; mad is the median absolute deviation of all of them.
pub fn huber_loss(r: f64, constant: f64, mad: f64) -> f64
    ensures { result ≡ huber_loss r constant mad }
{
    let delta = constant * mad;
    let s = value::abs(r);
    if s <= delta {
        return 0.5 * s * s;
    }
    delta * (s - 0.5 * delta)
}

// The Huber losses of two residuals, side by side. Both forms are worked out for each, and there is no branch.
fn pair_losses(r: f64, later: f64, constant: f64, mad: f64) -> [f64; 2]
    ensures { result ≡ huber_loss r constant mad ∷ huber_loss later constant mad ∷ [] }
{
    let half = f64x2::splat(0.5);
    let delta = f64x2::splat(constant * mad);
    let s = f64x2::from_array(value::pair_abs(r, later));
    let square = half * s * s;
    let line = delta * (s - half * delta);
    s.simd_le(delta).select(square, line).to_array()
}

// The sum of the losses of residuals, or of their sizes; mad is their median absolute deviation.
fn total_by(a: &[f64], mad: f64) -> f64
    requires { mad ≡ median_absolute_deviation a.now }
    ensures { result ≡ total_f (losses a.now) }
{
    let constant = huber_const();
    let n = a.len();
    let mut v = 0.0;
    for p in 0..n / 2 {
        let two = pair_losses(a[2 * p], a[2 * p + 1], constant, mad);
        v = v + two[0] + two[1];
    }
    if n % 2 == 1 {
        v += huber_loss(a[n - 1], constant, mad);
    }
    v
}

// The same.
pub fn total_loss(a: &[f64]) -> f64
    ensures { result ≡ total_f (losses a.now) }
{
    total_by(a, median_absolute_deviation(a))
}

// The same of finite numbers, among which no NaN is looked for.
pub fn total_of_finite(a: &[f64]) -> f64
    requires { all_of finite a.now ≡ true }
    ensures { result ≡ total_f (losses a.now) }
{
    total_by(a, deviation_from(a, order::median_of_some(a, 0.0)))
}

// The residual variance of a model of k coefficients, from its residuals or their sizes.
pub fn residual_variance(a: &[f64], k: CoefficientCount) -> f64
    ensures { result ≡ residual_variance k.0 a.now }
{
    let nf = std::num::nearest_usize_to_f64(a.len());
    let kf = std::num::nearest_usize_to_f64(k.0);
    if nf == kf {
        return 0.0;
    }
    sums::squares(a) / (nf - kf)
}

// The standard deviation and the mean of numbers, as of a population.
pub fn stddev_and_mean(a: &[f64]) -> StddevAndMean
    ensures { result ≡ stddev_and_mean a.now }
{
    let n = std::num::nearest_usize_to_f64(a.len());
    let mean = sums::total(a) / n;
    let variance = sums::squares_about(a, mean) / n;
    StddevAndMean {
        stddev: value::sqrt(variance),
        mean,
    }
}
