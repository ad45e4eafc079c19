// Two rows at once, side by side in vectors: each goes through the steps that one goes through, in the same order.
ghost use Rattle.std.specs.Prelude.{◌≡◌, [], ◌∷◌, ◌≤◌, ◌<◌};
ghost use Rattle.basis.specs.Sizes.{max_terms};
ghost use Rattle.value.specs.Lanes.{Paired, lane};
ghost use Rattle.covariance.specs.Covariance.{column_of, prediction_variance};

use basis::{CoefficientCount, MATRIX, TERMS};
use std::simd::prelude::*;

// Term value × place, down column j.
#[inline(always)]
fn pair_column(
    k: CoefficientCount,
    terms: &[f64x2; TERMS],
    covariance: &[f64; MATRIX],
    j: usize,
) -> f64x2
    requires { (k.0 ≤ max_terms) × (j < max_terms) × Paired terms.now }
    ensures { result ≡ column_of k.0 (lane 0 terms.now) covariance.now j ∷ column_of k.0 (lane 1 terms.now) covariance.now j ∷ [] }
{
    let n = k.0;
    let mut v = f64x2::splat(0.0);
    for i in 0..n {
        v = v + terms[i] * f64x2::splat(covariance[16 * i + j]);
    }
    v
}

// The variances of the fitted values at two rows of term values.
#[inline(always)]
pub fn pair_prediction_variance(
    k: CoefficientCount,
    terms: &[f64x2; TERMS],
    covariance: &[f64; MATRIX],
) -> f64x2
    requires { (k.0 ≤ max_terms) × Paired terms.now }
    ensures { result ≡ prediction_variance k.0 (lane 0 terms.now) covariance.now ∷ prediction_variance k.0 (lane 1 terms.now) covariance.now ∷ [] }
{
    let n = k.0;
    let mut v = f64x2::splat(0.0);
    for j in 0..n {
        v = v + pair_column(k, terms, covariance, j) * terms[j];
    }
    v
}
