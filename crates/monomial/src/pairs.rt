// Two samples at once, side by side in vectors: each goes through the steps that one goes through, in the same order.
ghost use Rattle.std.specs.Prelude.{◌≡◌, [], ◌∷◌, ◌≤◌};
ghost use Rattle.basis.specs.Sizes.{max_terms};
ghost use Rattle.value.specs.Lanes.{Paired, lane};
ghost use Rattle.monomial.specs.Terms.{surface_terms, terms_at};
ghost use Rattle.monomial.specs.Rows.{fitted as fitted_f};

use basis::{Basis, CoefficientCount, TERMS};
use std::simd::prelude::*;

// The term values of a surface at x and z, and at the later x and z.
#[inline(always)]
fn pair_surface_terms(x: f64, z: f64, later_x: f64, later_z: f64) -> [f64x2; TERMS]
    ensures first { lane 0 result ≡ surface_terms x z }
    ensures second { lane 1 result ≡ surface_terms later_x later_z }
    ensures paired { Paired result }
{
    let one = f64x2::splat(1.0);
    let x1 = f64x2::from_array([x, later_x]);
    let z1 = f64x2::from_array([z, later_z]);
    let x2 = x1 * x1;
    let x3 = x1 * x2;
    let x4 = x2 * x2;
    let z2 = z1 * z1;
    let z3 = z1 * z2;
    let z4 = z2 * z2;
    [
        one,
        x1 * one,
        one * z1,
        x2 * one,
        x1 * z1,
        one * z2,
        x3 * one,
        x2 * z1,
        x1 * z2,
        one * z3,
        x4 * one,
        x3 * z1,
        x2 * z2,
        x1 * z3,
        one * z4,
        f64x2::splat(0.0),
    ]
}

// The term values at x and z, and at the later x and z.
#[inline(always)]
pub fn pair_terms(basis: Basis, x: f64, z: f64, later_x: f64, later_z: f64) -> [f64x2; TERMS]
    ensures first { lane 0 result ≡ terms_at basis x z }
    ensures second { lane 1 result ≡ terms_at basis later_x later_z }
    ensures paired { Paired result }
{
    match basis {
        Basis::Curve => value::pair_powers(x, later_x),
        Basis::Surface => pair_surface_terms(x, z, later_x, later_z),
    }
}

// Each coefficient in both places of a vector.
#[inline(always)]
pub fn pair_coefficients(c: &[f64; TERMS]) -> [f64x2; TERMS]
    ensures first { lane 0 result ≡ c.now }
    ensures second { lane 1 result ≡ c.now }
    ensures paired { Paired result }
{
    let mut v = [f64x2::splat(0.0); TERMS];
    for j in 0..TERMS {
        v[j] = f64x2::splat(c[j]);
    }
    v
}

// The two fitted values: coefficient × term value, ascending, for the k coefficients, each by those in its place of the vectors. Of one curve they stand in
// both places, which is done once and not at each row.
#[inline(always)]
pub fn pair_fitted(k: CoefficientCount, c: &[f64x2; TERMS], terms: &[f64x2; TERMS]) -> f64x2
    requires { (k.0 ≤ max_terms) × Paired c.now × Paired terms.now }
    ensures { result ≡ fitted_f k.0 (lane 0 c.now) (lane 0 terms.now) ∷ fitted_f k.0 (lane 1 c.now) (lane 1 terms.now) ∷ [] }
{
    let n = k.0;
    let mut v = f64x2::splat(0.0);
    for j in 0..n {
        v = v + c[j] * terms[j];
    }
    v
}
