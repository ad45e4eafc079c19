// The fitted value, and the 272 sums that a fit is solved from: A[i][j] at 16i + j, g[i] at 256 + i.
#![tactic(auto)]

mod pairs;
mod reading;
mod rows;

ghost use Rattle.std.specs.Prelude.{◌≡◌, ◌++◌, ◌+◌, ◌≤◌, ◌<◌, length, set, take, drop};
ghost use Rattle.std.specs.Float.{binary64};
ghost use Rattle.std.specs.Float.Ieee.{add};
ghost use Rattle.basis.specs.Sizes.{matrix_places, max_terms, sum_places};
ghost use Rattle.basis.specs.declared.Basis.TheVariants.{Curve};
ghost use Rattle.loops.specs.Places.{each, table};
ghost use Rattle.value.specs.Numbers.{zero_f};
ghost use Rattle.value.specs.Power.{power_f};
ghost use Rattle.monomial.specs.Terms.{surface_terms, terms_at};
ghost use Rattle.monomial.specs.Rows.{weighted_row, weighted_of, weighted_at, weighted_rows_at, fitted as fitted_f};
ghost use Rattle.monomial.specs.Reading.{weighted_read};
ghost use Rattle.monomial.specs.Sums.{weighted_product, add_row, add_rows, sums_of};
ghost use Rattle.monomial.specs.Corner.{CornerSet};
ghost use Rattle.monomial.specs.Upper.{SameUpper, Symmetric};

use basis::{Basis, CoefficientCount, SUMS, TERMS};
pub use pairs::{pair_coefficients, pair_fitted};
pub use rows::Rows;
use samples::Columns;

// Coefficient × term value, ascending, for the k coefficients.
pub fn fitted(k: CoefficientCount, c: &[f64; TERMS], terms: &[f64; TERMS]) -> f64
    requires { k.0 ≤ max_terms }
    ensures { result ≡ fitted_f k.0 c.now terms.now }
{
    let n = k.0;
    let mut v = 0.0;
    // by index: by `zip` the code is as long, and its invariant longer, which then speaks of what two iterators have left
    for j in 0..n {
        v = v + c[j] * terms[j];
    }
    v
}

// The fitted value of up to four coefficients at x, for which few powers are worked out.
fn fitted_low(k: CoefficientCount, c: &[f64; TERMS], x: f64) -> f64
    requires { k.0 ≤ 4 }
    ensures { result ≡ fitted_f k.0 c.now (table (power_f x) 16) }
{
    let n = k.0;
    if n == 0 {
        return 0.0;
    }
    let v0 = 0.0 + c[0] * 1.0;
    if n == 1 {
        return v0;
    }
    let v1 = v0 + c[1] * x;
    if n == 2 {
        return v1;
    }
    let x2 = x * x;
    let v2 = v1 + c[2] * x2;
    if n == 3 {
        return v2;
    }
    v2 + c[3] * (x * x2)
}

// The fitted value of a curve at x.
pub fn curve_at(k: CoefficientCount, c: &[f64; TERMS], x: f64) -> f64
    requires { k.0 ≤ max_terms }
    ensures { result ≡ fitted_f k.0 c.now (table (power_f x) 16) }
{
    if k.0 <= 4 {
        return fitted_low(k, c, x);
    }
    let terms = value::powers(x);
    fitted(k, c, &terms)
}

// A surface's 15 term values, and +0.
fn surface_terms(x: f64, z: f64) -> [f64; TERMS]
    ensures { result ≡ surface_terms x z }
{
    let x2 = x * x;
    let x3 = x * x2;
    let x4 = x2 * x2;
    let z2 = z * z;
    let z3 = z * z2;
    let z4 = z2 * z2;
    [
        1.0,
        x * 1.0,
        1.0 * z,
        x2 * 1.0,
        x * z,
        1.0 * z2,
        x3 * 1.0,
        x2 * z,
        x * z2,
        1.0 * z3,
        x4 * 1.0,
        x3 * z,
        x2 * z2,
        x * z3,
        1.0 * z4,
        0.0,
    ]
}

// The term values at x and z. Inlined, so that they are built where they are added.
#[inline(always)]
pub fn terms_at(basis: Basis, x: f64, z: f64) -> [f64; TERMS]
    ensures { result ≡ terms_at basis x z }
{
    match basis {
        Basis::Curve => value::powers(x),
        Basis::Surface => surface_terms(x, z),
    }
}

// The fitted value of a surface at x and z.
pub fn surface_at(k: CoefficientCount, c: &[f64; TERMS], x: f64, z: f64) -> f64
    requires { k.0 ≤ max_terms }
    ensures { result ≡ fitted_f k.0 c.now (surface_terms x z) }
{
    let terms = surface_terms(x, z);
    fitted(k, c, &terms)
}

// The fitted value at x and z.
pub fn fitted_at(basis: Basis, k: CoefficientCount, c: &[f64; TERMS], x: f64, z: f64) -> f64
    requires { k.0 ≤ max_terms }
    ensures { result ≡ fitted_f k.0 c.now (terms_at basis x z) }
{
    match basis {
        Basis::Curve => curve_at(k, c, x),
        Basis::Surface => surface_at(k, c, x, z),
    }
}

// Adds the weighted products of two term values to the 256 places of A. The loops here and below count: place 16i + j is worked out from two indices, and a row
// is read off several columns.
fn add_matrix(sums: &mut [f64], terms: &[f64; TERMS], w: f64)
    requires { matrix_places ≤ length sums.old }
    ensures { sums.new ≡ each (λ k v. add binary64 v (weighted_product (weighted_row terms.now zero_f w) k)) matrix_places sums.old }
{
    for i in 0..TERMS {
        let t = terms[i];
        for j in 0..TERMS {
            let at = 16 * i + j;
            sums[at] = sums[at] + (t * terms[j]) * w;
        }
    }
}

// Adds the weighted products of a term value and y to the 16 places of g.
fn add_right(g: &mut [f64], terms: &[f64; TERMS], y: f64, w: f64)
    requires { max_terms ≤ length g.old }
    ensures { g.new ≡ each (λ i v. add binary64 v (weighted_product (weighted_row terms.now y w) (matrix_places + i))) 16 g.old }
{
    for i in 0..TERMS {
        g[i] = g[i] + (terms[i] * y) * w;
    }
}

// Adds the weighted products of a row to what stands at the 272 places.
pub fn add_row(sums: &mut [f64], terms: &[f64; TERMS], y: f64, w: f64)
    requires { sum_places ≤ length sums.old }
    ensures { sums.new ≡ add_row sums.old (weighted_row terms.now y w) }
{
    add_matrix(&mut *sums, terms, w);
    add_right(&mut sums[256..], terms, y, w);
}

// Adds a sample's weighted products to what stands at the 272 places.
pub fn add_sample(sums: &mut [f64], x: f64, y: f64, w: f64)
    requires { sum_places ≤ length sums.old }
    ensures { sums.new ≡ add_row sums.old (weighted_of (record { x = x; y = y; w = w })) }
{
    let terms = value::powers(x);
    add_row(&mut *sums, &terms, y, w);
}

// Adds the weighted products of a row in the corner of k rows and columns of A and in the first k places of g, line by line.
fn add_lines(sums: &mut [f64], k: CoefficientCount, terms: &[f64; TERMS], y: f64, w: f64)
    requires { (sum_places ≤ length sums.old) × (k.0 ≤ max_terms) }
    ensures { CornerSet k.0 (add_row sums.old (weighted_row terms.now y w)) sums.old sums.new }
{
    let n = k.0;
    for i in 0..n {
        let t = terms[i];
        for j in 0..n {
            let at = 16 * i + j;
            sums[at] = sums[at] + (t * terms[j]) * w;
        }
        let g = 256 + i;
        sums[g] = sums[g] + (t * y) * w;
    }
}

// The same. The 16 of the whole is written out, so that its loops are unrolled.
fn add_row_corner(sums: &mut [f64], k: CoefficientCount, terms: &[f64; TERMS], y: f64, w: f64)
    requires { (sum_places ≤ length sums.old) × (k.0 ≤ max_terms) }
    ensures { CornerSet k.0 (add_row sums.old (weighted_row terms.now y w)) sums.old sums.new }
{
    match k.0 {
        16 => add_lines(sums, CoefficientCount(16), terms, y, w),
        _ => add_lines(sums, k, terms, y, w),
    }
}

// Adds rows in that corner. Inlined, so that a cubic's loops are unrolled and no other power is worked out.
#[inline(always)]
fn add_rows(rows: Rows<'_>, k: CoefficientCount, sums: &mut [f64])
    requires { (k.0 ≤ max_terms) × (sum_places ≤ length sums.old) }
    ensures { CornerSet k.0 (add_rows sums.old (weighted_read rows.entry)) sums.old sums.new }
{
    for t in 0..rows.len() {
        add_row_corner(&mut *sums, k, &rows.terms(t), rows.ys[t], rows.weight(t));
    }
}

// Adds rows in the corner of k rows and columns, which is all that k coefficients are solved from.
pub fn add_corner(rows: Rows<'_>, k: CoefficientCount, sums: &mut [f64])
    requires { (k.0 ≤ max_terms) × (sum_places ≤ length sums.old) }
    ensures { CornerSet k.0 (add_rows sums.old (weighted_read rows.entry)) sums.old sums.new }
{
    match k.0 {
        4 => add_rows(rows, CoefficientCount(4), sums),
        _ => add_rows(rows, k, sums),
    }
}

// Adds the weighted products of two term values, first those of one row and then those of another, on and above the diagonal of A. A line begins at an
// even place, so that its places go in pairs.
fn add_upper(sums: &mut [f64], terms: &[f64; TERMS], w: f64, later: &[f64; TERMS], v: f64)
    requires { matrix_places ≤ length sums.old }
    ensures { SameUpper sums.new (each (λ k e. add binary64 (add binary64 e (weighted_product (weighted_row terms.now zero_f w) k)) (weighted_product (weighted_row later.now zero_f v) k)) matrix_places sums.old) }
{
    for i in 0..TERMS {
        let t = terms[i];
        let u = later[i];
        let even = i / 2 * 2;
        for j in even..TERMS {
            let at = 16 * i + j;
            sums[at] = (sums[at] + (t * terms[j]) * w) + (u * later[j]) * v;
        }
    }
}

// Adds the weighted products of row t and of the next on and above the diagonal of A and in g, one row after the other at each place: a place is read and
// written once.
fn add_two(rows: Rows<'_>, t: usize, sums: &mut [f64])
    requires { (sum_places ≤ length sums.old) × (t + 1 < length rows.ys.now) }
    ensures { SameUpper sums.new (add_row (add_row sums.old (weighted_at rows.entry.basis rows.entry.xs.now rows.entry.zs.now rows.entry.ys.now rows.entry.ws.now t)) (weighted_at rows.entry.basis rows.entry.xs.now rows.entry.zs.now rows.entry.ys.now rows.entry.ws.now (t + 1))) }
{
    let next = t + 1;
    let terms = rows.terms(t);
    let later = rows.terms(next);
    let w = rows.weight(t);
    let v = rows.weight(next);
    add_upper(&mut *sums, &terms, w, &later, v);
    add_right(&mut sums[256..], &terms, rows.ys[t], w);
    add_right(&mut sums[256..], &later, rows.ys[next], v);
}

// Copies what stands above the diagonal of A to the places below it.
fn mirror(sums: &mut [f64])
    requires { matrix_places ≤ length sums.old }
    ensures { SameUpper sums.new sums.old × Symmetric sums.new }
{
    for i in 0..TERMS {
        for j in 0..i {
            sums[16 * i + j] = sums[16 * j + i];
        }
    }
}

// The 272 places become the sums over the rows, folded afresh. A is symmetric, so half of it is folded and then mirrored.
pub fn fold_sums(rows: Rows<'_>, sums: &mut [f64])
    requires { sum_places ≤ length sums.old }
    ensures { sums.new ≡ sums_of (weighted_read rows.entry) ++ drop sum_places sums.old }
{
    let n = rows.len();
    sums[..SUMS].fill(0.0);
    let pairs = n / 2;
    for p in 0..pairs {
        add_two(rows, 2 * p, sums);
    }
    // the last of an odd number
    for t in 2 * pairs..n {
        add_row(&mut *sums, &rows.terms(t), rows.ys[t], rows.weight(t));
    }
    mirror(&mut *sums);
}

// The first 16 places become g over the rows, folded afresh.
fn fold_right(rows: Rows<'_>, g: &mut [f64])
    requires { max_terms ≤ length g.old }
    ensures { g.new ≡ drop matrix_places (sums_of (weighted_read rows.entry)) ++ drop max_terms g.old }
{
    g[..TERMS].fill(0.0);
    for t in 0..rows.len() {
        add_right(&mut *g, &rows.terms(t), rows.ys[t], rows.weight(t));
    }
}

// The 16 places of g are folded afresh over the rows. A and all other places are untouched.
pub fn refold_right(rows: Rows<'_>, sums: &mut [f64])
    requires { sum_places ≤ length sums.old }
    ensures { sums.new ≡ take matrix_places sums.old ++ (drop matrix_places (sums_of (weighted_read rows.entry)) ++ drop sum_places sums.old) }
{
    fold_right(rows, &mut sums[256..]);
}

// Place i of the y column holds y, and g is folded afresh over n samples of a curve, at weight 1 where no weight is lent. A stands. The count stands beside
// the columns, since they have room for more samples.
pub fn set_y(i: usize, y: f64, n: usize, xs: &[f64], ys: &mut [f64], ws: &[f64], sums: &mut [f64])
    requires { (i < n) × (n ≤ length xs.now) × (n ≤ length ys.old) × (sum_places ≤ length sums.old) }
    ensures { (ys.new ≡ set ys.old i y) × (sums.new ≡ take matrix_places sums.old ++ (drop matrix_places (sums_of (weighted_rows_at Curve n xs.now xs.now ys.new ws.now)) ++ drop sum_places sums.old)) }
{
    ys[i] = y;
    refold_right(Rows::curve(n, Columns { xs, ys, ws }), sums);
}
