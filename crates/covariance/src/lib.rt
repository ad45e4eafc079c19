// Covariance, errors, confidence bands, outliers and pruning: polyfit's `CurveFitCovariance`, `confidence_band`, `outliers` and
// `prune_insignificant`.
#![tactic(auto)]

mod pairs;

ghost use Rattle.std.specs.Prelude.{◌≡◌, ◌++◌, ◌≤◌, ◌<◌, ◌&&◌, nat_lt, length, get_or, drop};
ghost use Rattle.std.specs.Float.{nan};
ghost use Rattle.basis.specs.Sizes.{max_terms};
ghost use Rattle.loops.specs.Places.{each, table};
ghost use Rattle.value.specs.Absolute.{abs_f};
ghost use Rattle.value.specs.Root.{root_f};
ghost use Rattle.statistics.specs.Variances.{stddev_and_mean};
ghost use Rattle.monomial.specs.Terms.{terms_at};
ghost use Rattle.monomial.specs.Rows.{fitted};
ghost use Rattle.monomial.specs.Reading.{rows_read};
ghost use Rattle.covariance.specs.Covariance.{covariance_of, errors_of, column_of, prediction_variance};
ghost use Rattle.covariance.specs.Marks.{ones};
ghost use Rattle.covariance.specs.BandsFrom.{band_by, band_from, outlier_from};
ghost use Rattle.covariance.specs.Bands.{widened, width_of, band_of, band_at, outlies as outlies_f, lowers_of, uppers_of, outliers_of};
ghost use Rattle.covariance.specs.Spread.{DoesFor};
ghost use Rattle.covariance.specs.Pruning.{tested as tested_f, prunes as prunes_f, pruned_bytes};

use basis::{Basis, CoefficientCount, MATRIX, TERMS};
use monomial::Rows;
use statistics::Tolerance;

// 2 to the power −52.
const EPSILON: f64 = f64::from_bits(0x3CB0_0000_0000_0000);

// The inverse becomes the covariance, inverse × residual variance, place by place.
pub fn put_covariance(inverse: &mut [f64; MATRIX], variance: f64)
    ensures { inverse.new ≡ covariance_of inverse.old variance }
{
    // by index: of what the closure of a `for_each` holds, here the variance, a proof knows nothing at a later place
    for t in 0..MATRIX {
        inverse[t] = inverse[t] * variance;
    }
}

// The roots of the first k diagonal places, then +0.
pub fn errors(k: CoefficientCount, covariance: &[f64; MATRIX]) -> [f64; TERMS]
    requires { k.0 ≤ max_terms }
    ensures { result ≡ errors_of k.0 covariance.now }
{
    let mut e = solve::diagonal(k, covariance);
    value::put_roots(&mut e[..k.0]);
    e
}

// Term value × place, down column j. The loops here and below count: a place of the matrix is worked out from two indices, and several memories are read or written
// at one place.
fn column(k: CoefficientCount, terms: &[f64; TERMS], covariance: &[f64; MATRIX], j: usize) -> f64
    requires { (k.0 ≤ max_terms) × (j < max_terms) }
    ensures { result ≡ column_of k.0 terms.now covariance.now j }
{
    let n = k.0;
    let mut v = 0.0;
    for i in 0..n {
        v = v + terms[i] * covariance[16 * i + j];
    }
    v
}

// The variance of the fitted value at a row of term values.
pub fn prediction_variance(
    k: CoefficientCount,
    terms: &[f64; TERMS],
    covariance: &[f64; MATRIX],
) -> f64
    requires { k.0 ≤ max_terms }
    ensures { result ≡ prediction_variance k.0 terms.now covariance.now }
{
    let n = k.0;
    let mut v = 0.0;
    for j in 0..n {
        v = v + column(k, terms, covariance, j) * terms[j];
    }
    v
}

// A band is value, lower and upper.
#[derive(Clone, Copy)]
pub struct Band {
    pub value: f64,
    pub lower: f64,
    pub upper: f64,
}

// What widens a band: the tolerance, the z score, and the standard deviation of the y's, which tolerance variance reads.
#[derive(Clone, Copy)]
pub struct Spread {
    pub tolerance: Tolerance,
    pub z: f64,
    pub sd: f64,
}

// What stands under the root. Tolerance variance adds the square of sd × p to the prediction variance, sd that of all y's.
fn widened(tolerance: Tolerance, sd: f64, variance: f64) -> f64
    ensures { result ≡ widened tolerance sd variance }
{
    match tolerance {
        Tolerance::None => variance,
        Tolerance::Absolute(_) => variance,
        Tolerance::Variance(p) => {
            let w = sd * p;
            variance + w * w
        }
        Tolerance::Measurement(_) => variance,
    }
}

// The width about a value.
fn width(tolerance: Tolerance, value: f64) -> f64
    ensures { result ≡ width_of tolerance value }
{
    match tolerance {
        Tolerance::None => 0.0,
        Tolerance::Absolute(a) => a,
        Tolerance::Variance(_) => 0.0,
        Tolerance::Measurement(p) => value::abs(value) * p,
    }
}

// The standard deviation of the y's, where the tolerance reads it.
pub fn deviation_read(tolerance: Tolerance, ys: &[f64]) -> f64
    ensures { DoesFor tolerance result (stddev_and_mean ys.now).stddev }
{
    match tolerance {
        Tolerance::Variance(_) => statistics::stddev_and_mean(ys).stddev,
        _ => 0.0,
    }
}

// The band about a value with the root of its variance.
fn band_by(spread: Spread, value: f64, root: f64) -> Band
    ensures { result ≡ band_by spread.tolerance spread.z value root }
{
    let e = spread.z * root;
    let w = width(spread.tolerance, value);
    Band {
        value,
        lower: value - e - w,
        upper: value + e + w,
    }
}

// The band about a value with its prediction variance.
pub fn confidence_band(spread: Spread, value: f64, variance: f64) -> Band
    ensures { result ≡ band_of spread.tolerance spread.z spread.sd value variance }
{
    let v = widened(spread.tolerance, spread.sd, variance);
    band_by(spread, value, value::sqrt(v))
}

// The band at x and z.
pub fn band_at(
    basis: Basis,
    k: CoefficientCount,
    c: &[f64; TERMS],
    covariance: &[f64; MATRIX],
    spread: Spread,
    x: f64,
    z: f64,
) -> Band
    requires { k.0 ≤ max_terms }
    ensures { result ≡ band_at k.0 c.now covariance.now spread.tolerance spread.z spread.sd (terms_at basis x z) }
{
    let terms = monomial::terms_at(basis, x, z);
    let value = monomial::fitted(k, c, &terms);
    let variance = prediction_variance(k, &terms, covariance);
    confidence_band(spread, value, variance)
}

// Whether y is below the band or above it.
pub fn outlies(band: Band, y: f64) -> bool
    ensures { result ≡ outlies_f band y }
{
    (y < band.lower) | (y > band.upper)
}

// Which terms may be pruned: those above 2⁻⁵², as polyfit has it, so that negative terms stay; or those whose size is, as Student's test has it.
#[derive(Clone, Copy)]
pub enum PruningRule {
    Positive,
    Size,
}

// What a rule holds against 2⁻⁵²: the coefficient c itself, or its size.
fn tested(rule: PruningRule, c: f64, size: f64) -> f64
    requires { size ≡ abs_f c }
    ensures { result ≡ tested_f rule c }
{
    match rule {
        PruningRule::Positive => c,
        PruningRule::Size => size,
    }
}

// Whether a coefficient c is pruned, t the t score.
pub fn prunes(rule: PruningRule, t: f64, c: f64, error: f64) -> bool
    ensures { result ≡ prunes_f rule t c error }
{
    let size = value::abs(c);
    (tested(rule, c, size) > EPSILON) & (size / error < t)
}

// Whether coefficient i is one of the k and is pruned. No other is tried: each would cost a division.
fn is_pruned(
    rule: PruningRule,
    k: CoefficientCount,
    c: &[f64; TERMS],
    errors: &[f64; TERMS],
    t: f64,
    i: usize,
) -> bool
    requires { i < max_terms }
    ensures { result ≡ (nat_lt i k.0 && prunes_f rule t (get_or c.now i nan) (get_or errors.now i nan)) }
{
    i < k.0 && prunes(rule, t, c[i], errors[i])
}

// The pruning bytes of k coefficients. Answers how many are pruned.
pub fn put_pruned(
    rule: PruningRule,
    k: CoefficientCount,
    c: &[f64; TERMS],
    errors: &[f64; TERMS],
    t: f64,
    out: &mut [u8],
) -> usize
    requires { length out.old ≤ max_terms }
    ensures counted { result ≡ ones (pruned_bytes (length out.old) rule k.0 c.now errors.now t) }
    ensures written { out.new ≡ pruned_bytes (length out.old) rule k.0 c.now errors.now t }
{
    let mut count: usize = 0;
    for i in 0..out.len() {
        let pruned = is_pruned(rule, k, c, errors, t, i);
        out[i] = u8::from(pruned);
        count += usize::from(pruned);
    }
    count
}

// Value and prediction variance of each row, two rows side by side. Inlined, so that a number of coefficients that is written out gives a loop of straight code.
#[inline(always)]
fn put_values_by(
    rows: Rows<'_>,
    k: CoefficientCount,
    c: &[f64; TERMS],
    covariance: &[f64; MATRIX],
    values: &mut [f64],
    variances: &mut [f64],
)
    requires { (k.0 ≤ max_terms) × (length rows.ys.now ≤ length values.old) × (length rows.ys.now ≤ length variances.old) }
    ensures values_after { values.new ≡ each (λ i _. fitted k.0 c.now (terms_at rows.entry.basis (get_or rows.entry.xs.now i nan) (get_or rows.entry.zs.now i nan))) (length rows.entry.ys.now) values.old }
    ensures variances_after { variances.new ≡ each (λ i _. prediction_variance k.0 (terms_at rows.entry.basis (get_or rows.entry.xs.now i nan) (get_or rows.entry.zs.now i nan)) covariance.now) (length rows.entry.ys.now) variances.old }
{
    let n = rows.len();
    let pairs = n / 2;
    let both = monomial::pair_coefficients(c);
    for p in 0..pairs {
        let i = 2 * p;
        let terms = rows.pair_terms(i);
        let v = monomial::pair_fitted(k, &both, &terms).to_array();
        values[i] = v[0];
        values[i + 1] = v[1];
        let w = pairs::pair_prediction_variance(k, &terms, covariance).to_array();
        variances[i] = w[0];
        variances[i + 1] = w[1];
    }
    // the last of an odd number
    for i in 2 * pairs..n {
        let terms = rows.terms(i);
        values[i] = monomial::fitted(k, c, &terms);
        variances[i] = prediction_variance(k, &terms, covariance);
    }
}

// The same, with each number of coefficients written out.
fn put_values(
    rows: Rows<'_>,
    k: CoefficientCount,
    c: &[f64; TERMS],
    covariance: &[f64; MATRIX],
    values: &mut [f64],
    variances: &mut [f64],
)
    requires { (k.0 ≤ max_terms) × (length rows.ys.now ≤ length values.old) × (length rows.ys.now ≤ length variances.old) }
    ensures values_after { values.new ≡ each (λ i _. fitted k.0 c.now (terms_at rows.entry.basis (get_or rows.entry.xs.now i nan) (get_or rows.entry.zs.now i nan))) (length rows.entry.ys.now) values.old }
    ensures variances_after { variances.new ≡ each (λ i _. prediction_variance k.0 (terms_at rows.entry.basis (get_or rows.entry.xs.now i nan) (get_or rows.entry.zs.now i nan)) covariance.now) (length rows.entry.ys.now) variances.old }
{
    match k.0 {
        1 => put_values_by(rows, CoefficientCount(1), c, covariance, values, variances),
        2 => put_values_by(rows, CoefficientCount(2), c, covariance, values, variances),
        3 => put_values_by(rows, CoefficientCount(3), c, covariance, values, variances),
        4 => put_values_by(rows, CoefficientCount(4), c, covariance, values, variances),
        5 => put_values_by(rows, CoefficientCount(5), c, covariance, values, variances),
        6 => put_values_by(rows, CoefficientCount(6), c, covariance, values, variances),
        7 => put_values_by(rows, CoefficientCount(7), c, covariance, values, variances),
        8 => put_values_by(rows, CoefficientCount(8), c, covariance, values, variances),
        9 => put_values_by(rows, CoefficientCount(9), c, covariance, values, variances),
        10 => put_values_by(rows, CoefficientCount(10), c, covariance, values, variances),
        11 => put_values_by(rows, CoefficientCount(11), c, covariance, values, variances),
        12 => put_values_by(rows, CoefficientCount(12), c, covariance, values, variances),
        13 => put_values_by(rows, CoefficientCount(13), c, covariance, values, variances),
        14 => put_values_by(rows, CoefficientCount(14), c, covariance, values, variances),
        15 => put_values_by(rows, CoefficientCount(15), c, covariance, values, variances),
        16 => put_values_by(rows, CoefficientCount(16), c, covariance, values, variances),
        _ => put_values_by(rows, k, c, covariance, values, variances),
    }
}

// The first n prediction variances are widened.
fn widen(spread: Spread, n: usize, variances: &mut [f64])
    requires { n ≤ length variances.old }
    ensures { variances.new ≡ each (λ _ v. widened spread.tolerance spread.sd v) n variances.old }
{
    match spread.tolerance {
        Tolerance::None => {}
        Tolerance::Absolute(_) => {}
        Tolerance::Variance(_) => {
            for i in 0..n {
                variances[i] = widened(spread.tolerance, spread.sd, variances[i]);
            }
        }
        Tolerance::Measurement(_) => {}
    }
}

// The first n prediction variances become the roots that bands are made with.
fn put_roots(spread: Spread, n: usize, variances: &mut [f64])
    requires { n ≤ length variances.old }
    ensures { variances.new ≡ each (λ _ v. root_f (widened spread.tolerance spread.sd v)) n variances.old }
{
    widen(spread, n, &mut *variances);
    value::put_roots(&mut variances[..n]);
}

// The band of each y, from the value and the root that stand there: they become lower and upper. Answers how many y's are outliers, and marks them.
fn put_edges(
    spread: Spread,
    ys: &[f64],
    lower: &mut [f64],
    upper: &mut [f64],
    outlier: &mut [u8],
) -> usize
    requires { (length ys.now ≤ length lower.old) × (length ys.now ≤ length upper.old) × (length ys.now ≤ length outlier.old) }
    ensures value { result ≡ ones (table (outlier_from spread.tolerance spread.z lower.old upper.old ys.now) (length ys.now)) }
    ensures lower_after { lower.new ≡ each (λ i _. (band_from spread.tolerance spread.z lower.old upper.old i).lower) (length ys.now) lower.old }
    ensures upper_after { upper.new ≡ each (λ i _. (band_from spread.tolerance spread.z lower.old upper.old i).upper) (length ys.now) upper.old }
    ensures outlier_after { outlier.new ≡ each (λ i _. outlier_from spread.tolerance spread.z lower.old upper.old ys.now i) (length ys.now) outlier.old }
{
    let mut count: usize = 0;
    for i in 0..ys.len() {
        let band = band_by(spread, lower[i], upper[i]);
        let is_outlier = outlies(band, ys[i]);
        lower[i] = band.lower;
        upper[i] = band.upper;
        outlier[i] = u8::from(is_outlier);
        count += usize::from(is_outlier);
    }
    count
}

// Lower, upper and the outlier byte of each row. Answers how many are outliers. All values come before all roots: apart, the loops are quicker.
pub fn put_bands(
    rows: Rows<'_>,
    k: CoefficientCount,
    c: &[f64; TERMS],
    covariance: &[f64; MATRIX],
    spread: Spread,
    lower: &mut [f64],
    upper: &mut [f64],
    outlier: &mut [u8],
) -> usize
    requires { (k.0 ≤ max_terms) × (length rows.ys.now ≤ length lower.old) × (length rows.ys.now ≤ length upper.old) × (length rows.ys.now ≤ length outlier.old) }
    ensures counted { result ≡ ones (outliers_of k.0 c.now covariance.now spread.tolerance spread.z spread.sd (rows_read rows.entry)) }
    ensures lowers { lower.new ≡ lowers_of k.0 c.now covariance.now spread.tolerance spread.z spread.sd (rows_read rows.entry) ++ drop (length rows.entry.ys.now) lower.old }
    ensures uppers { upper.new ≡ uppers_of k.0 c.now covariance.now spread.tolerance spread.z spread.sd (rows_read rows.entry) ++ drop (length rows.entry.ys.now) upper.old }
    ensures bytes { outlier.new ≡ outliers_of k.0 c.now covariance.now spread.tolerance spread.z spread.sd (rows_read rows.entry) ++ drop (length rows.entry.ys.now) outlier.old }
{
    put_values(rows, k, c, covariance, &mut *lower, &mut *upper);
    put_roots(spread, rows.ys.len(), &mut *upper);
    put_edges(spread, rows.ys, lower, upper, outlier)
}
