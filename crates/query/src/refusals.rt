// Refusals 1 to 9 of the calls that read a book: the tests in checking order, of which the first that holds refuses.
ghost use Rattle.std.specs.Prelude.{◌≡◌};
ghost use Rattle.samples.specs.Columns.{samples_of, lengths};
ghost use Rattle.samples.specs.Held.{held};
ghost use Rattle.refusal.specs.Named.{judged};
ghost use Rattle.query.specs.Refusals.{fit_refusal, validate_refusal, band_refusal};

use basis::{Degree, SUMS, TERMS};
use refusal::{Refusal, check_samples, first_of};
use samples::Columns;
use statistics::{Confidence, DegreeBound, Tolerance};

pub fn check_fit(
    n: usize,
    degree: Degree,
    columns: Columns<'_>,
    sums: usize,
    scratch: usize,
    coefficients: usize,
) -> Result<(), Refusal>
    ensures { result ≡ judged (fit_refusal n degree.0 (samples_of n (held columns.entry)) (lengths (held columns.entry)) sums scratch coefficients) }
{
    let memories = [(SUMS, sums), (n, scratch), (TERMS, coefficients)];
    check_samples(n, columns, &memories, true)?;
    first_of(&[
        (n == 0, Refusal::TooFew),
        (refusal::degree_too_high(n, degree), Refusal::DegreeTooHigh),
    ])
}

pub fn check_validate(
    n: usize,
    folds: usize,
    bound: DegreeBound,
    columns: Columns<'_>,
    sums: usize,
    scratch: usize,
    coefficients: usize,
) -> Result<(), Refusal>
    ensures { result ≡ judged (validate_refusal n folds bound (samples_of n (held columns.entry)) (lengths (held columns.entry)) sums scratch coefficients) }
{
    let memories = [(SUMS, sums), (n, scratch), (TERMS, coefficients)];
    check_samples(n, columns, &memories, true)?;
    first_of(&[
        (refusal::wrong_folds(n, folds), Refusal::TooFew),
        (refusal::bound_too_high(bound, n), Refusal::DegreeTooHigh),
    ])
}

pub fn check_band(
    n: usize,
    x: f64,
    degree: Degree,
    confidence: Confidence,
    tolerance: Tolerance,
    columns: Columns<'_>,
    sums: usize,
    scratch: usize,
) -> Result<(), Refusal>
    ensures { result ≡ judged (band_refusal n x degree.0 confidence tolerance (samples_of n (held columns.entry)) (lengths (held columns.entry)) sums scratch) }
{
    let given = value::is_finite(x)
        & refusal::score_finite(confidence)
        & refusal::tolerance_finite(tolerance);
    check_samples(n, columns, &[(SUMS, sums), (n, scratch)], given)?;
    let high = refusal::degree_too_high(n, degree);
    let outside = refusal::outside(x, &columns.xs[..n]);
    first_of(&[
        (n == 0, Refusal::TooFew),
        (high, Refusal::DegreeTooHigh),
        (outside, Refusal::Outside),
    ])
}
