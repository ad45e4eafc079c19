// The calls that read a book, but for the report. Each is promised, for every count, length and content, to answer and to leave what document 01
// says.
#![tactic(auto)]

mod refusals;

ghost use Rattle.samples.specs.Held.{held};
ghost use Rattle.lent.specs.Slices.{before, contents};
ghost use Rattle.measure.specs.Fits.{FitIs};
ghost use Rattle.measure.specs.Bands.{BandIs};
ghost use Rattle.query.specs.Fits.{fit_out, validate_out};
ghost use Rattle.query.specs.Bands.{band_out};

use basis::{Degree, SUMS};
use book::Book;
use covariance::Band;
use monomial::Rows;
use refusal::Refusal;
use samples::Columns;
use score::Criterion;
use statistics::{Confidence, DegreeBound, Tolerance};

// The fit of the asked degree: its 16 coefficients are written, +0 from k on.
pub fn fit(
    book: Book,
    degree: Degree,
    columns: Columns<'_>,
    sums: &[f64],
    scratch: &mut [f64],
    coefficients: &mut [f64],
) -> Result<Degree, Refusal>
    ensures { FitIs (fit_out book.count (held columns.entry) sums.now (before scratch) (before coefficients) degree.0) result (contents scratch) (contents coefficients) }
{
    let n = book.count;
    refusals::check_fit(
        n,
        degree,
        columns,
        sums.len(),
        scratch.len(),
        coefficients.len(),
    )?;
    let rows = Rows::curve(n, columns);
    measure::solve_at(rows, degree, &sums[..SUMS], scratch, coefficients)
}

// The fit of the degree that k-fold cross-validation chooses. The folds solve from the columns, the fit from the lent sums.
pub fn validate(
    book: Book,
    folds: usize,
    bound: DegreeBound,
    criterion: Criterion,
    columns: Columns<'_>,
    sums: &[f64],
    scratch: &mut [f64],
    coefficients: &mut [f64],
) -> Result<Degree, Refusal>
    ensures { FitIs (validate_out book.count (held columns.entry) sums.now (before scratch) (before coefficients) folds bound criterion) result (contents scratch) (contents coefficients) }
{
    let n = book.count;
    refusals::check_validate(
        n,
        folds,
        bound,
        columns,
        sums.len(),
        scratch.len(),
        coefficients.len(),
    )?;
    let most = statistics::max_degree(bound, n);
    let rows = Rows::curve(n, columns);
    let chosen = folds::choose_by_folds(rows, folds, most, criterion, &mut *scratch);
    let Some(degree) = chosen else {
        lent::clear(scratch, n);
        return Err(Refusal::NoneChosen);
    };
    measure::solve_at(rows, degree, &sums[..SUMS], scratch, coefficients)
}

// The band at x of the curve of the asked degree.
pub fn band(
    book: Book,
    x: f64,
    degree: Degree,
    confidence: Confidence,
    tolerance: Tolerance,
    columns: Columns<'_>,
    sums: &[f64],
    scratch: &mut [f64],
) -> Result<Band, Refusal>
    ensures { BandIs (band_out book.count x degree.0 confidence tolerance (held columns.entry) sums.now (before scratch)) result (contents scratch) }
{
    let n = book.count;
    refusals::check_band(
        n,
        x,
        degree,
        confidence,
        tolerance,
        columns,
        sums.len(),
        scratch.len(),
    )?;
    measure::band_of(
        Rows::curve(n, columns),
        x,
        x,
        degree,
        confidence,
        tolerance,
        &sums[..SUMS],
        scratch,
    )
}
