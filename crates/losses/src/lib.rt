// The losses of the degree that a report chooses, sample by sample, with their total and the score that is made of it. It is promised, for every
// count, length and content, to answer and to leave what document 02 says.
#![tactic(auto)]

mod refusals;

ghost use Rattle.std.specs.Prelude.{◌≡◌, ◌++◌, ◌≤◌, length, drop};
ghost use Rattle.value.specs.Total.{total_f};
ghost use Rattle.statistics.specs.Losses.{losses as losses_f};
ghost use Rattle.samples.specs.Held.{held};
ghost use Rattle.lent.specs.Slices.{before, after, contents};
ghost use Rattle.losses.specs.Losses.{LossIs, loss_out};

use basis::{Basis, Degree, MATRIX, SUMS, TERMS};
use book::Book;
use monomial::Rows;
use refusal::Refusal;
use samples::Columns;
use settings::Settings;

// What the call answers: the chosen degree, the total of its losses and the score that is made of it.
#[derive(Clone, Copy)]
pub struct LossTotals {
    pub degree: Degree,
    pub total: f64,
    pub score: f64,
}

// The first places become the losses of residuals or of their sizes. Answers the total, in index order from +0.
fn put_losses(a: &[f64], out: &mut [f64]) -> f64
    requires { length a.now ≤ length out.old }
    ensures total { result ≡ total_f (losses_f a.now) }
    ensures written { after out ≡ losses_f a.now ++ drop (length a.now) (before out) }
{
    let mad = statistics::median_absolute_deviation(a);
    let constant = statistics::huber_const();
    let mut v = 0.0;
    // by index: of an `iter_mut` behind a `zip` a proof knows no element
    for i in 0..a.len() {
        let loss = statistics::huber_loss(a[i], constant, mad);
        out[i] = loss;
        v += loss;
    }
    v
}

// The losses of the book. Nothing but scratch is written before 12 is ruled out.
pub fn losses(
    book: Book,
    settings: Settings,
    columns: Columns<'_>,
    sums: &[f64],
    scratch: &mut [f64],
    losses: &mut [f64],
) -> Result<LossTotals, Refusal>
    ensures { LossIs (loss_out book.count settings (held columns.entry) sums.now (before scratch) (before losses)) result (contents scratch) (contents losses) }
{
    let n = book.count;
    refusals::check_losses(
        n,
        settings,
        columns,
        sums.len(),
        scratch.len(),
        losses.len(),
    )?;
    let bound = settings.bound;
    let criterion = settings.criterion;
    let last = statistics::max_degree(bound, n);
    let rows = Rows::curve(n, columns);
    let mut c = [0.0; TERMS];
    let mut covariance = [0.0; MATRIX];
    let m = reporting::choose(
        rows,
        last,
        criterion,
        &sums[..SUMS],
        &mut *scratch,
        &mut c,
        &mut covariance,
    );
    let degree = match m.found {
        Ok(degree) => degree,
        Err(refusal) => {
            lent::clear(scratch, n);
            return Err(refusal);
        }
    };
    let k = degree.k(Basis::Curve);
    fit::sizes(rows, k, &c, &mut *scratch);
    let total = put_losses(&scratch[..n], losses);
    lent::clear(scratch, n);
    Ok(LossTotals {
        degree,
        total,
        score: score::score(criterion, n, k, total),
    })
}
