// The season book's calls that read a stake, but for the report. Each is promised to answer and to write what the book's own call does on the stake's parts.
#![tactic(auto, using(stakes::proofs::Pieces::taken_below))]

ghost use Rattle.lent.specs.Slices.{before, contents};
ghost use Rattle.samples.specs.Held.{held};
ghost use Rattle.split.specs.Splits.{SplitIs, lent_split};
ghost use Rattle.stakes.specs.Stake.{season_held};
ghost use Rattle.season_query.specs.Reads.{fit_from, validate_from, stake_fit_out, StakeFitIs, band_from, stake_band_out, StakeBandIs, loss_from, stake_loss_out, StakeLossIs, scores_from, stake_scores_out, StakeScoresIs, split_from, stake_split_out, StakeSplitIs};

use basis::Degree;
use covariance::Band;
use losses::LossTotals;
use refusal::Refusal;
use score::Criterion;
use scores::ScoreTable;
use settings::Settings;
use split::Break;
use stakes::{Season, Stake};
use statistics::{Confidence, DegreeBound, Tolerance};

// The fit of the asked degree.
pub fn fit(
    stake: usize,
    degree: Degree,
    season: Season<'_>,
    scratch: &mut [f64],
    coefficients: &mut [f64],
) -> Result<Degree, Refusal>
    ensures { StakeFitIs stake (stake_fit_out (fit_from degree.0) stake (season_held season.entry) (before scratch) (before coefficients)) result (contents scratch) (contents coefficients) }
{
    let s = season.stake(stake)?;
    let t = stakes::cut(scratch.len(), stake);
    let c = stakes::cut(coefficients.len(), stake);
    query::fit(
        s.book,
        degree,
        s.columns,
        s.sums,
        &mut scratch[t],
        &mut coefficients[c],
    )
}

// The fit of the degree that k-fold cross-validation chooses.
pub fn validate(
    stake: usize,
    folds: usize,
    bound: DegreeBound,
    criterion: Criterion,
    season: Season<'_>,
    scratch: &mut [f64],
    coefficients: &mut [f64],
) -> Result<Degree, Refusal>
    ensures { StakeFitIs stake (stake_fit_out (validate_from folds bound criterion) stake (season_held season.entry) (before scratch) (before coefficients)) result (contents scratch) (contents coefficients) }
{
    let s = season.stake(stake)?;
    let t = stakes::cut(scratch.len(), stake);
    let c = stakes::cut(coefficients.len(), stake);
    query::validate(
        s.book,
        folds,
        bound,
        criterion,
        s.columns,
        s.sums,
        &mut scratch[t],
        &mut coefficients[c],
    )
}

// The band at x of the curve of the asked degree.
pub fn band(
    stake: usize,
    x: f64,
    degree: Degree,
    confidence: Confidence,
    tolerance: Tolerance,
    season: Season<'_>,
    scratch: &mut [f64],
) -> Result<Band, Refusal>
    ensures { StakeBandIs stake (stake_band_out (band_from x degree.0 confidence tolerance) stake (season_held season.entry) (before scratch)) result (contents scratch) }
{
    let s = season.stake(stake)?;
    let t = stakes::cut(scratch.len(), stake);
    query::band(
        s.book,
        x,
        degree,
        confidence,
        tolerance,
        s.columns,
        s.sums,
        &mut scratch[t],
    )
}

// The losses of the degree that a report chooses. They are lent for this call alone, and are not cut.
pub fn losses(
    stake: usize,
    settings: Settings,
    season: Season<'_>,
    scratch: &mut [f64],
    losses: &mut [f64],
) -> Result<LossTotals, Refusal>
    ensures { StakeLossIs stake (stake_loss_out (loss_from settings (before losses)) stake (season_held season.entry) (before scratch)) result (contents scratch) (contents losses) }
{
    let s = season.stake(stake)?;
    let t = stakes::cut(scratch.len(), stake);
    losses::losses(s.book, settings, s.columns, s.sums, &mut scratch[t], losses)
}

// Of each degree whether it is solved and its score. Both are lent for this call alone, and are not cut.
pub fn scores(
    stake: usize,
    settings: Settings,
    season: Season<'_>,
    scratch: &mut [f64],
    solved: &mut [u8],
    scores: &mut [f64],
) -> Result<ScoreTable, Refusal>
    ensures { StakeScoresIs stake (stake_scores_out (scores_from settings (before solved) (before scores)) stake (season_held season.entry) (before scratch)) result (contents scratch) (contents solved) (contents scores) }
{
    let s = season.stake(stake)?;
    let t = stakes::cut(scratch.len(), stake);
    scores::scores(
        s.book,
        settings,
        s.columns,
        s.sums,
        &mut scratch[t],
        solved,
        scores,
    )
}

// A split of a stake's book. The part of scratch is lent to this call, and not to a struct's field: of a part that a field borrows, a proof doesn't know what
// the call leaves.
fn split_book(
    s: Stake<'_>,
    settings: Settings,
    limit: usize,
    scratch: &mut [f64],
    earlier: &mut [f64],
    later: &mut [f64],
) -> Result<Break, Refusal>
    ensures { SplitIs s.entry.book.count settings limit (held s.entry.columns) s.entry.sums.now result (lent_split scratch earlier later) }
{
    split::split(
        s.book,
        settings,
        limit,
        s.columns,
        s.sums,
        split::Memory {
            scratch,
            before: earlier,
            after: later,
        },
    )
}

// A split. The two fits are lent for this call alone, and are not cut.
pub fn split(
    stake: usize,
    settings: Settings,
    limit: usize,
    season: Season<'_>,
    scratch: &mut [f64],
    earlier: &mut [f64],
    later: &mut [f64],
) -> Result<Break, Refusal>
    ensures { StakeSplitIs stake (stake_split_out (split_from settings limit (before earlier) (before later)) stake (season_held season.entry) (before scratch)) result (lent_split scratch earlier later) }
{
    let s = season.stake(stake)?;
    let t = stakes::cut(scratch.len(), stake);
    split_book(s, settings, limit, &mut scratch[t], earlier, later)
}
