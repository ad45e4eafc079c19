// The season's calls that read a stake, but for its report. Scratch and coefficients are lent whole too; what else a call writes is lent for it alone.
ghost use Rattle.samples.specs.Columns.{columns_of};
ghost use Rattle.lent.specs.Slices.{before};
ghost use Rattle.settings.specs.Numbers.{bound_of, criterion_of, confidence_of, tolerance_of, settings_in};
ghost use Rattle.split.specs.Splits.{lent_split};
ghost use Rattle.stakes.specs.Season.{season_of};
ghost use Rattle.season_query.specs.Reads.{fit_from, validate_from, stake_fit_out, band_from, loss_from, scores_from, split_from};
ghost use Rattle.capi.specs.SeasonPacked.{StakeFitPacked, StakeBandPackedIs, StakeLossPackedIs, StakeScoresPackedIs, StakeSplitPackedIs};

use crate::{BAND, TOLD, packed, packed_band, packed_losses, packed_scores, packed_split};
use basis::Degree;
use refusal::Refusal;
use samples::Columns;
use stakes::{STAKES, Season};

// The fit of the asked degree.
#[unsafe(no_mangle)]
pub extern "C" fn stakebook_season_fit(
    stake: usize,
    degree: usize,
    counts: &[usize],
    xs: &[f64],
    ys: &[f64],
    ws: &[f64],
    sums: &[f64],
    scratch: &mut [f64],
    coefficients: &mut [f64],
) -> u64
    ensures { StakeFitPacked stake (stake_fit_out (fit_from degree) stake (season_of counts.now (columns_of xs.now ys.now ws.now) sums.now) (before scratch) (before coefficients)) result scratch coefficients }
{
    let columns = Columns { xs, ys, ws };
    let season = Season {
        counts,
        columns,
        sums,
    };
    packed::fit(season_query::fit(stake, Degree(degree), season, scratch, coefficients))
}

// The fit of the degree that k-fold cross-validation chooses. A bound is a number and a degree.
#[unsafe(no_mangle)]
pub extern "C" fn stakebook_season_validate(
    stake: usize,
    folds: usize,
    bound: u32,
    most: usize,
    criterion: u32,
    counts: &[usize],
    xs: &[f64],
    ys: &[f64],
    ws: &[f64],
    sums: &[f64],
    scratch: &mut [f64],
    coefficients: &mut [f64],
) -> u64
    ensures { StakeFitPacked stake (stake_fit_out (validate_from folds (bound_of bound most) (criterion_of criterion)) stake (season_of counts.now (columns_of xs.now ys.now ws.now) sums.now) (before scratch) (before coefficients)) result scratch coefficients }
{
    let by = settings::bound(bound, most);
    let scored = settings::criterion(criterion);
    let columns = Columns { xs, ys, ws };
    let season = Season {
        counts,
        columns,
        sums,
    };
    packed::fit(season_query::validate(stake, folds, by, scored, season, scratch, coefficients))
}

// The band at x of the curve of the asked degree, written to three places: value, lower and upper.
#[unsafe(no_mangle)]
pub extern "C" fn stakebook_season_band(
    stake: usize,
    x: f64,
    degree: usize,
    confidence: u32,
    score: f64,
    tolerance: u32,
    value: f64,
    counts: &[usize],
    xs: &[f64],
    ys: &[f64],
    ws: &[f64],
    sums: &[f64],
    scratch: &mut [f64],
    numbers: &mut [f64],
) -> u64
    ensures { StakeBandPackedIs (band_from x degree (confidence_of confidence score) (tolerance_of tolerance value)) stake (season_of counts.now (columns_of xs.now ys.now ws.now) sums.now) result scratch numbers }
{
    if STAKES <= stake {
        return packed::refused(Refusal::NoStake);
    }
    if numbers.len() < BAND {
        return packed::refused(Refusal::Short);
    }
    let with = settings::confidence(confidence, score);
    let allowed = settings::tolerance(tolerance, value);
    let columns = Columns { xs, ys, ws };
    let season = Season {
        counts,
        columns,
        sums,
    };
    let answer = season_query::band(stake, x, Degree(degree), with, allowed, season, scratch);
    packed_band(answer, numbers)
}

// The losses of the degree that a report of the stake chooses; their total and the score made of it are written to two places.
#[unsafe(no_mangle)]
pub extern "C" fn stakebook_season_losses(
    stake: usize,
    words: &[u32],
    values: &[f64],
    counts: &[usize],
    xs: &[f64],
    ys: &[f64],
    ws: &[f64],
    sums: &[f64],
    scratch: &mut [f64],
    losses: &mut [f64],
    numbers: &mut [f64],
) -> u64
    ensures { StakeLossPackedIs (loss_from (settings_in words.now values.now) (before losses)) stake (season_of counts.now (columns_of xs.now ys.now ws.now) sums.now) result scratch losses numbers }
{
    if STAKES <= stake {
        return packed::refused(Refusal::NoStake);
    }
    if numbers.len() < TOLD {
        return packed::refused(Refusal::Short);
    }
    let settings = settings::listed(words, values);
    let columns = Columns { xs, ys, ws };
    let season = Season {
        counts,
        columns,
        sums,
    };
    let answer = season_query::losses(stake, settings, season, scratch, losses);
    packed_losses(answer, numbers)
}

// Of each degree within the bound whether it is solved and its score; the least score is written to one place.
#[unsafe(no_mangle)]
pub extern "C" fn stakebook_season_scores(
    stake: usize,
    words: &[u32],
    values: &[f64],
    counts: &[usize],
    xs: &[f64],
    ys: &[f64],
    ws: &[f64],
    sums: &[f64],
    scratch: &mut [f64],
    solved: &mut [u8],
    scores: &mut [f64],
    least: &mut [f64],
) -> u64
    ensures { StakeScoresPackedIs (scores_from (settings_in words.now values.now) (before solved) (before scores)) stake (season_of counts.now (columns_of xs.now ys.now ws.now) sums.now) result scratch solved scores least }
{
    if STAKES <= stake {
        return packed::refused(Refusal::NoStake);
    }
    if least.len() < 1 {
        return packed::refused(Refusal::Short);
    }
    let settings = settings::listed(words, values);
    let columns = Columns { xs, ys, ws };
    let season = Season {
        counts,
        columns,
        sums,
    };
    let answer = season_query::scores(stake, settings, season, scratch, solved, scores);
    packed_scores(answer, least)
}

// A split of the stake's book, within a limit. Its total is written to one place.
#[unsafe(no_mangle)]
pub extern "C" fn stakebook_season_split(
    stake: usize,
    words: &[u32],
    values: &[f64],
    limit: usize,
    counts: &[usize],
    xs: &[f64],
    ys: &[f64],
    ws: &[f64],
    sums: &[f64],
    scratch: &mut [f64],
    earlier: &mut [f64],
    later: &mut [f64],
    total: &mut [f64],
) -> u64
    ensures { StakeSplitPackedIs (split_from (settings_in words.now values.now) limit (before earlier) (before later)) stake (season_of counts.now (columns_of xs.now ys.now ws.now) sums.now) result (lent_split scratch earlier later) total }
{
    if STAKES <= stake {
        return packed::refused(Refusal::NoStake);
    }
    if total.len() < 1 {
        return packed::refused(Refusal::Short);
    }
    let settings = settings::listed(words, values);
    let columns = Columns { xs, ys, ws };
    let season = Season {
        counts,
        columns,
        sums,
    };
    let answer = season_query::split(stake, settings, limit, season, scratch, earlier, later);
    packed_split(answer, total)
}
