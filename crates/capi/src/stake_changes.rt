// The season's calls that change it. Columns, sums and the counts of 32 stakes are lent whole.
ghost use Rattle.samples.specs.Columns.{columns_of, no_columns};
ghost use Rattle.lent.specs.Slices.{before, after};
ghost use Rattle.ledger.specs.Ledger.{adds, corrects, withdraws, frames, texts, windows};
ghost use Rattle.stakes.specs.Season.{season_of};
ghost use Rattle.season.specs.Changes.{season_out, carry_stake_out, open_stake_out, season_open_out};
ghost use Rattle.capi.specs.SeasonPacked.{SeasonPacked};

use crate::packed;
use samples::Sample;

// An empty book for each of the 32 stakes.
#[unsafe(no_mangle)]
pub extern "C" fn stakebook_season_open(counts: &mut [usize], sums: &mut [f64]) -> u64
    ensures { SeasonPacked (season_open_out (season_of (before counts) no_columns (before sums))) result (season_of (after counts) no_columns (after sums)) }
{
    packed::book(season::season_open(counts, sums))
}

// An empty book for one stake.
#[unsafe(no_mangle)]
pub extern "C" fn stakebook_season_open_stake(
    stake: usize,
    counts: &mut [usize],
    sums: &mut [f64],
) -> u64
    ensures { SeasonPacked (open_stake_out stake (season_of (before counts) no_columns (before sums))) result (season_of (after counts) no_columns (after sums)) }
{
    packed::book(season::open_stake(stake, counts, sums))
}

// One sample at the end.
#[unsafe(no_mangle)]
pub extern "C" fn stakebook_season_add(
    stake: usize,
    x: f64,
    y: f64,
    weight: f64,
    counts: &mut [usize],
    xs: &mut [f64],
    ys: &mut [f64],
    ws: &mut [f64],
    sums: &mut [f64],
) -> u64
    ensures { SeasonPacked (season_out stake (season_of (before counts) (columns_of (before xs) (before ys) (before ws)) (before sums)) (adds (record { x = x; y = y; w = weight }))) result (season_of (after counts) (columns_of (after xs) (after ys) (after ws)) (after sums)) }
{
    let sample = Sample { x, y, w: weight };
    packed::book(season::add(stake, sample, counts, xs, ys, ws, sums))
}

// One sample at the end; a full book first loses sample 0.
#[unsafe(no_mangle)]
pub extern "C" fn stakebook_season_add_window(
    stake: usize,
    x: f64,
    y: f64,
    weight: f64,
    counts: &mut [usize],
    xs: &mut [f64],
    ys: &mut [f64],
    ws: &mut [f64],
    sums: &mut [f64],
) -> u64
    ensures { SeasonPacked (season_out stake (season_of (before counts) (columns_of (before xs) (before ys) (before ws)) (before sums)) (windows (record { x = x; y = y; w = weight }))) result (season_of (after counts) (columns_of (after xs) (after ys) (after ws)) (after sums)) }
{
    let sample = Sample { x, y, w: weight };
    packed::book(season::add_window(stake, sample, counts, xs, ys, ws, sums))
}

// All samples of a frame at the end, or none.
#[unsafe(no_mangle)]
pub extern "C" fn stakebook_season_add_frame(
    stake: usize,
    frame: &[u8],
    counts: &mut [usize],
    xs: &mut [f64],
    ys: &mut [f64],
    ws: &mut [f64],
    sums: &mut [f64],
) -> u64
    ensures { SeasonPacked (season_out stake (season_of (before counts) (columns_of (before xs) (before ys) (before ws)) (before sums)) (frames frame.now)) result (season_of (after counts) (columns_of (after xs) (after ys) (after ws)) (after sums)) }
{
    packed::book(season::add_frame(stake, frame, counts, xs, ys, ws, sums))
}

// All samples of a text of lines at the end, or none.
#[unsafe(no_mangle)]
pub extern "C" fn stakebook_season_add_lines(
    stake: usize,
    text: &[u8],
    counts: &mut [usize],
    xs: &mut [f64],
    ys: &mut [f64],
    ws: &mut [f64],
    sums: &mut [f64],
) -> u64
    ensures { SeasonPacked (season_out stake (season_of (before counts) (columns_of (before xs) (before ys) (before ws)) (before sums)) (texts text.now)) result (season_of (after counts) (columns_of (after xs) (after ys) (after ws)) (after sums)) }
{
    packed::book(season::add_lines(stake, text, counts, xs, ys, ws, sums))
}

// Sample i gets a new y.
#[unsafe(no_mangle)]
pub extern "C" fn stakebook_season_correct(
    stake: usize,
    i: usize,
    y: f64,
    counts: &mut [usize],
    xs: &[f64],
    ys: &mut [f64],
    ws: &[f64],
    sums: &mut [f64],
) -> u64
    ensures { SeasonPacked (season_out stake (season_of (before counts) (columns_of xs.now (before ys) ws.now) (before sums)) (corrects i y)) result (season_of (after counts) (columns_of xs.now (after ys) ws.now) (after sums)) }
{
    packed::book(season::correct(stake, i, y, counts, xs, ys, ws, sums))
}

// Sample i goes, and later ones move down one.
#[unsafe(no_mangle)]
pub extern "C" fn stakebook_season_withdraw(
    stake: usize,
    i: usize,
    counts: &mut [usize],
    xs: &mut [f64],
    ys: &mut [f64],
    ws: &mut [f64],
    sums: &mut [f64],
) -> u64
    ensures { SeasonPacked (season_out stake (season_of (before counts) (columns_of (before xs) (before ys) (before ws)) (before sums)) (withdraws i)) result (season_of (after counts) (columns_of (after xs) (after ys) (after ws)) (after sums)) }
{
    packed::book(season::withdraw(stake, i, counts, xs, ys, ws, sums))
}

// A two-column book of a stake becomes one with weights: the weights below its count become 1.
#[unsafe(no_mangle)]
pub extern "C" fn stakebook_season_carry(
    stake: usize,
    counts: &mut [usize],
    xs: &[f64],
    ys: &[f64],
    ws: &mut [f64],
    sums: &[f64],
) -> u64
    ensures { SeasonPacked (carry_stake_out stake (season_of (before counts) (columns_of xs.now ys.now (before ws)) sums.now)) result (season_of (after counts) (columns_of xs.now ys.now (after ws)) sums.now) }
{
    packed::book(season::carry(stake, counts, xs, ys, ws, sums))
}
