// The report of a stake, and the season report. What they write is lent whole.
ghost use Rattle.std.specs.Prelude.{◌≡◌, ◌≤◌, length};
ghost use Rattle.samples.specs.Columns.{columns_of};
ghost use Rattle.lent.specs.Slices.{before, after};
ghost use Rattle.lent.specs.Written.{over};
ghost use Rattle.reporting.specs.Outputs.{outputs};
ghost use Rattle.settings.specs.Numbers.{settings_in};
ghost use Rattle.stakes.specs.Parts.{stakes};
ghost use Rattle.stakes.specs.Season.{season_of};
ghost use Rattle.capi.specs.SeasonPacked.{StakesFit, packed_stakes, StakeReportPackedIs, SeasonReportPackedIs};

use crate::{packed, packed_report};
use refusal::Refusal;
use reporting::Memory;
use samples::Columns;
use season_report::SeasonReport;
use stakes::{STAKES, Season};

// A report of one stake, by lists of settings.
#[unsafe(no_mangle)]
pub extern "C" fn stakebook_season_report_stake(
    stake: usize,
    words: &[u32],
    values: &[f64],
    counts: &[usize],
    xs: &[f64],
    ys: &[f64],
    ws: &[f64],
    sums: &[f64],
    scratch: &mut [f64],
    coefficients: &mut [f64],
    errors: &mut [f64],
    pruned: &mut [u8],
    lower: &mut [f64],
    upper: &mut [f64],
    outliers: &mut [u8],
) -> u64
    ensures { StakeReportPackedIs (settings_in words.now values.now) stake (season_of counts.now (columns_of xs.now ys.now ws.now) sums.now) result (outputs scratch coefficients errors pruned lower upper outliers) }
{
    let settings = settings::listed(words, values);
    let columns = Columns { xs, ys, ws };
    let season = Season {
        counts,
        columns,
        sums,
    };
    let memory = Memory {
        scratch,
        coefficients,
        errors,
        pruned,
        lower,
        upper,
        outliers,
    };
    packed_report(season_report::report(stake, settings, season, memory))
}

// The stakes' answers, packed, in stake order.
fn put_stakes(told: SeasonReport, answers: &mut [u64])
    requires stakes_fit { StakesFit told.reports }
    requires stakes_in_bounds { stakes ≤ length answers.old }
    ensures { after answers ≡ over (packed_stakes told.reports) (before answers) }
{
    let packed = told.reports.map(packed_report);
    answers[..STAKES].copy_from_slice(&packed);
}

// The season report: each stake's report or refusal, by lists of settings. Their packed answers are written to 32 places.
#[unsafe(no_mangle)]
pub extern "C" fn stakebook_season_report(
    words: &[u32],
    values: &[f64],
    counts: &[usize],
    xs: &[f64],
    ys: &[f64],
    ws: &[f64],
    sums: &[f64],
    scratch: &mut [f64],
    coefficients: &mut [f64],
    errors: &mut [f64],
    pruned: &mut [u8],
    lower: &mut [f64],
    upper: &mut [f64],
    outliers: &mut [u8],
    answers: &mut [u64],
) -> u64
    ensures { SeasonReportPackedIs (settings_in words.now values.now) (season_of counts.now (columns_of xs.now ys.now ws.now) sums.now) result (outputs scratch coefficients errors pruned lower upper outliers) answers }
{
    if answers.len() < STAKES {
        return packed::refused(Refusal::Short);
    }
    let settings = settings::listed(words, values);
    let columns = Columns { xs, ys, ws };
    let season = Season {
        counts,
        columns,
        sums,
    };
    let memory = Memory {
        scratch,
        coefficients,
        errors,
        pruned,
        lower,
        upper,
        outliers,
    };
    let told = season_report::season_report(settings, season, memory);
    put_stakes(told, answers);
    told.passed as u64
}
