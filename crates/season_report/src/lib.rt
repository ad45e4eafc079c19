// The report of one stake, and the season report: the stakes in order, each one's report or refusal, with the number of stakes not refused.
#![tactic(auto)]

ghost use Rattle.std.specs.Prelude.{◌≡◌, ◌≤◌};
ghost use Rattle.reporting.specs.Outputs.{lent_outputs};
ghost use Rattle.stakes.specs.Stake.{season_held};
ghost use Rattle.season_report.specs.Reports.{StakeReports, SeasonReports};

use refusal::Refusal;
use reporting::{Memory, Report};
use settings::Settings;
use stakes::{STAKES, Season};

// The stakes' reports or refusals in stake order, and how many of them are not refused.
#[derive(Clone, Copy)]
pub struct SeasonReport {
    pub reports: [Result<Report, Refusal>; STAKES],
    pub passed: usize,
}

// A report of a stake.
#[tactic(auto, using(stakes::proofs::Pieces::taken_below))]
pub fn report(
    stake: usize,
    settings: Settings,
    season: Season<'_>,
    memory: Memory<'_>,
) -> Result<Report, Refusal>
    ensures { StakeReports settings stake (season_held season.entry) result (lent_outputs memory) }
{
    let s = season.stake(stake)?;
    let Memory {
        scratch,
        coefficients,
        errors,
        pruned,
        lower,
        upper,
        outliers,
    } = memory;
    let t = stakes::cut(scratch.len(), stake);
    let c = stakes::cut(coefficients.len(), stake);
    let e = stakes::cut(errors.len(), stake);
    let p = stakes::cut(pruned.len(), stake);
    let l = stakes::cut(lower.len(), stake);
    let u = stakes::cut(upper.len(), stake);
    let o = stakes::cut(outliers.len(), stake);
    report::report_into(
        s.book,
        settings,
        s.columns,
        s.sums,
        &mut scratch[t],
        &mut coefficients[c],
        &mut errors[e],
        &mut pruned[p],
        &mut lower[l],
        &mut upper[u],
        &mut outliers[o],
    )
}

// The stakes in order, each one's report or refusal under one settings, whatever the others gave.
pub fn season_report(settings: Settings, season: Season<'_>, memory: Memory<'_>) -> SeasonReport
    ensures { SeasonReports settings (season_held season.entry) result (lent_outputs memory) }
{
    let Memory {
        scratch,
        coefficients,
        errors,
        pruned,
        lower,
        upper,
        outliers,
    } = memory;
    let mut reports = [Err(Refusal::Short); STAKES];
    let mut passed = 0;
    // not `std::array::from_fn`, which says what its closure answered and not what is left of the memory that it borrows
    for stake in 0..STAKES {
        let answer = report(
            stake,
            settings,
            season,
            Memory {
                scratch: &mut *scratch,
                coefficients: &mut *coefficients,
                errors: &mut *errors,
                pruned: &mut *pruned,
                lower: &mut *lower,
                upper: &mut *upper,
                outliers: &mut *outliers,
            },
        );
        passed += usize::from(answer.is_ok());
        reports[stake] = answer;
    }
    SeasonReport { reports, passed }
}
