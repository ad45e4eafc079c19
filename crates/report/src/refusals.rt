// Refusals 1 to 9 of a report: the tests in checking order, of which the first that holds refuses.
ghost use Rattle.std.specs.Prelude.{◌≡◌};
ghost use Rattle.samples.specs.Columns.{samples_of, lengths};
ghost use Rattle.samples.specs.Held.{held};
ghost use Rattle.refusal.specs.Named.{judged, memories_of};
ghost use Rattle.refusal.specs.Tests.{too_short};
ghost use Rattle.report.specs.Refusals.{report_needs, report_refusal};

use basis::{SUMS, TERMS};
use refusal::{Refusal, too_short};
use reporting::{Places, check_settings};
use samples::Columns;
use settings::Settings;

// The sums, and all that a report writes: of each memory, how many places it needs and how many are lent.
fn report_memories(n: usize, sums: usize, p: Places) -> [(usize, usize); 8]
    ensures { memories_of result ≡ report_needs n sums p }
{
    [
        (SUMS, sums),
        (n, p.scratch),
        (TERMS, p.coefficients),
        (TERMS, p.errors),
        (TERMS, p.pruned),
        (n, p.lower),
        (n, p.upper),
        (n, p.outliers),
    ]
}

// 1, of a report.
pub fn report_short(n: usize, columns: &[usize], sums: usize, p: Places) -> bool
    ensures { result ≡ too_short n columns.now (report_needs n sums p) }
{
    too_short(n, columns, &report_memories(n, sums, p))
}

pub fn check_report(
    n: usize,
    settings: Settings,
    columns: Columns<'_>,
    sums: usize,
    places: Places,
) -> Result<(), Refusal>
    ensures { result ≡ judged (report_refusal n settings (samples_of n (held columns.entry)) (lengths (held columns.entry)) sums places) }
{
    let memories = report_memories(n, sums, places);
    check_settings(n, settings, columns, &memories, n == 0)
}
