// Refusals 1 to 9 of the calls that choose a degree by a report's settings: the tests in checking order, of which the first that holds refuses.
ghost use Rattle.std.specs.Prelude.{◌≡◌, ◌∷◌};
ghost use Rattle.samples.specs.Columns.{samples_of, lengths};
ghost use Rattle.samples.specs.Held.{held};
ghost use Rattle.refusal.specs.Refusals.{by, first_of};
ghost use Rattle.refusal.specs.Named.{judged, memories_of};
ghost use Rattle.refusal.specs.Tests.{too_short};
ghost use Rattle.reporting.specs.Refusals.{settings_tests};

use refusal::{Refusal, bound_too_high, check_samples, first_of, score_finite, tolerance_finite};
use samples::Columns;
use settings::Settings;

// few: the call has too few samples.
pub fn check_settings(
    n: usize,
    settings: Settings,
    columns: Columns<'_>,
    memories: &[(usize, usize)],
    few: bool,
) -> Result<(), Refusal>
    ensures { result ≡ judged (first_of (by (too_short n (lengths (held columns.entry)) (memories_of memories.now)) 1 ∷ settings_tests n settings (samples_of n (held columns.entry)) few)) }
{
    let given = score_finite(settings.confidence) & tolerance_finite(settings.tolerance);
    check_samples(n, columns, memories, given)?;
    first_of(&[
        (few, Refusal::TooFew),
        (bound_too_high(settings.bound, n), Refusal::DegreeTooHigh),
    ])
}
