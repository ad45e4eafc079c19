// What refuses the scores by 1 to 9.
ghost use Rattle.std.specs.Prelude.{◌≡◌};
ghost use Rattle.samples.specs.Columns.{samples_of, lengths};
ghost use Rattle.samples.specs.Held.{held};
ghost use Rattle.refusal.specs.Named.{judged};
ghost use Rattle.scores.specs.Refusals.{scores_refusal};

use basis::{SUMS, TERMS};
use refusal::Refusal;
use samples::Columns;
use settings::Settings;

pub fn check_scores(
    n: usize,
    settings: Settings,
    columns: Columns<'_>,
    sums: usize,
    scratch: usize,
    solved: usize,
    scores: usize,
) -> Result<(), Refusal>
    ensures { result ≡ judged (scores_refusal n settings (samples_of n (held columns.entry)) (lengths (held columns.entry)) sums scratch solved scores) }
{
    let memories = [(SUMS, sums), (n, scratch), (TERMS, solved), (TERMS, scores)];
    reporting::check_settings(n, settings, columns, &memories, n == 0)
}
