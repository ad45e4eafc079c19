// What refuses the losses by 1 to 9.
ghost use Rattle.std.specs.Prelude.{◌≡◌};
ghost use Rattle.samples.specs.Columns.{samples_of, lengths};
ghost use Rattle.samples.specs.Held.{held};
ghost use Rattle.refusal.specs.Named.{judged};
ghost use Rattle.losses.specs.Refusals.{loss_refusal};

use basis::SUMS;
use refusal::Refusal;
use samples::Columns;
use settings::Settings;

pub fn check_losses(
    n: usize,
    settings: Settings,
    columns: Columns<'_>,
    sums: usize,
    scratch: usize,
    losses: usize,
) -> Result<(), Refusal>
    ensures { result ≡ judged (loss_refusal n settings (samples_of n (held columns.entry)) (lengths (held columns.entry)) sums scratch losses) }
{
    let memories = [(SUMS, sums), (n, scratch), (n, losses)];
    reporting::check_settings(n, settings, columns, &memories, n == 0)
}
