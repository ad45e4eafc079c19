// Refusals 1 to 9 of a split: the tests in checking order, of which the first that holds refuses.
ghost use Rattle.std.specs.Prelude.{◌≡◌};
ghost use Rattle.samples.specs.Columns.{samples_of, lengths};
ghost use Rattle.samples.specs.Held.{held};
ghost use Rattle.refusal.specs.Named.{judged, memories_of};
ghost use Rattle.refusal.specs.Tests.{too_short};
ghost use Rattle.split.specs.Refusals.{split_needs, split_refusal};

use crate::Places;
use basis::{SUMS, TERMS};
use refusal::{Refusal, too_short};
use reporting::check_settings;
use samples::Columns;
use settings::Settings;

// The sums, and all that a split writes: of each memory, how many places it needs and how many are lent.
fn split_memories(n: usize, sums: usize, p: Places) -> [(usize, usize); 4]
    ensures { memories_of result ≡ split_needs n sums p }
{
    [
        (SUMS, sums),
        (n, p.scratch),
        (TERMS, p.before),
        (TERMS, p.after),
    ]
}

// 1, of a split.
pub fn split_short(n: usize, columns: &[usize], sums: usize, p: Places) -> bool
    ensures { result ≡ too_short n columns.now (split_needs n sums p) }
{
    too_short(n, columns, &split_memories(n, sums, p))
}

pub fn check_split(
    n: usize,
    settings: Settings,
    columns: Columns<'_>,
    sums: usize,
    places: Places,
) -> Result<(), Refusal>
    ensures { result ≡ judged (split_refusal n settings (samples_of n (held columns.entry)) (lengths (held columns.entry)) sums places) }
{
    let memories = split_memories(n, sums, places);
    check_settings(n, settings, columns, &memories, n < 4)
}
