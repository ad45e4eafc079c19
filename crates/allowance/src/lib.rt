// The allowance of each course group. Eight groups share a table of counters; a report, a surface's report or a split of a group takes its pivot tests
// from the group's counter. Each call is promised, for every count, length and content, to answer and to leave what document 02 says.
#![tactic(auto)]

ghost use Rattle.std.specs.Prelude.{◌≡◌, ◌||◌, [], ◌∷◌, ltb};
ghost use Rattle.samples.specs.Held.{held};
ghost use Rattle.refusal.specs.Refusals.{by, first_of};
ghost use Rattle.refusal.specs.Named.{judged};
ghost use Rattle.lent.specs.Slices.{before, after, contents};
ghost use Rattle.reporting.specs.Outputs.{lent_outputs};
ghost use Rattle.surface.specs.Points.{held_points};
ghost use Rattle.split.specs.Splits.{lent_memory};
ghost use Rattle.allowance.specs.Table.{table_places, table_refusal, start_out, renew_out, TableIs};
ghost use Rattle.allowance.specs.Refusals.{no_group};
ghost use Rattle.allowance.specs.Charges.{GroupReportIs, GroupSurfaceIs, GroupSplitIs};

use book::Book;
use refusal::{Refusal, any_short, first_of};
use reporting::{Memory, Report, local};
use samples::Columns;
use settings::Settings;
use split::Break;
use surface::Points;

// The groups, the last of them, and the places of the table: a counter for each, then the quota.
pub const GROUPS: usize = 8;

const LAST: usize = 7;

pub const TABLE: usize = 9;

// 1, of start and renew.
fn check_table(table: usize) -> Result<(), Refusal>
    ensures { result ≡ judged (table_refusal table) }
{
    first_of(&[(any_short(&[(TABLE, table)]), Refusal::Short)])
}

// All eight counters, and the quota that they are refilled to.
#[tactic(auto, using(crate::proofs::Charging::table_long))]
pub fn start(quota: usize, table: &mut [usize]) -> Result<(), Refusal>
    ensures { TableIs (start_out quota (before table)) result (after table) }
{
    check_table(table.len())?;
    lent::fill(table, TABLE, quota);
    Ok(())
}

// All eight counters become the quota.
#[tactic(auto, using(crate::proofs::Charging::table_long))]
pub fn renew(table: &mut [usize]) -> Result<(), Refusal>
    ensures { TableIs (renew_out (before table)) result (after table) }
{
    check_table(table.len())?;
    let quota = table[GROUPS];
    lent::fill(table, GROUPS, quota);
    Ok(())
}

// 1, where the call itself or the table is lent too little, then 17.
fn check_group(short: bool, table: usize, group: usize) -> Result<(), Refusal>
    ensures { result ≡ judged (first_of (by (ltb table table_places || short) 1 ∷ by (no_group group) 17 ∷ [])) }
{
    let few = (table < TABLE) | short;
    first_of(&[(few, Refusal::Short), (LAST < group, Refusal::NoGroup)])
}

// The group's calls are not one function that is handed the call as a closure: of the memory that a closure writes nothing is known after it.

// A report of a group's book.
#[tactic(auto, using(crate::proofs::Charging::group_counted, crate::proofs::Charging::report_taken))]
pub fn group_report(
    group: usize,
    book: Book,
    settings: Settings,
    columns: Columns<'_>,
    sums: &[f64],
    memory: Memory<'_>,
    table: &mut [usize],
) -> Result<Report, Refusal>
    ensures { GroupReportIs group book.count settings (held columns.entry) sums.now result (lent_outputs memory) (contents table) }
{
    local!(memory);
    let lengths = columns.lengths();
    let short = report::report_short(book.count, &lengths, sums.len(), memory.places());
    check_group(short, table.len(), group)?;
    let left = table[group];
    let done = report::report_within(book, settings, left, columns, sums, memory);
    table[group] = left - done.tests;
    done.answer
}

// A report of a group's surface.
#[tactic(auto, using(crate::proofs::Charging::group_counted, crate::proofs::Charging::surface_taken))]
pub fn group_surface_report(
    group: usize,
    count: usize,
    settings: Settings,
    points: Points<'_>,
    memory: Memory<'_>,
    table: &mut [usize],
) -> Result<Report, Refusal>
    ensures { GroupSurfaceIs group count settings (held_points points.entry) result (lent_outputs memory) (contents table) }
{
    local!(memory);
    let short = surface::surface_short(count, &points.lengths(), memory.places());
    check_group(short, table.len(), group)?;
    let rest = table[group];
    let done = surface::surface_report_within(count, settings, rest, points, memory);
    table[group] = rest - done.tests;
    done.answer
}

// A split of a group's book.
#[tactic(auto, using(crate::proofs::Charging::group_counted, crate::proofs::Charging::split_taken_most))]
pub fn group_split(
    group: usize,
    book: Book,
    settings: Settings,
    columns: Columns<'_>,
    sums: &[f64],
    memory: split::Memory<'_>,
    table: &mut [usize],
) -> Result<Break, Refusal>
    ensures { GroupSplitIs group book.count settings (held columns.entry) sums.now result (lent_memory memory) (contents table) }
{
    // as `reporting::local!` does
    let split::Memory {
        scratch,
        before,
        after,
    } = memory;
    let memory = split::Memory {
        scratch,
        before,
        after,
    };
    let lengths = columns.lengths();
    let short = split::split_short(book.count, &lengths, sums.len(), memory.places());
    check_group(short, table.len(), group)?;
    let limit = table[group];
    let done = split::split_within(book, settings, limit, columns, sums, memory);
    table[group] = limit - done.tests;
    done.answer
}
