// The report of the book: the degrees of its bound, from its columns and sums. It is promised, for every count, length and content, to answer and to leave
// what document 01 says, and within a limit of pivot tests what document 02 says.
#![tactic(auto)]

mod refusals;

ghost use Rattle.samples.specs.Held.{held};
ghost use Rattle.reporting.specs.Outputs.{lent_outputs, outputs};
ghost use Rattle.report.specs.Reports.{ReportIs};
ghost use Rattle.report.specs.Limited.{WithinIs};

use basis::SUMS;
use book::Book;
use monomial::Rows;
use refusal::Refusal;
pub use refusals::report_short;
use reporting::{Counted, Memory, Report, local};
use samples::Columns;
use settings::Settings;

// A report of the book within a limit of pivot tests. Nothing but scratch is written before 12 is ruled out.
pub fn report_within(
    book: Book,
    settings: Settings,
    limit: usize,
    columns: Columns<'_>,
    sums: &[f64],
    memory: Memory<'_>,
) -> Counted
    ensures { WithinIs book.count settings limit (held columns.entry) sums.now result (lent_outputs memory) }
{
    local!(memory);
    let n = book.count;
    if let Err(refusal) = refusals::check_report(
        n,
        settings,
        columns,
        sums.len(),
        memory.places(),
    ) {
        return Counted {
            answer: Err(refusal),
            tests: 0,
        };
    }
    let last = statistics::max_degree(settings.bound, n);
    let rows = Rows::curve(n, columns);
    let counted = reporting::report_rows(rows, last, settings, limit, &sums[..SUMS], memory);
    counted
}

// A report of the book.
pub fn report(
    book: Book,
    settings: Settings,
    columns: Columns<'_>,
    sums: &[f64],
    memory: Memory<'_>,
) -> Result<Report, Refusal>
    ensures { ReportIs book.count settings (held columns.entry) sums.now result (lent_outputs memory) }
{
    local!(memory);
    report_within(book, settings, reporting::NO_LIMIT, columns, sums, memory).answer
}

// A report of the book into seven slices, for a caller whose slices are parts of others: of such parts in a struct nothing is known after the call.
pub fn report_into(
    book: Book,
    settings: Settings,
    columns: Columns<'_>,
    sums: &[f64],
    scratch: &mut [f64],
    coefficients: &mut [f64],
    errors: &mut [f64],
    pruned: &mut [u8],
    lower: &mut [f64],
    upper: &mut [f64],
    outliers: &mut [u8],
) -> Result<Report, Refusal>
    ensures { ReportIs book.count settings (held columns.entry) sums.now result (outputs scratch coefficients errors pruned lower upper outliers) }
{
    let memory = Memory {
        scratch,
        coefficients,
        errors,
        pruned,
        lower,
        upper,
        outliers,
    };
    report(book, settings, columns, sums, memory)
}
