// A report over rows of any basis, of a curve or of a surface: it chooses a degree, measures it, and writes coefficients, errors, pruning bytes, bands and
// outlier bytes.
#![tactic(auto)]

mod refusals;

ghost use Rattle.std.specs.Prelude.{◌≡◌, ◌≤◌, length, replicate, Ok};
ghost use Rattle.basis.specs.Sizes.{highest_degree, matrix_places, max_terms, sum_places};
ghost use Rattle.basis.specs.Counts.{count_of};
ghost use Rattle.value.specs.Numbers.{zero_f};
ghost use Rattle.monomial.specs.Reading.{rows_read};
ghost use Rattle.fit.specs.Chosen.{choice_of, counts_of};
ghost use Rattle.measure.specs.Places.{term_places};
ghost use Rattle.lent.specs.Slices.{before, after};
ghost use Rattle.reporting.specs.Chosen.{Chooses};
ghost use Rattle.reporting.specs.Outputs.{RoomFor, lent_outputs, outputs_now, places_of};
ghost use Rattle.reporting.specs.Reports.{Does, written_by};
ghost use Rattle.reporting.specs.Limited.{DoesWithin, limited_up_to};

use basis::{Degree, MATRIX, TERMS};
use covariance::Spread;
use fit::Choice;
use monomial::Rows;
use refusal::Refusal;
pub use refusals::check_settings;
use score::Criterion;
use settings::Settings;

// How many places are lent of each memory that a report writes.
#[derive(Clone, Copy)]
pub struct Places {
    pub scratch: usize,
    pub coefficients: usize,
    pub errors: usize,
    pub pruned: usize,
    pub lower: usize,
    pub upper: usize,
    pub outliers: usize,
}

// All that a report writes, as it is lent to a call.
#[derive(Drop)]
pub struct Memory<'a> {
    pub scratch: &'a mut [f64],
    pub coefficients: &'a mut [f64],
    pub errors: &'a mut [f64],
    pub pruned: &'a mut [u8],
    pub lower: &'a mut [f64],
    pub upper: &'a mut [f64],
    pub outliers: &'a mut [u8],
}

// A parameter's memory as a local: what a call leaves in the fields of a local is known, and not what it leaves in those of a parameter that is moved whole.
// The call is then no function's last expression: the local has to outlive it.
#[macro_export]
macro_rules! local {
    ($memory:ident) => {
        let $crate::Memory { scratch, coefficients, errors, pruned, lower, upper, outliers } = $memory;
        let $memory = $crate::Memory { scratch, coefficients, errors, pruned, lower, upper, outliers };
    };
}

impl Memory<'_> {
    // How many places are lent of each.
    pub fn places(&self) -> Places
        ensures { result ≡ places_of (outputs_now self.now) }
    {
        Places {
            scratch: self.scratch.len(),
            coefficients: self.coefficients.len(),
            errors: self.errors.len(),
            pruned: self.pruned.len(),
            lower: self.lower.len(),
            upper: self.upper.len(),
            outliers: self.outliers.len(),
        }
    }
}

// What a report answers: the chosen degree, the number of solved degrees, of outliers and of pruned terms.
#[derive(Clone, Copy)]
pub struct Report {
    pub degree: Degree,
    pub solved: usize,
    pub outliers: usize,
    pub pruned: usize,
}

// More pivot tests than any report makes: 16 degrees of at most 16 terms.
pub const NO_LIMIT: usize = 256;

// What a report within a limit answers, and the pivot tests that it takes: none where it is refused by 1 to 9 or by 16.
#[derive(Clone, Copy)]
pub struct Counted {
    pub answer: Result<Report, Refusal>,
    pub tests: usize,
}

// The choice, and the chosen degree if it was measured; or the refusal, 11 or 12.
#[derive(Clone, Copy)]
pub struct Chosen {
    pub choice: Choice,
    pub found: Result<Degree, Refusal>,
}

// Chooses among the degrees 0 to the last one, and measures the chosen one, solved again from the same elimination: its coefficients and their covariance are put
// where they are lent. `covariance` is all +0 before; where it is refused both stand as they were. Of scratch, only the first n places change.
pub fn choose(
    rows: Rows<'_>,
    last: Degree,
    criterion: Criterion,
    sums: &[f64],
    scratch: &mut [f64],
    c: &mut [f64; TERMS],
    covariance: &mut [f64; MATRIX],
) -> Chosen
    requires { (length rows.ys.now ≤ length scratch.old) × (sum_places ≤ length sums.now) × (last.0 ≤ highest_degree) × (count_of rows.basis last.0 ≤ max_terms) × (covariance.old ≡ replicate matrix_places zero_f) }
    ensures { Chooses rows.entry.basis (choice_of criterion sums.now (rows_read rows.entry) (counts_of rows.entry.basis last.0)) (length rows.entry.ys.now) (rows_read rows.entry) sums.now (before scratch) (after scratch) c.old c.new covariance.old covariance.new result }
{
    let most = last.k(rows.basis);
    let mut m = [0.0; MATRIX];
    let mut g = [0.0; TERMS];
    let held = solve::put_eliminated(sums, most, &mut m, &mut g);
    let choice = fit::choose_from(rows, sums, last, criterion, held, &m, &g, &mut *scratch);
    let Some(degree) = choice.chosen else {
        let found = Err(Refusal::NoneChosen);
        return Chosen { choice, found };
    };
    let k = degree.k(rows.basis);
    let solved = solve::solution(held, &m, &g, k);
    match measure::measure(rows, sums, k, &solved, scratch, c, covariance) {
        Ok(()) => Chosen {
            choice,
            found: Ok(degree),
        },
        Err(refusal) => Chosen {
            choice,
            found: Err(refusal),
        },
    }
}

// Writes what a report of this degree writes, from its coefficients c and their covariance v, and answers it.
pub fn write(
    rows: Rows<'_>,
    settings: Settings,
    degree: Degree,
    c: &[f64; TERMS],
    v: &[f64; MATRIX],
    solved: usize,
    memory: Memory<'_>,
) -> Report
    requires degree_in_bounds { (degree.0 ≤ highest_degree) × (count_of rows.basis degree.0 ≤ length rows.ys.now) × (count_of rows.basis degree.0 ≤ max_terms) }
    requires outputs_fit { RoomFor rows.basis (length rows.ys.now) (outputs_now memory) }
    ensures { Does (written_by rows.entry.basis (length rows.entry.ys.now) settings (rows_read rows.entry) degree.0 solved c.now v.now) (Ok result) (lent_outputs memory) }
{
    let Memory {
        scratch,
        coefficients,
        errors,
        pruned,
        lower,
        upper,
        outliers,
    } = memory;
    let places = measure::term_places(rows.basis);
    let n = rows.ys.len();
    let k = degree.k(rows.basis);
    let df = n - k.0;
    let confidence = settings.confidence;
    let tolerance = settings.tolerance;
    let t = statistics::t_score(confidence, df);
    let z = statistics::z_score(confidence);
    let sd = covariance::deviation_read(tolerance, rows.ys);
    let spread = Spread { tolerance, z, sd };
    let e = covariance::errors(k, v);
    lent::clear(scratch, n);
    lent::put_first(&c[..places], coefficients);
    lent::put_first(&e[..places], errors);
    let terms = covariance::put_pruned(settings.pruning, k, c, &e, t, &mut pruned[..places]);
    let marks = covariance::put_bands(rows, k, c, v, spread, lower, upper, outliers);
    Report {
        degree,
        solved,
        outliers: marks,
        pruned: terms,
    }
}

// A report past refusals 1 to 9, within a limit of pivot tests, of the degrees 0 to the last one. Nothing but scratch is written before 12 is ruled out.
pub fn report_rows(
    rows: Rows<'_>,
    last: Degree,
    settings: Settings,
    limit: usize,
    sums: &[f64],
    memory: Memory<'_>,
) -> Counted
    requires last_in_bounds { (sum_places ≤ length sums.now) × (last.0 ≤ highest_degree) × (count_of rows.basis last.0 ≤ length rows.ys.now) × (count_of rows.basis last.0 ≤ max_terms) }
    requires outputs_fit { RoomFor rows.basis (length rows.ys.now) (outputs_now memory) }
    ensures { DoesWithin (limited_up_to rows.entry.basis (length rows.entry.ys.now) settings limit last.0 (rows_read rows.entry) sums.now) result (lent_outputs memory) }
{
    local!(memory);
    let criterion = settings.criterion;
    let mut c = [0.0; TERMS];
    let mut covariance = [0.0; MATRIX];
    let m = choose(
        rows,
        last,
        criterion,
        sums,
        &mut *memory.scratch,
        &mut c,
        &mut covariance,
    );
    if limit < m.choice.tests {
        lent::clear(memory.scratch, rows.ys.len());
        return Counted {
            answer: Err(Refusal::OverLimit),
            tests: 0,
        };
    }
    let degree = match m.found {
        Ok(degree) => degree,
        Err(refusal) => {
            lent::clear(memory.scratch, rows.ys.len());
            return Counted {
                answer: Err(refusal),
                tests: m.choice.tests,
            };
        }
    };
    let solved = m.choice.solved;
    let report = write(rows, settings, degree, &c, &covariance, solved, memory);
    Counted {
        answer: Ok(report),
        tests: m.choice.tests,
    }
}
