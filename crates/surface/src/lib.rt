// Document 02's surface: fit, report and band of samples with two coordinates, x and z, and y, read from lent columns. Each is promised, for every count,
// length and content, to answer and to leave what the document says. What fits, chooses, measures and writes is the curve's own code.
#![tactic(auto)]

mod refusals;

ghost use Rattle.std.specs.Prelude.{◌≡◌, ◌≤◌, length};
ghost use Rattle.basis.specs.Sizes.{sum_places};
ghost use Rattle.basis.specs.declared.Basis.TheVariants.{Surface};
ghost use Rattle.monomial.specs.Reading.{rows_read, weighted_read};
ghost use Rattle.monomial.specs.Sums.{sums_of};
ghost use Rattle.lent.specs.Slices.{before, contents};
ghost use Rattle.measure.specs.Fits.{FitIs};
ghost use Rattle.measure.specs.Bands.{BandIs};
ghost use Rattle.reporting.specs.Outputs.{lent_outputs};
ghost use Rattle.surface.specs.Points.{held_points, point_lengths, points_of, rows_of_points, surface_sums};
ghost use Rattle.surface.specs.Refusals.{highest_total};
ghost use Rattle.surface.specs.Limited.{SurfaceWithinIs};
ghost use Rattle.surface.specs.Surfaces.{last_tried, surface_fit_out, surface_band_out, SurfaceReportIs};

use basis::{Basis, Degree, SUMS};
use covariance::Band;
use monomial::Rows;
use refusal::Refusal;
pub use refusals::report_short as surface_short;
use reporting::{Counted, Memory, Report, local};
use settings::Settings;
use statistics::{Confidence, Tolerance};

// The columns that a surface's samples stand in: x, z and y. A type of its own, so that they are never taken for a book's, whose third column is weights.
#[derive(Clone, Copy)]
pub struct Points<'a> {
    pub xs: &'a [f64],
    pub zs: &'a [f64],
    pub ys: &'a [f64],
}

impl<'a> Points<'a> {
    // How many places each has.
    pub fn lengths(self) -> [usize; 3]
        ensures { result ≡ point_lengths (held_points self.entry) }
    {
        [self.xs.len(), self.zs.len(), self.ys.len()]
    }

    // The rows of the first n samples.
    fn rows(self, n: usize) -> Rows<'a>
        requires { (n ≤ length self.xs.now) × (n ≤ length self.zs.now) × (n ≤ length self.ys.now) }
        ensures rows { rows_read result ≡ rows_of_points (points_of n (held_points self.entry)) }
        ensures sums { sums_of (weighted_read result) ≡ surface_sums (points_of n (held_points self.entry)) }
        ensures long { length result.ys.now ≡ n }
        ensures surface { result.basis ≡ Surface }
    {
        Rows::surface(n, self.xs, self.zs, self.ys)
    }
}

// The 272 sums over the rows, from +0.
fn sums_of(rows: Rows<'_>) -> [f64; SUMS]
    ensures long { length result ≡ sum_places }
    ensures is { result ≡ sums_of (weighted_read rows.entry) }
{
    let mut sums = [0.0; SUMS];
    monomial::fold_sums(rows, &mut sums);
    sums
}

// The last total degree up to the bound that has at most n terms.
fn last_tried(n: usize, bound: Degree) -> Degree
    requires { bound.0 ≤ highest_total }
    ensures { result.0 ≡ last_tried n bound.0 }
{
    let mut last = Degree(0);
    for d in 0..bound.0 {
        let next = Degree(d + 1);
        let k = next.k(Basis::Surface);
        let fits = k.0 <= n;
        if fits {
            last = next;
        }
    }
    last
}

// The fit of the asked total degree: its 15 coefficients are written, +0 from k on.
pub fn surface_fit(
    count: usize,
    degree: Degree,
    points: Points<'_>,
    scratch: &mut [f64],
    coefficients: &mut [f64],
) -> Result<Degree, Refusal>
    ensures { FitIs (surface_fit_out count degree.0 (held_points points.entry) (before scratch) (before coefficients)) result (contents scratch) (contents coefficients) }
{
    refusals::check_fit(count, degree, points, scratch.len(), coefficients.len())?;
    let rows = points.rows(count);
    let sums = sums_of(rows);
    measure::solve_at(rows, degree, &sums, scratch, coefficients)
}

// The band at x and z of the surface of the asked total degree.
pub fn surface_band(
    count: usize,
    x: f64,
    z: f64,
    degree: Degree,
    confidence: Confidence,
    tolerance: Tolerance,
    points: Points<'_>,
    scratch: &mut [f64],
) -> Result<Band, Refusal>
    ensures { BandIs (surface_band_out count x z degree.0 confidence tolerance (held_points points.entry) (before scratch)) result (contents scratch) }
{
    refusals::check_band(
        count,
        x,
        z,
        degree,
        confidence,
        tolerance,
        points,
        scratch.len(),
    )?;
    let rows = points.rows(count);
    let sums = sums_of(rows);
    measure::band_of(rows, x, z, degree, confidence, tolerance, &sums, scratch)
}

// The report of the total degree that is chosen among those tried, within a limit of pivot tests. Nothing but scratch is written before 12 is ruled out.
pub fn surface_report_within(
    count: usize,
    settings: Settings,
    limit: usize,
    points: Points<'_>,
    memory: Memory<'_>,
) -> Counted
    ensures { SurfaceWithinIs count settings limit (held_points points.entry) result (lent_outputs memory) }
{
    local!(memory);
    if let Err(refusal) = refusals::check_report(count, settings, points, memory.places()) {
        return Counted {
            answer: Err(refusal),
            tests: 0,
        };
    }
    let bound = settings.bound;
    let most = statistics::max_degree(bound, count);
    let last = last_tried(count, most);
    let rows = points.rows(count);
    let sums = sums_of(rows);
    let counted = reporting::report_rows(rows, last, settings, limit, &sums, memory);
    counted
}

// The report of the total degree that is chosen among those tried.
pub fn surface_report(
    count: usize,
    settings: Settings,
    points: Points<'_>,
    memory: Memory<'_>,
) -> Result<Report, Refusal>
    ensures { SurfaceReportIs count settings (held_points points.entry) result (lent_outputs memory) }
{
    local!(memory);
    surface_report_within(count, settings, reporting::NO_LIMIT, points, memory).answer
}
