// Refusals 1 to 9 of a surface's calls: the tests in checking order, of which the first that holds refuses.
ghost use Rattle.std.specs.Prelude.{◌≡◌, not, ◌&&◌, [], ◌∷◌};
ghost use Rattle.refusal.specs.Refusals.{by, first_of};
ghost use Rattle.refusal.specs.Named.{judged, memories_of};
ghost use Rattle.refusal.specs.Tests.{too_short};
ghost use Rattle.surface.specs.Points.{held_points, point_lengths, points_of};
ghost use Rattle.surface.specs.Refusals.{points_finite, surface_report_needs, total_too_high, total_bound_too_high, surface_fit_refusal, surface_report_refusal, surface_band_refusal};

use crate::Points;
use basis::{Basis, Degree};
use refusal::{Refusal, check_samples, first_of, score_finite, tolerance_finite, too_short};
use reporting::Places;
use samples::Columns;
use settings::Settings;
use statistics::{Confidence, DegreeBound, Tolerance};

// The highest total degree, and the places of its terms.
pub const HIGHEST_TOTAL: usize = 4;

const PLACES: usize = 15;

// All that a report writes, with a surface's places and no sums, which it folds itself: of each memory, how many places it needs and how many are lent.
fn report_memories(n: usize, p: Places) -> [(usize, usize); 7]
    ensures { memories_of result ≡ surface_report_needs n p }
{
    [
        (n, p.scratch),
        (PLACES, p.coefficients),
        (PLACES, p.errors),
        (PLACES, p.pruned),
        (n, p.lower),
        (n, p.upper),
        (n, p.outliers),
    ]
}

// 1, of a report.
pub fn report_short(n: usize, columns: &[usize], p: Places) -> bool
    ensures { result ≡ too_short n columns.now (surface_report_needs n p) }
{
    too_short(n, columns, &report_memories(n, p))
}

// 8, of an asked total degree.
fn total_too_high(n: usize, degree: Degree) -> bool
    ensures { result ≡ total_too_high n degree.0 }
{
    HIGHEST_TOTAL < degree.0 || n < degree.k(Basis::Surface).0
}

// 8, of a bound.
fn total_bound_too_high(bound: DegreeBound, n: usize) -> bool
    ensures { result ≡ total_bound_too_high bound n }
{
    HIGHEST_TOTAL < statistics::max_degree(bound, n).0
}

// 1 and 4, which ask the same of any three columns: x, z and y are handed on as x, y and weight.
fn check_points(
    n: usize,
    points: Points<'_>,
    memories: &[(usize, usize)],
    given: bool,
) -> Result<(), Refusal>
    ensures { result ≡ judged (first_of (by (too_short n (point_lengths (held_points points.entry)) (memories_of memories.now)) 1 ∷ by (not (given && points_finite (points_of n (held_points points.entry)))) 4 ∷ [])) }
{
    let columns = Columns {
        xs: points.xs,
        ys: points.zs,
        ws: points.ys,
    };
    check_samples(n, columns, memories, given)
}

pub fn check_fit(
    n: usize,
    degree: Degree,
    points: Points<'_>,
    scratch: usize,
    coefficients: usize,
) -> Result<(), Refusal>
    ensures { result ≡ judged (surface_fit_refusal n (points_of n (held_points points.entry)) (point_lengths (held_points points.entry)) degree.0 scratch coefficients) }
{
    let memories = [(n, scratch), (PLACES, coefficients)];
    check_points(n, points, &memories, true)?;
    first_of(&[
        (n == 0, Refusal::TooFew),
        (total_too_high(n, degree), Refusal::DegreeTooHigh),
    ])
}

pub fn check_report(
    n: usize,
    settings: Settings,
    points: Points<'_>,
    places: Places,
) -> Result<(), Refusal>
    ensures { result ≡ judged (surface_report_refusal n (points_of n (held_points points.entry)) (point_lengths (held_points points.entry)) settings places) }
{
    let given = score_finite(settings.confidence) & tolerance_finite(settings.tolerance);
    check_points(n, points, &report_memories(n, places), given)?;
    first_of(&[
        (n == 0, Refusal::TooFew),
        (
            total_bound_too_high(settings.bound, n),
            Refusal::DegreeTooHigh,
        ),
    ])
}

pub fn check_band(
    n: usize,
    x: f64,
    z: f64,
    degree: Degree,
    confidence: Confidence,
    tolerance: Tolerance,
    points: Points<'_>,
    scratch: usize,
) -> Result<(), Refusal>
    ensures { result ≡ judged (surface_band_refusal n (points_of n (held_points points.entry)) (point_lengths (held_points points.entry)) x z degree.0 confidence tolerance scratch) }
{
    let given = value::is_finite(x)
        & value::is_finite(z)
        & score_finite(confidence)
        & tolerance_finite(tolerance);
    check_points(n, points, &[(n, scratch)], given)?;
    let outside = refusal::outside(x, &points.xs[..n]) | refusal::outside(z, &points.zs[..n]);
    first_of(&[
        (n == 0, Refusal::TooFew),
        (total_too_high(n, degree), Refusal::DegreeTooHigh),
        (outside, Refusal::Outside),
    ])
}
