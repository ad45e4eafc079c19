// A bound on all residuals of a curve at once: where it is finite so are they, and none of them need be worked out to know it.
ghost use Rattle.std.specs.Prelude.{◌≡◌, ◌≤◌, ◌<◌, length};
ghost use Rattle.basis.specs.Sizes.{max_terms};
ghost use Rattle.loops.specs.All.{All};
ghost use Rattle.loops.specs.Fold.{all_of};
ghost use Rattle.loops.specs.Within.{Within};
ghost use Rattle.value.specs.Finite.{finite};
ghost use Rattle.monomial.specs.Reading.{rows_read};
ghost use Rattle.fit.specs.Residuals.{residuals};
ghost use Rattle.folds.specs.Reach.{Bounds, Reached, farthest};

use basis::{Basis, CoefficientCount, TERMS};
use monomial::Rows;

// No x is farther from 0 than the one, and no y than the other, where these are finite.
#[derive(Clone, Copy)]
pub struct Reach {
    pub across: f64,
    pub along: f64,
}

// A bound on the sizes of numbers: the greatest, or infinity where one of them is not finite. That it is no greater is not promised: it would cost time alone.
fn greatest(a: &[f64]) -> f64
    ensures { All (Bounds result) a.now }
{
    let mut most = 0.0;
    for v in a {
        let size = value::abs(*v);
        most = if size <= most {
            most
        } else if most < size {
            size
        } else {
            f64::INFINITY
        };
    }
    most
}

impl Reach {
    // That of rows.
    pub fn of(rows: Rows<'_>) -> Reach
        ensures { Reached rows.entry result }
    {
        Reach {
            across: greatest(rows.xs),
            along: greatest(rows.ys),
        }
    }

    // The farthest that a residual of a curve with these coefficients can lie from 0.
    fn farthest(self, k: CoefficientCount, c: &[f64; TERMS]) -> f64
        requires { k.0 ≤ max_terms }
        ensures { result ≡ farthest self k.0 c.now }
    {
        let sizes = c.map(value::abs);
        self.along + monomial::curve_at(k, &sizes, self.across)
    }
}

// Whether all residuals are finite. Where the farthest is not, they are worked out, in the first places of scratch.
pub fn all_finite(
    rows: Rows<'_>,
    reach: Reach,
    k: CoefficientCount,
    c: &[f64; TERMS],
    scratch: &mut [f64],
) -> bool
    requires { (length rows.ys.now ≤ length scratch.old) × (k.0 ≤ max_terms) × Reached rows reach }
    ensures is { result ≡ all_of finite (residuals k.0 c.now (rows_read rows.entry)) }
    ensures within { Within (length rows.entry.ys.now) scratch.old scratch.new }
{
    match rows.basis {
        Basis::Curve if value::is_finite(reach.farthest(k, c)) => true,
        _ => fit::sizes(rows, k, c, scratch),
    }
}
