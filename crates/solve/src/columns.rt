// Right sides that lie beside each other, as columns of a matrix.
ghost use Rattle.std.specs.Prelude.{◌≡◌, ℕ, ◌≤◌, ◌<◌, List, Float, replicate};
ghost use Rattle.basis.specs.Sizes.{matrix_places, max_terms};
ghost use Rattle.value.specs.Numbers.{zero_f};
ghost use Rattle.solve.specs.Solve.{eliminate as eliminate_f, unit};
ghost use Rattle.solve.specs.Columns.{Diagonal, column_in};

use crate::PIVOT_RATIO;
use basis::{CoefficientCount, MATRIX, TERMS};

// Eliminates as `eliminate` does, with all k columns of v beside the corner, from the pivots' starting values: one elimination of m serves them all. The product of
// a factor and a place is taken off in each column where the elimination of that column alone takes it off.
pub fn eliminate_all(
    start: &[f64; TERMS],
    k: CoefficientCount,
    m: &mut [f64; MATRIX],
    v: &mut [f64; MATRIX],
) -> usize
    requires { k.0 ≤ max_terms }
    ensures { (s : List Float) → Diagonal k.0 s start.now → (j : ℕ) → j < k.0 → record { at = result; state = record { m = m.new; b = column_in v.new j } } ≡ eliminate_f s k.0 (record { m = m.old; b = column_in v.old j }) }
{
    let n = k.0;
    let mut held = n;
    'pivots: for p in 0..n {
        let pp = 16 * p + p;
        let least = PIVOT_RATIO * start[p];
        if !(m[pp] > least) {
            held = p;
            break 'pivots;
        }
        'rows: for r in p + 1..n {
            let f = m[16 * r + p] / m[pp];
            'columns: for c in p + 1..n {
                m[16 * r + c] -= f * m[16 * p + c];
            }
            'beside: for c in 0..n {
                v[16 * r + c] -= f * v[16 * p + c];
            }
        }
    }
    held
}

// The first k columns of v, which is all +0 before, become unit columns.
pub fn put_identity(k: CoefficientCount, v: &mut [f64; MATRIX])
    requires { (k.0 ≤ max_terms) × (v.old ≡ replicate matrix_places zero_f) }
    ensures { (j : ℕ) → j < k.0 → column_in v.new j ≡ unit j }
{
    for i in 0..k.0 {
        v[16 * i + i] = 1.0;
    }
}

// Column j of v.
pub fn column_in(v: &[f64; MATRIX], j: usize) -> [f64; TERMS]
    requires { j < max_terms }
    ensures { result ≡ column_in v.now j }
{
    let mut b = [0.0; TERMS];
    for r in 0..TERMS {
        b[r] = v[16 * r + j];
    }
    b
}
