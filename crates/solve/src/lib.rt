// The solution and the inverse of the k by k corner of A, by elimination and back substitution, for every content of the lent sums.
// They stand in for polyfit's SVD in `solve_matrix` and for its inverse.
#![tactic(auto)]

mod columns;

ghost use Rattle.std.specs.Prelude.{◌≡◌, ◌++◌, ◌≤◌, ◌<◌, length, take, drop, replicate};
ghost use Rattle.basis.specs.Sizes.{matrix_places, max_terms, sum_places};
ghost use Rattle.loops.specs.Places.{each};
ghost use Rattle.value.specs.Numbers.{zero_f};
ghost use Rattle.solve.specs.Solve.{cell, eliminate as eliminate_f, back, solve as solve_f, ridge as ridge_f, put_column, inverse as inverse_f};
ghost use Rattle.solve.specs.Nested.{stopped, elimination, solution_of};

use basis::{CoefficientCount, MATRIX, TERMS};
use columns::{column_in, eliminate_all, put_identity};

// 2 to the power −48.
const PIVOT_RATIO: f64 = f64::from_bits(0x3CF0_0000_0000_0000);

// 2 to the power −52.
const EPSILON: f64 = f64::from_bits(0x3CB0_0000_0000_0000);

// Eliminates on the k by k corner of m, with b beside it, and is abandoned at the first pivot that is not greater than 2⁻⁴⁸ × its
// starting value. Answers how many pivots held.
pub fn eliminate(
    start: &[f64],
    k: CoefficientCount,
    m: &mut [f64; MATRIX],
    b: &mut [f64; TERMS],
) -> usize
    requires { (matrix_places ≤ length start.now) × (k.0 ≤ max_terms) }
    ensures { record { at = result; state = record { m = m.new; b = b.new } } ≡ eliminate_f start.now k.0 (record { m = m.old; b = b.old }) }
{
    let n = k.0;
    // Document 01 asks for loops with labels here, left at the first failing pivot.
    // The loops here and below count: M[r][c] stands at 16r + c, a place that is worked out from two indices.
    let mut held = n;
    'pivots: for p in 0..n {
        let pp = 16 * p + p;
        let least = PIVOT_RATIO * start[pp];
        if !(m[pp] > least) {
            held = p;
            break 'pivots;
        }
        'rows: for r in p + 1..n {
            let f = m[16 * r + p] / m[pp];
            'columns: for c in p + 1..n {
                m[16 * r + c] -= f * m[16 * p + c];
            }
            b[r] -= f * b[p];
        }
    }
    held
}

// From the last row of m up, b becomes the k coefficients.
pub fn back_substitution(k: CoefficientCount, m: &[f64; MATRIX], b: &mut [f64; TERMS])
    requires { k.0 ≤ max_terms }
    ensures { b.new ≡ back k.0 m.now b.old }
{
    let n = k.0;
    for r in (0..n).rev() {
        let mut v = b[r];
        for c in r + 1..n {
            v -= m[16 * r + c] * b[c];
        }
        b[r] = v / m[16 * r + r];
    }
}

// The first places of a become the values.
fn put_front(s: &[f64], a: &mut [f64])
    requires { length s.now ≤ length a.old }
    ensures { a.new ≡ s.now ++ drop (length s.now) a.old }
{
    a[..s.len()].copy_from_slice(s);
}

// How many pivots held, and the k coefficients if all did; +0 in every other place. The number is no flag: the pivot tests are counted by it.
#[derive(Clone, Copy)]
pub struct Solved {
    pub held: usize,
    pub c: [f64; TERMS],
}

// The k coefficients, from the corner of A and from g.
pub fn solve(sums: &[f64], k: CoefficientCount) -> Solved
    requires { (sum_places ≤ length sums.now) × (k.0 ≤ max_terms) }
    ensures { result ≡ solve_f sums.now k.0 }
{
    let mut m = [0.0; MATRIX];
    let mut b = [0.0; TERMS];
    let held = put_eliminated(sums, k, &mut m, &mut b);
    solution(held, &m, &b, k)
}

// Eliminates for k coefficients, from the corner of A and from g, in m and b, which are all +0 before. It serves all smaller counts too. Answers how many pivots
// held. It is made where it stands, since an array that is answered is copied.
pub fn put_eliminated(
    sums: &[f64],
    k: CoefficientCount,
    m: &mut [f64; MATRIX],
    b: &mut [f64; TERMS],
) -> usize
    requires { (sum_places ≤ length sums.now) × (k.0 ≤ max_terms) × (m.old ≡ replicate matrix_places zero_f) × (b.old ≡ replicate max_terms zero_f) }
    ensures { stopped result m.new b.new ≡ elimination sums.now k.0 }
{
    let n = k.0;
    // No step for k coefficients reads past the first k rows.
    put_front(&sums[..16 * n], &mut *m);
    put_front(&sums[MATRIX..][..n], &mut *b);
    eliminate(sums, k, m, b)
}

// The k coefficients, from an elimination of at least as many: how many pivots held, and M and b then.
pub fn solution(held: usize, m: &[f64; MATRIX], b: &[f64; TERMS], k: CoefficientCount) -> Solved
    requires { k.0 ≤ max_terms }
    ensures { result ≡ solution_of k.0 (stopped held m.now b.now) }
{
    let mut c = [0.0; TERMS];
    if held < k.0 {
        return Solved { held, c };
    }
    put_front(&b[..k.0], &mut c);
    back_substitution(k, m, &mut c);
    Solved { held: k.0, c }
}

// Adds 2⁻⁵² to each diagonal place of the corner.
fn ridge(k: CoefficientCount, m: &mut [f64; MATRIX])
    requires { k.0 ≤ max_terms }
    ensures { m.new ≡ ridge_f k.0 m.old }
{
    for i in 0..k.0 {
        m[16 * i + i] += EPSILON;
    }
}

// The first k diagonal places, then +0.
pub fn diagonal(k: CoefficientCount, m: &[f64; MATRIX]) -> [f64; TERMS]
    requires { k.0 ≤ max_terms }
    ensures { result ≡ each (λ i _. cell m.now i i) k.0 (replicate max_terms zero_f) }
{
    let mut d = [0.0; TERMS];
    for i in 0..k.0 {
        d[i] = m[16 * i + i];
    }
    d
}

// Column j of v becomes the first k places of b.
fn put_column(k: CoefficientCount, j: usize, b: &[f64; TERMS], v: &mut [f64; MATRIX])
    requires { (k.0 ≤ max_terms) × (j < max_terms) }
    ensures { v.new ≡ put_column k.0 j b.now v.old }
{
    for i in 0..k.0 {
        v[16 * i + j] = b[i];
    }
}

// The inverse of the corner of A with 2⁻⁵² first added to each diagonal place is put into v, which is all +0 before; every place beside the corner stays +0.
// Answers how many of its columns are made, all k or none where a pivot fails: a number, as document 01 makes one column after the other. Document 01 eliminates
// once per unit column; what decides a pivot is the same each time.
pub fn put_inverse(sums: &[f64], k: CoefficientCount, v: &mut [f64; MATRIX]) -> usize
    requires { (matrix_places ≤ length sums.now) × (k.0 ≤ max_terms) × (v.old ≡ replicate matrix_places zero_f) }
    ensures is { record { columns = result; v = v.new } ≡ inverse_f sums.now k.0 }
    ensures kept { result < k.0 → v.new ≡ v.old }
{
    let n = k.0;
    let mut m = [0.0; MATRIX];
    put_front(&sums[..MATRIX], &mut m);
    ridge(k, &mut m);
    let start = diagonal(k, &m);
    let mut units = [0.0; MATRIX];
    put_identity(k, &mut units);
    if eliminate_all(&start, k, &mut m, &mut units) < n {
        return 0;
    }
    for j in 0..n {
        let mut b = column_in(&units, j);
        back_substitution(k, &m, &mut b);
        put_column(k, j, &b, &mut *v);
    }
    n
}
