// Residuals, the attempt at a degree, and the choice of one.
#![tactic(auto)]

ghost use Rattle.std.specs.Prelude.{◌≡◌, [], ◌∷◌, ◌++◌, map, ◌+◌, ◌≤◌, ◌<◌, length, drop};
ghost use Rattle.basis.specs.Sizes.{highest_degree, max_terms, sum_places};
ghost use Rattle.loops.specs.Fold.{all_of};
ghost use Rattle.loops.specs.Within.{Within};
ghost use Rattle.value.specs.Absolute.{abs_f};
ghost use Rattle.value.specs.Finite.{finite};
ghost use Rattle.value.specs.Lanes.{Paired, lane};
ghost use Rattle.value.specs.Total.{total_f};
ghost use Rattle.statistics.specs.Losses.{losses};
ghost use Rattle.basis.specs.Counts.{count_of};
ghost use Rattle.monomial.specs.Rows.{row_at};
ghost use Rattle.monomial.specs.Reading.{rows_read};
ghost use Rattle.solve.specs.Solve.{solve};
ghost use Rattle.solve.specs.Nested.{stopped, elimination};
ghost use Rattle.score.specs.Score.{score_of};
ghost use Rattle.fit.specs.Residuals.{residual as residual_f, residuals};
ghost use Rattle.fit.specs.Solved.{scored_by, pivot_tests};
ghost use Rattle.fit.specs.Chosen.{counts_of, choice_of};
ghost use Rattle.fit.specs.Promises.{Attempted};

use basis::{CoefficientCount, Degree, MATRIX, TERMS};
use monomial::Rows;
use score::Criterion;
use solve::Solved;
use std::simd::prelude::*;

// y less the fitted value, of sample i.
fn residual(rows: Rows<'_>, k: CoefficientCount, c: &[f64; TERMS], i: usize) -> f64
    requires { (k.0 ≤ max_terms) × (i < length rows.ys.now) }
    ensures { result ≡ residual_f k.0 c.now (row_at rows.entry.basis rows.entry.xs.now rows.entry.zs.now rows.entry.ys.now i) }
{
    rows.ys[i] - monomial::fitted_at(rows.basis, k, c, rows.xs[i], rows.zs[i])
}

// The residuals of samples i and i + 1, each by the coefficients in its places of the vectors.
#[inline(always)]
fn pair_residuals(rows: Rows<'_>, k: CoefficientCount, c: &[f64x2; TERMS], i: usize) -> [f64; 2]
    requires { (k.0 ≤ max_terms) × Paired c.now × (i + 1 < length rows.ys.now) }
    ensures { result ≡ residual_f k.0 (lane 0 c.now) (row_at rows.entry.basis rows.entry.xs.now rows.entry.zs.now rows.entry.ys.now i) ∷ residual_f k.0 (lane 1 c.now) (row_at rows.entry.basis rows.entry.xs.now rows.entry.zs.now rows.entry.ys.now (i + 1)) ∷ [] }
{
    let v = monomial::pair_fitted(k, c, &rows.pair_terms(i));
    (f64x2::from_array([rows.ys[i], rows.ys[i + 1]]) - v).to_array()
}

// The first places of scratch become the sizes of the residuals. Answers whether every residual is finite. Two samples go side by side. Inlined, so that a
// number of coefficients that is written out gives a loop of straight code.
#[inline(always)]
fn sizes_by(rows: Rows<'_>, k: CoefficientCount, c: &[f64; TERMS], scratch: &mut [f64]) -> bool
    requires { (length rows.ys.now ≤ length scratch.old) × (k.0 ≤ max_terms) }
    ensures is { result ≡ all_of finite (residuals k.0 c.now (rows_read rows.entry)) }
    ensures written { scratch.new ≡ map abs_f (residuals k.0 c.now (rows_read rows.entry)) ++ drop (length rows.entry.ys.now) scratch.old }
{
    let n = rows.len();
    let mut all = true;
    // by index: a row is read off several columns, and of an `iter_mut` behind a `zip` a proof knows no element
    let pairs = n / 2;
    let both = monomial::pair_coefficients(c);
    for p in 0..pairs {
        let i = 2 * p;
        let r = pair_residuals(rows, k, &both, i);
        all = all & value::is_finite(r[0]) & value::is_finite(r[1]);
        let s = value::pair_abs(r[0], r[1]);
        scratch[i] = s[0];
        scratch[i + 1] = s[1];
    }
    // the last of an odd number
    for i in 2 * pairs..n {
        let r = residual(rows, k, c, i);
        all = all & value::is_finite(r);
        scratch[i] = value::abs(r);
    }
    all
}

// The same, with each number of coefficients written out.
pub fn sizes(rows: Rows<'_>, k: CoefficientCount, c: &[f64; TERMS], scratch: &mut [f64]) -> bool
    requires { (length rows.ys.now ≤ length scratch.old) × (k.0 ≤ max_terms) }
    ensures is { result ≡ all_of finite (residuals k.0 c.now (rows_read rows.entry)) }
    ensures written { scratch.new ≡ map abs_f (residuals k.0 c.now (rows_read rows.entry)) ++ drop (length rows.entry.ys.now) scratch.old }
{
    match k.0 {
        1 => sizes_by(rows, CoefficientCount(1), c, scratch),
        2 => sizes_by(rows, CoefficientCount(2), c, scratch),
        3 => sizes_by(rows, CoefficientCount(3), c, scratch),
        4 => sizes_by(rows, CoefficientCount(4), c, scratch),
        5 => sizes_by(rows, CoefficientCount(5), c, scratch),
        6 => sizes_by(rows, CoefficientCount(6), c, scratch),
        7 => sizes_by(rows, CoefficientCount(7), c, scratch),
        8 => sizes_by(rows, CoefficientCount(8), c, scratch),
        9 => sizes_by(rows, CoefficientCount(9), c, scratch),
        10 => sizes_by(rows, CoefficientCount(10), c, scratch),
        11 => sizes_by(rows, CoefficientCount(11), c, scratch),
        12 => sizes_by(rows, CoefficientCount(12), c, scratch),
        13 => sizes_by(rows, CoefficientCount(13), c, scratch),
        14 => sizes_by(rows, CoefficientCount(14), c, scratch),
        15 => sizes_by(rows, CoefficientCount(15), c, scratch),
        16 => sizes_by(rows, CoefficientCount(16), c, scratch),
        _ => sizes_by(rows, k, c, scratch),
    }
}

// What an attempt at k coefficients comes to: the pivots tested, and whether they are solved.
#[derive(Clone, Copy)]
pub struct Attempt {
    pub tests: usize,
    pub solved: bool,
}

// Of k coefficients from the sums: they are solved if all pivots held and their residuals are finite. Then the first places of scratch hold the sizes of the
// residuals.
pub fn judged(
    rows: Rows<'_>,
    sums: &[f64],
    k: CoefficientCount,
    s: &Solved,
    scratch: &mut [f64],
) -> Attempt
    requires { (length rows.ys.now ≤ length scratch.old) × (k.0 ≤ max_terms) × (s.now ≡ solve sums.now k.0) }
    ensures { Attempted sums.now (rows_read rows.entry) k.0 (length rows.entry.ys.now) scratch.old scratch.new result }
{
    if s.held < k.0 {
        return Attempt {
            tests: s.held + 1,
            solved: false,
        };
    }
    let solved = sizes(rows, k, &s.c, &mut *scratch);
    Attempt { tests: k.0, solved }
}

// The score of k coefficients by their residuals or the sizes of these.
pub fn score_on(criterion: Criterion, a: &[f64], k: CoefficientCount) -> f64
    ensures { result ≡ score_of criterion (length a.now) k.0 (total_f (losses a.now)) }
{
    score::score(criterion, a.len(), k, statistics::total_loss(a))
}

// The score of a coefficient count if it is solved, and the pivots tested.
#[derive(Clone, Copy)]
pub struct Tried {
    pub score: Option<f64>,
    pub tests: usize,
}

// Scores the k coefficients that were solved from the sums on the same samples.
fn trial(
    rows: Rows<'_>,
    sums: &[f64],
    k: CoefficientCount,
    s: &Solved,
    criterion: Criterion,
    scratch: &mut [f64],
) -> Tried
    requires { (length rows.ys.now ≤ length scratch.old) × (k.0 ≤ max_terms) × (s.now ≡ solve sums.now k.0) }
    ensures scored { result.score ≡ scored_by criterion sums.now (rows_read rows.entry) (rows_read rows.entry) k.0 }
    ensures tests { result.tests ≡ pivot_tests sums.now k.0 }
    ensures within { Within (length rows.entry.ys.now) scratch.old scratch.new }
{
    let a = judged(rows, sums, k, s, &mut *scratch);
    let tests = a.tests;
    if !a.solved {
        return Tried { score: None, tests };
    }
    let n = rows.ys.len();
    let total = statistics::total_of_finite(&scratch[..n]);
    let score = Some(score::score(criterion, n, k, total));
    Tried { score, tests }
}

// The chosen degree or none, its score (+0 where none is chosen), the least score, the number of solved degrees, and the number of pivot tests; and the
// score of each solved degree up to the bound.
#[derive(Clone, Copy)]
pub struct Choice {
    pub chosen: Option<Degree>,
    pub score: f64,
    pub least: f64,
    pub solved: usize,
    pub tests: usize,
    pub scores: [Option<f64>; TERMS],
}

// The choice among the degrees 0 to the bound, all from one elimination, whose state is lent: how many pivots held, and M and g then. Only scores are kept.
pub fn choose_from(
    rows: Rows<'_>,
    sums: &[f64],
    bound: Degree,
    criterion: Criterion,
    held: usize,
    m: &[f64; MATRIX],
    g: &[f64; TERMS],
    scratch: &mut [f64],
) -> Choice
    requires degrees { (length rows.ys.now ≤ length scratch.old) × (sum_places ≤ length sums.now) × (bound.0 ≤ highest_degree) × (count_of rows.basis bound.0 ≤ max_terms) }
    requires eliminated { stopped held m.now g.now ≡ elimination sums.now (count_of rows.basis bound.0) }
    ensures is { result ≡ choice_of criterion sums.now (rows_read rows.entry) (counts_of rows.entry.basis bound.0) }
    ensures within { Within (length rows.entry.ys.now) scratch.old scratch.new }
{
    let b = bound.0 + 1;
    let mut scores = [None; TERMS];
    let mut tests = 0;
    // by index, the degree: of an `iter_mut` behind `enumerate` a proof knows no element
    for d in 0..b {
        let k = Degree(d).k(rows.basis);
        let s = solve::solution(held, m, g, k);
        let t = trial(rows, sums, k, &s, criterion, &mut *scratch);
        scores[d] = t.score;
        tests = tests + t.tests;
    }
    let tried = &scores[..b];
    let chosen = choice::lowest(tried);
    let score = choice::score_of(tried, chosen);
    let least = choice::least(tried);
    let solved = choice::solved_of(tried);
    Choice {
        chosen,
        score,
        least,
        solved,
        tests,
        scores,
    }
}

// The same, with the elimination made.
pub fn choose(
    rows: Rows<'_>,
    sums: &[f64],
    bound: Degree,
    criterion: Criterion,
    scratch: &mut [f64],
) -> Choice
    requires { (length rows.ys.now ≤ length scratch.old) × (sum_places ≤ length sums.now) × (bound.0 ≤ highest_degree) × (count_of rows.basis bound.0 ≤ max_terms) }
    ensures is { result ≡ choice_of criterion sums.now (rows_read rows.entry) (counts_of rows.entry.basis bound.0) }
    ensures within { Within (length rows.entry.ys.now) scratch.old scratch.new }
{
    let most = bound.k(rows.basis);
    let mut m = [0.0; MATRIX];
    let mut g = [0.0; TERMS];
    let held = solve::put_eliminated(sums, most, &mut m, &mut g);
    choose_from(rows, sums, bound, criterion, held, &m, &g, scratch)
}
