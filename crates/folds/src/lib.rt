// k-fold cross-validation: polyfit's `new_kfold_cross_validated`.
#![tactic(auto)]

mod reach;

ghost use Rattle.std.specs.Prelude.{◌≡◌, ◌+◌, ◌<◌, ◌≤◌, length, take, drop};
ghost use Rattle.basis.specs.Sizes.{highest_degree, max_terms, sum_places};
ghost use Rattle.loops.specs.Within.{Within};
ghost use Rattle.basis.specs.declared.Basis.TheVariants.{Curve};
ghost use Rattle.monomial.specs.Reading.{rows_read, weighted_read};
ghost use Rattle.monomial.specs.Sums.{add_rows, sums_of};
ghost use Rattle.monomial.specs.Corner.{SameCorner};
ghost use Rattle.choice.specs.Choice.{chosen_of};
ghost use Rattle.value.specs.Total.{total_f};
ghost use Rattle.statistics.specs.Losses.{losses};
ghost use Rattle.solve.specs.Solve.{solve as solve_f};
ghost use Rattle.score.specs.Score.{score_of};
ghost use Rattle.fit.specs.Residuals.{residuals};
ghost use Rattle.fit.specs.Solved.{scored_by};
ghost use Rattle.folds.specs.Reach.{Reached};
ghost use Rattle.folds.specs.Folds.{start_of, end_of, own_of, degree_scored, mean_of, validated_choice};
ghost use Rattle.folds.specs.Tallies.{added, mean_at, Tallied};

use basis::{Basis, CoefficientCount, Degree, MATRIX, SUMS, TERMS};
use monomial::Rows;
use reach::Reach;
use score::Criterion;
use solve::Solved;

// Where fold f begins.
fn start_of(n: usize, folds: usize, f: usize) -> usize
    requires { f < folds }
    ensures { result ≡ start_of n folds f }
{
    f * (n / folds)
}

// Where it ends: the last takes the rest.
fn end_of(n: usize, folds: usize, f: usize) -> usize
    requires { f < folds }
    ensures { result ≡ end_of n folds f }
{
    let next = f + 1;
    if next == folds {
        return n;
    }
    next * (n / folds)
}

// The sums over the rows before a fold, with those from its end on added. Only the corner of k rows and columns is made, which is all that the degrees
// below k read.
fn fold_others(rows: Rows<'_>, end: usize, k: CoefficientCount, before: [f64; SUMS]) -> [f64; SUMS]
    requires { (end ≤ length rows.ys.now) × (k.0 ≤ max_terms) }
    ensures long { length result ≡ sum_places }
    ensures same { SameCorner k.0 result (add_rows before (drop end (weighted_read rows.entry))) }
{
    let mut sums = before;
    monomial::add_corner(rows.part(end, rows.ys.len()), k, &mut sums);
    sums
}

// The sums over the rows before fold f become those before the next.
fn pass_fold(rows: Rows<'_>, folds: usize, f: usize, k: CoefficientCount, before: &mut [f64; SUMS])
    requires f_in_bounds { (f < folds) × (k.0 ≤ max_terms) }
    requires same_corner { SameCorner k.0 before.old (sums_of (take (start_of (length rows.ys.now) folds f) (weighted_read rows))) }
    ensures { SameCorner k.0 before.new (sums_of (take (end_of (length rows.entry.ys.now) folds f) (weighted_read rows.entry))) }
{
    let n = rows.ys.len();
    let start = start_of(n, folds, f);
    let end = end_of(n, folds, f);
    monomial::add_corner(rows.part(start, end), k, before);
}

// The score of a curve on rows, whose sizes of residuals are left in scratch.
fn score_rows(
    rows: Rows<'_>,
    k: CoefficientCount,
    c: &[f64; TERMS],
    criterion: Criterion,
    scratch: &mut [f64],
) -> f64
    requires { (length rows.ys.now ≡ length scratch.old) × (k.0 ≤ max_terms) }
    ensures scored { result ≡ score_of criterion (length scratch.old) k.0 (total_f (losses (residuals k.0 c.now (rows_read rows.entry)))) }
    ensures long { length scratch.new ≡ length scratch.old }
{
    fit::sizes(rows, k, c, &mut *scratch);
    fit::score_on(criterion, scratch, k)
}

// The k coefficients that were solved from the sums, scored on the rows from start to end.
fn score_fold(
    rows: Rows<'_>,
    reach: Reach,
    start: usize,
    end: usize,
    sums: &[f64],
    k: CoefficientCount,
    solved: Solved,
    criterion: Criterion,
    scratch: &mut [f64],
) -> Option<f64>
    requires { (length rows.ys.now ≤ length scratch.old) × (start ≤ end) × (end ≤ length rows.ys.now) × (k.0 ≤ max_terms) × (solved ≡ solve_f sums.now k.0) × Reached rows reach }
    ensures scored { result ≡ scored_by criterion sums.now (rows_read rows.entry) (own_of start end (rows_read rows.entry)) k.0 }
    ensures within { Within (length rows.entry.ys.now) scratch.old scratch.new }
{
    if solved.held < k.0 {
        return None;
    }
    let c = solved.c;
    if !reach::all_finite(rows, reach, k, &c, &mut *scratch) {
        return None;
    }
    let own = rows.part(start, end);
    Some(score_rows(own, k, &c, criterion, &mut scratch[start..end]))
}

// The scores of the folds that solved a degree: their total, and how many they are.
#[derive(Clone, Copy)]
struct Tally {
    total: f64,
    count: usize,
}

impl Tally {
    // With the score of one fold more, if it solved the degree.
    fn add(self, score: Option<f64>) -> Tally
        requires { self.count < 18446744073709551615 }
        ensures { result ≡ added score self }
    {
        let Some(score) = score else {
            return self;
        };
        Tally {
            total: self.total + score,
            count: self.count + 1,
        }
    }

    // The mean of the scores, if there are any.
    fn mean(self) -> Option<f64>
        ensures { result ≡ mean_of self.total self.count }
    {
        if 0 < self.count {
            return Some(self.total / std::num::nearest_u64_to_f64(self.count as u64));
        }
        None
    }
}

// One fold more, from the sums over the rows before it. Its own sums are folded and eliminated once, for every degree.
fn add_fold(
    rows: Rows<'_>,
    reach: Reach,
    folds: usize,
    f: usize,
    b: usize,
    criterion: Criterion,
    before: [f64; SUMS],
    scratch: &mut [f64],
    tallies: &mut [Tally],
)
    requires f_in_bounds { (length rows.ys.now ≤ length scratch.old) × (f < folds) × (b ≤ max_terms) }
    requires in_reach { Reached rows reach }
    requires same_corner { SameCorner b before (sums_of (take (start_of (length rows.ys.now) folds f) (weighted_read rows))) }
    requires tallied_before { Tallied (degree_scored criterion (weighted_read rows) folds) f b tallies.old }
    ensures tallied { Tallied (degree_scored criterion (weighted_read rows.entry) folds) (f + 1) b tallies.new }
    ensures within { Within (length rows.entry.ys.now) scratch.old scratch.new }
{
    let n = rows.ys.len();
    let start = start_of(n, folds, f);
    let end = end_of(n, folds, f);
    let most = CoefficientCount(b);
    let sums = fold_others(rows, end, most, before);
    let mut m = [0.0; MATRIX];
    let mut g = [0.0; TERMS];
    let held = solve::put_eliminated(&sums, most, &mut m, &mut g);
    // by index, the degree: of an `iter_mut` behind `enumerate` a proof knows no element
    for d in 0..b {
        let k = Degree(d).k(Basis::Curve);
        let solved = solve::solution(held, &m, &g, k);
        let s = score_fold(
            rows,
            reach,
            start,
            end,
            &sums,
            k,
            solved,
            criterion,
            &mut *scratch,
        );
        tallies[d] = tallies[d].add(s);
    }
}

// The choice among the degrees below b by their means.
fn choose_by_means(tallies: [Tally; TERMS], b: usize) -> Option<Degree>
    requires { b ≤ max_terms }
    ensures { result ≡ chosen_of (mean_at tallies) b }
{
    let means = tallies.map(Tally::mean);
    choice::lowest(&means[..b])
}

// The choice among the degrees 0 to the bound by k-fold cross-validation: folds outside, degrees inside.
pub fn choose_by_folds(
    rows: Rows<'_>,
    folds: usize,
    bound: Degree,
    criterion: Criterion,
    scratch: &mut [f64],
) -> Option<Degree>
    requires { (length rows.ys.now ≤ length scratch.old) × (bound.0 ≤ highest_degree) }
    ensures is { result ≡ validated_choice criterion (weighted_read rows.entry) folds bound.0 }
    ensures within { Within (length rows.entry.ys.now) scratch.old scratch.new }
{
    let b = bound.0 + 1;
    let reach = Reach::of(rows);
    let mut before = [0.0; SUMS];
    let mut tallies = [Tally {
        total: 0.0,
        count: 0,
    }; TERMS];
    for f in 0..folds {
        add_fold(
            rows,
            reach,
            folds,
            f,
            b,
            criterion,
            before,
            &mut *scratch,
            &mut tallies,
        );
        pass_fold(rows, folds, f, CoefficientCount(b), &mut before);
    }
    choose_by_means(tallies, b)
}
