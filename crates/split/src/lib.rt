// The break of a book's list in two sides whose chosen scores total least: melt season and cold season. The call is promised, for every count, length
// and content, to answer and to leave what document 02 says.
#![tactic(auto)]

mod refusals;

ghost use Rattle.std.specs.Prelude.{◌≡◌, ◌++◌, ◌+◌, ◌≤◌, length, take, drop};
ghost use Rattle.basis.specs.Counts.{count_of};
ghost use Rattle.basis.specs.Sizes.{highest_degree, max_samples, max_terms, sum_places};
ghost use Rattle.basis.specs.declared.Basis.TheVariants.{Curve};
ghost use Rattle.loops.specs.Within.{Within};
ghost use Rattle.statistics.specs.Degrees.{max_degree};
ghost use Rattle.samples.specs.Held.{held};
ghost use Rattle.monomial.specs.Reading.{rows_read, weighted_read};
ghost use Rattle.monomial.specs.Sums.{sums_of};
ghost use Rattle.monomial.specs.Corner.{SameCorner};
ghost use Rattle.fit.specs.Chosen.{choice_of, counts_of};
ghost use Rattle.lent.specs.Slices.{before, after};
ghost use Rattle.split.specs.Search.{side_fit, better as better_f, left_of, right_of};
ghost use Rattle.split.specs.Splits.{Searches, SplitIs, SplitWithinIs, lent_memory, places_now};

use basis::{Basis, CoefficientCount, Degree, SUMS, TERMS};
use book::Book;
use fit::Choice;
use monomial::Rows;
use refusal::Refusal;
pub use refusals::split_short;
use samples::Columns;
use score::Criterion;
use settings::Settings;
use statistics::DegreeBound;

// The best break so far: how many samples are before it, the total, and the degrees of its two sides.
#[derive(Clone, Copy)]
pub struct Best {
    pub at: usize,
    pub total: f64,
    pub before: Degree,
    pub after: Degree,
}

// How many places are lent of each memory that a split writes.
#[derive(Clone, Copy)]
pub struct Places {
    pub scratch: usize,
    pub before: usize,
    pub after: usize,
}

// The memory that a split writes: its scratch, and the fits of the two sides.
#[derive(Drop)]
pub struct Memory<'a> {
    pub scratch: &'a mut [f64],
    pub before: &'a mut [f64],
    pub after: &'a mut [f64],
}

impl Memory<'_> {
    // How many places are lent of each.
    pub fn places(&self) -> Places
        ensures { result ≡ places_now self.now }
    {
        Places {
            scratch: self.scratch.len(),
            before: self.before.len(),
            after: self.after.len(),
        }
    }
}

// What a split answers: the total, how many samples are before the break, the number of pivot tests, and the degrees of its two sides.
#[derive(Clone, Copy)]
pub struct Break {
    pub total: f64,
    pub at: usize,
    pub tests: usize,
    pub before: Degree,
    pub after: Degree,
}

// A break with both sides chosen takes the place of none, and of one whose total is greater.
fn better(b: usize, left: Choice, right: Choice, best: Option<Best>) -> Option<Best>
    ensures { result ≡ better_f b left right best }
{
    let (Some(before), Some(after)) = (left.chosen, right.chosen) else {
        return best;
    };
    let total = left.score + right.score;
    if let Some(held) = best {
        if !(total < held.total) {
            return best;
        }
    }
    Some(Best {
        at: b,
        total,
        before,
        after,
    })
}

// The sums over rows, from +0. Only the corner of k rows and columns is made, which is all that k coefficients read.
fn side_sums(rows: Rows<'_>, k: CoefficientCount) -> [f64; SUMS]
    requires { k.0 ≤ max_terms }
    ensures long { length result ≡ sum_places }
    ensures same { SameCorner k.0 result (sums_of (weighted_read rows.entry)) }
{
    let mut sums = [0.0; SUMS];
    monomial::add_corner(rows, k, &mut sums);
    sums
}

// The choice among the degrees within the bound for so many rows.
fn choose_side(
    rows: Rows<'_>,
    sums: &[f64],
    bound: DegreeBound,
    criterion: Criterion,
    scratch: &mut [f64],
) -> Choice
    requires { (rows.basis ≡ Curve) × (length rows.ys.now ≤ length scratch.old) × (sum_places ≤ length sums.now) × (max_degree bound (length rows.ys.now) ≤ highest_degree) }
    ensures is { result ≡ choice_of criterion sums.now (rows_read rows.entry) (counts_of Curve (max_degree bound (length rows.entry.ys.now))) }
    ensures within { Within (length rows.entry.ys.now) (before scratch) (after scratch) }
{
    let most = statistics::max_degree(bound, rows.ys.len());
    fit::choose(rows, sums, most, criterion, scratch)
}

// The choices of the two sides of a break.
#[derive(Clone, Copy)]
pub struct Sides {
    pub left: Choice,
    pub right: Choice,
}

// The two sides of break b, from the sums of the left one; those of the right one are folded afresh.
fn choose_sides(
    rows: Rows<'_>,
    b: usize,
    sums: &[f64],
    bound: DegreeBound,
    criterion: Criterion,
    scratch: &mut [f64],
) -> Sides
    requires b_in_bounds { (rows.basis ≡ Curve) × (length rows.ys.now ≤ length scratch.old) × (b ≤ length rows.ys.now) × (max_degree bound (length rows.ys.now) ≤ highest_degree) }
    requires left_sums { (length sums.now ≡ sum_places) × SameCorner (count_of Curve (max_degree bound (length rows.ys.now))) sums.now (sums_of (take b (weighted_read rows))) }
    ensures left { result.left ≡ left_of bound criterion (weighted_read rows.entry) b }
    ensures right { result.right ≡ right_of bound criterion (weighted_read rows.entry) b }
    ensures within { Within (length rows.entry.ys.now) (before scratch) (after scratch) }
{
    let n = rows.ys.len();
    let left = choose_side(rows.part(0, b), sums, bound, criterion, &mut *scratch);
    let later = rows.part(b, n);
    let most = statistics::max_degree(bound, n - b);
    let own = side_sums(later, most.k(Basis::Curve));
    let right = choose_side(later, &own, bound, criterion, scratch);
    Sides { left, right }
}

// The pivot tests of a break, whatever its sides choose.
fn tests_of(left: Choice, right: Choice) -> usize
    requires { left.tests + right.tests ≤ 272 }
    ensures { result ≡ left.tests + right.tests }
{
    left.tests + right.tests
}

// What a split within a limit answers, and the pivot tests that it takes: none where it is refused by 1 to 9 or by 16.
#[derive(Clone, Copy)]
pub struct CountedSplit {
    pub answer: Result<Break, Refusal>,
    pub tests: usize,
}

// What a search comes to: the pivot tests that it takes, none at 16; and the best break, or the refusal, 16 or 11.
#[derive(Clone, Copy)]
pub struct Searched {
    pub tests: usize,
    pub best: Result<Best, Refusal>,
}

// Tries every break. The left side's sums grow by one sample a break; the search ends where the pivot tests pass the limit.
fn search(
    rows: Rows<'_>,
    bound: DegreeBound,
    criterion: Criterion,
    limit: usize,
    scratch: &mut [f64],
) -> Searched
    requires { (rows.basis ≡ Curve) × (length rows.ys.now ≤ length scratch.old) × (4 ≤ length rows.ys.now) × (length rows.ys.now ≤ max_samples) × (max_degree bound (length rows.ys.now) ≤ highest_degree) }
    ensures { Searches limit bound criterion (weighted_read rows.entry) (length rows.entry.ys.now) (before scratch) (after scratch) result }
{
    let n = rows.ys.len();
    let last = n - 1;
    let most = statistics::max_degree(bound, n);
    let k = most.k(Basis::Curve);
    let mut sums = side_sums(rows.part(0, 2), k);
    let mut best: Option<Best> = None;
    let mut tests = 0;
    for b in 2..last {
        let s = choose_sides(rows, b, &sums, bound, criterion, &mut *scratch);
        let left = s.left;
        let right = s.right;
        tests = tests + tests_of(left, right);
        best = better(b, left, right, best);
        if limit < tests {
            return Searched {
                tests: 0,
                best: Err(Refusal::OverLimit),
            };
        }
        monomial::add_corner(rows.part(b, b + 1), k, &mut sums);
    }
    Searched {
        tests,
        best: best.ok_or(Refusal::NoneChosen),
    }
}

// The 16 coefficients of rows at a degree, +0 from k on.
fn side_fit(rows: Rows<'_>, degree: Degree) -> [f64; TERMS]
    requires { degree.0 ≤ highest_degree }
    ensures { result ≡ side_fit (weighted_read rows.entry) degree }
{
    let k = degree.k(Basis::Curve);
    let sums = side_sums(rows, k);
    let s = solve::solve(&sums, k);
    s.c
}

// Writes the fits of the two sides.
fn write(rows: Rows<'_>, best: Best, earlier: &mut [f64], later: &mut [f64])
    requires { (best.at ≤ length rows.ys.now) × (best.before.0 ≤ highest_degree) × (best.after.0 ≤ highest_degree) × (max_terms ≤ length earlier.old) × (max_terms ≤ length later.old) }
    ensures earlier { after earlier ≡ side_fit (take best.at (weighted_read rows.entry)) best.before ++ drop max_terms (before earlier) }
    ensures later { after later ≡ side_fit (drop best.at (weighted_read rows.entry)) best.after ++ drop max_terms (before later) }
{
    let at = best.at;
    let n = rows.ys.len();
    lent::put_first(&side_fit(rows.part(0, at), best.before), earlier);
    lent::put_first(&side_fit(rows.part(at, n), best.after), later);
}

// A split of the book, with the pivot tests that it takes. The lent sums are judged and not read.
pub fn split_within(
    book: Book,
    settings: Settings,
    limit: usize,
    columns: Columns<'_>,
    sums: &[f64],
    memory: Memory<'_>,
) -> CountedSplit
    ensures { SplitWithinIs book.count settings limit (held columns.entry) sums.now result (lent_memory memory) }
{
    let n = book.count;
    if let Err(refusal) = refusals::check_split(n, settings, columns, sums.len(), memory.places()) {
        return CountedSplit {
            answer: Err(refusal),
            tests: 0,
        };
    }
    let Memory {
        scratch,
        before,
        after,
    } = memory;
    let bound = settings.bound;
    let criterion = settings.criterion;
    let rows = Rows::curve(n, columns);
    let s = search(rows, bound, criterion, limit, &mut *scratch);
    lent::clear(scratch, n);
    let best = match s.best {
        Ok(best) => best,
        Err(refusal) => {
            return CountedSplit {
                answer: Err(refusal),
                tests: s.tests,
            };
        }
    };
    write(rows, best, before, after);
    CountedSplit {
        answer: Ok(Break {
            total: best.total,
            at: best.at,
            tests: s.tests,
            before: best.before,
            after: best.after,
        }),
        tests: s.tests,
    }
}

// A split of the book.
pub fn split(
    book: Book,
    settings: Settings,
    limit: usize,
    columns: Columns<'_>,
    sums: &[f64],
    memory: Memory<'_>,
) -> Result<Break, Refusal>
    ensures { SplitIs book.count settings limit (held columns.entry) sums.now result (lent_memory memory) }
{
    // taken apart and rebuilt: of a struct of borrows that is handed on whole, a proof doesn't know what the callee leaves
    let Memory {
        scratch,
        before,
        after,
    } = memory;
    let memory = Memory {
        scratch,
        before,
        after,
    };
    split_within(book, settings, limit, columns, sums, memory).answer
}
