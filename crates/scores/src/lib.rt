// Of each degree within the bound whether it is solved and its score, and what a report chooses from them. It is promised, for every count, length and
// content, to answer and to leave what its definition says.
#![tactic(auto)]

mod refusals;

ghost use Rattle.std.specs.Prelude.{◌≡◌, ◌++◌, map, ◌≤◌, length, drop};
ghost use Rattle.basis.specs.Sizes.{max_terms};
ghost use Rattle.samples.specs.Held.{held};
ghost use Rattle.lent.specs.Slices.{before, after, contents};
ghost use Rattle.lent.specs.Written.{over};
ghost use Rattle.scores.specs.Scores.{ScoresIs, solved_mark, score_or_zero, scores_out};

use basis::{Basis, Degree, MATRIX, SUMS, TERMS};
use book::Book;
use monomial::Rows;
use refusal::Refusal;
use samples::Columns;
use settings::Settings;

// What the call answers: the chosen degree, the bound, the number of solved degrees, the least score and the number of pivot tests.
#[derive(Clone, Copy)]
pub struct ScoreTable {
    pub degree: Degree,
    pub bound: Degree,
    pub solved: usize,
    pub least: f64,
    pub tests: usize,
}

// The first 16 places become 1 where a degree is solved, else 0.
fn put_solved(scores: [Option<f64>; TERMS], out: &mut [u8])
    requires { max_terms ≤ length out.old }
    ensures { after out ≡ map solved_mark scores ++ drop max_terms (before out) }
{
    let bytes = scores.map(
        |score: Option<f64>| -> u8
            ensures { result ≡ solved_mark score }
        { u8::from(score.is_some()) },
    );
    out[..TERMS].copy_from_slice(&bytes);
}

// The first 16 places become the scores, +0 where there is none.
fn put_scores(scores: [Option<f64>; TERMS], out: &mut [f64])
    requires { max_terms ≤ length out.old }
    ensures { after out ≡ over (map score_or_zero scores) (before out) }
{
    let told = scores.map(
        |score: Option<f64>| -> f64
            ensures { result ≡ score_or_zero score }
        { score.unwrap_or(0.0) },
    );
    lent::put_first(&told, out);
}

// The scores of the book. Nothing but scratch is written before 12 is ruled out.
pub fn scores(
    book: Book,
    settings: Settings,
    columns: Columns<'_>,
    sums: &[f64],
    scratch: &mut [f64],
    solved: &mut [u8],
    scores: &mut [f64],
) -> Result<ScoreTable, Refusal>
    ensures { ScoresIs (scores_out book.count settings (held columns.entry) sums.now (before scratch) (before solved) (before scores)) result (contents scratch) (contents solved) (contents scores) }
{
    let n = book.count;
    refusals::check_scores(
        n,
        settings,
        columns,
        sums.len(),
        scratch.len(),
        solved.len(),
        scores.len(),
    )?;
    let bound = settings.bound;
    let criterion = settings.criterion;
    let last = statistics::max_degree(bound, n);
    let rows = Rows::curve(n, columns);
    let mut c = [0.0; TERMS];
    let mut covariance = [0.0; MATRIX];
    let m = reporting::choose(
        rows,
        last,
        criterion,
        &sums[..SUMS],
        &mut *scratch,
        &mut c,
        &mut covariance,
    );
    lent::clear(scratch, n);
    let degree = m.found?;
    let choice = m.choice;
    put_solved(choice.scores, solved);
    put_scores(choice.scores, scores);
    Ok(ScoreTable {
        degree,
        bound: last,
        solved: choice.solved,
        least: choice.least,
        tests: choice.tests,
    })
}
