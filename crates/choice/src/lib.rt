// The choice among the degrees 0, 1, .. of which each has a score if it is solved, and else none.
#![tactic(auto)]

ghost use Rattle.std.specs.Prelude.{◌≡◌, length};
ghost use Rattle.choice.specs.Choice.{scored_at, yields, near, least_of, chosen_of, chosen_score, solved_count};

use basis::Degree;

// The least score a yields to a smaller one of a solved degree.
fn yielded(score: Option<f64>, a: f64) -> f64
    ensures { result ≡ yields score a }
{
    let Some(score) = score else {
        return a;
    };
    if score < a {
        return score;
    }
    a
}

// A solved degree's score is at most 2 above a.
fn is_near(score: Option<f64>, a: f64) -> bool
    ensures { result ≡ near a score }
{
    let Some(score) = score else {
        return false;
    };
    score - a <= 2.0
}

// The least score: it starts at +infinity and yields to each smaller one of a solved degree.
pub fn least(scores: &[Option<f64>]) -> f64
    ensures { result ≡ least_of (scored_at scores.now) (length scores.now) }
{
    let mut a = f64::INFINITY;
    for score in scores {
        a = yielded(*score, a);
    }
    a
}

// The lowest solved degree with a score at most 2 above the least.
pub fn lowest(scores: &[Option<f64>]) -> Option<Degree>
    ensures { result ≡ chosen_of (scored_at scores.now) (length scores.now) }
{
    let a = least(scores);
    scores
        .iter()
        .position(|&score| is_near(score, a))
        .map(Degree)
}

// The score of the chosen degree, +0 where none is chosen.
pub fn score_of(scores: &[Option<f64>], chosen: Option<Degree>) -> f64
    ensures { result ≡ chosen_score (scored_at scores.now) chosen }
{
    let Some(degree) = chosen else {
        return 0.0;
    };
    let d = degree.0;
    scores.get(d).copied().flatten().unwrap_or(0.0)
}

// How many degrees are solved.
pub fn solved_of(scores: &[Option<f64>]) -> usize
    ensures { result ≡ solved_count (scored_at scores.now) (length scores.now) }
{
    scores.iter().flatten().count()
}
