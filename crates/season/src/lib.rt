// The season book's calls that change it. Each that names a stake is promised to answer what the book's own call on the stake's parts answers, and to leave every
// place of all lent memory as that call and the season's definition have it.
// The memory that a call writes stays parameters, as in `book`: its parts are lent on.
#![tactic(auto, using(stakes::proofs::Pieces::below), unfolding(crate::specs::Changes::change_of))]

ghost use Rattle.std.specs.Prelude.{◌≡◌};
ghost use Rattle.samples.specs.Columns.{columns_of, no_columns};
ghost use Rattle.lent.specs.Slices.{before, after};
ghost use Rattle.book.specs.Calls.{Is, state_of, book_after};
ghost use Rattle.ledger.specs.Ledger.{out_of, adds, corrects, withdraws, frames, texts, windows};
ghost use Rattle.stakes.specs.Season.{season_of};
ghost use Rattle.season.specs.Changes.{SeasonIs, season_out, change_of, carry_stake_out, open_stake_out, season_open_out};

use book::Book;
use refusal::Refusal;
use samples::Sample;
use stakes::STAKES;

// What is asked of a stake's book by a call that may write all its columns.
#[derive(Clone, Copy)]
enum Asked<'a> {
    Add(Sample),
    Window(Sample),
    Withdraw(usize),
    Frame(&'a [u8]),
    Lines(&'a [u8]),
}

// The book's own call.
fn call(
    book: Book,
    asked: Asked,
    xs: &mut [f64],
    ys: &mut [f64],
    ws: &mut [f64],
    sums: &mut [f64],
) -> Result<Book, Refusal>
    ensures { Is (out_of (state_of book.count (columns_of (before xs) (before ys) (before ws)) (before sums)) (change_of asked.entry)) result (columns_of (after xs) (after ys) (after ws)) (after sums) }
{
    match asked {
        Asked::Add(sample) => book::add(book, sample, xs, ys, ws, sums),
        Asked::Window(sample) => book::add_window(book, sample, xs, ys, ws, sums),
        Asked::Withdraw(i) => book::withdraw(book, i, xs, ys, ws, sums),
        Asked::Frame(frame) => book::add_frame(book, frame, xs, ys, ws, sums),
        Asked::Lines(text) => book::add_lines(book, text, xs, ys, ws, sums),
    }
}

// What the book's own call answered; a book's count is written. What comes before that call stands in each: the test of the stake is one line, and a function of it and
// the count would be longer than the lines that it took out.
fn kept(answer: Result<Book, Refusal>, count: &mut usize) -> Result<Book, Refusal>
    ensures { (result ≡ answer) × (count.new ≡ book_after count.old answer) }
{
    if let Ok(book) = answer {
        *count = book.count;
    }
    answer
}

// The same on the parts of a stake.
fn change(
    stake: usize,
    asked: Asked,
    counts: &mut [usize],
    xs: &mut [f64],
    ys: &mut [f64],
    ws: &mut [f64],
    sums: &mut [f64],
) -> Result<Book, Refusal>
    ensures { SeasonIs (season_out stake (season_of (before counts) (columns_of (before xs) (before ys) (before ws)) (before sums)) (change_of asked.entry)) result (season_of (after counts) (columns_of (after xs) (after ys) (after ws)) (after sums)) }
{
    stakes::check_stake(stake, counts.len())?;
    let count = counts[stake];
    let x = stakes::cut(xs.len(), stake);
    let y = stakes::cut(ys.len(), stake);
    let w = stakes::cut(ws.len(), stake);
    let s = stakes::cut(sums.len(), stake);
    let changed = call(
        Book { count },
        asked,
        &mut xs[x],
        &mut ys[y],
        &mut ws[w],
        &mut sums[s],
    );
    kept(changed, &mut counts[stake])
}

// One sample at the end.
pub fn add(
    stake: usize,
    sample: Sample,
    counts: &mut [usize],
    xs: &mut [f64],
    ys: &mut [f64],
    ws: &mut [f64],
    sums: &mut [f64],
) -> Result<Book, Refusal>
    ensures { SeasonIs (season_out stake (season_of (before counts) (columns_of (before xs) (before ys) (before ws)) (before sums)) (adds sample)) result (season_of (after counts) (columns_of (after xs) (after ys) (after ws)) (after sums)) }
{
    change(stake, Asked::Add(sample), counts, xs, ys, ws, sums)
}

// One sample at the end; a full book first loses sample 0.
pub fn add_window(
    stake: usize,
    sample: Sample,
    counts: &mut [usize],
    xs: &mut [f64],
    ys: &mut [f64],
    ws: &mut [f64],
    sums: &mut [f64],
) -> Result<Book, Refusal>
    ensures { SeasonIs (season_out stake (season_of (before counts) (columns_of (before xs) (before ys) (before ws)) (before sums)) (windows sample)) result (season_of (after counts) (columns_of (after xs) (after ys) (after ws)) (after sums)) }
{
    change(stake, Asked::Window(sample), counts, xs, ys, ws, sums)
}

// All samples of a frame at the end, or none.
pub fn add_frame(
    stake: usize,
    frame: &[u8],
    counts: &mut [usize],
    xs: &mut [f64],
    ys: &mut [f64],
    ws: &mut [f64],
    sums: &mut [f64],
) -> Result<Book, Refusal>
    ensures { SeasonIs (season_out stake (season_of (before counts) (columns_of (before xs) (before ys) (before ws)) (before sums)) (frames frame.now)) result (season_of (after counts) (columns_of (after xs) (after ys) (after ws)) (after sums)) }
{
    change(stake, Asked::Frame(frame), counts, xs, ys, ws, sums)
}

// All samples of a text of lines at the end, or none.
pub fn add_lines(
    stake: usize,
    text: &[u8],
    counts: &mut [usize],
    xs: &mut [f64],
    ys: &mut [f64],
    ws: &mut [f64],
    sums: &mut [f64],
) -> Result<Book, Refusal>
    ensures { SeasonIs (season_out stake (season_of (before counts) (columns_of (before xs) (before ys) (before ws)) (before sums)) (texts text.now)) result (season_of (after counts) (columns_of (after xs) (after ys) (after ws)) (after sums)) }
{
    change(stake, Asked::Lines(text), counts, xs, ys, ws, sums)
}

// Sample i goes, and later ones move down one.
pub fn withdraw(
    stake: usize,
    i: usize,
    counts: &mut [usize],
    xs: &mut [f64],
    ys: &mut [f64],
    ws: &mut [f64],
    sums: &mut [f64],
) -> Result<Book, Refusal>
    ensures { SeasonIs (season_out stake (season_of (before counts) (columns_of (before xs) (before ys) (before ws)) (before sums)) (withdraws i)) result (season_of (after counts) (columns_of (after xs) (after ys) (after ws)) (after sums)) }
{
    change(stake, Asked::Withdraw(i), counts, xs, ys, ws, sums)
}

// Sample i gets a new y and keeps its weight.
pub fn correct(
    stake: usize,
    i: usize,
    y: f64,
    counts: &mut [usize],
    xs: &[f64],
    ys: &mut [f64],
    ws: &[f64],
    sums: &mut [f64],
) -> Result<Book, Refusal>
    ensures { SeasonIs (season_out stake (season_of (before counts) (columns_of xs.now (before ys) ws.now) (before sums)) (corrects i y)) result (season_of (after counts) (columns_of xs.now (after ys) ws.now) (after sums)) }
{
    stakes::check_stake(stake, counts.len())?;
    let count = counts[stake];
    let at = stakes::cut(ys.len(), stake);
    let s = stakes::cut(sums.len(), stake);
    let answer = book::correct(
        Book { count },
        i,
        y,
        stakes::part(xs, stake),
        &mut ys[at],
        stakes::part(ws, stake),
        &mut sums[s],
    );
    kept(answer, &mut counts[stake])
}

// An open two-column book of a stake goes on with weights: those below the count become 1.
pub fn carry(
    stake: usize,
    counts: &mut [usize],
    xs: &[f64],
    ys: &[f64],
    ws: &mut [f64],
    sums: &[f64],
) -> Result<Book, Refusal>
    ensures { SeasonIs (carry_stake_out stake (season_of (before counts) (columns_of xs.now ys.now (before ws)) sums.now)) result (season_of (after counts) (columns_of xs.now ys.now (after ws)) sums.now) }
{
    stakes::check_stake(stake, counts.len())?;
    let count = counts[stake];
    let w = stakes::cut(ws.len(), stake);
    let answer = carried::carry(
        Book { count },
        stakes::part(xs, stake),
        stakes::part(ys, stake),
        &mut ws[w],
        stakes::part(sums, stake),
    );
    kept(answer, &mut counts[stake])
}

// An empty book for one stake: its sums become those of no sample.
pub fn open_stake(stake: usize, counts: &mut [usize], sums: &mut [f64]) -> Result<Book, Refusal>
    ensures { SeasonIs (open_stake_out stake (season_of (before counts) no_columns (before sums))) result (season_of (after counts) no_columns (after sums)) }
{
    stakes::check_stake(stake, counts.len())?;
    let s = stakes::cut(sums.len(), stake);
    let answer = book::open(&mut sums[s]);
    kept(answer, &mut counts[stake])
}

// An empty book for each of the 32 stakes.
pub fn season_open(counts: &mut [usize], sums: &mut [f64]) -> Result<Book, Refusal>
    ensures { SeasonIs (season_open_out (season_of (before counts) no_columns (before sums))) result (season_of (after counts) no_columns (after sums)) }
{
    stakes::check_open(counts.len(), sums.len())?;
    // over numbers, since that is what the call takes; of counts and parts that an iterator hands out side by side nothing is known after the loop
    for stake in 0..STAKES {
        open_stake(stake, counts, sums)?;
    }
    Ok(Book { count: 0 })
}
