// A season book of 32 stakes in one lent memory: each memory that is lent whole is cut into 32 equal parts, rounded down, in stake order, and the rest at the
// end is nobody's. Where a stake's part lies, and the tests that a season has of its own.
#![tactic(auto)]

ghost use Rattle.std.specs.Prelude.{◌≡◌, ◌<◌};
ghost use Rattle.refusal.specs.Named.{judged};
ghost use Rattle.stakes.specs.Parts.{stakes, part_of, Cut};
ghost use Rattle.stakes.specs.Season.{stake_refusal, season_open_refusal};
ghost use Rattle.stakes.specs.Stake.{season_held, StakeIs};

use basis::SUMS;
use book::Book;
use refusal::{Refusal, first_of};
use samples::Columns;
use std::ops::Range;

// How many stakes there are.
pub const STAKES: usize = 32;

// Where the part of a stake lies in a memory of this length. A part that is written is lent as `&mut s[at]`; a function that returned it as a `&mut` was tried, and
// that the whole has what is written to it did not prove.
pub fn cut(len: usize, stake: usize) -> Range<usize>
    requires { stake < stakes }
    ensures { Cut len stake result.start result.end }
{
    let size = len / STAKES;
    let start = stake * size;
    let end = start + size;
    start..end
}

// The part itself, to be read.
pub fn part(s: &[f64], stake: usize) -> &[f64]
    requires { stake < stakes }
    ensures { result.now ≡ part_of stake s.now }
{
    &s[cut(s.len(), stake)]
}

// 18 of a stake's number, before every other check; then 1 of the counts.
pub fn check_stake(stake: usize, counts: usize) -> Result<(), Refusal>
    ensures { result ≡ judged (stake_refusal stake counts) }
{
    first_of(&[
        (STAKES <= stake, Refusal::NoStake),
        (counts < STAKES, Refusal::Short),
    ])
}

// 1 of all 32 books to be opened: there are so many counts, and each has its sums.
pub fn check_open(counts: usize, sums: usize) -> Result<(), Refusal>
    ensures { result ≡ judged (season_open_refusal counts sums) }
{
    let memories = [(STAKES, counts), (SUMS, sums / STAKES)];
    first_of(&[(refusal::any_short(&memories), Refusal::Short)])
}

// The counts, the columns and the sums of all stakes, lent whole to a call that reads.
#[derive(Clone, Copy)]
pub struct Season<'a> {
    pub counts: &'a [usize],
    pub columns: Columns<'a>,
    pub sums: &'a [f64],
}

// A stake's book, and its parts of the columns and of the sums.
#[derive(Clone, Copy)]
pub struct Stake<'a> {
    pub book: Book,
    pub columns: Columns<'a>,
    pub sums: &'a [f64],
}

impl<'a> Season<'a> {
    // The book of a stake, where the season's own tests don't refuse it.
    #[tactic(auto, using(crate::proofs::Pieces::below))]
    pub fn stake(self, stake: usize) -> Result<Stake<'a>, Refusal>
        ensures { StakeIs stake (season_held self.entry) result }
    {
        check_stake(stake, self.counts.len())?;
        Ok(Stake {
            book: Book {
                count: self.counts[stake],
            },
            columns: Columns {
                xs: part(self.columns.xs, stake),
                ys: part(self.columns.ys, stake),
                ws: part(self.columns.ws, stake),
            },
            sums: part(self.sums, stake),
        })
    }
}
