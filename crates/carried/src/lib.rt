// A two-column book, open since before weights, becomes one with weights in mid season.
#![tactic(auto)]

ghost use Rattle.std.specs.Prelude.{◌≡◌};
ghost use Rattle.lent.specs.Slices.{before, after};
ghost use Rattle.samples.specs.Columns.{columns_of};
ghost use Rattle.refusal.specs.Named.{judged};
ghost use Rattle.book.specs.Calls.{Is};
ghost use Rattle.carried.specs.Carry.{carry_refusal, carry_out};

use book::Book;
use refusal::{Refusal, book_short, first_of};

fn check_carry(n: usize, columns: &[usize], sums: usize) -> Result<(), Refusal>
    ensures { result ≡ judged (carry_refusal n columns.now sums) }
{
    first_of(&[(book_short(n, columns, sums), Refusal::Short)])
}

// The weights below the count become 1, and nothing else changes.
pub fn carry(
    book: Book,
    xs: &[f64],
    ys: &[f64],
    ws: &mut [f64],
    sums: &[f64],
) -> Result<Book, Refusal>
    ensures { Is (carry_out book.count (columns_of xs.now ys.now (before ws)) sums.now) result (columns_of xs.now ys.now (after ws)) sums.now }
{
    let n = book.count;
    let columns = [xs.len(), ys.len(), ws.len()];
    check_carry(n, &columns, sums.len())?;
    lent::fill(ws, n, 1.0);
    Ok(book)
}
