// An add to a window book, which keeps the latest samples: a full one first loses sample 0.
ghost use Rattle.std.specs.Prelude.{◌≡◌, ◌<◌, length};
ghost use Rattle.lent.specs.Slices.{before, after};
ghost use Rattle.samples.specs.Columns.{columns_of, lengths};
ghost use Rattle.refusal.specs.Rooms.{Room};
ghost use Rattle.refusal.specs.Tests.{capacity};
ghost use Rattle.book.specs.Calls.{Is, state_of};
ghost use Rattle.book.specs.Refusals.{sums_lent};
ghost use Rattle.book.specs.Window.{with_place, window_out};

use crate::{Book, put, refusals, take_out};
use refusal::Refusal;
use samples::Sample;

// A full book loses sample 0, any other stays as it is. How many samples it then holds.
fn make_place(n: usize, xs: &mut [f64], ys: &mut [f64], ws: &mut [f64], sums: &mut [f64]) -> usize
    requires { Room n (lengths (columns_of xs.old ys.old ws.old)) (sums_lent (length sums.old)) × (0 < capacity (lengths (columns_of xs.old ys.old ws.old))) }
    ensures { state_of result (columns_of (after xs) (after ys) (after ws)) (after sums) ≡ with_place (state_of n (columns_of (before xs) (before ys) (before ws)) (before sums)) }
{
    if n == refusal::capacity(&[xs.len(), ys.len(), ws.len()]) {
        let less = n - 1;
        take_out(0, n, xs, ys, ws, sums);
        return less;
    }
    n
}

// One sample at the end, the oldest gone where the book was full.
pub fn add_window(
    book: Book,
    sample: Sample,
    xs: &mut [f64],
    ys: &mut [f64],
    ws: &mut [f64],
    sums: &mut [f64],
) -> Result<Book, Refusal>
    ensures { Is (window_out book.count sample (columns_of (before xs) (before ys) (before ws)) (before sums)) result (columns_of (after xs) (after ys) (after ws)) (after sums) }
{
    let n = book.count;
    let columns = [xs.len(), ys.len(), ws.len()];
    refusals::check_window(n, sample, &columns, sums.len())?;
    let less = make_place(n, xs, ys, ws, sums);
    put(less, sample, xs, ys, ws, sums);
    Ok(Book { count: less + 1 })
}
