// The bytes that `stakebook` prints, written into lent memory, and the writer that they are made with.
// Every function puts a text at the writer's place as far as there is room, changes nothing else, and leaves the place behind the whole text: from 0 on,
// the length needed.
#![tactic(auto)]

mod writing;

ghost use Rattle.listing.specs.Listing.{c_line, listing, loss_line, total_line, loss_listing, refused_line};
ghost use Rattle.listing.specs.Writing.{Wrote};

use basis::Degree;
pub use writing::Writer;

// A c line: index, coefficient and error.
fn put_c_line(w: &mut Writer, i: u64, c: f64, e: f64)
    ensures { Wrote w.old (c_line i c e) w.new }
{
    w.text(b"c");
    w.number(i);
    w.double(c);
    w.double(e);
    w.byte(b'\n');
}

// The listing of a report on n samples.
pub fn write_listing(
    w: &mut Writer,
    n: usize,
    degree: Degree,
    coefficients: &[f64],
    errors: &[f64],
    outliers: usize,
    pruned: usize,
)
    ensures { Wrote w.old (listing n degree.0 coefficients.now errors.now outliers pruned) w.new }
{
    w.line(b"n", n as u64);
    w.line(b"degree", degree.0 as u64);
    let terms = degree.0.saturating_add(1);
    for (i, (c, e)) in coefficients.iter().zip(errors).take(terms).enumerate() {
        put_c_line(w, i as u64, *c, *e);
    }
    w.line(b"outliers", outliers as u64);
    w.line(b"pruned", pruned as u64);
}

// A loss line: index and loss.
fn put_loss_line(w: &mut Writer, i: u64, loss: f64)
    ensures { Wrote w.old (loss_line i loss) w.new }
{
    w.text(b"loss");
    w.number(i);
    w.double(loss);
    w.byte(b'\n');
}

// The line of the total of the losses.
fn put_total(w: &mut Writer, total: f64)
    ensures { Wrote w.old (total_line total) w.new }
{
    w.text(b"total");
    w.double(total);
    w.byte(b'\n');
}

// The losses of n samples, line by line, and their total.
pub fn write_losses(w: &mut Writer, n: usize, losses: &[f64], total: f64)
    ensures { Wrote w.old (loss_listing n losses.now total) w.new }
{
    let told = &losses[..n.min(losses.len())];
    for (i, loss) in told.iter().enumerate() {
        put_loss_line(w, i as u64, *loss);
    }
    put_total(w, total);
}

// The line of a refusal.
pub fn write_refused(w: &mut Writer, refused: u8)
    ensures { Wrote w.old (refused_line refused) w.new }
{
    w.line(b"refused", refused as u64);
}
