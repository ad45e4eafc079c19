// The samples that a fit reads, off lent columns.
ghost use Rattle.std.specs.Prelude.{◌≡◌, length};

use basis::Basis;

// Columns that are cut to the samples to be read: x, z and y of each. A curve reads no z and is lent x for it. The weights may be fewer: where none is
// lent, it is 1.
// They are cut here, so that no count stands beside them. What is lent to be written, scratch or bands, stays a parameter with a clause on its length: in one struct
// with the rows each call would take it apart and build it again, which is no plainer.
#[derive(Clone, Copy)]
pub struct Rows<'a> {
    pub basis: Basis,
    pub xs: &'a [f64],
    pub zs: &'a [f64],
    pub ys: &'a [f64],
    pub ws: &'a [f64],
    ghost as_long: { (length xs.now ≡ length ys.now) × (length zs.now ≡ length ys.now) },
}
