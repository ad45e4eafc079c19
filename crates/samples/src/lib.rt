// A sample, and definitions and laws of samples and the columns that they stand in.
#![tactic(auto)]

ghost use Rattle.std.specs.Prelude.{◌≡◌};
ghost use Rattle.samples.specs.Columns.{lengths};
ghost use Rattle.samples.specs.Held.{held};

// A sample is x, y and its weight w.
#[derive(Clone, Copy)]
pub struct Sample {
    pub x: f64,
    pub y: f64,
    pub w: f64,
}

// The columns that a call reads: x, y and weight, a place for each sample.
#[derive(Clone, Copy)]
pub struct Columns<'a> {
    pub xs: &'a [f64],
    pub ys: &'a [f64],
    pub ws: &'a [f64],
}

impl Columns<'_> {
    // How many places each has.
    pub fn lengths(self) -> [usize; 3]
        ensures { result ≡ lengths (held self.entry) }
    {
        [self.xs.len(), self.ys.len(), self.ws.len()]
    }
}
