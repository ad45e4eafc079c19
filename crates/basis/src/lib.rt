// The degree of a polynomial and its number of coefficients, two types that are never taken for each other.
// A count is worked out from a degree as polyfit's `Basis::k` does; nothing asks for the way back.
#![tactic(auto)]

ghost use Rattle.std.specs.Prelude.{◌≡◌, ◌≤◌};
ghost use Rattle.basis.specs.Sizes.{highest_degree};
ghost use Rattle.basis.specs.Counts.{count_of};

// At most 16 terms, so that degree 15 is the highest.
pub const TERMS: usize = 16;

pub const HIGHEST: usize = 15;

// The places of A, and of A and g together. Lent sums are slices of so many places or more, which a clause says, and no arrays: a user may lend more.
pub const MATRIX: usize = 256;

pub const SUMS: usize = 272;

// The most samples that a book holds.
pub const SAMPLES: usize = 4096;

// What the term values are: the powers of x, or the products of a power of x and a power of z.
#[derive(Clone, Copy)]
pub enum Basis {
    Curve,
    Surface,
}

#[derive(Clone, Copy)]
pub struct Degree(pub usize);

// The number of coefficients, k. It has no bound of its own: `score` takes any count, and a bounded type would ask more of its callers. So clauses say that it is
// at most 16 where 16 places are read.
#[derive(Clone, Copy)]
pub struct CoefficientCount(pub usize);

impl Degree {
    // `Basis::k`.
    pub fn k(self, basis: Basis) -> CoefficientCount
        requires { self.0 ≤ highest_degree }
        ensures { result.0 ≡ count_of basis self.0 }
    {
        let d = self.0;
        match basis {
            Basis::Curve => CoefficientCount(d + 1),
            Basis::Surface => CoefficientCount((d + 1) * (d + 2) / 2),
        }
    }
}
