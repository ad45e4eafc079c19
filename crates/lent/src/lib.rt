// Writing to lent memory from its first place on, and taking a place out. Callers hold the whole memory and promise what stands past the first n places: a
// cut at each call, with a law that joins the two parts again, is no plainer than a count beside the slice.
#![tactic(auto)]

ghost use Rattle.std.specs.Prelude.{◌≡◌, ◌++◌, ◌≤◌, ◌<◌, length, drop, replicate};
ghost use Rattle.lent.specs.Gaps.{without_at};
ghost use Rattle.lent.specs.Slices.{before, after};
ghost use Rattle.lent.specs.Written.{zeros, over};

// The first n places become v.
pub fn fill<T: Copy>(s: &mut [T], n: usize, v: T)
    requires infallible { T.is_infallible v }
    requires same { (y : T) → T.is_clone v y → y ≡ v }
    requires within { n ≤ length s.old }
    ensures { s.new ≡ replicate n v ++ drop n s.old }
{
    s[..n].fill(v);
}

// The first n places become +0.
pub fn clear(s: &mut [f64], n: usize)
    requires { n ≤ length s.old }
    ensures { s.new ≡ zeros n ++ drop n s.old }
{
    fill(s, n, 0.0);
}

// The first places become the values.
pub fn put_first(values: &[f64], out: &mut [f64])
    requires { length values.now ≤ length out.old }
    ensures { out.new ≡ over values.now out.old }
{
    let n = values.len();
    out[..n].copy_from_slice(values);
}

// Place i goes, and those after it and below n move down one.
pub fn close_gap(i: usize, n: usize, column: &mut [f64])
    requires { (i < n) × (n ≤ length column.old) }
    ensures { after column ≡ without_at i n (before column) }
{
    column.copy_within(i + 1..n, i);
}
