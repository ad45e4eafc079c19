// The square root, from integer work on the bits: a whole-number root of 53 digits. It is guessed in doubles, and the guess is held against the squares;
// where that settles nothing, the digits are found one a turn.
ghost use Rattle.std.specs.Prelude.{◌≡◌, ◌+◌, ◌*◌, ◌^◌, ◌<◌, ◌≤◌, T, IfSome, map, from_bits, to_bits};
ghost use Rattle.std.specs.Float.{binary64};
ghost use Rattle.std.specs.Float.Ieee.Positive.{positive};
ghost use Rattle.value.specs.Root.{root_f, root_of, closest_root};

use crate::bits::to_bits;

// The root of m * 2^52, to the nearest whole number: 53 binary digits, one a turn. After n turns
// `root * root + rest` is the whole part of m * 4^n / 2^54, and `next` is what is left below the point.
fn root_by_digits(m: u64) -> u64
    requires { m < 2 ^ 54 }
    ensures { result ≡ closest_root (m * 2 ^ 52) }
{
    let mut root: u64 = 0;
    let mut rest: u64 = 0;
    let mut next: u64 = m;
    for _ in 0..53u32 {
        let have = rest * 4 + next / 0x10_0000_0000_0000;
        let want = root * 4 + 1;
        next = next % 0x10_0000_0000_0000 * 4;
        if want <= have {
            rest = have - want;
            root = root * 2 + 1;
        } else {
            rest = have;
            root = root * 2;
        }
    }
    if root < rest { root + 1 } else { root }
}

// The double from 1 to 4 whose root has the digits of the root of m * 2^52.
fn reduced(m: u64) -> f64
    requires { m < 2 ^ 54 }
{
    let b = if m < 0x20_0000_0000_0000 {
        m + 0x3FE0_0000_0000_0000
    } else {
        m / 2 + 0x3FF0_0000_0000_0000
    };
    f64::from_bits(b)
}

// The whole number of 53 digits that a double from 1 to 2 stands for, and one of 53 digits for any other.
fn digits(y: f64) -> u64
    ensures { (2 ^ 52 ≤ result) × (result < 2 ^ 53) }
{
    to_bits(y) % 0x10_0000_0000_0000 + 0x10_0000_0000_0000
}

// A guess at the root of m * 2^52: a parabola within one part in 190 of the root from 1 to 4, then three of Newton's steps, in doubles. Any guess would
// do: it is tried below, and not trusted.
fn guess(m: u64) -> u64
    requires { m < 2 ^ 54 }
    ensures { (2 ^ 52 ≤ result) × (result < 2 ^ 53) }
{
    let v = reduced(m);
    let mut y = 0.51908 + v * (0.52537 - v * 0.039375);
    y = (y + v / y) * 0.5;
    y = (y + v / y) * 0.5;
    y = (y + v / y) * 0.5;
    digits(y)
}

// How far the square of r is from m * 2^52, counted from 2^56: above it where r is too small. None where it is so far that r can't be next to the root.
fn distance(m: u64, r: u64) -> Option<u64>
    requires { (m < 2 ^ 54) × (r < 2 ^ 53) }
    ensures is { IfSome result (λ d. r * r + d ≡ m * 2 ^ 52 + 2 ^ 56) }
    ensures small { IfSome result (λ d. d ≤ 2 ^ 57) }
{
    let have = u128::from(m) * 0x10_0000_0000_0000 + 0x100_0000_0000_0000;
    let square = u128::from(r) * u128::from(r);
    if have < square || have - square > 0x200_0000_0000_0000 {
        return None;
    }
    Some((have - square) as u64)
}

// The root of m * 2^52, to the nearest whole number: a guess r, or the next number above or below where the squares tell that this is nearer. A guess that
// is farther off is not used.
fn closest_root(m: u64, r: u64) -> u64
    requires { (m < 2 ^ 54) × (2 ^ 52 ≤ r) × (r < 2 ^ 53) }
    ensures { result ≡ closest_root (m * 2 ^ 52) }
{
    if let Some(d) = distance(m, r) {
        if (0x100_0000_0000_0002 < d + 3 * r) & (d <= 0x100_0000_0000_0002 + 3 * r) {
            return r + u64::from(0x100_0000_0000_0000 + r < d)
                - u64::from(d + r <= 0x100_0000_0000_0000);
        }
    }
    root_by_digits(m)
}

// The m by which the root of c * 2^j is looked for: c, or twice it where j is odd.
fn halved(c: u64, j: u64) -> u64
    requires { c < 2 ^ 53 }
    ensures { result < 2 ^ 54 }
{
    if j % 2 == 0 { c } else { c * 2 }
}

// The bits of the root of c * 2^j, counted in units of 2^-2148, by a guess r.
fn scaled_root(c: u64, j: u64, r: u64) -> u64
    requires { (2 ^ 52 ≤ c) × (c < 2 ^ 53) × (52 ≤ j) × (j ≤ 4000) × (2 ^ 52 ≤ r) × (r < 2 ^ 53) }
    ensures is { from_bits binary64 result ≡ root_of (c * 2 ^ j) }
    ensures small { result < 0x7FF0_0000_0000_0000 }
{
    let k = j / 2 - 26;
    let m = if j % 2 == 0 { c } else { c * 2 };
    k * 0x10_0000_0000_0000 + closest_root(m, r)
}

// The same for a c below 2^52: it is shifted up to 53 digits.
fn small_root(c: u64) -> u64
    requires { (0 < c) × (c < 2 ^ 52) }
    ensures is { from_bits binary64 result ≡ root_of (c * 2 ^ 1074) }
    ensures small { result < 0x7FF0_0000_0000_0000 }
{
    let s = c.leading_zeros() - 11;
    let j = 1074 - u64::from(s);
    let m = halved(c << s, j);
    scaled_root(c << s, j, guess(m))
}

// The m by which the root of a double with these bits is looked for, which is no subnormal.
fn mantissa(b: u64) -> u64
    ensures { result < 2 ^ 54 }
{
    halved(
        b % 0x10_0000_0000_0000 + 0x10_0000_0000_0000,
        b / 0x10_0000_0000_0000 + 1073,
    )
}

// The root of a finite double above zero that is no subnormal, by a guess r.
fn usual_root(v: f64, r: u64) -> f64
    requires { T (positive v) × (2 ^ 52 ≤ to_bits binary64 v) × (2 ^ 52 ≤ r) × (r < 2 ^ 53) }
    ensures { result ≡ root_f v }
{
    let b = v.to_bits();
    let e = b / 0x10_0000_0000_0000;
    let t = b % 0x10_0000_0000_0000;
    f64::from_bits(scaled_root(t + 0x10_0000_0000_0000, e + 1073, r))
}

// The root of a finite double above zero.
fn positive_root(v: f64) -> f64
    requires { T (positive v) }
    ensures { result ≡ root_f v }
{
    let b = v.to_bits();
    if b < 0x10_0000_0000_0000 {
        return f64::from_bits(small_root(b));
    }
    usual_root(v, guess(mantissa(b)))
}

// NaN for a NaN or a value below zero, zeros and +infinity as they are, and else the nearest double.
pub fn sqrt(x: f64) -> f64
    ensures { result ≡ root_f x }
{
    if 0.0 < x {
        if x < f64::INFINITY {
            return positive_root(x);
        }
        return x;
    }
    if (x == 0.0) | x.is_nan() {
        return x;
    }
    f64::NAN
}

// The root of x by a guess r, where one is made of guesses.
fn root_by(x: f64, r: u64) -> f64
    requires { (2 ^ 52 ≤ r) × (r < 2 ^ 53) }
    ensures { result ≡ root_f x }
{
    if (0.0 < x) & (x < f64::INFINITY) {
        if 0x10_0000_0000_0000 <= x.to_bits() {
            return usual_root(x, r);
        }
    }
    sqrt(x)
}

// Each number becomes its root. The guess is the machine's root, which waits for no division before it, and is tried as any other. `sqrt` keeps its own guess:
// the machine's would never be refused, and the digits never run.
pub fn put_roots(v: &mut [f64])
    ensures { v.new ≡ map root_f v.old }
{
    for i in 0..v.len() {
        v[i] = root_by(v[i], digits(v[i].sqrt()));
    }
}
