// Order statistics with no write to the numbers. Few are put in order in a local array; of many, what stands at a place in order is found by counting bit
// patterns, and some are copied.
ghost use Rattle.std.specs.Prelude.{◌≡◌, ◌+◌, ◌-◌, ◌/◌, ◌<◌, ◌≤◌, ◌&&◌, ◌⊎◌, IfSome, length, map, take, nat_le, to_bits, [], ◌∷◌, false};
ghost use Rattle.std.specs.Int.{from_bool};
ghost use Rattle.std.specs.Float.{binary64};
ghost use Rattle.std.specs.Float.Ieee.{sub};
ghost use Rattle.std.specs.List.Sorted.{IsNonDecreasing, IsPermutation};
ghost use Rattle.loops.specs.All.{All};
ghost use Rattle.value.specs.Absolute.{abs_f};
ghost use Rattle.statistics.specs.Medians.{any_nan, midpoint as midpoint_f, median_of};
ghost use Rattle.statistics.specs.Counting.{Plain, distances, count, upto, under, onward, between, keep, Middles, InRange, nearer as nearer_f, farther as farther_f, least_from, greatest_under};

use std::marker::Model;
use std::simd::prelude::*;

// The bits of +infinity: no number has greater ones.
const INFINITY: u64 = 0x7FF0_0000_0000_0000;

// So many are copied at most.
const FEW: usize = 256;

// No more than so many are put in order, by insertion in the library, which is quicker than a search by counts.
const SORTED: usize = 20;

// Of no more than so many none is copied: counting them again is as quick.
const VERY_FEW: usize = 64;

// So many are sampled, to know about where a place lies.
const SAMPLE: usize = 31;

// Of no more than `FEW` numbers so many are sampled: more take longer to put in order than a pass over all.
const SMALL_SAMPLE: usize = 9;

// So many places about the one looked for are copied, to either side of it.
const MARGIN: f64 = 77.0;

// As many bits as lie between a double and the one sixteen times as large.
const FOUR_BINADES: u64 = 0x40_0000_0000_0000;

// The bits of ||x| − d|.
fn key(x: f64, d: f64) -> u64
    requires { Plain (abs_f (sub binary64 (abs_f x) d)) }
    ensures is { result ≡ to_bits binary64 (abs_f (sub binary64 (abs_f x) d)) }
    ensures small { result ≤ INFINITY }
{
    let size = f64::from_bits(x.to_bits() % 0x8000_0000_0000_0000);
    let v = size - d;
    v.to_bits() % 0x8000_0000_0000_0000
}

// Whether k is at most b. The bits are compared as doubles, which are in the same order, since a machine compares two doubles at once more cheaply than
// two whole numbers of 64 bits.
fn at_most(k: u64, b: u64) -> bool
    requires { (k ≤ INFINITY) × (b ≤ INFINITY) }
    ensures { result ≡ nat_le k b }
{
    f64::from_bits(k) <= f64::from_bits(b)
}

// The deviations of x and y from d, side by side.
fn both(x: f64, y: f64, d: f64) -> f64x2
    requires { Plain (abs_f (sub binary64 (abs_f x) d)) × Plain (abs_f (sub binary64 (abs_f y) d)) }
    ensures { result ≡ abs_f (sub binary64 (abs_f x) d) ∷ abs_f (sub binary64 (abs_f y) d) ∷ [] }
{
    let sign = u64x2::splat(0x8000_0000_0000_0000);
    let sizes = f64x2::from_bits(f64x2::from_array([x, y]).to_bits() % sign);
    let v = sizes - f64x2::splat(d);
    f64x2::from_bits(v.to_bits() % sign)
}

// 1 for each number of v whose bits are at most b, and else 0.
fn ones_upto(v: f64x2, b: u64) -> u64x2
    requires { (length v ≡ 2) × (All Plain v) × (b ≤ INFINITY) }
    ensures { result ≡ map (λ x. from_bool (upto b x)) v }
{
    v.simd_le(f64x2::splat(f64::from_bits(b)))
        .select(u64x2::splat(1), u64x2::splat(0))
}

// 1 for each number of v whose bits are lo or above, and else 0.
fn ones_onward(v: f64x2, lo: u64) -> u64x2
    requires { (length v ≡ 2) × (All Plain v) × (lo ≤ INFINITY) }
    ensures { result ≡ map (λ x. from_bool (onward lo x)) v }
{
    v.simd_ge(f64x2::splat(f64::from_bits(lo)))
        .select(u64x2::splat(1), u64x2::splat(0))
}

// 1 for each number of v whose bits lie from lo to hi, and else 0.
fn ones_between(v: f64x2, lo: u64, hi: u64) -> u64x2
    requires { (length v ≡ 2) × (All Plain v) × (lo ≤ INFINITY) × (hi ≤ INFINITY) }
    ensures { result ≡ map (λ x. from_bool (between lo hi x)) v }
{
    v.simd_ge(f64x2::splat(f64::from_bits(lo)))
        .select(ones_upto(v, hi), u64x2::splat(0))
}

// Of k and v: k where it is b or above, and below v.
fn nearer(b: u64, k: u64, v: u64) -> u64
    ensures { result ≡ nearer_f b k v }
{
    if (b <= k) & (k < v) { k } else { v }
}

// Of k and v: k where it is under b, and above v.
fn farther(b: u64, k: u64, v: u64) -> u64
    ensures { result ≡ farther_f b k v }
{
    if (k < b) & (v < k) { k } else { v }
}

// The bits of two numbers.
#[derive(Clone, Copy)]
struct Pair {
    low: u64,
    high: u64,
}

// How many of a list there are up to each of two numbers.
#[derive(Clone, Copy)]
struct Counts {
    low: usize,
    high: usize,
}

// The bits of a sample, in order: so many of them.
#[derive(Clone, Copy)]
struct Sample {
    keys: [u64; SAMPLE],
    many: usize,
}

impl Sample {
    // The one at place i, or the last; 0 where there is none.
    fn at(self, i: usize) -> u64
        requires { self.many ≤ SAMPLE }
    {
        if self.many == 0 {
            return 0;
        }
        self.keys[i.min(self.many - 1)]
    }
}

// How a range is cut: by rank. Where that parts few numbers off, as it does of numbers that lie close about one of them, it is cut by another sample; and in
// half, so that it shrinks soon whatever the numbers are.
#[derive(Clone, Copy)]
enum Cut {
    ByRank,
    BySample,
    InHalf,
}

impl Cut {
    // The next one: of another kind after one that left more than about three quarters of those in the range.
    fn next(self, were: usize, left: usize) -> Cut {
        let poor = left / 3 > were / 4;
        match self {
            Cut::ByRank if poor => Cut::BySample,
            Cut::BySample if poor => Cut::InHalf,
            _ => Cut::ByRank,
        }
    }
}

// The numbers at a place and before it, where they were among those copied; and how many lie below the range that was copied, and up to its end.
#[derive(Clone, Copy)]
struct Copied {
    middles: Option<Pair>,
    found: Counts,
}

// A range that a place is looked for in: bits from lo to hi, and how many are under lo, and up to hi.
#[derive(Clone, Copy)]
struct Range {
    lo: u64,
    hi: u64,
    below: usize,
    upto: usize,
}

impl Range {
    // The bits where place m would be if the numbers lay evenly in the range, and so many places from there. A guess.
    fn by_rank(self, m: usize, further: f64) -> u64 {
        let low = value::from_bits(self.lo);
        let under = std::num::nearest_usize_to_f64(self.below);
        let rank = std::num::nearest_usize_to_f64(m) - under + further;
        let all = std::num::nearest_usize_to_f64(self.upto) - under;
        value::to_bits(low + (value::from_bits(self.hi) - low) * (rank / all))
    }

    // k, or the end of the range, without hi, that it is past.
    fn within(self, k: u64) -> u64
        requires { self.lo < self.hi }
        ensures { (self.lo ≤ result) × (result < self.hi) }
    {
        if k < self.lo {
            self.lo
        } else if k < self.hi {
            k
        } else {
            self.hi - 1
        }
    }

    // Where the range is cut to look for place m. While hi is still +infinity, the cut by rank is at four times lo. A bad cut costs a pass, no more.
    fn cut(self, how: Cut, m: usize) -> u64
        requires { (self.lo < self.hi) × (self.hi ≤ INFINITY) }
        ensures { (self.lo ≤ result) × (result < self.hi) }
    {
        match how {
            Cut::ByRank if self.hi == INFINITY => self.within(self.lo + 0x20_0000_0000_0000),
            Cut::ByRank => self.within(self.by_rank(m, 0.5)),
            Cut::BySample | Cut::InHalf => self.lo + (self.hi - self.lo) / 2,
        }
    }

    // Cuts `MARGIN` places below place m and above it, by rank, of a range that is not too wide for that. Where there are some, the range is no point, and both
    // lie in it, one above the other.
    fn about(self, m: usize) -> Option<Pair>
        requires { (self.lo ≤ self.hi) × (self.hi ≤ INFINITY) }
        ensures { IfSome result (λ p. (self.lo ≤ p.low) × (p.low < p.high) × (p.high < self.hi)) }
    {
        if (self.lo == self.hi) | (FOUR_BINADES < self.hi - self.lo) {
            return None;
        }
        let low = self.within(self.by_rank(m, -MARGIN));
        let high = self.within(self.by_rank(m, MARGIN));
        if high <= low {
            return None;
        }
        Some(Pair { low, high })
    }

    // Where place m would be by those of a sample, in order, that lie in the range; in half where none does.
    fn by_sample(self, sample: Sample, m: usize) -> u64
        requires { (self.lo < self.hi) × (self.hi ≤ INFINITY) × (sample.many ≤ SAMPLE) }
        ensures { (self.lo ≤ result) × (result < self.hi) }
    {
        let keys = &sample.keys[..sample.many];
        let first = keys.partition_point(|k| *k < self.lo);
        let many = keys
            .partition_point(|k| *k <= self.hi)
            .saturating_sub(first);
        if many == 0 {
            return self.cut(Cut::InHalf, m);
        }
        let all = self.upto.saturating_sub(self.below).max(1);
        let place = m.saturating_sub(self.below).saturating_mul(many) / all;
        self.within(sample.at(first.saturating_add(place)))
    }
}

// The deviations ||x| − d| of the sizes of numbers from d, none of them a NaN. They are worked out anew in each pass; of few the bits are stored.
#[derive(Drop)]
struct Deviations<'a> {
    sizes: &'a [f64],
    from: f64,
}

impl<'a> Model for Deviations<'a> {
    ghost use Rattle.std.specs.Prelude.{List, Float};
    ghost use Rattle.loops.specs.All.{All};
    ghost use Rattle.statistics.specs.Counting.{Plain, distances};

    ghost Value = { List Float };

    ghost view = { λ s. distances s.from s.sizes.now };

    ghost invariant = { λ s. All Plain (distances s.from s.sizes.now) };
}

impl Deviations<'_> {
    fn len(&self) -> usize
        ensures is { result ≡ length self.now }
        ensures plain { All Plain self.now }
    {
        self.sizes.len()
    }

    // The bits of the one at place i of the list.
    fn key_at(&self, i: usize) -> u64
        requires { i < length self.now }
    {
        let sizes = self.sizes;
        key(sizes[i], self.from)
    }

    // How many have bits up to b. Two are counted at once, each on its own, and a last one of an odd number after them.
    fn count_upto(&self, b: u64) -> usize
        requires { b ≤ INFINITY }
        ensures { result ≡ count (upto b) self.now }
    {
        let sizes = self.sizes;
        let n = sizes.len();
        let pairs = n / 2;
        let mut lanes = u64x2::splat(0);
        for p in 0..pairs {
            lanes += ones_upto(both(sizes[2 * p], sizes[2 * p + 1], self.from), b);
        }
        let both = lanes.to_array();
        let mut found = (both[0] + both[1]) as usize;
        if n % 2 == 1 {
            found += usize::from(at_most(key(sizes[n - 1], self.from), b));
        }
        found
    }

    // How many have bits up to each of two, in one pass.
    fn counts_upto(&self, cuts: Pair) -> Counts
        requires { (cuts.low ≤ INFINITY) × (cuts.high ≤ INFINITY) }
        ensures low { result.low ≡ count (upto cuts.low) self.now }
        ensures high { result.high ≡ count (upto cuts.high) self.now }
    {
        let sizes = self.sizes;
        let n = sizes.len();
        let pairs = n / 2;
        let mut lows = u64x2::splat(0);
        let mut highs = u64x2::splat(0);
        for p in 0..pairs {
            let v = both(sizes[2 * p], sizes[2 * p + 1], self.from);
            lows += ones_upto(v, cuts.low);
            highs += ones_upto(v, cuts.high);
        }
        let low = lows.to_array();
        let high = highs.to_array();
        let mut found = Counts {
            low: (low[0] + low[1]) as usize,
            high: (high[0] + high[1]) as usize,
        };
        if n % 2 == 1 {
            let k = key(sizes[n - 1], self.from);
            found.low += usize::from(at_most(k, cuts.low));
            found.high += usize::from(at_most(k, cuts.high));
        }
        found
    }

    // The greatest bits under b, and the least from lo on.
    fn edges(&self, lo: u64, b: u64) -> Pair
        ensures low { result.low ≡ greatest_under b self.now }
        ensures high { result.high ≡ least_from lo self.now }
        ensures plain { All Plain self.now }
    {
        let mut low = 0;
        let mut high = INFINITY;
        for x in self.sizes {
            let k = key(*x, self.from);
            low = farther(b, k, low);
            high = nearer(lo, k, high);
        }
        Pair { low, high }
    }

    // The bits of the numbers at evenly spread places, the first at `from`, in order.
    fn sampled(&self, many: usize, from: usize) -> Sample
        requires { (many ≤ SAMPLE) × (from < length self.now / many) }
        ensures { result.many ≤ SAMPLE }
    {
        let step = self.len() / many;
        let mut keys = [0; SAMPLE];
        for i in 0..many {
            keys[i] = self.key_at(i * step + from);
        }
        keys[..many].sort_unstable();
        Sample { keys, many }
    }

    // Two numbers of a sample, `margin` of its places below where place m falls in it, and above. A guess.
    fn about(&self, m: usize, many: usize, margin: usize) -> Pair
        requires { (0 < many) × (many ≤ SAMPLE) × (many ≤ length self.now) }
    {
        let sample = self.sampled(many, 0);
        let rank = (m / (self.len() / many)).min(many - 1);
        Pair {
            low: sample.at(rank.saturating_sub(margin)),
            high: sample.at(rank.saturating_add(margin)),
        }
    }

    // Two numbers, a little below place m and a little above it: the range is cut first before the one and after the other. A guess.
    fn first_cuts(&self, m: usize) -> Pair
        requires { (m < length self.now) × (SORTED < length self.now) }
        ensures { (result.low ≤ INFINITY) × (result.high ≤ INFINITY) }
    {
        let ends = if self.len() <= FEW {
            self.about(m, SMALL_SAMPLE, 1)
        } else {
            self.about(m, SAMPLE, 3)
        };
        Pair {
            low: ends.low.saturating_sub(1).min(INFINITY),
            high: ends.high.min(INFINITY),
        }
    }

    // A range where place m lies, cut at k, up to which `found` lie; where k is not in it or is its end, the range as it is.
    fn parted(&self, r: Range, k: u64, found: usize, m: usize) -> Range
        requires { InRange self.now m r.lo r.hi r.below r.upto × (found ≡ count (upto k) self.now) }
        ensures is { InRange self.now m result.lo result.hi result.below result.upto }
        ensures smaller { (r.lo ≤ k) → (k < r.hi) → result.hi - result.lo < r.hi - r.lo }
    {
        if (k < r.lo) | (r.hi <= k) {
            return r;
        }
        if m < found {
            Range {
                lo: r.lo,
                hi: k,
                below: r.below,
                upto: found,
            }
        } else {
            Range {
                lo: k + 1,
                hi: r.hi,
                below: found,
                upto: r.upto,
            }
        }
    }

    // A range where place m lies, cut at two numbers, up to which `found` lie.
    fn parted_twice(&self, r: Range, cuts: Pair, found: Counts, m: usize) -> Range
        requires { InRange self.now m r.lo r.hi r.below r.upto × (found.low ≡ count (upto cuts.low) self.now) × (found.high ≡ count (upto cuts.high) self.now) }
        ensures { InRange self.now m result.lo result.hi result.below result.upto }
    {
        let above = self.parted(r, cuts.high, found.high, m);
        self.parted(above, cuts.low, found.low, m)
    }

    // A range where place m lies, after a first pass, which cuts the whole twice.
    fn first_range(&self, m: usize) -> Range
        requires { (m < length self.now) × (SORTED < length self.now) }
        ensures { InRange self.now m result.lo result.hi result.below result.upto }
    {
        let whole = Range {
            lo: 0,
            hi: INFINITY,
            below: 0,
            upto: self.len(),
        };
        let cuts = self.first_cuts(m);
        let found = self.counts_upto(cuts);
        self.parted_twice(whole, cuts, found, m)
    }

    // Where the range is cut to look for place m. A sample has other places than the one before, since the range has another end.
    fn cut(&self, r: Range, how: Cut, m: usize) -> u64
        requires { (r.lo < r.hi) × (r.hi ≤ INFINITY) }
        ensures { (r.lo ≤ result) × (result < r.hi) }
    {
        let n = self.len();
        match how {
            Cut::BySample if FEW < n => {
                r.by_sample(self.sampled(SAMPLE, r.upto % (n / SAMPLE)), m)
            }
            Cut::BySample if SMALL_SAMPLE <= n => {
                r.by_sample(self.sampled(SMALL_SAMPLE, r.upto % (n / SMALL_SAMPLE)), m)
            }
            _ => r.cut(how, m),
        }
    }

    // How many have bits below lo, and up to hi; and copies of the numbers from lo to hi, if they fit with a place more. While there is room each number is
    // written, and the next one over it where it does not lie there, which needs no branch.
    fn gather(&self, lo: u64, hi: u64, out: &mut [f64]) -> Counts
        requires { (lo ≤ hi) × (hi ≤ INFINITY) × (0 < length out.old) }
        ensures low { result.low ≡ count (under lo) self.now }
        ensures high { result.high ≡ count (upto hi) self.now }
        ensures plain { All Plain self.now }
        ensures out_after { count (between lo hi) self.now < length out.old → take (count (between lo hi) self.now) out.new ≡ keep (between lo hi) self.now }
    {
        let sizes = self.sizes;
        let n = sizes.len();
        let pairs = n / 2;
        let last = out.len() - 1;
        let mut onward = u64x2::splat(0);
        let mut c: usize = 0;
        for p in 0..pairs {
            let v = both(sizes[2 * p], sizes[2 * p + 1], self.from);
            let inside = ones_between(v, lo, hi).to_array();
            let first = inside[0] as usize;
            let second = inside[1] as usize;
            let two = v.to_array();
            onward += ones_onward(v, lo);
            if c < last {
                out[c] = two[0];
                out[c + first] = two[1];
            }
            c += first + second;
        }
        let ones = onward.to_array();
        let low = 2 * pairs - (ones[0] + ones[1]) as usize;
        let mut found = Counts { low, high: low + c };
        if n % 2 == 1 {
            let k = key(sizes[n - 1], self.from);
            out[c.min(last)] = f64::from_bits(k);
            found.low += usize::from(!at_most(lo, k));
            found.high += usize::from(at_most(k, hi));
        }
        found
    }

    // Looks for place m, from 0. Its bits lie in a range, which is cut until m are under lo, so that the least from lo on stands at place m, or until lo is
    // hi, which stands there itself, or until no more than `few` lie in it. A cut that parts no numbers fell into a gap between them: then both ends move to
    // the next number, as they must where many are equal.
    fn narrow(&self, from: Range, m: usize, few: usize) -> Range
        requires { InRange self.now m from.lo from.hi from.below from.upto }
        ensures is { InRange self.now m result.lo result.hi result.below result.upto }
        ensures stops { (result.below ≡ m) ⊎ ((result.lo ≡ result.hi) ⊎ (result.upto ≤ result.below + few)) }
    {
        let mut how = Cut::ByRank;
        let mut gap = false;
        let mut r = from;
        while r.lo < r.hi && r.below != m && r.upto - r.below > few {
            if gap {
                let e = self.edges(r.lo, r.hi + 1);
                r.lo = e.high;
                r.hi = e.low;
                gap = false;
            } else {
                let mid = self.cut(r, how, m);
                let found = self.count_upto(mid);
                let were = r.upto - r.below;
                gap = (found == r.below) | (found == r.upto);
                r = self.parted(r, mid, found, m);
                how = how.next(were, r.upto - r.below);
            }
        }
        r
    }

    // The numbers at place m, which lies in a range, and before it. Where more than m are up to the bits at place m, and fewer than m under them, both are the
    // same.
    fn middles_in(&self, from: Range, m: usize) -> Pair
        requires { (m < length self.now) × InRange self.now m from.lo from.hi from.below from.upto }
        ensures { Middles self.now m result.low result.high }
    {
        let r = self.narrow(from, m, 0);
        if r.below == m {
            return self.edges(r.lo, r.lo);
        }
        Pair {
            low: r.lo,
            high: r.lo,
        }
    }

    // The same by those from lo to hi alone, where few lie there, place m and the one before it among them: these are copied, and the others not read any more.
    // And how many lie below lo, and up to hi.
    fn middles_between(&self, lo: u64, hi: u64, m: usize) -> Copied
        requires { (lo ≤ hi) × (hi ≤ INFINITY) }
        ensures low { result.found.low ≡ count (under lo) self.now }
        ensures high { result.found.high ≡ count (upto hi) self.now }
        ensures is { IfSome result.middles (λ p. Middles self.now m p.low p.high) }
    {
        let mut few = [0.0; FEW + 1];
        let found = self.gather(lo, hi, &mut few);
        let many = found.high - found.low;
        if m <= found.low || found.high <= m || FEW < many {
            return Copied {
                middles: None,
                found,
            };
        }
        let left = Deviations {
            sizes: &few[..many],
            from: 0.0,
        };
        let range = Range {
            lo,
            hi,
            below: 0,
            upto: many,
        };
        let middles = Some(left.middles_in(range, m - found.low));
        Copied { middles, found }
    }

    // The same of many numbers, from those that are copied if they can be.
    fn middles_of_many(&self, m: usize) -> Pair
        requires { (m < length self.now) × (SORTED < length self.now) }
        ensures { Middles self.now m result.low result.high }
    {
        let mut r = self.first_range(m);
        if let Some(cuts) = r.about(m) {
            let near = self.middles_between(cuts.low + 1, cuts.high, m);
            if let Some(p) = near.middles {
                return p;
            }
            r = self.parted_twice(r, cuts, near.found, m);
        }
        r = self.narrow(r, m, FEW);
        if (r.below < m) & (r.lo < r.hi) {
            if let Some(p) = self.middles_between(r.lo, r.hi, m).middles {
                return p;
            }
        }
        self.middles_in(r, m)
    }

    // The bits of the numbers are put in `keys`, in order.
    fn put_in_order(&self, keys: &mut [u64])
        requires { length keys.old ≡ length self.now }
        ensures moved { IsPermutation (map (to_bits binary64) self.now) keys.new }
        ensures rising { IsNonDecreasing keys.new }
    {
        let sizes = self.sizes;
        for i in 0..sizes.len() {
            keys[i] = key(sizes[i], self.from);
        }
        keys.sort_unstable();
    }

    // The numbers at place m and before it, of few: their bits are put in order.
    fn middles_of_few(&self, m: usize) -> Pair
        requires { (m < length self.now) × (length self.now ≤ SORTED) }
        ensures { Middles self.now m result.low result.high }
    {
        let mut room = [0; SORTED];
        let keys = &mut room[..self.len()];
        self.put_in_order(&mut *keys);
        Pair {
            low: keys[m.saturating_sub(1)],
            high: keys[m],
        }
    }

    // The same, of any.
    fn middles(&self, m: usize) -> Pair
        requires { m < length self.now }
        ensures { Middles self.now m result.low result.high }
    {
        if self.len() <= SORTED {
            self.middles_of_few(m)
        } else if self.len() <= VERY_FEW {
            self.middles_in(self.first_range(m), m)
        } else {
            self.middles_of_many(m)
        }
    }
}

// The midpoint of the two middle values. Halves are added only where the sum is infinite, since those of the least doubles are lost.
fn midpoint(low: f64, high: f64) -> f64
    ensures { result ≡ midpoint_f low high }
{
    let sum = low + high;
    if value::abs(sum) == f64::INFINITY {
        return low / 2.0 + high / 2.0;
    }
    sum / 2.0
}

// Whether one of the numbers is a NaN. `any` would leave the loop early, by a branch at each, which is slower.
fn holds_nan(a: &[f64]) -> bool
    ensures { result ≡ any_nan a.now }
{
    let mut found = false;
    for x in a {
        found |= x.is_nan();
    }
    found
}

// Whether one of the deviations is a NaN, which an infinite d makes of an infinite size. A loop of its own, as each sum has (sums.rt): a closure's contract
// is longer than the loop, and most medians take the other.
fn makes_nan(a: &[f64], d: f64) -> bool
    ensures { result ≡ any_nan (distances d a.now) }
{
    let mut found = false;
    for x in a {
        found |= (value::abs(*x) - d).is_nan();
    }
    found
}

// The same; a finite d makes none, and a pass over a itself is quicker.
fn any_nan(a: &[f64], d: f64) -> bool
    ensures { result ≡ any_nan (distances d a.now) }
{
    if value::is_finite(d) {
        return holds_nan(a);
    }
    makes_nan(a, d)
}

// The median of the deviations ||x| − d|, none of which is a NaN.
pub fn median_of_some(a: &[f64], d: f64) -> f64
    requires { any_nan (distances d a.now) ≡ false }
    ensures { result ≡ median_of (distances d a.now) }
{
    let n = a.len();
    if n == 0 {
        return 0.0;
    }
    // a fold of a validation may hold one sample alone
    if n == 1 {
        return value::abs(value::abs(a[0]) - d);
    }
    let numbers = Deviations { sizes: a, from: d };
    let p = numbers.middles(n / 2);
    let high = f64::from_bits(p.high);
    if n % 2 == 1 {
        return high;
    }
    midpoint(f64::from_bits(p.low), high)
}

// The same, of any.
pub fn median_from(a: &[f64], d: f64) -> f64
    ensures { result ≡ median_of (distances d a.now) }
{
    if any_nan(a, d) {
        return f64::NAN;
    }
    median_of_some(a, d)
}
