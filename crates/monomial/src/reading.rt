// What is read off the columns of the samples.
ghost use Rattle.std.specs.Prelude.{◌≡◌, [], ◌+◌, ◌-◌, ◌≤◌, ◌<◌, length, take, drop, get_or};
ghost use Rattle.std.specs.Float.{nan};
ghost use Rattle.basis.specs.declared.Basis.TheVariants.{Curve, Surface};
ghost use Rattle.samples.specs.Columns.{samples_of};
ghost use Rattle.samples.specs.Held.{held};
ghost use Rattle.value.specs.Lanes.{Paired, lane};
ghost use Rattle.monomial.specs.Terms.{terms_at};
ghost use Rattle.monomial.specs.Rows.{rows_of, weight_at, rows_at, weighted_rows_at};
ghost use Rattle.monomial.specs.Reading.{rows_read, weighted_read};

use crate::rows::Rows;
use crate::{pairs, terms_at};
use basis::{Basis, TERMS};
use samples::Columns;
use std::simd::prelude::*;

// The weights from a sample on, none past their end.
fn weights_from(ws: &[f64], start: usize) -> &[f64]
    ensures { result.now ≡ drop start ws.now }
{
    if start < ws.len() {
        return &ws[start..];
    }
    &[]
}

impl<'a> Rows<'a> {
    // The first n samples of a curve.
    pub fn curve(n: usize, columns: Columns<'a>) -> Rows<'a>
        requires { (n ≤ length columns.xs.now) × (n ≤ length columns.ys.now) }
        ensures rows { rows_read result ≡ rows_of (samples_of n (held columns.entry)) }
        ensures weighted { weighted_read result ≡ weighted_rows_at Curve n columns.entry.xs.now columns.entry.xs.now columns.entry.ys.now columns.entry.ws.now }
        ensures long { length result.ys.now ≡ n }
        ensures curved { result.basis ≡ Curve }
    {
        Rows {
            basis: Basis::Curve,
            xs: &columns.xs[..n],
            zs: &columns.xs[..n],
            ys: &columns.ys[..n],
            ws: columns.ws,
        }
    }

    // The first n samples of a surface, each at weight 1.
    pub fn surface(n: usize, xs: &'a [f64], zs: &'a [f64], ys: &'a [f64]) -> Rows<'a>
        requires { (n ≤ length xs.now) × (n ≤ length zs.now) × (n ≤ length ys.now) }
        ensures rows { rows_read result ≡ rows_at Surface n xs.now zs.now ys.now }
        ensures weighted { weighted_read result ≡ weighted_rows_at Surface n xs.now zs.now ys.now [] }
        ensures long { length result.ys.now ≡ n }
        ensures surface { result.basis ≡ Surface }
    {
        Rows {
            basis: Basis::Surface,
            xs: &xs[..n],
            zs: &zs[..n],
            ys: &ys[..n],
            ws: &[],
        }
    }

    // How many samples there are.
    pub fn len(self) -> usize
        ensures { result ≡ length self.entry.ys.now }
    {
        self.ys.len()
    }

    // The samples from start on and before end.
    pub fn part(self, start: usize, end: usize) -> Rows<'a>
        requires { (start ≤ end) × (end ≤ length self.ys.now) }
        ensures rows { rows_read result ≡ drop start (take end (rows_read self.entry)) }
        ensures weighted { weighted_read result ≡ drop start (take end (weighted_read self.entry)) }
        ensures long { length result.ys.now ≡ end - start }
        ensures same { result.basis ≡ self.entry.basis }
    {
        Rows {
            basis: self.basis,
            xs: &self.xs[start..end],
            zs: &self.zs[start..end],
            ys: &self.ys[start..end],
            ws: weights_from(self.ws, start),
        }
    }

    // The term values of sample t.
    #[inline(always)]
    pub fn terms(self, t: usize) -> [f64; TERMS]
        requires { t < length self.ys.now }
        ensures { result ≡ terms_at self.entry.basis (get_or self.entry.xs.now t nan) (get_or self.entry.zs.now t nan) }
    {
        terms_at(self.basis, self.xs[t], self.zs[t])
    }

    // The term values of samples t and t + 1, side by side.
    #[inline(always)]
    pub fn pair_terms(self, t: usize) -> [f64x2; TERMS]
        requires { t + 1 < length self.ys.now }
        ensures first { lane 0 result ≡ terms_at self.entry.basis (get_or self.entry.xs.now t nan) (get_or self.entry.zs.now t nan) }
        ensures second { lane 1 result ≡ terms_at self.entry.basis (get_or self.entry.xs.now (t + 1) nan) (get_or self.entry.zs.now (t + 1) nan) }
        ensures paired { Paired result }
    {
        pairs::pair_terms(
            self.basis,
            self.xs[t],
            self.zs[t],
            self.xs[t + 1],
            self.zs[t + 1],
        )
    }

    // The weight of sample t.
    pub fn weight(self, t: usize) -> f64
        ensures { result ≡ weight_at self.entry.ws.now t }
    {
        if t < self.ws.len() {
            return self.ws[t];
        }
        1.0
    }
}
