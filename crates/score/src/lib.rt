// AIC and BIC, from the number of samples scored, the number of coefficients and the total of the losses.
#![tactic(auto)]

ghost use Rattle.std.specs.Prelude.{◌≡◌};
ghost use Rattle.score.specs.Score.{likelihood_of, aic_of, bic_of, score_of};

use basis::CoefficientCount;

#[derive(Clone, Copy)]
pub enum Criterion {
    Aic,
    Bic,
}

// The mean of the losses, 2⁻⁵² at the least.
fn likelihood(n: u64, total: f64) -> f64
    ensures { result ≡ likelihood_of n total }
{
    value::maximum(
        total / std::num::nearest_u64_to_f64(n),
        2.220446049250313080847263336181640625e-16,
    )
}

fn aic(n: u64, k: u64, total: f64) -> f64
    ensures { result ≡ aic_of n k total }
{
    let nf = std::num::nearest_u64_to_f64(n);
    let kf = std::num::nearest_u64_to_f64(k);
    let a = nf * value::ln(likelihood(n, total)) + 2.0 * kf;
    if (nf / kf < 4.0) & (kf + 1.0 < nf) {
        return a + 2.0 * kf * (kf + 1.0) / (nf - kf - 1.0);
    }
    a
}

fn bic(n: u64, k: u64, total: f64) -> f64
    ensures { result ≡ bic_of n k total }
{
    let nf = std::num::nearest_u64_to_f64(n);
    let kf = std::num::nearest_u64_to_f64(k);
    nf * value::ln(likelihood(n, total)) + kf * value::ln(nf)
}

// The score of a fit of k coefficients whose losses on n samples add up to total: the smaller, the better. Of no samples it is NaN.
pub fn score(criterion: Criterion, n: usize, k: CoefficientCount, total: f64) -> f64
    ensures { result ≡ score_of criterion n k.0 total }
{
    if n == 0 {
        return 0.0 / 0.0;
    }
    let count = k.0;
    match criterion {
        Criterion::Aic => aic(n as u64, count as u64, total),
        Criterion::Bic => bic(n as u64, count as u64, total),
    }
}
