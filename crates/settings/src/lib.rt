// The settings of a report, and the numbers by which records and the C interface name their cases. The last case takes every other number.
#![tactic(auto)]

ghost use Rattle.std.specs.Prelude.{◌≡◌, get_or};
ghost use Rattle.value.specs.Numbers.{zero_f};
ghost use Rattle.settings.specs.Numbers.{bound_of, criterion_of, confidence_of, tolerance_of, pruning_of, settings_of, settings_in};

use basis::Degree;
use covariance::PruningRule;
use score::Criterion;
use statistics::{Confidence, DegreeBound, Tolerance};

// How a degree is chosen, what the bands allow, and which terms may be pruned.
#[derive(Clone, Copy)]
pub struct Settings {
    pub bound: DegreeBound,
    pub criterion: Criterion,
    pub confidence: Confidence,
    pub tolerance: Tolerance,
    pub pruning: PruningRule,
}

// How a degree is bounded; a custom bound is the degree.
#[tactic(auto, unfolding(crate::specs::Numbers::bound_of))]
pub fn bound(number: u32, degree: usize) -> DegreeBound
    ensures { result ≡ bound_of number degree }
{
    match number {
        0 => DegreeBound::Conservative,
        1 => DegreeBound::Relaxed,
        2 => DegreeBound::Aggressive,
        _ => DegreeBound::Custom(Degree(degree)),
    }
}

#[tactic(auto, unfolding(crate::specs::Numbers::criterion_of))]
pub fn criterion(number: u32) -> Criterion
    ensures { result ≡ criterion_of number }
{
    match number {
        0 => Criterion::Aic,
        _ => Criterion::Bic,
    }
}

// A custom confidence is the z score.
#[tactic(auto, unfolding(crate::specs::Numbers::confidence_of))]
pub fn confidence(number: u32, score: f64) -> Confidence
    ensures { result ≡ confidence_of number score }
{
    match number {
        0 => Confidence::P80,
        1 => Confidence::P90,
        2 => Confidence::P95,
        3 => Confidence::P98,
        4 => Confidence::P99,
        5 => Confidence::P999,
        _ => Confidence::Custom(score),
    }
}

// Every tolerance but none carries the value.
#[tactic(auto, unfolding(crate::specs::Numbers::tolerance_of))]
pub fn tolerance(number: u32, value: f64) -> Tolerance
    ensures { result ≡ tolerance_of number value }
{
    match number {
        0 => Tolerance::None,
        1 => Tolerance::Absolute(value),
        2 => Tolerance::Variance(value),
        _ => Tolerance::Measurement(value),
    }
}

#[tactic(auto, unfolding(crate::specs::Numbers::pruning_of))]
pub fn pruning(number: u32) -> PruningRule
    ensures { result ≡ pruning_of number }
{
    match number {
        0 => PruningRule::Positive,
        _ => PruningRule::Size,
    }
}

// The settings by their numbers: the one place where the C interface and records build them.
pub fn numbered(
    bound_number: u32,
    most: usize,
    criterion_number: u32,
    confidence_number: u32,
    score: f64,
    tolerance_number: u32,
    value: f64,
    pruning_number: u32,
) -> Settings
    ensures { result ≡ settings_of bound_number most criterion_number confidence_number score tolerance_number value pruning_number }
{
    let bound = bound(bound_number, most);
    let criterion = criterion(criterion_number);
    let confidence = confidence(confidence_number, score);
    let tolerance = tolerance(tolerance_number, value);
    let pruning = pruning(pruning_number);
    Settings {
        bound,
        criterion,
        confidence,
        tolerance,
        pruning,
    }
}

// A word that is not lent is 0.
fn word(words: &[u32], i: usize) -> u32
    ensures { result ≡ get_or words.now i 0 }
{
    words.get(i).copied().unwrap_or(0)
}

// A value that is not lent is +0.
fn value(values: &[f64], i: usize) -> f64
    ensures { result ≡ get_or values.now i zero_f }
{
    values.get(i).copied().unwrap_or(0.0)
}

// The settings from lists, which grow with the settings: what is not lent is 0, and what is past the last setting is not read.
pub fn listed(words: &[u32], values: &[f64]) -> Settings
    ensures { result ≡ settings_in words.now values.now }
{
    let bound = word(words, 0);
    let most = word(words, 1) as usize;
    let criterion = word(words, 2);
    let confidence = word(words, 3);
    let score = value(values, 0);
    let tolerance = word(words, 4);
    let allowed = value(values, 1);
    let pruning = word(words, 5);
    numbered(
        bound, most, criterion, confidence, score, tolerance, allowed, pruning,
    )
}
