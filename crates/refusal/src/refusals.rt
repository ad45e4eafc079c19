// Why a call is refused, and the form in which a call asks its tests.
ghost use Rattle.std.specs.Prelude.{◌≡◌};
ghost use Rattle.refusal.specs.Refusals.{first_of};
ghost use Rattle.refusal.specs.Named.{number, tests_of, judged};

// Document 01's refusals by its numbers, and those of document 02 behind them. 0 is no refusal.
#[derive(Clone, Copy, Debug, PartialEq, Eq)]
pub enum Refusal {
    // a lent memory is too short, or the count is above capacity
    Short = 1,
    FrameLength = 2,
    FrameVersion = 3,
    NotFinite = 4,
    // the samples to add would pass capacity
    Full = 5,
    NoSample = 6,
    // no samples, or folds that they can't be cut into
    TooFew = 7,
    DegreeTooHigh = 8,
    // x lies outside the samples
    Outside = 9,
    Unsolved = 10,
    NoneChosen = 11,
    NoInverse = 12,
    Malformed = 13,
    TooManyDigits = 14,
    // a weight is not above zero
    Weightless = 15,
    // fewer pivot tests are left than the call takes
    OverLimit = 16,
    NoGroup = 17,
    NoStake = 18,
}

impl From<Refusal> for u8 {
    ghost from_gives = { λ r n. n ≡ number r };

    fn from(r: Refusal) -> u8 {
        r as u8
    }
}

// Each test and the refusal of a call that it holds of, in checking order: the first that holds refuses.
pub fn first_of(tests: &[(bool, Refusal)]) -> Result<(), Refusal>
    ensures { result ≡ judged (first_of (tests_of tests.now)) }
{
    for &(holds, refusal) in tests {
        if holds {
            return Err(refusal);
        }
    }
    Ok(())
}
