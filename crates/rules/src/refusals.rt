// Why a call is refused: document 01's numbers by name. Across C, and in the records that a host is answered, a refusal is its number.
ghost use Rattle.std.specs.Prelude.{◌≡◌};
ghost use Rattle.rules.specs.Refusals.{refusal_number, outcome_number};

#[derive(Clone, Copy, Debug, PartialEq, Eq)]
pub enum Refusal {
    // 1: a number of the card outside its range, or over 64 pumps.
    Card,
    // 2: a lent list of the wrong length, over 1,000 chambers, or sides that differ where a raster is to be written.
    Length,
    // 3: a value outside its range, a wall velocity that is not 0, a pump outside the site, a number that is not finite.
    Value,
    // 4: a cell breaks the step limit.
    StepLimit,
    // 5: a new height above 50,000,000.
    TooHigh,
    // 7: a new velocity outside its range. 6 is unused.
    TooFast,
    // 8: too little room.
    Room,
    // 9: no sheet.
    Sheet,
    // 10: no raster.
    Raster,
}

impl From<Refusal> for u32 {
    ghost from_gives = { λ refusal n. n ≡ refusal_number refusal };

    fn from(refusal: Refusal) -> u32 {
        match refusal {
            Refusal::Card => 1,
            Refusal::Length => 2,
            Refusal::Value => 3,
            Refusal::StepLimit => 4,
            Refusal::TooHigh => 5,
            Refusal::TooFast => 7,
            Refusal::Room => 8,
            Refusal::Sheet => 9,
            Refusal::Raster => 10,
        }
    }
}

// The number of an outcome: 0 where it is done. A function named after a number of the documents returns the refusal that has it.
pub fn outcome_number(outcome: Result<(), Refusal>) -> u32
    ensures { result ≡ outcome_number outcome }
{
    match outcome {
        Ok(()) => 0,
        Err(refusal) => u32::from(refusal),
    }
}
