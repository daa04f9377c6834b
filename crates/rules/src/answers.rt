// What calls are answered across C, made of what they end with: a refusal's number with nothing beside it, or 0 with what was found.
ghost use Rattle.std.specs.Prelude.{◌≡◌};
ghost use Rattle.rules.specs.Answers.{heard_of, wrote_of, staff_of, raster_of};

use crate::{Card, Heard, Raster, Refusal, Staff, Wrote};

// What a raster says in front of its values, where it passes.
#[derive(Clone, Copy, Debug, PartialEq, Eq)]
pub struct Survey {
    pub columns: u32,
    pub rows: u32,
    pub side: u32,
}

impl From<Result<Card, Refusal>> for Heard {
    ghost from_gives = { λ outcome heard. heard ≡ heard_of outcome };

    fn from(outcome: Result<Card, Refusal>) -> Heard {
        match outcome {
            Ok(card) => Heard { number: 0, card },
            Err(refusal) => Heard {
                number: u32::from(refusal),
                card: Card {
                    columns: 0,
                    rows: 0,
                    dx: 0,
                    dy: 0,
                    dt: 0,
                    steps: 0,
                },
            },
        }
    }
}

impl From<Result<u32, Refusal>> for Wrote {
    ghost from_gives = { λ outcome wrote. wrote ≡ wrote_of outcome };

    fn from(outcome: Result<u32, Refusal>) -> Wrote {
        match outcome {
            Ok(size) => Wrote { number: 0, size },
            Err(refusal) => Wrote {
                number: u32::from(refusal),
                size: 0,
            },
        }
    }
}

impl From<Result<Option<i32>, Refusal>> for Staff {
    ghost from_gives = { λ outcome staff. staff ≡ staff_of outcome };

    fn from(outcome: Result<Option<i32>, Refusal>) -> Staff {
        match outcome {
            Ok(Some(height)) => Staff {
                number: 0,
                read: 1,
                height,
            },
            Ok(None) => Staff {
                number: 0,
                read: 0,
                height: 0,
            },
            Err(refusal) => Staff {
                number: u32::from(refusal),
                read: 0,
                height: 0,
            },
        }
    }
}

impl From<Result<Survey, Refusal>> for Raster {
    ghost from_gives = { λ outcome raster. raster ≡ raster_of outcome };

    fn from(outcome: Result<Survey, Refusal>) -> Raster {
        match outcome {
            Ok(survey) => Raster {
                number: 0,
                columns: survey.columns,
                rows: survey.rows,
                side: survey.side,
            },
            Err(refusal) => Raster {
                number: u32::from(refusal),
                columns: 0,
                rows: 0,
                side: 0,
            },
        }
    }
}
