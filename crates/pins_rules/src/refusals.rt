// Why a call on the pin table is refused: document 02's numbers by name. Across C, and in what a host is answered, a refusal is its number.
ghost use Rattle.std.specs.Prelude.{◌≡◌};
ghost use Rattle.pins_rules.specs.Refusals.{refusal_number};

// `Pinned` is of an add that the crew has that pin already, and of a remove that it has none.
#[derive(Clone, Copy, Debug, PartialEq, Eq)]
pub enum PinRefusal {
    Length,
    Table,
    Crew,
    Chamber,
    Pinned,
    Full,
}

impl From<PinRefusal> for u32 {
    ghost from_gives = { λ refusal n. n ≡ refusal_number refusal };

    fn from(refusal: PinRefusal) -> u32 {
        match refusal {
            PinRefusal::Length => 2,
            PinRefusal::Table => 3,
            PinRefusal::Crew => 11,
            PinRefusal::Chamber => 12,
            PinRefusal::Pinned => 13,
            PinRefusal::Full => 14,
        }
    }
}
