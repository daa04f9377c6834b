// The player's own refusals: input that is too long, what the reader says of it, and a site that is too large to print.
#![tactic(auto)]

ghost use Rattle.std.specs.Prelude.{◌≡◌};
ghost use Rattle.rules.specs.Refusals.{outcome_number};
ghost use Rattle.rules.specs.Play.{play_number};

use rules::Refusal;

// Why an input is refused, and nothing where it is a sheet to be run.
pub fn play_number(input: &[u8]) -> Result<(), Refusal>
    ensures { outcome_number result ≡ play_number input.now }
{
    if 16659 < input.len() {
        return Err(Refusal::Room);
    }
    sheet_reader::own_number(input)?;
    let card = sheet::card_in(input);
    let small = (card.columns <= 32) & (card.rows <= 32);
    if !small {
        return Err(Refusal::Room);
    }
    Ok(())
}
