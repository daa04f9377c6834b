// The reader's refusal of a sheet alone: for lists of the lengths that its header asks for.
ghost use Rattle.std.specs.Prelude.{◌≡◌};
ghost use Rattle.rules.specs.Refusals.{outcome_number};
ghost use Rattle.rules.specs.Site.{cells, state_length};
ghost use Rattle.rules.specs.Sheet.{card_in, read_number};

use crate::look;
use rules::Refusal;

pub fn own_number(sheet: &[u8]) -> Result<(), Refusal>
    ensures { outcome_number result ≡ read_number sheet.now (cells (card_in sheet.now)) (state_length (card_in sheet.now)) }
{
    if !sheet::head_fits(sheet) {
        return Err(Refusal::Sheet);
    }
    let card = sheet::card_in(sheet);
    if !card::card_fits(card) {
        return Err(Refusal::Card);
    }
    sheet::front_number(sheet, card::cells(card), card::state_length(card))?;
    look::values_number(sheet)
}
