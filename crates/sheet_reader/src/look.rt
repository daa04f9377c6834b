// The values of a sheet, looked at where they stand, before any list is filled.
ghost use Rattle.std.specs.Prelude.{◌≡◌};
ghost use Rattle.rules.specs.Refusals.{outcome_number};
ghost use Rattle.rules.specs.Site.{cells, state_length};
ghost use Rattle.rules.specs.Sheet.{card_in, read_number};
ghost use Rattle.sheet.specs.Front.{Front};

use crate::row::SheetWords;
use rules::Refusal;

// What the values decide, for lists of the lengths that the header asks for.
pub fn values_number(sheet: &[u8]) -> Result<(), Refusal>
    requires { Front sheet.now (cells (card_in sheet.now)) (state_length (card_in sheet.now)) }
    ensures { outcome_number result ≡ read_number sheet.now (cells (card_in sheet.now)) (state_length (card_in sheet.now)) }
{
    let card = sheet::card_in(sheet);
    let n = card::cells(card);
    let m = card::state_length(card);
    let land = SheetWords {
        sheet,
        at: 19,
        count: n,
    };
    let state = SheetWords {
        sheet,
        at: 19 + 4 * n,
        count: m,
    };
    if !values::values_fit(card, land, state) {
        return Err(Refusal::Value);
    }
    Ok(())
}
