// The reader: what refuses a sheet first, and then what is left of one that passes.
ghost use Rattle.std.specs.Prelude.{◌≡◌, length};
ghost use Rattle.rules.specs.Answers.{heard_of};
ghost use Rattle.rules.specs.Sheet.{no_card};
ghost use Rattle.rules.specs.PublicContracts.{ReadContract};
ghost use Rattle.sheet.specs.Front.{Front};

use crate::look;
use rules::{Card, Refusal};

// The card beside a refusal, for a caller that makes a Heard of its own.
pub fn no_card() -> Card
    ensures { result ≡ no_card }
{
    Card {
        columns: 0,
        rows: 0,
        dx: 0,
        dy: 0,
        dt: 0,
        steps: 0,
    }
}

// The site of a sheet whose values decide. The lists are filled only once they have passed.
fn read_values(sheet: &[u8], land: &mut [i32], state: &mut [i32]) -> Result<Card, Refusal>
    requires { Front sheet.now (length land.old) (length state.old) }
    ensures { ReadContract sheet.now land.old state.old (heard_of result) land.new state.new }
{
    look::values_number(sheet)?;
    words::get_words(sheet, 19, land);
    words::get_words(sheet, 19 + 4 * land.len(), state);
    Ok(sheet::card_in(sheet))
}

// The site of a sheet.
pub fn read_sheet(sheet: &[u8], land: &mut [i32], state: &mut [i32]) -> Result<Card, Refusal>
    ensures { ReadContract sheet.now land.old state.old (heard_of result) land.new state.new }
{
    sheet::front_number(sheet, land.len(), state.len())?;
    read_values(sheet, land, state)
}
