// What stands before a sheet's words: its head, its card, and the refusal that they and the lengths give.
ghost use Rattle.std.specs.Prelude.{◌≡◌, ◌≤◌, length};
ghost use Rattle.rules.specs.Sheet.{card_in, head_fits};
ghost use Rattle.rules.specs.Refusals.{outcome_number};
ghost use Rattle.sheet.specs.Front.{front_number};

use crate::size;
use rules::{Card, Refusal};

// Whether the sheet has a whole header, names its own length and is of version 1.
pub fn head_fits(sheet: &[u8]) -> bool
    ensures { result ≡ head_fits sheet.now }
{
    if sheet.len() < 19 {
        return false;
    }
    let named = numbers::number(sheet, 0, 4) as usize;
    let version = numbers::number(sheet, 4, 1);
    (named == sheet.len()) & (version == 1)
}

// The card that stands in a header.
pub fn card_in(sheet: &[u8]) -> Card
    requires { 19 ≤ length sheet.now }
    ensures { result ≡ card_in sheet.now }
{
    let columns = numbers::number(sheet, 5, 1);
    let rows = numbers::number(sheet, 6, 1);
    let dx = numbers::number(sheet, 7, 4);
    let dy = numbers::number(sheet, 11, 4);
    let dt = numbers::number(sheet, 15, 2);
    let steps = numbers::number(sheet, 17, 2);
    Card {
        columns,
        rows,
        dx,
        dy,
        dt,
        steps,
    }
}

// The reader's refusal before it looks at the values: no sheet, its card, its lengths, and none where the values decide.
pub fn front_number(sheet: &[u8], n: usize, m: usize) -> Result<(), Refusal>
    ensures { outcome_number result ≡ front_number sheet.now n m }
{
    if !head_fits(sheet) {
        return Err(Refusal::Sheet);
    }
    let card = card_in(sheet);
    if !card::card_fits(card) {
        return Err(Refusal::Card);
    }
    let fits = (sheet.len() == size::sheet_size(card))
        & (n == card::cells(card))
        & (m == card::state_length(card));
    if !fits {
        return Err(Refusal::Length);
    }
    Ok(())
}
