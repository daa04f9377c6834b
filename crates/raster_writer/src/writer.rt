// The writer: the checks, the size, and then the text.
ghost use Rattle.std.specs.Prelude.{◌≡◌, ◌&&◌, eqb, length};
ghost use Rattle.rules.specs.Site.{cells, card_fits, first_of, grounds_fit, read_ground};
ghost use Rattle.rules.specs.Answers.{wrote_of};
ghost use Rattle.rules.specs.Refusals.{outcome_number};
ghost use Rattle.rules.specs.PublicContracts.{WriteRasterContract};

use crate::{heads, lines, sums};
use rules::{Card, Refusal};

// The first three checks.
fn check(card: Card, land: &[i32]) -> Result<(), Refusal>
    ensures { outcome_number result ≡ first_of (card_fits card) (eqb (length land.now) (cells card) && eqb card.dx card.dy) (grounds_fit card (read_ground card land.now)) }
{
    if !card::card_fits(card) {
        return Err(Refusal::Card);
    }
    let n = card::cells(card);
    if (land.len() != n) | (card.dx != card.dy) {
        return Err(Refusal::Length);
    }
    if !values::all_between(land, 0, n, -50000000, 50000000) {
        return Err(Refusal::Value);
    }
    Ok(())
}

// The text of a ground; answers how long it is.
pub fn write_raster(card: Card, land: &[i32], text: &mut [u8]) -> Result<u32, Refusal>
    ensures { WriteRasterContract card land.now text.old (wrote_of result) text.new }
{
    check(card, land)?;
    let mut head = [0u8; 80];
    let keys = heads::key_lines(card, &mut head);
    let size = keys + sums::values_size(card, land);
    if text.len() < size {
        return Err(Refusal::Room);
    }
    let at = print::append(&head[..keys], text, 0);
    let end = lines::put_values(card, land, text, at);
    Ok(end as u32)
}
