// The sheet writer. It checks all that it is given, looks for 8 last, and then lays one field behind the other.
#![tactic(auto)]

ghost use Rattle.std.specs.Prelude.{◌≡◌};
ghost use Rattle.rules.specs.Refusals.{outcome_number};
ghost use Rattle.rules.specs.Answers.{wrote_of};
ghost use Rattle.rules.specs.Sheet.{header};
ghost use Rattle.rules.specs.Calls.{write_number};
ghost use Rattle.rules.specs.PublicContracts.{WriteContract};
ghost use Rattle.laws.specs.Laid.{laid};
ghost use Rattle.sheet_writer.specs.Headed.{Headed};

use rules::{Card, Refusal};

// The writer's refusal for a room of so many bytes.
fn write_number(card: Card, land: &[i32], state: &[i32], room: usize) -> Result<(), Refusal>
    ensures { outcome_number result ≡ write_number card land.now state.now room }
{
    site::check(card, land, state)?;
    if room < sheet::sheet_size(card) {
        return Err(Refusal::Room);
    }
    Ok(())
}

// Lays the header of a card at the front.
fn put_header(card: Card, bytes: &mut [u8])
    requires { Headed card bytes.old }
    ensures { bytes.new ≡ laid bytes.old 0 (header card) }
{
    let size = sheet::sheet_size(card) as u32;
    numbers::put_number(bytes, 0, 4, size);
    numbers::put_number(bytes, 4, 1, 1);
    numbers::put_number(bytes, 5, 1, card.columns);
    numbers::put_number(bytes, 6, 1, card.rows);
    numbers::put_number(bytes, 7, 4, card.dx);
    numbers::put_number(bytes, 11, 4, card.dy);
    numbers::put_number(bytes, 15, 2, card.dt);
    numbers::put_number(bytes, 17, 2, card.steps);
}

// The sheet of a site, and how many bytes it has.
pub fn write_sheet(
    card: Card,
    land: &[i32],
    state: &[i32],
    bytes: &mut [u8],
) -> Result<u32, Refusal>
    ensures { WriteContract card land.now state.now bytes.old (wrote_of result) bytes.new }
{
    write_number(card, land, state, bytes.len())?;
    put_header(card, bytes);
    words::put_words(bytes, 19, land);
    words::put_words(bytes, 19 + 4 * land.len(), state);
    Ok(sheet::sheet_size(card) as u32)
}
