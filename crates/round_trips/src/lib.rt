// The site sheet there and back, by the calls that a host makes: what is promised of the two calls together is the contract of a function that makes both.
#![tactic(auto)]

ghost use Rattle.promises.specs.RoundTrips.{BytesBack, SiteBack};

use rules::{Card, Heard, Wrote};

// Reads a sheet and writes what was read: the same bytes come back. A sheet that is refused is not written.
pub fn read_then_write(sheet: &[u8], land: &mut [i32], state: &mut [i32], bytes: &mut [u8]) -> Wrote
    ensures { BytesBack sheet.now land.old state.old bytes.old result land.new state.new bytes.new }
{
    let heard = water::water_read_sheet(sheet, land, state);
    // By its number: it is the call that a host makes, and what that answers.
    let number = heard.number;
    if number != 0 {
        return Wrote { number, size: 0 };
    }
    let card = heard.card;
    water::water_write_sheet(card, land, state, bytes)
}

// Writes a site and reads the bytes that were written: the same card, ground and state come back. A site that is refused is not read.
pub fn write_then_read(
    card: Card,
    land: &[i32],
    state: &[i32],
    bytes: &mut [u8],
    ground_back: &mut [i32],
    state_back: &mut [i32],
) -> Heard
    ensures { SiteBack card land.now state.now bytes.old ground_back.old state_back.old result bytes.new ground_back.new state_back.new }
{
    let wrote = water::water_write_sheet(card, land, state, bytes);
    // By its number, as above.
    let number = wrote.number;
    if number != 0 {
        let none = sheet_reader::no_card();
        return Heard { number, card: none };
    }
    let size = wrote.size as usize;
    water::water_read_sheet(&bytes[..size], ground_back, state_back)
}
