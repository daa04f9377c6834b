// What a host may call; `water_c` hands these calls over to C. Every call takes any input at all: it checks what it was given and answers by document 01's numbers, and its contract
// (rules, PublicContracts.antt) fixes the answer and what each list that was lent to be written holds at exit.
#![tactic(auto)]

ghost use Rattle.rules.specs.PublicContracts.{StepContract, TextbookContract, RunContract, SearchContract, RowSearchContract, ReadContract, WriteContract, TextContract, StaffContract, KindContract, ReadRasterContract, WriteRasterContract};

use rules::{Card, Chamber, Found, Heard, Raster, Reading, Staff, Tally, Window, Wrote};
use velocity::engines::{First, Textbook};

// The depth text for callers in Rattle: the part that was written is handed back. Across C its length is what can be handed over, as water_depth_text does.
pub use text::depth_text;

// One step: its number, and the next state. Refused: the next state as lent. Pumps are lent as words, cell and amount by turns; they act before the step.
pub fn water_step(card: Card, land: &[i32], state: &[i32], pumps: &[i32], next: &mut [i32]) -> u32
    ensures { StepContract card land.now state.now pumps.now next.old result next.new }
{
    rules::outcome_number(step::step::<First>(card, land, state, pumps, next))
}

// The same by the textbook engine, which keeps the pressure term and the ground term of a new velocity apart as the paper does. Every answer and every list is
// that of water_step.
pub fn water_step_textbook(
    card: Card,
    land: &[i32],
    state: &[i32],
    pumps: &[i32],
    next: &mut [i32],
) -> u32
    ensures { TextbookContract card land.now state.now pumps.now next.old result next.new }
{
    rules::outcome_number(step::step::<Textbook>(card, land, state, pumps, next))
}

// A run: steps done, reason and top, and how much its pumps added and took; the last accepted state in the place of the first, and the scratch list all zero.
// Reasons 1 to 3: both lists as lent.
pub fn water_run(
    card: Card,
    land: &[i32],
    state: &mut [i32],
    pumps: &[i32],
    scratch: &mut [i32],
) -> Tally
    ensures { RunContract card land.now state.old pumps.now scratch.old result state.new scratch.new }
{
    run::run(card, land, state, pumps, scratch)
}

// The chambers of a register, lent as two lists of numbers, that lie in the window and under at least so much water: the number, the count, and the places
// in the register at the front of `found`. Refused: the list as lent; 8 tells the count needed.
pub fn water_search_lists(
    card: Card,
    land: &[i32],
    state: &[i32],
    xs: &[i64],
    ys: &[i64],
    window: Window,
    depth: i32,
    found: &mut [u32],
) -> Found
    ensures { SearchContract card land.now state.now xs.now ys.now window depth found.old result found.new }
{
    search::search_lists(card, land, state, xs, ys, window, depth, found)
}

// The same over a row of chamber records, with the same answer for every input. No chamber is read before the card and the lengths are right.
pub fn water_search(
    card: Card,
    land: &[i32],
    state: &[i32],
    chambers: &[Chamber],
    window: Window,
    depth: i32,
    found: &mut [u32],
) -> Found
    ensures { RowSearchContract card land.now state.now chambers.now window depth found.old result found.new }
{
    let read = records::to_read(card, land, state, chambers.len());
    records::search_gathered(
        card,
        land,
        state,
        records::gather(chambers, read),
        chambers.len(),
        window,
        depth,
        found,
    )
}

// The site of a sheet: the number and the card, and its ground and its state in the lent lists. Refused: an all-zero card, both lists as lent.
pub fn water_read_sheet(sheet: &[u8], land: &mut [i32], state: &mut [i32]) -> Heard
    ensures { ReadContract sheet.now land.old state.old result land.new state.new }
{
    Heard::from(sheet_reader::read_sheet(sheet, land, state))
}

// The sheet of a site: the number and the size, and the bytes in front of the lent list. Refused: size 0, the bytes as lent.
pub fn water_write_sheet(card: Card, land: &[i32], state: &[i32], bytes: &mut [u8]) -> Wrote
    ensures { WriteContract card land.now state.now bytes.old result bytes.new }
{
    Wrote::from(sheet_writer::write_sheet(card, land, state, bytes))
}

// The depth text of a height at the front of the scratch, and its length; 0 and the scratch as lent where the height is out of range or the scratch is
// shorter than the text.
pub fn water_depth_text(height: i32, scratch: &mut [u8]) -> usize
    ensures { TextContract height scratch.old result scratch.new }
{
    text::write_text(height, scratch)
}

// What an inspector read off a gauge staff and typed, by its kind (0 no reading, 1 metres, 2 feet) and its value: the number, whether there is a height, and the height.
// Refused with 3, any other kind too: no height.
pub fn water_staff(kind: u32, value: f64) -> Staff
    ensures { KindContract kind value result }
{
    Staff::from(staff::staff_of_kind(kind, value))
}

// The same of a reading, for callers in Rattle: no enum can be handed over across C, so that water_staff takes its kind and its value.
pub fn staff_height(reading: Reading) -> Staff
    ensures { StaffContract reading result }
{
    Staff::from(staff::staff_height(reading))
}

// The ground of a surveyor's raster: the number, columns, rows and the side of a cell, and the levels in the lent list, which has columns · rows words. Refused: all 0,
// the list as lent.
pub fn water_read_raster(text: &[u8], land: &mut [i32]) -> Raster
    ensures { ReadRasterContract text.now land.old result land.new }
{
    Raster::from(raster_reader::read_raster(text, land))
}

// The raster of a ground whose cells are square: the number and the size, and the text in front of the lent list. Refused: size 0, the text as lent.
pub fn water_write_raster(card: Card, land: &[i32], text: &mut [u8]) -> Wrote
    ensures { WriteRasterContract card land.now text.old result text.new }
{
    Wrote::from(raster_writer::write_raster(card, land, text))
}
