// The calls of `water` as C has them: each export hands on to the call of its name, by the same clauses. include/water.h declares them.
#![tactic(auto)]

ghost use Rattle.rules.specs.PublicContracts.{StepContract, TextbookContract, RunContract, SearchContract, RowSearchContract, ReadContract, WriteContract, TextContract, KindContract, ReadRasterContract, WriteRasterContract};

use rules::{Card, Chamber, Found, Heard, Raster, Staff, Tally, Window, Wrote};

#[unsafe(no_mangle)]
pub extern "C" fn water_step(
    card: Card,
    land: &[i32],
    state: &[i32],
    pumps: &[i32],
    next: &mut [i32],
) -> u32
    ensures { StepContract card land.now state.now pumps.now next.old result next.new }
{
    water::water_step(card, land, state, pumps, next)
}

#[unsafe(no_mangle)]
pub extern "C" fn water_step_textbook(
    card: Card,
    land: &[i32],
    state: &[i32],
    pumps: &[i32],
    next: &mut [i32],
) -> u32
    ensures { TextbookContract card land.now state.now pumps.now next.old result next.new }
{
    water::water_step_textbook(card, land, state, pumps, next)
}

#[unsafe(no_mangle)]
pub extern "C" fn water_run(
    card: Card,
    land: &[i32],
    state: &mut [i32],
    pumps: &[i32],
    scratch: &mut [i32],
) -> Tally
    ensures { RunContract card land.now state.old pumps.now scratch.old result state.new scratch.new }
{
    water::water_run(card, land, state, pumps, scratch)
}

#[unsafe(no_mangle)]
pub extern "C" fn water_search_lists(
    card: Card,
    land: &[i32],
    state: &[i32],
    xs: &[i64],
    ys: &[i64],
    window: Window,
    depth: i32,
    found: &mut [u32],
) -> Found
    ensures { SearchContract card land.now state.now xs.now ys.now window depth found.old result found.new }
{
    water::water_search_lists(card, land, state, xs, ys, window, depth, found)
}

#[unsafe(no_mangle)]
pub extern "C" fn water_search(
    card: Card,
    land: &[i32],
    state: &[i32],
    chambers: &[Chamber],
    window: Window,
    depth: i32,
    found: &mut [u32],
) -> Found
    ensures { RowSearchContract card land.now state.now chambers.now window depth found.old result found.new }
{
    water::water_search(card, land, state, chambers, window, depth, found)
}

#[unsafe(no_mangle)]
pub extern "C" fn water_read_sheet(sheet: &[u8], land: &mut [i32], state: &mut [i32]) -> Heard
    ensures { ReadContract sheet.now land.old state.old result land.new state.new }
{
    water::water_read_sheet(sheet, land, state)
}

#[unsafe(no_mangle)]
pub extern "C" fn water_write_sheet(
    card: Card,
    land: &[i32],
    state: &[i32],
    bytes: &mut [u8],
) -> Wrote
    ensures { WriteContract card land.now state.now bytes.old result bytes.new }
{
    water::water_write_sheet(card, land, state, bytes)
}

#[unsafe(no_mangle)]
pub extern "C" fn water_depth_text(height: i32, scratch: &mut [u8]) -> usize
    ensures { TextContract height scratch.old result scratch.new }
{
    water::water_depth_text(height, scratch)
}

#[unsafe(no_mangle)]
pub extern "C" fn water_staff(kind: u32, value: f64) -> Staff
    ensures { KindContract kind value result }
{
    water::water_staff(kind, value)
}

#[unsafe(no_mangle)]
pub extern "C" fn water_read_raster(text: &[u8], land: &mut [i32]) -> Raster
    ensures { ReadRasterContract text.now land.old result land.new }
{
    water::water_read_raster(text, land)
}

#[unsafe(no_mangle)]
pub extern "C" fn water_write_raster(card: Card, land: &[i32], text: &mut [u8]) -> Wrote
    ensures { WriteRasterContract card land.now text.old result text.new }
{
    water::water_write_raster(card, land, text)
}
