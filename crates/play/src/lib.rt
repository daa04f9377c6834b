// What the sheet player prints, as a function from the input's bytes to the output's bytes.
#![tactic(auto)]

ghost use Rattle.std.specs.Prelude.{◌≡◌, [], ◌≤◌, length};
ghost use Rattle.rules.specs.Calls.{run_outcome};
ghost use Rattle.rules.specs.Play.{played_text, played, printed};
ghost use Rattle.put.specs.Put.{Put};
ghost use Rattle.rows.specs.Rows.{Rows};
ghost use Rattle.play.specs.Lent.{Cut, Uncut, progressed};

use print::Page;
use rules::{Card, Heard};

// Runs a site without pumps, which a sheet has none of, and prints its tally and its rows. The empty list is lent from the ground's front.
fn print_run(card: Card, land: &[i32], state: &mut [i32], scratch: &mut [i32], page: &mut Page)
    requires sized { Rows card state.old 9298 9298 }
    requires blank { page.old ≡ [] }
    ensures { page.new ≡ played_text card (progressed (run_outcome card land.now state.old [] scratch.old)) }
{
    let tally = run::run(card, land, state, &land[..0], scratch);
    print::tally_line(tally, page);
    rows::put_rows(card, state, page);
}

// The same for the site of a sheet, over lists that are cut to the header's size.
fn print_sheet(
    sheet: &[u8],
    land: &mut [i32],
    state: &mut [i32],
    scratch: &mut [i32],
    page: &mut Page,
)
    requires cut { Cut sheet.now land.old state.old scratch.old }
    requires blank { page.old ≡ [] }
    ensures { page.new ≡ played sheet.now }
{
    // Through the record that a host is answered: what is played is told by it, and here its number is 0.
    let heard = Heard::from(sheet_reader::read_sheet(sheet, land, state));
    let card = heard.card;
    print_run(card, land, state, scratch, page);
}

// The same over lists for any site of at most 32×32 cells.
#[tactic(auto, using(crate::proofs::Numbers::cells_few, crate::proofs::Numbers::words_few, crate::proofs::Numbers::card_fits_lem, crate::proofs::Numbers::head_long, crate::proofs::Numbers::cut_to))]
fn print_cut(
    sheet: &[u8],
    land: &mut [i32],
    state: &mut [i32],
    scratch: &mut [i32],
    page: &mut Page,
)
    requires uncut { Uncut sheet.now land.old state.old scratch.old }
    requires blank { page.old ≡ [] }
    ensures { page.new ≡ played sheet.now }
{
    let card = sheet::card_in(sheet);
    let cells = card::cells(card);
    let words = card::state_length(card);
    print_sheet(
        sheet,
        &mut land[..cells],
        &mut state[..words],
        &mut scratch[..words],
        page,
    );
}

// Prints on a blank page, which has space for anything.
fn print_input(input: &[u8], page: &mut Page)
    requires { page.old ≡ [] }
    ensures { page.new ≡ printed input.now }
{
    match play_number::play_number(input) {
        Err(refusal) => print::refused_line(u32::from(refusal), page),
        Ok(()) => {
            let mut land = [0; 1024];
            let mut state = [0; 3136];
            let mut scratch = [0; 3136];
            print_cut(input, &mut land, &mut state, &mut scratch, page);
        }
    }
}

// What the player prints for an input, at the front of a lent list, and how many bytes; 0 and the list as lent where it is shorter.
// A list of 9,298 bytes is never too short.
pub fn play(input: &[u8], out: &mut [u8]) -> usize
    ensures text { Put (printed input.now) result out.old out.new }
    ensures short { length (printed input.now) ≤ 9298 }
{
    let mut page = Page::new();
    print_input(input, &mut page);
    put::put_front(page.text(), out)
}
