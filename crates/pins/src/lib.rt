// What a host may call of the pin table, a product above the library. Every call takes any input at all: it checks what it was given and answers by document 02's
// numbers, and its contract (pins_rules, PublicContracts.antt) fixes the answer and what the list that was lent to be written holds at exit.
#![tactic(auto)]

ghost use Rattle.pins_rules.specs.PublicContracts.{AddContract, RemoveContract, ListContract};

use pins_rules::Listing;

// A pin of a crew's on a chamber, in the lowest free place. Refused: the table as lent.
#[unsafe(no_mangle)]
pub extern "C" fn pins_add(table: &mut [u32], crew: u32, chamber: u32) -> u32
    ensures { AddContract table.old crew chamber result table.new }
{
    if let Err(refusal) = pin_numbers::add_number(table, crew, chamber) {
        return u32::from(refusal);
    }
    pin_table::change(table, 0, pin_table::pin(crew, chamber));
    0
}

// A pin of a crew's gone, and its place free again. Refused: the table as lent.
#[unsafe(no_mangle)]
pub extern "C" fn pins_remove(table: &mut [u32], crew: u32, chamber: u32) -> u32
    ensures { RemoveContract table.old crew chamber result table.new }
{
    if let Err(refusal) = pin_numbers::remove_number(table, crew, chamber) {
        return u32::from(refusal);
    }
    pin_table::change(table, pin_table::pin(crew, chamber), 0);
    0
}

// A crew's pins in register order, at the front of a list of 32, and how many they are. Refused: count 0, the list as lent.
#[unsafe(no_mangle)]
pub extern "C" fn pins_list(table: &[u32], crew: u32, found: &mut [u32]) -> Listing
    ensures { ListContract table.now crew found.old result found.new }
{
    let lengths = (table.len() == 64) & (found.len() == 32);
    if let Err(refusal) = pin_numbers::crew_number(lengths, table, crew) {
        let number = u32::from(refusal);
        return Listing { number, count: 0 };
    }
    let count = pin_listing::list(table, crew, found) as u32;
    Listing { number: 0, count }
}
