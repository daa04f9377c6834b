// What the calls on a pin table are refused for, in document 02's order.
#![tactic(auto)]

ghost use Rattle.std.specs.Prelude.{◌≡◌, true, length};
ghost use Rattle.pins_rules.specs.Refusals.{outcome_number};
ghost use Rattle.pins_rules.specs.Calls.{crew_number, chamber_number, add_number, remove_number};

use pins_rules::PinRefusal;

// What every call asks. No word is read where a length is wrong.
pub fn crew_number(lengths: bool, table: &[u32], crew: u32) -> Result<(), PinRefusal>
    requires { lengths ≡ true → length table.now ≡ 64 }
    ensures { outcome_number result ≡ crew_number lengths table.now crew }
{
    if !lengths {
        return Err(PinRefusal::Length);
    }
    if !pin_table::table_fits(table) {
        return Err(PinRefusal::Table);
    }
    if !pin_table::is_crew(crew) {
        return Err(PinRefusal::Crew);
    }
    Ok(())
}

fn chamber_number(table: &[u32], crew: u32, chamber: u32) -> Result<(), PinRefusal>
    ensures { outcome_number result ≡ chamber_number table.now crew chamber }
{
    crew_number(table.len() == 64, table, crew)?;
    if !pin_table::is_chamber(chamber) {
        return Err(PinRefusal::Chamber);
    }
    Ok(())
}

pub fn add_number(table: &[u32], crew: u32, chamber: u32) -> Result<(), PinRefusal>
    ensures { outcome_number result ≡ add_number table.now crew chamber }
{
    chamber_number(table, crew, chamber)?;
    let full = 32 <= pin_table::held(table, crew);
    let pinned = pin_table::stands(table, pin_table::pin(crew, chamber));
    if pinned {
        return Err(PinRefusal::Pinned);
    }
    if full {
        return Err(PinRefusal::Full);
    }
    Ok(())
}

pub fn remove_number(table: &[u32], crew: u32, chamber: u32) -> Result<(), PinRefusal>
    ensures { outcome_number result ≡ remove_number table.now crew chamber }
{
    chamber_number(table, crew, chamber)?;
    if !pin_table::stands(table, pin_table::pin(crew, chamber)) {
        return Err(PinRefusal::Pinned);
    }
    Ok(())
}
