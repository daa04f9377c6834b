// The first three checks of a site, with what a call asks besides: its card, the lengths of its lists, and every value in them.
#![tactic(auto)]

ghost use Rattle.std.specs.Prelude.{◌≡◌, true};
ghost use Rattle.rules.specs.Site.{card_fits, lengths_fit, check_also, check as site_check};
ghost use Rattle.rules.specs.Refusals.{outcome_number};
ghost use Rattle.laws.specs.Facts.{Sized};
ghost use Rattle.site.specs.Front.{front_also, values_also};

use rules::{Card, Refusal};

// Whether ground and state have the lengths that the card asks for.
fn lengths_fit(card: Card, land: &[i32], state: &[i32]) -> bool
    requires { card_fits card ≡ true }
    ensures { result ≡ lengths_fit card land.now state.now }
{
    (land.len() == card::cells(card)) & (state.len() == card::state_length(card))
}

// Before any value is looked at: the card, and then the lengths.
pub fn front(card: Card, land: &[i32], state: &[i32], one: bool, two: bool) -> Result<(), Refusal>
    ensures { outcome_number result ≡ front_also one two card land.now state.now }
{
    let fits = one & card::card_fits(card);
    if !fits {
        return Err(Refusal::Card);
    }
    let long = two & lengths_fit(card, land, state);
    if !long {
        return Err(Refusal::Length);
    }
    Ok(())
}

// Where the front has passed, the values.
pub fn values_number(card: Card, land: &[i32], state: &[i32], three: bool) -> Result<(), Refusal>
    requires { Sized card land.now state.now }
    ensures { outcome_number result ≡ values_also three card land.now state.now }
{
    let fit = three & values::values_fit(card, land, state);
    if !fit {
        return Err(Refusal::Value);
    }
    Ok(())
}

// The lowest number that applies. What a call asks besides, for 1, for 2 and for 3, it has looked at itself.
pub fn check_also(
    card: Card,
    land: &[i32],
    state: &[i32],
    one: bool,
    two: bool,
    three: bool,
) -> Result<(), Refusal>
    ensures { outcome_number result ≡ check_also one two three card land.now state.now }
{
    front(card, land, state, one, two)?;
    values_number(card, land, state, three)
}

// Nothing besides.
pub fn check(card: Card, land: &[i32], state: &[i32]) -> Result<(), Refusal>
    ensures { outcome_number result ≡ site_check card land.now state.now }
{
    check_also(card, land, state, true, true, true)
}
