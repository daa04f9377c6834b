// Finding chambers: the search over two lists of numbers.
#![tactic(auto)]

ghost use Rattle.std.specs.Prelude.{◌≡◌};
ghost use Rattle.rules.specs.Refusals.{outcome_number};
ghost use Rattle.rules.specs.Calls.{search_check};
ghost use Rattle.rules.specs.PublicContracts.{SearchContract};
ghost use Rattle.search.specs.Reported.{DraftRoom, Reported};

use rules::{Card, Found, Refusal, Window};

// The first three checks, with what the search asks besides: the lowest number that applies. No chamber is looked at before the card and the lengths have passed.
fn search_check(
    card: Card,
    land: &[i32],
    state: &[i32],
    xs: &[i64],
    ys: &[i64],
    window: Window,
    depth: i32,
) -> Result<(), Refusal>
    ensures { outcome_number result ≡ search_check card land.now state.now xs.now ys.now window depth }
{
    let register = (xs.len() == ys.len()) & (xs.len() <= 1000);
    site::front(card, land, state, true, register)?;
    let asked = register::asked_fits(card, xs, ys, window, depth);
    site::values_number(card, land, state, asked)
}

// The list made in a draft, and handed over: all of it or, where there is too little room, nothing. What is answered stays a Found: refusal 8 has a count beside it,
// as 0 has, so a Result would have the same two numbers in each of its cases.
fn report(
    card: Card,
    state: &[i32],
    xs: &[i64],
    ys: &[i64],
    window: Window,
    depth: i32,
    draft: &mut [u32],
    found: &mut [u32],
) -> Found
    requires { DraftRoom card state.now xs.now ys.now depth draft.old }
    ensures { Reported card state.now xs.now ys.now window depth found.old result found.new }
{
    let n = register::list(card, state, window, depth, xs, ys, draft);
    let count = n as u32;
    if found.len() < n {
        return Found {
            number: u32::from(Refusal::Room),
            count,
        };
    }
    found[..n].copy_from_slice(&draft[..n]);
    Found { number: 0, count }
}

// The search over two lists of numbers.
pub fn search_lists(
    card: Card,
    land: &[i32],
    state: &[i32],
    xs: &[i64],
    ys: &[i64],
    window: Window,
    depth: i32,
    found: &mut [u32],
) -> Found
    ensures { SearchContract card land.now state.now xs.now ys.now window depth found.old result found.new }
{
    if let Err(refusal) = search_check(card, land, state, xs, ys, window, depth) {
        return Found {
            number: u32::from(refusal),
            count: 0,
        };
    }
    let mut draft = [0u32; 1000];
    report(card, state, xs, ys, window, depth, &mut draft, found)
}
