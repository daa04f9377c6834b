// Pumps and inlets on a state's heights: what a list of them asks, what each does at its turn, and how all of it is undone.
#![tactic(auto)]

ghost use Rattle.std.specs.Prelude.{◌≡◌, true, ◌<◌};
ghost use Rattle.rules.specs.Site.{card_fits};
ghost use Rattle.rules.specs.Refusals.{outcome_number};
ghost use Rattle.rules.specs.Pumps.{pump_at, pump_count, few_pumps, whole_pumps, pump_fits, pumps_fit, check_pumped_with};
ghost use Rattle.pumps.specs.Acting.{as_pump, Turning, Turned, Pumpable, Pumped, Undoable, back};

use rules::{Card, Refusal};

// A pump as its two words.
#[derive(Clone, Copy, Debug, PartialEq, Eq)]
struct OnePump {
    cell: i32,
    amount: i32,
}

// What a pump does at its turn: how much it adds and takes, and the height that it leaves.
#[derive(Clone, Copy, Debug, PartialEq, Eq)]
struct Turn {
    added: u32,
    taken: u32,
    after: i32,
}

// What pumps did, where no inlet passed the top: how much they added and took.
#[derive(Clone, Copy, Debug, PartialEq, Eq)]
pub struct Acted {
    pub added: u64,
    pub taken: u64,
}

// Pump k of a list: the one that acts after k others.
fn pump_at(pumps: &[i32], k: usize) -> OnePump
    requires { k < pump_count pumps.now }
    ensures { as_pump result ≡ pump_at pumps.now k }
{
    let at = 2 * k;
    OnePump {
        cell: pumps[at],
        amount: pumps[at + 1],
    }
}

// ---- What is asked of a list of them

// Whether it has at most 64.
fn few(pumps: &[i32]) -> bool
    ensures { result ≡ few_pumps pumps.now }
{
    pumps.len() / 2 <= 64
}

// Whether no word is left over.
fn whole(pumps: &[i32]) -> bool
    ensures { result ≡ whole_pumps pumps.now }
{
    pumps.len() % 2 == 0
}

// Whether the site has the pump's cell, and its amount is in range.
fn pump_fits(card: Card, one: OnePump) -> bool
    requires { card_fits card ≡ true }
    ensures { result ≡ pump_fits card (as_pump one) }
{
    let cell = one.cell;
    let amount = one.amount;
    let cells = card::cells(card) as i32;
    (0 <= cell) & (cell < cells) & ((-1000000 <= amount) & (amount <= 1000000))
}

// Whether each pump fits.
fn pumps_fit(card: Card, pumps: &[i32]) -> bool
    requires { card_fits card ≡ true }
    ensures { result ≡ pumps_fit card pumps.now }
{
    (0..pumps.len() / 2).all(|k| pump_fits(card, pump_at(pumps, k)))
}

// The first three checks of a site with pumps, where one more list is lent, of `room` words, that is to be as long as the state. No pump is read before the card
// and the lengths are right.
pub fn check(
    card: Card,
    land: &[i32],
    state: &[i32],
    pumps: &[i32],
    room: usize,
) -> Result<(), Refusal>
    ensures { outcome_number result ≡ check_pumped_with card land.now state.now pumps.now room }
{
    let two = whole(pumps) & card::is_state(card, room);
    site::front(card, land, state, few(pumps), two)?;
    site::values_number(card, land, state, pumps_fit(card, pumps))
}

// ---- One pump at its turn

// On a cell of this height: an inlet adds its amount, and a pump takes what it is to take, and no more than is there.
fn act(one: OnePump, height: i32) -> Turn
    requires { Turning (as_pump one) height }
    ensures { Turned (as_pump one) height result }
{
    let amount = one.amount;
    let plus = amount.max(0);
    let wanted = (-amount).max(0);
    let less = wanted.min(height);
    Turn {
        added: plus.unsigned_abs(),
        taken: less.unsigned_abs(),
        after: height + plus - less,
    }
}

// ---- All of them

// Undoes the first so many pumps, the last one first: each cell gets the height that its pump found.
pub fn undo(state: &mut [i32], pumps: &[i32], found: &[i32], count: usize)
    requires { Undoable state.old pumps.now found.now count }
    ensures { state.new ≡ back pumps.now found.now count state.old }
{
    // By the pump's place, by which its two words and the height that it found are kept.
    for k in (0..count).rev() {
        let one = pump_at(pumps, k);
        let cell = one.cell as usize;
        state[cell] = found[k];
    }
}

// Lets all pumps act on a state in list order, and keeps the height that each found. At an inlet that would pass the top all is undone.
pub fn pump(state: &mut [i32], pumps: &[i32], found: &mut [i32]) -> Option<Acted>
    requires { Pumpable state.old pumps.now found.old }
    ensures { Pumped pumps.now state.old result state.new found.new }
{
    let mut acted = Acted { added: 0, taken: 0 };
    // By the pump's place, by which its two words and the height that it found are kept.
    for k in 0..pumps.len() / 2 {
        let one = pump_at(pumps, k);
        let cell = one.cell as usize;
        let height = state[cell];
        let turn = act(one, height);
        let after = turn.after;
        if after > 50000000 {
            undo(state, pumps, found, k);
            return None;
        }
        found[k] = height;
        state[cell] = after;
        acted.added += u64::from(turn.added);
        acted.taken += u64::from(turn.taken);
    }
    Some(acted)
}
