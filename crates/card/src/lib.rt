// The site card: whether its six numbers lie in their ranges, and how many cells and how many words of state a card asks for.
#![tactic(auto)]

ghost use Rattle.std.specs.Prelude.{◌≡◌, true, ◌&&◌, ◌≤◌, eqb};
ghost use Rattle.rules.specs.Site.{within, card_fits, cells as site_cells, state_length};

use rules::Card;

// The definition's word, with std's method inside; one for each type, since a range is over one.
fn is_within(low: u32, high: u32, n: u32) -> bool
    ensures { result ≡ within low high n }
{
    (low..=high).contains(&n)
}

// Whether the card's six numbers lie in their ranges.
pub fn card_fits(card: Card) -> bool
    ensures { result ≡ card_fits card }
{
    let columns = is_within(1, 128, card.columns);
    let rows = is_within(1, 128, card.rows);
    let dx = is_within(100000, 20000000, card.dx);
    let dy = is_within(100000, 20000000, card.dy);
    let dt = is_within(1, 1000, card.dt);
    (columns & rows) & (dx & dy) & (dt & (card.steps <= 10000))
}

// How many cells a site has.
#[tactic(auto, using(laws::specs::Facts::card_facts))]
pub fn cells(card: Card) -> usize
    requires { card_fits card ≡ true }
    ensures { (result ≡ site_cells card) × (result ≤ 16384) }
{
    let columns = card.columns as usize;
    let rows = card.rows as usize;
    rows * columns
}

// How many words a state has.
#[tactic(auto, using(laws::specs::Facts::card_facts))]
pub fn state_length(card: Card) -> usize
    requires { card_fits card ≡ true }
    ensures { (result ≡ state_length card) × (result ≤ 49408) }
{
    let columns = card.columns as usize;
    let rows = card.rows as usize;
    rows * columns + (rows * (columns + 1) + (rows + 1) * columns)
}

// Whether a list of so many words has the length of a state. A card that does not fit asks for none.
pub fn is_state(card: Card, words: usize) -> bool
    ensures { result ≡ (card_fits card && eqb words (state_length card)) }
{
    if card_fits(card) {
        return words == state_length(card);
    }
    false
}
