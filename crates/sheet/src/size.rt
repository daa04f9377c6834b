// How long a sheet is.
ghost use Rattle.std.specs.Prelude.{◌≡◌, true, ◌≤◌};
ghost use Rattle.rules.specs.Site.{card_fits};
ghost use Rattle.rules.specs.Sheet.{sheet_size};

use rules::Card;

// How many bytes the sheet of a card has.
#[tactic(auto, using(laws::specs::Facts::card_facts))]
pub fn sheet_size(card: Card) -> usize
    requires { card_fits card ≡ true }
    ensures { (result ≡ sheet_size card) × (result ≤ 263187) }
{
    let columns = card.columns as usize;
    let rows = card.rows as usize;
    19 + 16 * (rows * columns) + 4 * columns + 4 * rows
}
