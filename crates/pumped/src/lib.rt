// One pumped step of a sound site, on the state itself: the pumps act, and the step is made from what they leave. A refused step is undone.
#![tactic(auto)]

ghost use Rattle.std.specs.Prelude.{◌≡◌, cond};
ghost use Rattle.rules.specs.Site.{read_state};
ghost use Rattle.rules.specs.Step.{limit_kept};
ghost use Rattle.rules.specs.Refusals.{refusal_number};
ghost use Rattle.transfers.specs.Known.{SoundState};
ghost use Rattle.laws.specs.Engines.{engine};
ghost use Rattle.pumped.specs.Moved.{PumpedRoom, PumpedAdvanced};

use pumps::Acted;
use rules::{Card, Refusal};
use velocity::engines::Engine;

// The refusal of a step whose inlets pass the top: a broken step limit comes first.
fn over_the_top(card: Card, state: &[i32]) -> Refusal
    requires { SoundState card state.now }
    ensures { refusal_number result ≡ cond (limit_kept card (read_state card state.now)) 5 4 }
{
    if advance::limit_kept(card, state) {
        return Refusal::TooHigh;
    }
    Refusal::StepLimit
}

// The pumped step: how much the pumps added and took, or its refusal. Where it is done, `next` is the next state; otherwise the state is as it was, and nothing is
// promised of the words of `next`.
pub fn pumped_advance<E: Engine>(
    card: Card,
    land: &[i32],
    state: &mut [i32],
    pumps: &[i32],
    found: &mut [i32],
    tide: &mut [i32],
    next: &mut [i32],
) -> Result<Acted, Refusal>
    requires { PumpedRoom card land.now state.old pumps.now found.old tide.old next.old }
    ensures { PumpedAdvanced (engine E.TEXTBOOK) card land.now pumps.now state.old result state.new next.new }
{
    let Some(acted) = pumps::pump(state, pumps, found) else {
        return Err(over_the_top(card, state));
    };
    if let Err(refusal) = advance::advance::<E>(card, land, state, tide, next) {
        pumps::undo(state, pumps, found, pumps.len() / 2);
        return Err(refusal);
    }
    Ok(acted)
}
