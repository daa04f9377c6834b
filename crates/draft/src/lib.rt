// One step of a sound site, in lists that are lent to it: all of the next state is handed over, or nothing.
#![tactic(auto)]

ghost use Rattle.rules.specs.Refusals.{outcome_number};
ghost use Rattle.rules.specs.Run.{site_step_by};
ghost use Rattle.rules.specs.Pumps.{pumped_step_by};
ghost use Rattle.laws.specs.Engines.{engine};
ghost use Rattle.draft.specs.Draft.{Drafting, PumpedDrafting, Handed};

use rules::{Card, Refusal};
use velocity::engines::Engine;

// One step of a sound site, worked out in the draft, so that a refused step leaves the next state as it was lent.
pub fn step_by_draft<E: Engine>(
    card: Card,
    land: &[i32],
    state: &[i32],
    tide: &mut [i32],
    draft: &mut [i32],
    next: &mut [i32],
) -> Result<(), Refusal>
    requires { Drafting card land.now state.now tide.old draft.old next.old }
    ensures { Handed (site_step_by (engine E.TEXTBOOK) card land.now) state.now next.old (outcome_number result) next.new }
{
    let n = next.len();
    advance::advance::<E>(card, land, state, &mut tide[..n], &mut draft[..n])?;
    next.copy_from_slice(&draft[..n]);
    Ok(())
}

// The same with pumps, which act on a copy of the state: the state itself was lent to be read. Apart from the one above, since a step without pumps takes no
// stack for a copy.
pub fn pumped_by_draft<E: Engine>(
    card: Card,
    land: &[i32],
    state: &[i32],
    pumps: &[i32],
    copy: &mut [i32],
    tide: &mut [i32],
    draft: &mut [i32],
    next: &mut [i32],
) -> Result<(), Refusal>
    requires { PumpedDrafting card land.now state.now pumps.now copy.old tide.old draft.old next.old }
    ensures { Handed (pumped_step_by (engine E.TEXTBOOK) card land.now pumps.now) state.now next.old (outcome_number result) next.new }
{
    let n = next.len();
    let copied = &mut copy[..n];
    lists::copy(copied, state);
    let made = &mut draft[..n];
    let mut found = [0; 64];
    pumped::pumped_advance::<E>(card, land, copied, pumps, &mut found, &mut tide[..n], made)?;
    lists::copy(next, made);
    Ok(())
}
