// The steps of a run of a sound site: one after another, with the tally handed from step to step.
#![tactic(auto)]

ghost use Rattle.steps.specs.Running.{RunRoom, Ended, told_run};

use rules::{Card, Tally};
use velocity::engines::First;

// All steps that are wanted, or as many as are accepted, of a sound site. Pumps act on the state itself, and each next state is made in the scratch list.
pub fn steps(
    card: Card,
    land: &[i32],
    state: &mut [i32],
    pumps: &[i32],
    scratch: &mut [i32],
    tide: &mut [i32],
) -> Tally
    requires { RunRoom card land.now state.old pumps.now scratch.old tide.old }
    ensures { Ended (told_run card land.now state.old pumps.now) result state.new }
{
    let cells = card::cells(card);
    let mut found = [0; 64];
    let mut tally = Tally {
        steps: 0,
        reason: 0,
        top: lists::greatest(state, cells),
        added: 0,
        taken: 0,
    };
    for _ in 0..card.steps {
        let moved = pumped::pumped_advance::<First>(
            card, land, state, pumps, &mut found, tide, scratch,
        );
        let acted = match moved {
            Ok(acted) => acted,
            Err(refusal) => {
                tally.reason = u32::from(refusal);
                return tally;
            }
        };
        lists::copy(state, scratch);
        tally = tally.accept(lists::greatest(state, cells), acted.added, acted.taken);
    }
    tally
}
