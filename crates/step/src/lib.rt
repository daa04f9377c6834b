// One step of water over a site, for any card, any lists and any words in them.
#![tactic(auto)]

ghost use Rattle.std.specs.Prelude.{◌≡◌, cond, leb};
ghost use Rattle.rules.specs.Refusals.{outcome_number};
ghost use Rattle.rules.specs.Run.{site_step_by};
ghost use Rattle.rules.specs.Pumps.{pumped_step_by};
ghost use Rattle.rules.specs.PublicContracts.{StepContractBy};
ghost use Rattle.laws.specs.Engines.{engine};
ghost use Rattle.laws.specs.Facts.{SoundWith};
ghost use Rattle.laws.specs.PumpChecks.{SoundPumpedWith};
ghost use Rattle.draft.specs.Draft.{Handed};
ghost use Rattle.step.specs.Held.{Held, PumpedHeld};

use rules::{Card, Refusal};
use velocity::engines::Engine;

// The next larger room. On a small site it would take longer to clear the longest lists than to step, so there are three sizes: a state of 16×16 cells has 800
// words, one of 32×32 has 3,136, and the longest, of 128×128, has 49,408.
fn more_room(room: usize) -> usize
    ensures { result ≡ cond (leb room 800) 3136 49408 }
{
    if room <= 800 {
        return 3136;
    }
    49408
}

// ---- Without pumps

// A step on lists of N words, which hold the site.
fn step_on<E: Engine, const N: usize>(
    card: Card,
    land: &[i32],
    state: &[i32],
    next: &mut [i32],
) -> Result<(), Refusal>
    requires { Held N card land.now state.now next.old }
    ensures { Handed (site_step_by (engine E.TEXTBOOK) card land.now) state.now next.old (outcome_number result) next.new }
{
    let mut tide = [0; N];
    let mut draft = [0; N];
    draft::step_by_draft::<E>(card, land, state, &mut tide, &mut draft, next)
}

// A step on lists that have room for so many words; where the state has more, it calls itself for the next larger lists. The compiler keeps a function that
// calls itself, and the lists of those that it calls, out of its caller's stack frame: so a refused step takes no list's stack, and a small one no long list's.
fn step_within<E: Engine>(
    card: Card,
    land: &[i32],
    state: &[i32],
    next: &mut [i32],
    room: usize,
) -> Result<(), Refusal>
    requires { SoundWith card land.now state.now next.old }
    ensures { Handed (site_step_by (engine E.TEXTBOOK) card land.now) state.now next.old (outcome_number result) next.new }
{
    if next.len() > room {
        return step_within::<E>(card, land, state, next, more_room(room));
    }
    if room <= 800 {
        return step_on::<E, 800>(card, land, state, next);
    }
    if room <= 3136 {
        return step_on::<E, 3136>(card, land, state, next);
    }
    step_on::<E, 49408>(card, land, state, next)
}

// ---- With pumps: one list more, for the copy of the state that they act on. A step without them takes no stack for that list, so the two stay apart.

// A pumped step on lists of N words.
fn pumped_on<E: Engine, const N: usize>(
    card: Card,
    land: &[i32],
    state: &[i32],
    pumps: &[i32],
    next: &mut [i32],
) -> Result<(), Refusal>
    requires { PumpedHeld N card land.now state.now pumps.now next.old }
    ensures { Handed (pumped_step_by (engine E.TEXTBOOK) card land.now pumps.now) state.now next.old (outcome_number result) next.new }
{
    let mut copy = [0; N];
    let mut tide = [0; N];
    let mut draft = [0; N];
    draft::pumped_by_draft::<E>(
        card, land, state, pumps, &mut copy, &mut tide, &mut draft, next,
    )
}

// The same choice of lists as without pumps.
fn pumped_within<E: Engine>(
    card: Card,
    land: &[i32],
    state: &[i32],
    pumps: &[i32],
    next: &mut [i32],
    room: usize,
) -> Result<(), Refusal>
    requires { SoundPumpedWith card land.now state.now pumps.now next.old }
    ensures { Handed (pumped_step_by (engine E.TEXTBOOK) card land.now pumps.now) state.now next.old (outcome_number result) next.new }
{
    if next.len() > room {
        return pumped_within::<E>(card, land, state, pumps, next, more_room(room));
    }
    if room <= 800 {
        return pumped_on::<E, 800>(card, land, state, pumps, next);
    }
    if room <= 3136 {
        return pumped_on::<E, 3136>(card, land, state, pumps, next);
    }
    pumped_on::<E, 49408>(card, land, state, pumps, next)
}

// One step, by an engine. Without pumps it copies no state.
pub fn step<E: Engine>(
    card: Card,
    land: &[i32],
    state: &[i32],
    pumps: &[i32],
    next: &mut [i32],
) -> Result<(), Refusal>
    ensures { StepContractBy (engine E.TEXTBOOK) card land.now state.now pumps.now next.old (outcome_number result) next.new }
{
    pumps::check(card, land, state, pumps, next.len())?;
    if pumps.is_empty() {
        return step_within::<E>(card, land, state, next, 800);
    }
    pumped_within::<E>(card, land, state, pumps, next, 800)
}
