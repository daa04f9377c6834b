// The run, for any card, any lists and any words in them: the checks, a tide to work in, and the scratch list all zero at the end.
#![tactic(auto)]

ghost use Rattle.rules.specs.PublicContracts.{RunContract};
ghost use Rattle.laws.specs.PumpChecks.{SoundPumpedWith};
ghost use Rattle.run.specs.Roomy.{Roomy};

use rules::{Card, Tally};

// A run over a tide of N words, which holds the state, and with the scratch list all zero at the end.
fn run_on<const N: usize>(
    card: Card,
    land: &[i32],
    state: &mut [i32],
    pumps: &[i32],
    scratch: &mut [i32],
) -> Tally
    requires { Roomy N card land.now state.old pumps.now scratch.old }
    ensures { RunContract card land.now state.old pumps.now scratch.old result state.new scratch.new }
{
    let mut tide = [0; N];
    let n = state.len();
    let tally = steps::steps(card, land, state, pumps, scratch, &mut tide[..n]);
    scratch.fill(0);
    tally
}

// A run over a tide that has room for so many words; where the state has more, it calls itself for the longest tide. As in a step, this keeps the tide out of
// the stack frame of a refused run, and the long one out of that of a small site.
fn run_within(
    card: Card,
    land: &[i32],
    state: &mut [i32],
    pumps: &[i32],
    scratch: &mut [i32],
    room: usize,
) -> Tally
    requires { SoundPumpedWith card land.now state.old pumps.now scratch.old }
    ensures { RunContract card land.now state.old pumps.now scratch.old result state.new scratch.new }
{
    if state.len() > room {
        return run_within(card, land, state, pumps, scratch, 49408);
    }
    if room <= 3136 {
        return run_on::<3136>(card, land, state, pumps, scratch);
    }
    run_on::<49408>(card, land, state, pumps, scratch)
}

// A run: its tally, the last accepted state in the place of the first, and the scratch list all zero. Reasons 1 to 3 leave both lists as they were lent.
pub fn run(card: Card, land: &[i32], state: &mut [i32], pumps: &[i32], scratch: &mut [i32]) -> Tally
    ensures { RunContract card land.now state.old pumps.now scratch.old result state.new scratch.new }
{
    if let Err(refusal) = pumps::check(card, land, state, pumps, scratch.len()) {
        return Tally {
            steps: 0,
            reason: u32::from(refusal),
            top: 0,
            added: 0,
            taken: 0,
        };
    }
    run_within(card, land, state, pumps, scratch, 3136)
}
