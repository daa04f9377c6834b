// One step of a sound site, with a tide to work in. The still rows are marked first, and passed over by all that follows but the textbook engine's
// velocities.
#![tactic(auto)]

ghost use Rattle.rules.specs.Refusals.{outcome_number};
ghost use Rattle.rules.specs.Site.{read_state};
ghost use Rattle.std.specs.Prelude.{◌≡◌};
ghost use Rattle.rules.specs.Step.{limit_kept};
ghost use Rattle.transfers.specs.Known.{SoundState};
ghost use Rattle.laws.specs.Engines.{engine};
ghost use Rattle.advance.specs.Advance.{StepRoom, MarkedRoom, LimitedRoom, NextRoom, Advanced};

use around::flow::Flow;
use rules::{Card, Refusal};
use velocity::engines::Engine;

// The second half of a step, once the tide is at hand. It fills the next state: its heights from the tide, and the velocities behind them. Where a velocity does
// not fit the step is refused, and nothing is promised of its words.
fn fill_next<E: Engine>(flow: &Flow, marks: &[bool], next: &mut [i32]) -> Result<(), Refusal>
    requires { NextRoom flow.now.card flow.now.state.now marks.now next.old }
    ensures { Advanced (engine E.TEXTBOOK) flow.now.card flow.now.land.now flow.now.state.now (outcome_number result) next.new }
{
    let columns = flow.card.columns as usize;
    let rows = flow.card.rows as usize;
    let cells = rows * columns;
    lists::copy(&mut next[..cells], &flow.tide[..cells]);
    if !velocities::passes::velocities::<E>(flow, marks, &mut next[cells..]) {
        return Err(Refusal::TooFast);
    }
    Ok(())
}

// The step of a site that keeps the step limit: refused for a new height or velocity, or the next state.
fn flow<E: Engine>(
    card: Card,
    land: &[i32],
    state: &[i32],
    marks: &[bool],
    tide: &mut [i32],
    next: &mut [i32],
) -> Result<(), Refusal>
    requires { LimitedRoom card land.now state.now marks.now tide.old next.old }
    ensures { Advanced (engine E.TEXTBOOK) card land.now state.now (outcome_number result) next.new }
{
    transfers::transfers(card, state, marks, tide);
    heights::tide::heights(card, state, tide);
    if !heights::tide::heights_fit(card, tide) {
        return Err(Refusal::TooHigh);
    }
    let flow = Flow {
        card,
        land,
        state,
        tide,
    };
    fill_next::<E>(&flow, marks, next)
}

// The whole step, once the still rows are marked.
fn advance_marked<E: Engine>(
    card: Card,
    land: &[i32],
    state: &[i32],
    marks: &[bool],
    tide: &mut [i32],
    next: &mut [i32],
) -> Result<(), Refusal>
    requires { MarkedRoom card land.now state.now marks.now tide.old next.old }
    ensures { Advanced (engine E.TEXTBOOK) card land.now state.now (outcome_number result) next.new }
{
    if !heights::look::limit_kept(card, state, marks) {
        return Err(Refusal::StepLimit);
    }
    flow::<E>(card, land, state, marks, tide, next)
}

// Whether the state of a sound site keeps the step limit: what a step looks at first, by itself.
pub fn limit_kept(card: Card, state: &[i32]) -> bool
    requires { SoundState card state.now }
    ensures { result ≡ limit_kept card (read_state card state.now) }
{
    let mut marks = still::no_marks();
    still::mark(card, state, &mut marks);
    heights::look::limit_kept(card, state, &marks)
}

// The step by an engine, or its refusal. Where it is done, `next` is the next state; otherwise nothing is promised of its words.
pub fn advance<E: Engine>(
    card: Card,
    land: &[i32],
    state: &[i32],
    tide: &mut [i32],
    next: &mut [i32],
) -> Result<(), Refusal>
    requires { StepRoom card land.now state.now tide.old next.old }
    ensures { Advanced (engine E.TEXTBOOK) card land.now state.now (outcome_number result) next.new }
{
    let mut marks = still::no_marks();
    still::mark(card, state, &mut marks);
    advance_marked::<E>(card, land, state, &marks, tide, next)
}
