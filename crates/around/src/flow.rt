// A step half way through, as one value: the site with its ground and its state, and the tide that its transfers and new heights fill.
ghost use Rattle.around.specs.Flowing.{Flowing};

use rules::Card;

// The four of a step half way through; the fact says that the site is sound and keeps the step limit, and that the tide is at hand.
#[derive(Clone, Copy)]
pub struct Flow<'a> {
    pub card: Card,
    pub land: &'a [i32],
    pub state: &'a [i32],
    pub tide: &'a [i32],
    ghost flowing: { Flowing card land.now state.now tide.now },
}
