// The records of the trade. What they mean, and every definition that a contract cites, stands in specs/.
#![tactic(auto)]

mod answers;
mod refusals;

ghost use Rattle.std.specs.Prelude.{◌≡◌};
ghost use Rattle.rules.specs.Pumps.{HasRoom, one_more};

pub use answers::Survey;
pub use refusals::{Refusal, outcome_number};

// The site card. Sides are in micrometres, dt in milliseconds.
#[repr(C)]
#[derive(Clone, Copy, Debug, PartialEq, Eq)]
pub struct Card {
    pub columns: u32,
    pub rows: u32,
    pub dx: u32,
    pub dy: u32,
    pub dt: u32,
    pub steps: u32,
}

// The eighteen numbers around one inner face, between K (west or south) and L (east or north). `ahead` and `behind` lie along the
// face's direction, `above` and `below` across it: north and south of an eastward face, east and west of a northward one.
#[derive(Clone, Copy, Debug, PartialEq, Eq)]
pub struct Face {
    // Heights before and after the step, and the ground.
    pub old_k: i32,
    pub old_l: i32,
    pub new_k: i32,
    pub new_l: i32,
    pub ground_k: i32,
    pub ground_l: i32,
    // Transfers: of the face, of the next faces along its direction, and of the side faces of K and L.
    pub own: i32,
    pub ahead: i32,
    pub behind: i32,
    pub above_k: i32,
    pub above_l: i32,
    pub below_k: i32,
    pub below_l: i32,
    // Old velocities: of the face, and of the parallel faces around it.
    pub u: i32,
    pub u_ahead: i32,
    pub u_behind: i32,
    pub u_above: i32,
    pub u_below: i32,
}

// What a run hands from step to step: steps done, the reason it stopped, the greatest height of the starting state and each accepted one, and how much pumps
// added and took. Across C: the reason is a number.
#[repr(C)]
#[derive(Clone, Copy, Debug, PartialEq, Eq)]
pub struct Tally {
    pub steps: u32,
    pub reason: u32,
    pub top: i32,
    pub added: u64,
    pub taken: u64,
}

impl Tally {
    // One accepted step more, whose state has the greatest height `peak`, and in which pumps added and took so much.
    pub fn accept(mut self, peak: i32, added: u64, taken: u64) -> Tally
        requires { HasRoom self added taken }
        ensures { result ≡ one_more self peak added taken }
    {
        self.steps += 1;
        self.added += added;
        self.taken += taken;
        self.top = self.top.max(peak);
        self
    }
}

// The window that a finger drew: four edges in micrometres.
#[repr(C)]
#[derive(Clone, Copy, Debug, PartialEq)]
pub struct Window {
    pub west: f64,
    pub south: f64,
    pub east: f64,
    pub north: f64,
}

// A chamber of the register, in micrometres from the south-west corner.
#[repr(C)]
#[derive(Clone, Copy, Debug, PartialEq, Eq)]
pub struct Chamber {
    pub x: i64,
    pub y: i64,
}

// What the search answers. Across C: a number, and a count that 8 has too.
#[repr(C)]
#[derive(Clone, Copy, Debug, PartialEq, Eq)]
pub struct Found {
    pub number: u32,
    pub count: u32,
}

// What the sheet reader answers. Across C: a refusal is its number, with 0 for all else.
#[repr(C)]
#[derive(Clone, Copy, Debug, PartialEq, Eq)]
pub struct Heard {
    pub number: u32,
    pub card: Card,
}

// What a writer answers. Across C: a refusal is its number, with 0 for all else.
#[repr(C)]
#[derive(Clone, Copy, Debug, PartialEq, Eq)]
pub struct Wrote {
    pub number: u32,
    pub size: u32,
}

// What an inspector read off a gauge staff and typed.
#[derive(Clone, Copy, Debug, PartialEq)]
pub enum Reading {
    Metres(f64),
    Feet(f64),
    Nothing,
}

// What a reading is answered by: the number, whether there is a height (1 or 0), and the height in micrometres. Across C: a refusal is its number, with 0 for all else.
#[repr(C)]
#[derive(Clone, Copy, Debug, PartialEq, Eq)]
pub struct Staff {
    pub number: u32,
    pub read: u32,
    pub height: i32,
}

// What the raster reader answers: the number, columns and rows, and the side of a cell in micrometres. Across C: a refusal is its number, with 0 for all else.
#[repr(C)]
#[derive(Clone, Copy, Debug, PartialEq, Eq)]
pub struct Raster {
    pub number: u32,
    pub columns: u32,
    pub rows: u32,
    pub side: u32,
}
