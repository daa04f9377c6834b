// The two engines. They differ in how they work out a face's rise, how much higher the new surface stands in L than in K; in all else they are one.
ghost use Rattle.std.specs.Prelude.{◌≡◌, Bool, true, false};
ghost use Rattle.laws.specs.Engines.{rise_of};
ghost use Rattle.velocity.specs.Fits.{WetFace};

use rules::Face;

pub trait Engine {
    ghost TEXTBOOK: { Bool };

    // Whether it is the textbook's.
    const TEXTBOOK: bool;

    // The rise of a face with water on it.
    fn rise(f: Face) -> i64
        requires { WetFace f }
        ensures { result ≡ rise_of TEXTBOOK f };
}

// The first engine: the difference of the two surfaces.
pub struct First;

impl Engine for First {
    ghost TEXTBOOK = { false };

    const TEXTBOOK: bool = false;

    fn rise(f: Face) -> i64 {
        i64::from(crate::rise(f))
    }
}

// The textbook's: a quotient.
pub struct Textbook;

impl Engine for Textbook {
    ghost TEXTBOOK = { true };

    const TEXTBOOK: bool = true;

    fn rise(f: Face) -> i64 {
        crate::textbook::rise(f)
    }
}
