// A page: room for whatever the player prints, and the text that was put on it so far. In a contract a page is that text.
ghost use Rattle.std.specs.Prelude.{◌≡◌, ◌+◌, ◌≤◌, List, ℕ, [], ◌++◌, length, take};
ghost use Rattle.rules.specs.Text.{decimal, depth_text};
ghost use Rattle.rules.specs.Play.{labelled};

use std::marker::Model;

// No comparison is derived: what lies behind the text means nothing, and a comparison of the fields would look at it.
#[derive(Drop)]
pub struct Page {
    room: [u8; 9298],
    end: usize,
}

impl Model for Page {
    ghost Value = { List ℕ };

    ghost view = { λ p. take p.end p.room };

    ghost invariant = { λ p. p.end ≤ 9298 };
}

impl Page {
    pub fn new() -> Self
        ensures { result ≡ [] }
    {
        Page {
            room: [0; 9298],
            end: 0,
        }
    }

    // What was put on it.
    pub fn text(&self) -> &[u8]
        ensures text { result.now ≡ self.now }
        ensures short { length self.now ≤ 9298 }
    {
        &self.room[..self.end]
    }

    pub fn put(&mut self, text: &[u8])
        requires { length self.old + length text.now ≤ 9298 }
        ensures { self.new ≡ self.old ++ text.now }
    {
        self.end += put::put_front(text, &mut self.room[self.end..]);
    }

    pub fn put_decimal(&mut self, n: u32)
        requires { length self.old + 10 ≤ 9298 }
        ensures text { self.new ≡ self.old ++ decimal n }
        ensures end { length self.new ≤ length self.old + 10 }
    {
        self.end += put::put_decimal(n, &mut self.room[self.end..]);
    }

    pub fn put_depth(&mut self, height: i32)
        requires { length self.old + 7 ≤ 9298 }
        ensures text { self.new ≡ self.old ++ depth_text height }
        ensures end { length self.new ≤ length self.old + 7 }
    {
        self.end += text::write_text(height, &mut self.room[self.end..]);
    }

    // A word and a number.
    pub fn put_labelled(&mut self, word: &[u8], n: u32)
        requires { length self.old + (length word.now + 10) ≤ 9298 }
        ensures text { self.new ≡ self.old ++ labelled word.now n }
        ensures end { length self.new ≤ length self.old + (length word.now + 10) }
    {
        self.put(word);
        self.put_decimal(n);
    }
}
