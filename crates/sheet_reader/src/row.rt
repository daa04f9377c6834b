// The words of a sheet as a row, read where they stand in its bytes.
ghost use Rattle.std.specs.Prelude.{◌+◌, ◌*◌, ◌≤◌, length, drop};
ghost use Rattle.rules.specs.Sheet.{words_in};

use walls::Words;

// So many words from index `at` on.
#[derive(Clone, Copy)]
pub struct SheetWords<'a> {
    pub sheet: &'a [u8],
    pub at: usize,
    pub count: usize,
    ghost held: { at + 4 * count ≤ length sheet.now },
}

impl Words for SheetWords<'_> {
    ghost words = { λ row. words_in row.count (drop row.at row.sheet.now) };

    fn word(&self, from: usize, k: usize) -> i32 {
        words::word_at(self.sheet, self.at, from + k)
    }
}
