// The words of a text: where the next one begins, and where it ends.
#![tactic(auto)]

ghost use Rattle.std.specs.Prelude.{◌≡◌, ◌≤◌, not, length};
ghost use Rattle.std.specs.List.{take_while};
ghost use Rattle.rules.specs.Raster.{parts_words};
ghost use Rattle.raster_laws.specs.Words.{Skipped, WordAt, Word, Next};

// A word's bytes: from `start` up to `end`. Where there is no word, both are the end of the text: no Option, since a word that is not there is the empty one,
// which is no key and no number.
#[derive(Clone, Copy, Debug, PartialEq, Eq)]
pub struct Span {
    pub start: usize,
    pub end: usize,
}

// Whether a byte parts words: a blank, a tab, a line feed or a carriage return.
fn parts_words(b: u8) -> bool
    ensures { result ≡ parts_words b }
{
    (b == 32) | (b == 9) | (b == 10) | (b == 13)
}

// How many bytes in front part words.
fn parting(text: &[u8]) -> usize
    ensures { result ≡ length (take_while parts_words text.now) }
{
    text.iter().take_while(|b| parts_words(**b)).count()
}

// How many bytes in front are a word's.
fn spelling(text: &[u8]) -> usize
    ensures { result ≡ length (take_while (λ b. not (parts_words b)) text.now) }
{
    text.iter().take_while(|b| !parts_words(**b)).count()
}

// Where the first word from `at` on begins; the end of the text where there is none.
pub fn word_start(text: &[u8], at: usize) -> usize
    requires { at ≤ length text.now }
    ensures { Skipped text.now at result }
{
    at + parting(&text[at..])
}

// Where the word ends that begins at `at`.
pub fn word_end(text: &[u8], at: usize) -> usize
    requires { WordAt text.now at }
    ensures { Word text.now at result }
{
    at + spelling(&text[at..])
}

// The first word from `at` on.
pub fn next_word(text: &[u8], at: usize) -> Span
    requires { at ≤ length text.now }
    ensures { Next text.now at result.start result.end }
{
    let start = word_start(text, at);
    if start == text.len() {
        return Span { start, end: start };
    }
    let end = word_end(text, start);
    Span { start, end }
}
