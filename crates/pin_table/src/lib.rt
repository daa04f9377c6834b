// The pin table: what its words are, whether it passes, and how one place changes.
#![tactic(auto)]

ghost use Rattle.std.specs.Prelude.{◌≡◌, ◌==◌, position, ◌≤◌, ◌<◌, length};
ghost use Rattle.pins_rules.specs.Table.{pin as table_pin, crew_of, chamber_of, is_crew, is_chamber, word_fits, stands as table_stands, words_fit, each_once, held as table_held, table_fits, first_changed};
ghost use Rattle.pins_laws.specs.Marks.{Markable, MarkedBy, Unmarked};

// ---- Words

// A crew's pin on a chamber, as a word. A crew is a number and no enum: `held` and `is_crew` promise their answer for every number, and a refused table or call may have any.
pub fn pin(crew: u32, chamber: u32) -> u32
    requires { (crew ≤ 2) × (chamber < 1000) }
    ensures { result ≡ table_pin crew chamber }
{
    crew * 65536 + chamber
}

pub fn crew_of(word: u32) -> u32
    ensures { result ≡ crew_of word }
{
    word / 65536
}

pub fn chamber_of(word: u32) -> u32
    ensures { result ≡ chamber_of word }
{
    word % 65536
}

pub fn is_crew(crew: u32) -> bool
    ensures { result ≡ is_crew crew }
{
    (1..=2).contains(&crew)
}

pub fn is_chamber(chamber: u32) -> bool
    ensures { result ≡ is_chamber chamber }
{
    chamber < 1000
}

// Whether a word is free, or a known crew's pin on a chamber.
fn word_fits(word: u32) -> bool
    ensures { result ≡ word_fits word }
{
    let crew = is_crew(crew_of(word));
    let chamber = is_chamber(chamber_of(word));
    (word == 0) | (crew & chamber)
}

// ---- All words

// Whether a word stands among these.
pub fn stands(words: &[u32], word: u32) -> bool
    ensures { result ≡ table_stands word words.now }
{
    words
        .iter()
        .copied()
        .fold(false, |found, w| found | (w == word))
}

fn words_fit(table: &[u32]) -> bool
    ensures { result ≡ words_fit table.now }
{
    table
        .iter()
        .copied()
        .fold(true, |fit, word| fit & word_fits(word))
}

// How many pins a crew has, by a sum: `filter` and `count` go word by word, and a call takes up to 1.8 times as many instructions.
pub fn held(table: &[u32], crew: u32) -> u32
    requires { length table.now ≤ 64 }
    ensures { result ≡ table_held crew table.now }
{
    table
        .iter()
        .map(|word| u32::from(crew_of(*word) == crew))
        .sum()
}

// Marks a pin's chamber by its crew, and says whether it was not marked so. A free word marks nothing.
fn mark(marks: &mut [u8], word: u32) -> bool
    requires { Markable word marks.old }
    ensures { MarkedBy word marks.old result marks.new }
{
    if word == 0 {
        return true;
    }
    let at = chamber_of(word) as usize;
    let crew = crew_of(word) as u8;
    let before = marks[at];
    marks[at] = before | crew;
    (before & crew) == 0
}

// Whether no pin stands there twice, by marks: with a look at each pair of places a call takes up to three times as long.
fn each_once(table: &[u32], marks: &mut [u8]) -> bool
    requires { Unmarked table.now marks.old }
    ensures { result ≡ each_once table.now }
{
    for word in table.iter().rev() {
        if !mark(marks, *word) {
            return false;
        }
    }
    true
}

// Whether a table of 64 words passes. All of it is looked at, the other crew's pins too.
pub fn table_fits(table: &[u32]) -> bool
    requires { length table.now ≤ 64 }
    ensures { result ≡ table_fits table.now }
{
    if !words_fit(table) {
        return false;
    }
    // One byte for each chamber, none of them marked.
    let mut marks = [0u8; 1000];
    let once = each_once(table, &mut marks);
    let one = held(table, 1) <= 32;
    let two = held(table, 2) <= 32;
    once & one & two
}

// ---- One place changes

// The lowest place that has a word.
fn first_place(table: &[u32], word: u32) -> Option<usize>
    ensures { result ≡ position (λ w. w == word) table.now }
{
    table.iter().position(|w| *w == word)
}

// The lowest place that has one word gets another.
pub fn change(table: &mut [u32], from: u32, to: u32)
    ensures { table.new ≡ first_changed from to table.old }
{
    if let Some(at) = first_place(table, from) {
        table[at] = to;
    }
}
