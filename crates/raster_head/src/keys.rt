// A word that is a key, in any letter case.
ghost use Rattle.std.specs.Prelude.{◌≡◌};
ghost use Rattle.std.specs.List.{zip, list_all};
ghost use Rattle.rules.specs.Raster.{lower as raster_lower, is_key};
ghost use Rattle.raster_laws.specs.Keys.{same_letter};

// A capital letter as a small one, any other byte as it is.
fn lower(b: u8) -> u8
    ensures { result ≡ raster_lower b }
{
    b.to_ascii_lowercase()
}

// Whether the letters are the same, as far as the shorter one goes.
fn same_letters(key: &[u8], word: &[u8]) -> bool
    ensures { result ≡ list_all same_letter (zip key.now word.now) }
{
    key.iter().zip(word).all(|(k, b)| lower(*b) == *k)
}

pub fn is_key(key: &[u8], word: &[u8]) -> bool
    ensures { result ≡ is_key key.now word.now }
{
    (key.len() == word.len()) && same_letters(key, word)
}
