// The depth text: the work on a slice that stays the caller's, and the function that hands the written part back.
#![tactic(auto)]

ghost use Rattle.std.specs.Prelude.{◌≡◌, length};
ghost use Rattle.rules.specs.Text.{height_text};
ghost use Rattle.rules.specs.Calls.{text_part, text_scratch};
ghost use Rattle.put.specs.Put.{Put};

// The text of a height that is not negative.
fn put_height(h: u32, room: &mut [u8]) -> usize
    ensures { Put (height_text h) result room.old room.new }
{
    if h == 0 {
        return put::put_front(b"dry", room);
    }
    if h < 10000 {
        return put::put_front(b"<1 cm", room);
    }
    if h <= 50000000 {
        return put::put_cm((h + 5000) / 10000, room);
    }
    0
}

// The text at the front of the scratch, and its length; 0 and the scratch as lent where the height is out of range or the scratch is shorter than the text.
pub fn write_text(height: i32, scratch: &mut [u8]) -> usize
    ensures length { result ≡ length (text_part height scratch.old) }
    ensures scratch { scratch.new ≡ text_scratch height scratch.old }
{
    match u32::try_from(height) {
        Ok(h) => put_height(h, scratch),
        Err(_) => 0,
    }
}

// The same, and the written part is handed back. Where the text takes the whole scratch, the scratch itself is.
pub fn depth_text(height: i32, scratch: &mut [u8]) -> &mut [u8]
    ensures text { result.now ≡ text_part height scratch.old }
    ensures place { result.ref_ptr ≡ scratch.entry.ref_ptr }
    ensures whole { length result.now ≡ length scratch.old → result.ghost_name ≡ scratch.entry.ghost_name }
{
    let n = write_text(height, scratch);
    if n == scratch.len() {
        return scratch;
    }
    &mut scratch[..n]
}
