// Texts put at the front of a lent list: bytes, a number in decimal, and a number of centimetres.
#![tactic(auto)]

ghost use Rattle.std.specs.Prelude.{◌++◌, ◌≤◌, length};
ghost use Rattle.rules.specs.Text.{decimal, cm};
ghost use Rattle.put.specs.Put.{Put};

// Copies text to the front of room, all of it or, where the room is shorter, nothing. Answers how many bytes that is.
pub fn put_front(text: &[u8], room: &mut [u8]) -> usize
    ensures { Put text.now result room.old room.new }
{
    let n = text.len();
    let handed = if room.len() < n { 0 } else { n };
    room[..handed].copy_from_slice(&text[..handed]);
    handed
}

// The decimal digits of n at the front of room, and how many.
pub fn put_decimal(n: u32, room: &mut [u8]) -> usize
    requires { 10 ≤ length room.old }
    ensures { Put (decimal n) result room.old room.new }
{
    let mut digits = [0u8; 10];
    let start = itoa::write_digits(u64::from(n), &mut digits, 10);
    put_front(&digits[start..], room)
}

// The text of n centimetres.
pub fn put_cm(n: u32, room: &mut [u8]) -> usize
    ensures { Put (decimal n ++ cm) result room.old room.new }
{
    let mut text = *b"0000000000 cm";
    let start = itoa::write_digits(u64::from(n), &mut text, 10);
    put_front(&text[start..], room)
}
