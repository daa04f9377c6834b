// A wrong program that the contract of the depth text lets pass: it writes behind the text.
ghost use Rattle.std.specs.Prelude.{◌≡◌, length};
ghost use Rattle.rules.specs.Calls.{text_part};

// The part is right, and the byte behind it, where there is one, is a dot.
pub fn depth_text(height: i32, scratch: &mut [u8]) -> &mut [u8]
    ensures text { result.now ≡ text_part height scratch.old }
    ensures place { result.ref_ptr ≡ scratch.entry.ref_ptr }
    ensures whole { length result.now ≡ length scratch.old → result.ghost_name ≡ scratch.entry.ghost_name }
{
    let n = text::write_text(height, scratch);
    if n == scratch.len() {
        return scratch;
    }
    scratch[n] = b'.';
    &mut scratch[..n]
}
