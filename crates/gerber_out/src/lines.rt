ghost use Rattle.std.specs.Prelude.{◌≡◌, ◌<◌, ◌∷◌, length};
ghost use Rattle.gerber_out.specs.Lines.{lines};

/// Up to and with its first line feed, and after that.
pub fn next_line(text: &[u8]) -> (&[u8], &[u8])
    requires { 0 < length text.now }
    ensures lines { lines text.now ≡ result.0.now ∷ lines result.1.now }
    ensures shorter { length result.1.now < length text.now }
{
    for (index, byte) in text.iter().enumerate() {
        if *byte == b'\n' {
            return (&text[..index + 1], &text[index + 1..]);
        }
    }
    (text, &[])
}
