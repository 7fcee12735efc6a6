ghost use Rattle.std.specs.Prelude.{◌≡◌, ◌<◌, ◌≤◌, ◌∷◌, [], ◌+◌, ◌-◌, min, length, take, drop};
ghost use Rattle.line_words.specs.Lines.{is_blank, is_other_byte, pieces, lines, without_return, counts};
ghost use Rattle.std.specs.List.{list_any};

/// Whether the byte is a space or a tab.
pub fn is_blank(byte: u8) -> bool
    ensures { result ≡ is_blank byte }
{
    byte == b' ' || byte == b'\t'
}

/// Whether a byte of the line is neither a blank nor printable ASCII.
pub fn has_other_byte(line: &[u8]) -> bool
    ensures { result ≡ list_any is_other_byte line.now }
{
    for byte in line {
        if !(is_blank(*byte) || (33..=126).contains(byte)) {
            return true;
        }
    }
    false
}

/// The text up to its first line feed, and what follows that.
pub fn next_piece(text: &[u8]) -> (&[u8], &[u8])
    requires { 0 < length text.now }
    ensures pieces { pieces text.now ≡ result.0.now ∷ pieces result.1.now }
    ensures bytes { min (length text.now) (length result.0.now + 1) + length result.1.now ≡ length text.now }
    ensures shorter { length result.1.now < length text.now }
{
    for (index, byte) in text.iter().enumerate() {
        if *byte == b'\n' {
            return (&text[..index], &text[index + 1..]);
        }
    }
    (text, &[])
}

/// The line without the one carriage return at its end, if it has one.
pub fn without_return(line: &[u8]) -> &[u8]
    ensures { result.now ≡ without_return line.now }
{
    let length = line.len();
    if length > 0 && line[length - 1] == b'\r' {
        return &line[..length - 1];
    }
    line
}

/// The first line of a text, and the text after it.
pub fn next_line(text: &[u8]) -> (&[u8], &[u8])
    requires { 0 < length text.now }
    ensures lines { lines text.now ≡ result.0.now ∷ lines result.1.now }
    ensures shorter { length result.1.now < length text.now }
{
    let (piece, rest) = next_piece(text);
    (without_return(piece), rest)
}

/// Whether the line is neither blank nor a comment.
pub fn counts(line: &[u8]) -> bool
    ensures { result ≡ counts line.now }
{
    for byte in line {
        if !is_blank(*byte) {
            return *byte != b'#';
        }
    }
    false
}
