ghost use Rattle.std.specs.Prelude.{◌≡◌, ◌≤◌, length};
ghost use Rattle.ddl_lex.specs.Letters as letters;

/// Space, tab, newline or return.
pub(crate) fn is_white(byte: u8) -> bool
    ensures { result ≡ letters.is_white byte }
{
    matches!(byte, b' ' | b'\t' | b'\n' | b'\r')
}

/// What a name goes on with.
pub(crate) fn is_name(byte: u8) -> bool
    ensures { result ≡ letters.is_name byte }
{
    byte.is_ascii_alphanumeric() || byte == b'_'
}

/// A byte that stands in no literal.
pub(crate) fn is_control(byte: u8) -> bool
    ensures { result ≡ letters.is_control byte }
{
    byte < b' ' || byte == 0x7f
}

/// How many bytes of a name are at the front.
pub(crate) fn name_len(text: &[u8]) -> usize
    ensures value { result ≡ letters.run letters.is_name text.now }
    ensures within { result ≤ length text.now }
{
    let mut n = 0;
    while n < text.len() && is_name(text[n]) {
        n += 1;
    }
    n
}

/// How many bytes there are before the end of the line.
pub(crate) fn line_len(text: &[u8]) -> usize
    ensures value { result ≡ letters.run letters.in_line text.now }
    ensures within { result ≤ length text.now }
{
    let mut n = 0;
    while n < text.len() && text[n] != b'\n' {
        n += 1;
    }
    n
}
