// Line ends of a text, and its last line.
ghost use Rattle.std.specs.Prelude.{◌≡◌, ◌≤◌, ◌^◌, length};
ghost use Rattle.moxi_sexpr.specs.Reading.{line_ends, last_line};

/// Returns the number of line ends in the text.
///
/// The loop does nothing else, so that it can process many bytes at once.
pub fn line_ends(text: &[u8]) -> u32
    requires { length text.now ≤ 2 ^ 31 }
    ensures value { result ≡ line_ends text.now }
    ensures within { result ≤ length text.now }
{
    let mut count = 0;
    for b in text {
        if *b == b'\n' {
            count += 1;
        }
    }
    count
}

/// Returns the number of bytes after the last line end.
pub fn last_line(text: &[u8]) -> usize
    ensures value { result ≡ last_line 0 text.now }
    ensures within { result ≤ length text.now }
{
    let mut start = text.len();
    while start > 0 && text[start - 1] != b'\n' {
        start -= 1;
    }
    text.len() - start
}
