//! The words of a line, one behind the other.
ghost use Rattle.std.specs.Prelude.{◌≡◌, ◌≤◌, [], ◌∷◌, length, IfSome, IfNone};
ghost use Rattle.std.specs.List.{prefix_len};
ghost use Rattle.script_text.specs.Lines.{is_blank, is_inside, words_of};

/// The first word of a line, and what stands behind it. There is none where a line has no word in front of
/// its comment.
pub fn next_word(line: &[u8]) -> Option<(&[u8], &[u8])>
    ensures found { IfSome result (λ found. words_of line.now ≡ found.0.now ∷ words_of found.1.now) }
    ensures none { IfNone result (words_of line.now ≡ []) }
{
    let start = blank_len(line);
    let rest = &line[start..];
    let len = word_len(rest);
    if len == 0 {
        return None;
    }
    Some((&rest[..len], &rest[len..]))
}

/// How many blanks a line begins with.
fn blank_len(line: &[u8]) -> usize
    ensures value { result ≡ prefix_len is_blank line.now }
    ensures within { result ≤ length line.now }
{
    for (at, byte) in line.iter().enumerate() {
        if !is_blank(*byte) {
            return at;
        }
    }
    line.len()
}

/// How many bytes of a word a line begins with.
fn word_len(line: &[u8]) -> usize
    ensures value { result ≡ prefix_len is_inside line.now }
    ensures within { result ≤ length line.now }
{
    for (at, byte) in line.iter().enumerate() {
        if !is_inside(*byte) {
            return at;
        }
    }
    line.len()
}

fn is_blank(byte: u8) -> bool
    ensures { result ≡ is_blank byte }
{
    byte == b' ' || byte == b'\t' || byte == b'\r'
}

fn is_inside(byte: u8) -> bool
    ensures { result ≡ is_inside byte }
{
    !is_blank(byte) && byte != b'#'
}
