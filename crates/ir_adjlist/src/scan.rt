//! Lines and words.
ghost use Rattle.std.specs.Prelude.{◌≡◌, ◌<◌, ◌≤◌, [], ◌∷◌, ◌==◌, not, true, length, MatchOption, position, take, drop, nat_le};
ghost use Rattle.std.specs.List.{list_all, prefix_len};
ghost use Rattle.ir_model.specs.Text.{lines, content, words_of, is_blank, is_plain};
ghost use Rattle.ir_model.specs.declared.TheConstants.{MAX_NAME_BYTES};

use ir_model::MAX_NAME_BYTES;

/// Whether the byte separates words.
pub fn is_blank_byte(byte: u8) -> bool
    ensures { result ≡ is_blank byte }
{
    byte == b' ' || (byte >= 9 && byte <= 13 && byte != b'\n')
}

/// Whether each byte may be outside a comment. Takes O(b), for b bytes.
pub fn all_plain(bytes: &[u8]) -> bool
    ensures { result ≡ list_all is_plain bytes.now }
{
    bytes.iter().all(|byte| is_blank_byte(*byte) || (*byte >= b'!' && *byte <= b'~'))
}

/// The place of the first byte of this value, if there is one. Takes O(b), for b bytes up to it.
pub fn find_byte(bytes: &[u8], wanted: u8) -> Option<usize>
    ensures { result ≡ position (λ b. b == wanted) bytes.now }
{
    bytes.iter().position(|byte| *byte == wanted)
}

/// The place of the first blank.
fn find_blank(bytes: &[u8]) -> Option<usize>
    ensures { result ≡ position is_blank bytes.now }
{
    bytes.iter().position(|byte| is_blank_byte(*byte))
}

/// The place of the first byte that is no blank.
fn find_word(bytes: &[u8]) -> Option<usize>
    ensures { result ≡ position (λ b. not (is_blank b)) bytes.now }
{
    bytes.iter().position(|byte| !is_blank_byte(*byte))
}

/// How many bytes are before the first such byte. Takes O(b), for b of them.
pub fn before(bytes: &[u8], end: u8) -> usize
    ensures len { result ≡ prefix_len (λ b. not (b == end)) bytes.now }
    ensures within { result ≤ length bytes.now }
{
    find_byte(bytes, end).unwrap_or(bytes.len())
}

/// How many blanks are at the front.
fn blanks(bytes: &[u8]) -> usize
    ensures len { result ≡ prefix_len is_blank bytes.now }
    ensures within { result ≤ length bytes.now }
{
    find_word(bytes).unwrap_or(bytes.len())
}

/// How many bytes are before the first blank.
fn word_len(bytes: &[u8]) -> usize
    ensures len { result ≡ prefix_len (λ b. not (is_blank b)) bytes.now }
    ensures within { result ≤ length bytes.now }
{
    find_blank(bytes).unwrap_or(bytes.len())
}

/// The line at the front, and what follows it. Takes O(b), for a line of b bytes.
pub fn next_line(text: &[u8]) -> (&[u8], &[u8])
    requires { 0 < length text.now }
    ensures lines { lines text.now ≡ result.0.now ∷ lines result.1.now }
    ensures shorter { length result.1.now < length text.now }
{
    let end = before(text, b'\n');
    if end == text.len() {
        return (text, &[]);
    }
    (&text[..end], &text[end + 1..])
}

/// What is before the first `#`. Takes O(b), for b bytes of it.
pub fn without_comment(line: &[u8]) -> &[u8]
    ensures { result.now ≡ content line.now }
{
    &line[..before(line, b'#')]
}

/// The first word, and what follows it. Takes O(b), for b bytes up to its end.
pub fn next_word(bytes: &[u8]) -> Option<(&[u8], &[u8])>
    ensures { MatchOption result (words_of bytes.now ≡ [])
        (λ p. (words_of bytes.now ≡ p.0.now ∷ words_of p.1.now) × (length p.1.now < length bytes.now)) }
{
    let rest = &bytes[blanks(bytes)..];
    if rest.is_empty() {
        return None;
    }
    let end = word_len(rest);
    Some((&rest[..end], &rest[end..]))
}

/// Whether each word may be a name by its length. Takes O(b), for b bytes.
pub fn all_short(bytes: &[u8]) -> bool
    ensures { result ≡ list_all (λ w. nat_le (length w) MAX_NAME_BYTES) (words_of bytes.now) }
{
    let mut rest = bytes;
    while let Some((word, after)) = next_word(rest) {
        if word.len() > MAX_NAME_BYTES {
            return false;
        }
        rest = after;
    }
    true
}
