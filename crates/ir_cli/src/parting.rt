//! One input for several texts.
ghost use Rattle.std.specs.Prelude.{◌≡◌, drop, ◌+◌};
ghost use Rattle.ir_model.specs.Text.{lines};
ghost use Rattle.ir_cli.specs.Cut.{topology_part, script_part, EndsWithBytes};

use ir_adjlist::scan::before;

/// What follows the line at the front, which has so many bytes.
fn behind_line(text: &[u8], len: usize) -> &[u8]
    ensures { result.now ≡ drop (len + 1) text.now }
{
    if len < text.len() {
        &text[len + 1..]
    } else {
        &[]
    }
}

/// The texts before and after the first line that is exactly `%%`.
pub fn cut(input: &[u8]) -> (&[u8], &[u8])
    ensures topology { lines result.0.now ≡ topology_part (lines input.now) }
    ensures script { lines result.1.now ≡ script_part (lines input.now) }
    ensures end { EndsWithBytes input.now result.1.now }
{
    let mut at = 0;
    while at < input.len() {
        let rest = &input[at..];
        let len = before(rest, b'\n');
        let line = &rest[..len];
        if line == b"%%".as_slice() {
            return (&input[..at], behind_line(rest, len));
        }
        at = at + len + 1;
    }
    (input, &[])
}
