//! A caller of `write_text` under the bound of `std::io`.
ghost use Rattle.std.specs.Prelude.{◌≡◌, IfSome, length};
ghost use Rattle.ir_streams.specs.Writing.{Writes};

use ir_streams::{TextParts, Texts, write_text};
use std::alloc::Global;
use std::io::Write;

/// Writes a text to any writer of `std::io`, and answers whether it took all of it.
fn send<W: Write>(writer: &mut W, text: &[u8]) -> bool
    ensures { Writes result (W.contents writer.old) (W.contents writer.new) text.now }
{
    write_text(writer, text)
}

#[test]
fn a_text_is_sent(rt: HostRuntime) {
    let mut bytes: Vec<u8> = Vec::new(rt.alloc());
    let is_sent = send(&mut bytes, b"a b\n".as_slice());
    assert!(rt; is_sent && bytes.as_slice() == b"a b\n".as_slice());
}

/// Three texts.
fn three_texts(alloc: Global) -> Option<Texts>
    ensures { IfSome result (λ texts. length texts ≡ 3) }
{
    let mut texts = Texts::with_capacity(alloc, 3).ok()?;
    let are_pushed = texts.push(b" 12".as_slice()).is_ok()
        && texts
            .push(b" the name of a node that is no short one".as_slice())
            .is_ok()
        && texts.push(b"\n".as_slice()).is_ok();
    if are_pushed && texts.len() == 3 {
        Some(texts)
    } else {
        None
    }
}

/// Whether they are written, the first of them twice.
fn are_poured(alloc: Global, texts: &Texts) -> Option<bool>
    requires { length texts.now ≡ 3 }
{
    let mut bytes: Vec<u8> = Vec::new(alloc);
    let mut parts = TextParts::new(alloc).ok()?;
    parts.push_text(&mut bytes, texts, 0);
    parts.push(&mut bytes, b" a".as_slice());
    parts.push_text(&mut bytes, texts, 0);
    parts.push_text(&mut bytes, texts, 1);
    parts.push_text(&mut bytes, texts, 2);
    let is_written = parts.finish(&mut bytes);
    let wanted = b" 12 a 12 the name of a node that is no short one\n";
    Some(is_written && bytes.as_slice() == wanted.as_slice())
}

#[test]
fn texts_are_poured_again_and_again(rt: HostRuntime) {
    let are_poured = match three_texts(rt.alloc()) {
        Some(texts) => are_poured(rt.alloc(), &texts),
        None => None,
    };
    assert!(rt; are_poured == Some(true));
}
