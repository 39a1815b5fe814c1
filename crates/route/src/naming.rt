//! The name that the program was called by.
ghost use Rattle.std.specs.Prelude.{◌≡◌};
ghost use Rattle.route.specs.Naming.{is_bentzolu};

use ir_cli::Called;
use std::alloc::{AllocError, Global};
use std::env::Env;
use std::path::Path;
use std::str;

/// The most bytes of a path.
const MOST_BYTES: usize = 4_096;

/// Whether the last part of a path begins with `bentzolu`.
fn is_bentzolu(path: &str) -> bool
    ensures { result ≡ is_bentzolu path.now }
{
    match Path::new(path).file_name() {
        Some(part) => part.as_bytes().starts_with(b"bentzolu"),
        None => false,
    }
}

/// The program's name, by the word that it was called by; `route` where that is no text.
pub fn called_by(rt: &HostRuntime) -> Called {
    let mut word = [0u8; MOST_BYTES];
    let Ok(letters) = rt.arg(0, &mut word) else {
        return Called::Route;
    };
    match str::from_utf8(&word[..letters]) {
        Ok(path) if is_bentzolu(path) => Called::Bentzolu,
        _ => Called::Route,
    }
}

/// Sentences, each of which begins with `route: `, with another name of the program in its place.
pub fn said_by(alloc: Global, name: &str, text: &str) -> Result<String, AllocError> {
    let mut said = String::new(alloc);
    for line in text.lines() {
        match line.strip_prefix("route: ") {
            Some(rest) => write!(said, "{name}: {rest}\n")?,
            None => write!(said, "{line}\n")?,
        }
    }
    Ok(said)
}
