//! The errors of registries, boards and live runs, in words.

use ir_control::LiveError;
use ir_epochs::{BoardError, RegisterError};
use std::alloc::Global;
use std::fmt::Display;
use std::test::Fail;

/// Whether an error is shown as this text.
fn tells<E: Display>(alloc: Global, error: &E, text: &str) -> bool {
    match format!(in alloc; "{error}") {
        Ok(shown) => shown.as_str() == text,
        Err(_) => false,
    }
}

/// Why a live run has no report, with its number and its words.
static LIVE: [(LiveError, u8, &'static str); 4] = [
    (LiveError::Spent, 1, "the net is spent"),
    (LiveError::NoThread, 2, "a thread was not started"),
    (LiveError::NoMemory, 3, "out of memory"),
    (
        LiveError::TooManyReaders,
        4,
        "no place is left for a reader of the board",
    ),
];

#[test]
fn runs_without_a_report_in_words(rt: HostRuntime) -> Result<(), Fail> {
    for (error, number, words) in &LIVE {
        if error.code() != *number || !tells(rt.alloc(), error, words) {
            return Err("another number, or other words".into());
        }
    }
    Ok(())
}

/// Why a board was not opened, with its number and its words.
static BOARDS: [(BoardError, u8, &'static str); 2] = [
    (
        BoardError::TooManyReaders,
        1,
        "no place is left for a reader",
    ),
    (BoardError::NoMemory, 2, "out of memory"),
];

#[test]
fn boards_not_opened_in_words(rt: HostRuntime) -> Result<(), Fail> {
    for (error, number, words) in &BOARDS {
        if error.code() != *number || !tells(rt.alloc(), error, words) {
            return Err("another number, or other words".into());
        }
    }
    Ok(())
}

/// Why a plan was not registered, with its number and its words.
static PLANS: [(RegisterError, u8, &'static str); 2] = [
    (RegisterError::Used, 1, "the epoch's cell is used"),
    (RegisterError::NoMemory, 2, "out of memory"),
];

#[test]
fn plans_not_registered_in_words(rt: HostRuntime) -> Result<(), Fail> {
    for (error, number, words) in &PLANS {
        if error.code() != *number || !tells(rt.alloc(), error, words) {
            return Err("another number, or other words".into());
        }
    }
    Ok(())
}
