//! The errors of the crates below, by their names and numbers.

use ir_adjlist::{Fault, TextError};
use ir_compile::CompileError;
use ir_core::{OpenError, Refused};
use ir_numbering::NumberError;
use ir_plan::PlanError;
use ir_script::{OrderFault, OrderFaultKind};
use ir_streams::{CallError, NoInput};
use ir_tables::TableError;
use std::alloc::Global;
use std::fmt::Display;
use std::test::Fail;

/// Whether an error is shown as this text.
fn tells<E: Display>(alloc: Global, error: &E, text: &str) -> bool {
    match format!(in alloc; "{error}") {
        Ok(shown) => shown.as_str() == text,
        Err(_) => false,
    }
}

#[test]
fn errors_in_words(rt: HostRuntime) {
    let alloc = rt.alloc();
    let each = "the ports are not one for each label but the own";
    assert!(rt;
        tells(alloc, &TableError::Empty, "Empty")
            && tells(alloc, &NumberError::NoNode, "NoNode")
            && tells(alloc, &CompileError::BadRow, each)
            && tells(alloc, &CompileError::NoMemory, "out of memory")
            && tells(alloc, &OpenError::Disconnected, "Disconnected")
            && tells(alloc, &Refused::HandEmpty, "HandEmpty")
    );
}

#[test]
fn refusals_of_a_plan_in_words(rt: HostRuntime) {
    let alloc = rt.alloc();
    let cut = "some node has no walk to some node";
    assert!(rt;
        tells(alloc, &PlanError::NoNode, "the root is no node")
            && tells(alloc, &PlanError::Empty, "the topology has no node")
            && tells(alloc, &PlanError::Disconnected, cut)
            && tells(alloc, &PlanError::NoMemory, "out of memory")
    );
}

/// The refusals, each with its number of all, and of those of an install, of a change and of an injection.
static NUMBERS: [(Refused, [u8; 4]); 17] = [
    (Refused::NoNode, [1, 1, 0, 1]),
    (Refused::NoLink, [2, 0, 1, 0]),
    (Refused::NoChannel, [3, 0, 0, 0]),
    (Refused::NoEpoch, [4, 0, 1, 0]),
    (Refused::HandFull, [5, 0, 0, 0]),
    (Refused::HandEmpty, [6, 0, 0, 0]),
    (Refused::Empty, [7, 0, 0, 0]),
    (Refused::BadView, [8, 0, 0, 0]),
    (Refused::Same, [9, 0, 2, 0]),
    (Refused::EpochsFull, [10, 2, 0, 0]),
    (Refused::Disconnected, [11, 3, 0, 0]),
    (Refused::TooManyPackets, [12, 0, 0, 2]),
    (Refused::NoMemory, [13, 4, 3, 3]),
    (Refused::InboxFull, [14, 0, 0, 4]),
    (Refused::TooManyChanges, [15, 5, 4, 0]),
    (Refused::Used, [16, 6, 0, 0]),
    (Refused::LinkDown, [17, 0, 5, 0]),
];

/// The numbers of a refusal.
fn numbers(refused: Refused) -> [u8; 4] {
    [
        refused.code(),
        refused.install_number(),
        refused.change_number(),
        refused.inject_number(),
    ]
}

#[test]
fn refusals_by_their_numbers(rt: HostRuntime) -> Result<(), Fail> {
    for (refused, wanted) in &NUMBERS {
        if numbers(*refused) != *wanted {
            return Err("another number".into());
        }
    }
    assert!(rt; OpenError::NoNode.code() == 1 && OpenError::Empty.code() == 2);
    assert!(rt; OpenError::Disconnected.code() == 3 && OpenError::TooLarge.code() == 4);
    assert!(rt; OpenError::NoMemory.code() == 5 && OpenError::TooManyReaders.code() == 6);
    assert!(rt; OpenError::Used.code() == 7);
    Ok(())
}

/// Faults of a text, as they are shown.
static FAULTS: [(Fault, &'static str); 6] = [
    (Fault::BadByte, "line 7: BadByte"),
    (Fault::BadName, "line 7: BadName"),
    (Fault::BadRow, "line 7: BadRow"),
    (Fault::BadWeight, "line 7: BadWeight"),
    (Fault::TooManyNodes, "line 7: TooManyNodes"),
    (Fault::TooManyEdges, "line 7: TooManyEdges"),
];

#[test]
fn faults_of_a_text_in_words(rt: HostRuntime) -> Result<(), Fail> {
    for (kind, words) in &FAULTS {
        let error = TextError {
            line: 7,
            kind: *kind,
        };
        if !tells(rt.alloc(), &error, words) {
            return Err("other words".into());
        }
    }
    Ok(())
}

/// What is wrong with an order's text, with its number and its words.
static ORDER_FAULTS: [(OrderFaultKind, u8, &'static str); 6] = [
    (OrderFaultKind::BadByte, 1, "line 7: BadByte"),
    (OrderFaultKind::BadRow, 2, "line 7: BadRow"),
    (OrderFaultKind::UnknownNode, 3, "line 7: UnknownNode"),
    (OrderFaultKind::Twice, 4, "line 7: Twice"),
    (OrderFaultKind::Missing, 5, "line 7: Missing"),
    (OrderFaultKind::NoMemory, 6, "line 7: NoMemory"),
];

#[test]
fn faults_of_an_order_in_words(rt: HostRuntime) -> Result<(), Fail> {
    for (kind, number, words) in &ORDER_FAULTS {
        let error = OrderFault {
            line: 7,
            kind: *kind,
        };
        if *kind as u8 != *number || !tells(rt.alloc(), &error, words) {
            return Err("another number, or other words".into());
        }
    }
    Ok(())
}

#[test]
fn failed_calls_in_words(rt: HostRuntime) {
    let alloc = rt.alloc();
    assert!(rt;
        tells(alloc, &NoInput::Unreadable, "Unreadable")
            && tells(alloc, &NoInput::TooLarge, "TooLarge")
            && tells(alloc, &NoInput::NoMemory, "NoMemory")
            && tells(alloc, &CallError::Interrupted, "Interrupted")
            && tells(alloc, &CallError::Failed, "Failed")
    );
}
