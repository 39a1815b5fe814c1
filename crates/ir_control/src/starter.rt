//! Which nodes' threads are started, and which nodes came back from theirs.
ghost use Rattle.std.specs.Prelude.{◌≡◌, ℕ, true, false};
ghost use Rattle.ir_worker.specs.declared.node.Node.{Node};
ghost use Rattle.ir_control.specs.declared.injector.Injector.{Injector};

use crate::injector::Injector;
use ir_worker::Node;
use std::sync::atomic::{AtomicBool, Ordering};
use std::thread::{SpawnError, Threads};

/// Says of each node whether its thread is to be started, and sets the flag of a run. It is shown the
/// injector once the commands are carried out, and each node that came back. Its ghost words record a
/// thread that was not started, an injector or a node that was shown, and a flag that was set. So a
/// contract can say that a thread was not started, of which injector and nodes a run reports, and why
/// its nodes ended.
pub trait Starter {
    // the thread of the node of this number was not started
    ghost unstarted: { Self → ℕ → Type 0 };

    // this node was shown as it came back
    ghost came_back: { Self → Node → Type 0 };

    // this injector was shown after the commands
    ghost was_closed: { Self → Injector → Type 0 };

    // the flag that lets the nodes of a run end was set
    ghost was_stopped: { Self → Type 0 };

    /// Whether the thread of the node of this number is to be started.
    fn starts(&self, node: u16) -> bool
        ensures { result ≡ false → unstarted self.now node };

    /// The system refused the thread of the node of this number.
    fn refused<F: Drop>(&self, node: u16, error: SpawnError<F>)
        ensures { unstarted self.now node };

    /// The commands are carried out: this injector puts nothing in any more. The run has not set its flag yet.
    fn closes(&self, injector: &Injector)
        ensures { was_closed self.now injector.now };

    /// This node came back from its thread.
    fn takes_back(&self, node: &Node)
        ensures { came_back self.now node.now };

    /// Whether this flag of a run is set.
    fn is_stopped(&self, flag: &AtomicBool) -> bool
        ensures { result ≡ true → was_stopped self.now };

    /// Sets this flag of a run.
    fn stops(&self, flag: &AtomicBool)
        ensures { was_stopped self.now };
}

/// A runtime is a starter that has each node's thread started. Who takes any runtime with this
/// bound knows of its words no more than of another starter's.
impl<R: Threads> Starter for R {
    ghost unstarted = { λ _ _. Unit {0} };

    ghost came_back = { λ _ _. Unit {0} };

    ghost was_closed = { λ _ _. Unit {0} };

    ghost was_stopped = { λ _. Unit {0} };

    fn starts(&self, _node: u16) -> bool {
        true
    }

    fn refused<F: Drop>(&self, _node: u16, _error: SpawnError<F>) {}

    fn closes(&self, _injector: &Injector) {}

    fn takes_back(&self, _node: &Node) {}

    fn is_stopped(&self, flag: &AtomicBool) -> bool {
        flag.load(Ordering::SeqCst)
    }

    fn stops(&self, flag: &AtomicBool) {
        flag.store(true, Ordering::SeqCst);
    }
}
