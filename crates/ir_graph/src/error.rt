//! Why a call on a graph is refused.
ghost use Rattle.std.specs.Prelude.{◌≡◌};
ghost use Rattle.ir_graph.specs.Faults.{graph_code};

use std::fmt;
use thiserror::Error;

/// Why a call on a graph is refused.
#[derive(Clone, Copy, Debug, PartialEq, Eq, Error)]
pub enum GraphError {
    BadName = 1,
    BadWeight = 2,
    NoNode = 3,
    NoEdge = 4,
    TooManyNodes = 5,
    TooManyEdges = 6,
    EmptyGraph = 7,
    NoMemory = 8,
}

impl GraphError {
    /// The number of the error, from 1 to 8. For users of the library.
    pub fn code(self) -> u8
        ensures { result ≡ graph_code self }
    {
        self as u8
    }
}

impl fmt::Display for GraphError {
    fn fmt<W: fmt::Write>(&self, f: &mut fmt::Formatter<W>) -> fmt::Result {
        write!(f, "{:?}", self)
    }
}
