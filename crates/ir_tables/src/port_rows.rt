ghost use Rattle.std.specs.Prelude.{◌≡◌, ◌<◌, ◌++◌, ◌∷◌, [], length, slice_index_or, IfOk, OnOk, List};
ghost use Rattle.ir_model.specs.declared.Hop.{Hop};
ghost use Rattle.ir_tables.specs.Rows.{rows_in, AreCuts};

use ir_model::Hop;
use std::alloc::{AllocError, Global};
use std::marker::Model;

/// The ports of each node, in order. They lie one after the other, with the place where each node's begin. A search
/// goes from node to node, and would else look up where each node's ports lie, which costs as much as the ports.
#[derive(Drop)]
pub struct PortRows {
    hops: Vec<Hop>,
    begins: Vec<usize>,
}

impl Model for PortRows {
    ghost Value = { List (List Hop) };

    ghost view = { λ r. rows_in r.begins.items r.hops.items };

    ghost invariant = { λ r. AreCuts r.begins.items r.hops.items };
}

impl PortRows {
    /// The ports of no node.
    pub fn new(alloc: Global) -> Result<PortRows, AllocError>
        ensures { IfOk result (λ rows. rows ≡ []) }
    {
        Ok(PortRows {
            hops: Vec::new(alloc),
            begins: vec![in alloc; 0; 1]?,
        })
    }

    /// How many nodes there are.
    pub fn len(&self) -> usize
        ensures { result ≡ length self.now }
    {
        self.begins.len() - 1
    }

    /// The ports of a node. Condition: the number is below `len()`.
    pub fn row(&self, node: usize) -> &[Hop]
        requires { node < length self.now }
        ensures { result.now ≡ slice_index_or self.now node [] }
    {
        &self.hops[self.begins[node]..self.begins[node + 1]]
    }

    /// These ports, and those of the next node.
    pub fn with(self, row: &[Hop]) -> Result<PortRows, AllocError>
        ensures { IfOk result (λ rows. rows ≡ self ++ row.now ∷ []) }
    {
        let PortRows {
            mut hops,
            mut begins,
        } = self;
        hops.extend_from_slice(row)?;
        begins.push(hops.len())?;
        Ok(PortRows { hops, begins })
    }

    /// The same ports.
    pub fn try_clone(&self, alloc: Global) -> Result<PortRows, AllocError>
        ensures { IfOk result (λ copy. copy ≡ self.now) }
    {
        Ok(PortRows {
            hops: Vec::from_slice(alloc, self.hops.as_slice())?,
            begins: Vec::from_slice(alloc, self.begins.as_slice())?,
        })
    }
}
