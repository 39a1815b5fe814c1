ghost use Rattle.std.specs.Prelude.{◌≡◌, ◌<◌, ◌≤◌, ◌↔◌, None, length, slice_index, slice_index_or, IfOk, IsTrue, OnOk};
ghost use Rattle.ir_model.specs.{Topology.node_count, Walk.{IsConnected, IsDisconnected}};
ghost use Rattle.ir_model.specs.{Numbering.{neighbors_of, IsDepthFirst}, Subtree.IsSubtree, Table.{port_in, IsRouted}};
ghost use Rattle.ir_model.specs.{Tree.{IsParent, IsTreeTable}, Plan.AreLabels, declared.TheConstants.MAX_NODES};
ghost use Rattle.ir_numbering.specs.Numbering.{IsListing, IsNumberingOf, Numbering, AreSoundNumbers};
ghost use Rattle.ir_numbering.specs.{Sizes.AreSizesFrom, Views.numbers_of};

use crate::adjacency::search;
use crate::error::NumberError;
use crate::parents::{labels_of, parent_ports, subtree_sizes};
use crate::search::Order;
use crate::tree::tree_ports;
use ir_tables::{Table, Topology};
use std::alloc::{AllocError, Global};
use std::marker::Model;

/// Numbering of nodes: the label of each node, and its parent in the tree of the numbering.
#[derive(Drop)]
pub struct Numbering {
    order: Vec<u16>,
    parents: Vec<usize>,
    labels: Vec<u16>,
    ports: Vec<Option<u16>>,
    sizes: Vec<u16>,
}

impl Model for Numbering {
    ghost Value = { Numbering };

    ghost view = { numbers_of };

    ghost invariant = { λ s. AreSoundNumbers (numbers_of s) × AreSizesFrom 0 s.parents.items s.sizes.items };
}

impl Numbering {
    /// Numbering the nodes depth first from the root. From the last numbered node
    /// that still has neighbours without a number, the first such neighbour in port order is next.
    ///
    /// NoNode exactly where the root is no node of the topology, then Disconnected where some node has no walk to
    /// some node; NoMemory where a growth was refused, which may come before Disconnected is known. Takes O(n + m),
    /// for n nodes and m links.
    pub fn depth_first(
        alloc: Global,
        topology: &Topology,
        root: u16,
    ) -> Result<Numbering, NumberError>
        ensures no_node { (result ≡ Err NumberError.NoNode) ↔ (node_count topology.now ≤ root) }
        ensures depth_first { IfOk result
            (λ numbers. IsDepthFirst (neighbors_of topology.now)
            (node_count topology.now) root numbers.order numbers.parents) }
        ensures numbering { IfOk result (λ numbers. IsNumberingOf topology.now numbers) }
        ensures connected { OnOk result (IsConnected topology.now) }
        ensures disconnected { result ≡ Err NumberError.Disconnected → IsDisconnected topology.now }
    {
        if root as usize >= topology.nodes() {
            return Err(NumberError::NoNode);
        }
        let Order {
            nodes: order,
            parents,
        } = search(alloc, topology, root)?;
        if order.len() < topology.nodes() {
            return Err(NumberError::Disconnected);
        }
        let labels = labels_of(alloc, order.as_slice())?;
        let ports = parent_ports(
            alloc,
            topology,
            order.as_slice(),
            parents.as_slice(),
            labels.as_slice(),
        )?;
        let sizes = subtree_sizes(alloc, parents.as_slice())?;
        Ok(Numbering {
            order,
            parents,
            labels,
            ports,
            sizes,
        })
    }

    /// Numbering nodes by a list that has each once. Each node but the first has the first for its parent in the tree
    /// of the numbering, and none holds a port for it. Takes O(n), for n nodes.
    pub fn listed(alloc: Global, order: Vec<u16>) -> Result<Numbering, AllocError>
        requires listing { IsListing (length order.items) order.items }
        requires few { length order.items ≤ MAX_NODES }
        ensures order { IfOk result (λ numbers. numbers.order ≡ order.items) }
        ensures labels { IfOk result (λ numbers. AreLabels (length numbers.order) numbers.order numbers.labels) }
    {
        let labels = labels_of(alloc, order.as_slice())?;
        let parents = vec![in alloc; 0usize; order.len()]?;
        let ports = vec![in alloc; None; order.len()]?;
        let sizes = subtree_sizes(alloc, parents.as_slice())?;
        Ok(Numbering {
            order,
            parents,
            labels,
            ports,
            sizes,
        })
    }

    /// The label of a node: its place in the order.
    pub fn label_of(&self, node: u16) -> u16
        requires { node < length self.now.order }
        ensures { result ≡ slice_index self.now.labels node }
    {
        self.labels[node as usize]
    }

    /// The node with a label.
    pub fn node_of(&self, label: u16) -> u16
        requires { label < length self.now.order }
        ensures { result ≡ slice_index self.now.order label }
    {
        self.order[label as usize]
    }

    /// The nodes by label.
    pub fn order(&self) -> &[u16]
        ensures { result.now ≡ self.now.order }
    {
        self.order.as_slice()
    }

    /// The port of a node that leads to its parent; none at the root.
    pub fn parent(&self, node: u16) -> Option<u16>
        requires { node < length self.now.order }
        ensures { result ≡ slice_index_or self.now.ports node None }
    {
        self.ports[node as usize]
    }

    /// How many nodes are in the subtree of a node, itself included. Their labels follow one another from the
    /// node's own label on (Santoro and Khatib 1985).
    pub fn subtree(&self, node: u16) -> usize
        requires { node < length self.now.order }
        ensures { IsSubtree (length self.now.order) self.now.parents (slice_index self.now.labels node) result }
    {
        self.sizes[self.label_of(node) as usize] as usize
    }

    /// Whether the first of two nodes has the other for its parent in the tree of the numbering.
    pub fn has_parent(&self, node: u16, parent: u16) -> bool
        requires node { node < length self.now.order }
        requires other { parent < length self.now.order }
        ensures { IsTrue result ↔ IsParent self.now.order self.now.parents node parent }
    {
        let place = self.label_of(node) as usize;
        place > 0 && self.parents[place] == self.label_of(parent) as usize
    }
}

/// The tree table of a numbering of this topology. At a node and a destination it has the port to the second node of
/// the path between them in the tree of the numbering, and none where they are one node. Its distances weigh these
/// paths.
///
/// Condition: the numbering is of the topology. It is refused for want of memory alone. Takes O(n * n + q), for n
/// nodes and q the sum of the squares of the degrees. For users of the library.
pub fn tree_table(
    alloc: Global,
    topology: &Topology,
    numbering: &Numbering,
) -> Result<Table, AllocError>
    requires { IsNumberingOf topology.now numbering.now }
    ensures tree { IfOk result (λ table. IsTreeTable topology.now numbering.now.order numbering.now.parents
        (port_in table)) }
    ensures routed { IfOk result (λ table. IsRouted topology.now table) }
{
    let ports = tree_ports(
        alloc,
        topology,
        numbering.order.as_slice(),
        numbering.parents.as_slice(),
        numbering.labels.as_slice(),
        numbering.ports.as_slice(),
    )?;
    Table::from_ports(alloc, topology, ports)
}
