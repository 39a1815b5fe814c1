//! The links and ports that the adjacency of a graph gives, by the places of its nodes.
ghost use Rattle.std.specs.Prelude.{◌≡◌, ◌<◌, ◌≤◌, ◌++◌, length, IfOk, OnOk};
ghost use Rattle.ir_model.specs.{declared.TheConstants.MAX_EDGES, Places.neighbors_at};
ghost use Rattle.ir_tables.specs.Numbered.{AreLinkKeys, links_at, links_from, ports_at};
ghost use Rattle.ir_tables.specs.ByPlace.{row_numbers, neighbor_rows};

use crate::link_keys::link_between;
use ir_graph::Graph;
use ir_model::{Hop, Link};
use std::alloc::{AllocError, Global};

/// Puts the links from a node to later nodes after those that are there.
fn push_links(graph: &Graph, u: usize, links: &mut Vec<Link>) -> Result<(), AllocError>
    requires { u < length graph.now }
    ensures { OnOk result (links.new.items ≡ links.old.items
        ++ links_at u (row_numbers graph.now (neighbors_at graph.now u))) }
{
    graph.invariant();
    for place in 0..graph.neighbor_count(u) {
        let (v, weight) = graph.neighbor_at(u, place).unwrap();
        if u < v {
            links.push(Link {
                low: u as u16,
                high: v as u16,
                weight,
            })?;
        }
    }
    Ok(())
}

/// The links of a graph, in edge order.
pub fn links_of(alloc: Global, graph: &Graph) -> Result<Vec<Link>, AllocError>
    ensures { IfOk result (λ links. links.items ≡ links_from 0 (neighbor_rows graph.now)) }
{
    let mut links = Vec::with_capacity(alloc, graph.number_of_edges())?;
    for u in 0..graph.number_of_nodes() {
        push_links(graph, u, &mut links)?;
    }
    Ok(links)
}

/// The ports of a node over numbered links, in adjacency order. The links are found by their keys.
pub fn ports_of(
    alloc: Global,
    graph: &Graph,
    links: &[Link],
    keys: &[u64],
    u: usize,
) -> Result<Vec<Hop>, AllocError>
    requires node { u < length graph.now }
    requires links { links.now ≡ links_from 0 (neighbor_rows graph.now) }
    requires keys { AreLinkKeys links.now keys.now }
    requires few { length links.now ≤ MAX_EDGES }
    ensures { IfOk result (λ ports. ports.items
        ≡ ports_at links.now u (row_numbers graph.now (neighbors_at graph.now u))) }
{
    graph.invariant();
    let mut ports = Vec::new(alloc);
    for place in 0..graph.neighbor_count(u) {
        let (v, weight) = graph.neighbor_at(u, place).unwrap();
        if v != u {
            let link = link_between(links, keys, u as u16, v as u16);
            ports.push(Hop {
                node: v as u16,
                link: link as u32,
                weight,
            })?;
        }
    }
    Ok(ports)
}
