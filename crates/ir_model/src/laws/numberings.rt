//! Laws of depth-first numberings.

ghost use Rattle.std.specs.Prelude.{◌≡◌, ℕ, ◌<◌, List, slice_index};
ghost use Rattle.ir_model.specs.{Topology.{Topology, node_count}, Numbering.{IsDepthFirst, neighbors_of}};

/// A depth-first numbering, and the parent of each place but the root's, are determined by network and root.
pub fn numbering_is_determined()
    ensures order { (net : Topology) (root : ℕ) (order parents other others : List ℕ)
        → IsDepthFirst (neighbors_of net) (node_count net) root order parents
        → IsDepthFirst (neighbors_of net) (node_count net) root other others → order ≡ other }
    ensures parents { (net : Topology) (root : ℕ) (order parents other others : List ℕ)
        → IsDepthFirst (neighbors_of net) (node_count net) root order parents
        → IsDepthFirst (neighbors_of net) (node_count net) root other others
        → (i : ℕ) → 0 < i → i < node_count net
        → slice_index parents i ≡ slice_index others i }
{}
