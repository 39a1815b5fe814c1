//! What users of the library call, and no program here.
ghost use Rattle.std.specs.Prelude.{◌≡◌, IfErr, IfOk, None};
ghost use Rattle.ir_core.specs.Opened.{open_refused, opening_of};
ghost use Rattle.ir_control.specs.{Nets.IsNetFor, Opened.IsNetRefusal};

use crate::net::Net;
use ir_core::{OpenError, Opening};
use ir_model::Kind;
use ir_tables::Topology;
use std::alloc::Global;
use std::thread::Threads;

impl Net {
    /// The net that `open` gives of the opening by these, whose plans are labelled depth first. For
    /// users of the library.
    pub fn new(
        rt: &(impl Threads + Sync),
        alloc: Global,
        topology: Topology,
        kind: Kind,
        root: u16,
        capacity: usize,
        max_packets: usize,
        restamps: u8,
    ) -> Result<Net, OpenError>
        ensures opened { IfOk result
            (λ net. IsNetFor (opening_of topology kind root capacity max_packets restamps) net) }
        ensures accepted { IfOk result
            (λ _. open_refused (opening_of topology kind root capacity max_packets restamps) ≡ None) }
        ensures refused { IfErr result
            (λ e. IsNetRefusal (opening_of topology kind root capacity max_packets restamps) e) }
    {
        let opening = Opening::of(topology, kind, root, capacity, max_packets, restamps);
        Net::open(rt, alloc, opening)
    }
}
