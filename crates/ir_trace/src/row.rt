//! The rows of a trace as they are read.
ghost use Rattle.ir_trace.specs.Row.{Segment, TraceRow};

use std::marker::Model;

/// The version of a trace, by its first line.
#[derive(Clone, Copy, Debug, PartialEq, Eq)]
pub enum Version {
    /// `trace 1`: a row has one segment, whose epoch follows the id.
    One,
    /// `trace 2`: a row has one segment or more, each after its `#EPOCH`.
    Two,
}

/// What a row says became of its packet. Nodes are numbers in node order.
#[derive(Clone, Copy, Debug, PartialEq, Eq)]
pub enum RowFate {
    Delivered,
    Retired,
    /// The link between these nodes was down; the smaller number is first.
    Down { low: u16, high: u16 },
    /// The channel from the first node to the second was full.
    Full { from: u16, to: u16 },
    /// Under way.
    Left,
}

/// A part of a packet's way, under one epoch. Nodes are numbers in node order.
#[derive(Drop)]
pub struct Segment {
    pub epoch: u32,
    /// One node or more. The first is the source of the packet, or the last node of the segment before.
    pub hops: Vec<u16>,
}

impl Model for Segment {
    ghost Value = { Segment };

    ghost view = { λ s. record { epoch = s.epoch; hops = s.hops.items } };
}

/// A row as it is read. Nodes are numbers in node order.
#[derive(Drop)]
pub struct TraceRow {
    pub id: u32,
    pub source: u16,
    pub dest: u16,
    pub weight: u32,
    pub fate: RowFate,
    /// One or more, in the order of the way.
    pub segments: Vec<Segment>,
}

impl Model for TraceRow {
    ghost Value = { TraceRow };

    ghost view = { λ r. record {
      id = r.id;
      source = r.source;
      dest = r.dest;
      weight = r.weight;
      fate = r.fate;
      parts = r.segments.items;
    } };
}
