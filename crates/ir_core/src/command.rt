//! What is commanded of a net while its nodes turn.
use ir_model::Kind;

/// One command to the injector or the controller of a net. Nodes and links are numbers of the net's topology.
#[derive(Clone, Copy, Debug, PartialEq, Eq)]
pub enum Command {
    /// Puts a packet from a source to a destination into the source's inbox.
    Inject(u16, u16),
    /// Installs a plan of this kind and root over the links that are up and heeded.
    Install(Kind, u16),
    /// The same, but that it is labelled anew, also where installs keep the order of the epoch before.
    Renumber(Kind, u16),
    /// Retires the epochs below this one.
    Retire(u32),
    /// Marks a link as down.
    Down(u32),
    /// Marks a link as up.
    Up(u32),
    /// Leaves a link out of later installs; it still carries packets.
    Avoid(u32),
    /// Lets later installs use a link again.
    Heed(u32),
    /// Looks until all packets are settled or a node has ended. It is never refused.
    Drain,
}
