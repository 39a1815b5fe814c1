//! The line of an event and of what it came to.
ghost use Rattle.std.specs.Prelude.{◌≡◌, ◌++◌, ◌∷◌, [], OnOk, string_bytes, flat_map, decimal, slice_get, option_copied};
ghost use Rattle.ir_model.specs.{Graph.names};
ghost use Rattle.ir_trace.specs.Rows.{spaced};
ghost use Rattle.ir_steps.specs.Words.{kind_word, link_words, event_words, packet_words, end_words, reply_words, told_words, event_line, refused_word};

use crate::names::{Network, push_fate, push_link, push_node, push_way};
use ir_core::{Event, Kind, Record, Refused, Reply, World};
use ir_trace::text::{push_next_number, push_word};
use std::alloc::AllocError;

/// The names of the refusals, in the order of their numbers, which are counted from 1.
static REFUSALS: [&str; 17] = [
    "NoNode",
    "NoLink",
    "NoChannel",
    "NoEpoch",
    "HandFull",
    "HandEmpty",
    "Empty",
    "BadView",
    "Same",
    "EpochsFull",
    "Disconnected",
    "TooManyPackets",
    "NoMemory",
    "InboxFull",
    "TooManyChanges",
    "Used",
    "LinkDown",
];

/// The name of a refusal.
fn refused_word(refusal: Refused) -> &'static str
    ensures { result.now ≡ refused_word refusal }
{
    REFUSALS[refusal.code() as usize - 1]
}

/// The word of a kind of plans.
fn kind_word(kind: Kind) -> &'static str
    ensures { result.now ≡ kind_word kind }
{
    match kind {
        Kind::Tree => "tree",
        Kind::Shortest => "shortest",
        Kind::Compact => "compact",
        Kind::Landmark(_) => "landmark",
    }
}

/// Writes a word and the ends of a link, each after a space.
fn push_mark(text: &mut String, net: &Network<'_>, word: &str, link: u32) -> Result<(), AllocError>
    ensures { OnOk result (string_bytes text.new ≡ string_bytes text.old
        ++ flat_map spaced (word.now ∷ link_words (names net.now.graph.now) net.now.topology.now link)) }
{
    push_word(text, word)?;
    push_link(text, net, link)
}

/// Writes an event in the words of a script, each after a space.
fn push_event(text: &mut String, net: &Network<'_>, event: Event) -> Result<(), AllocError>
    ensures { OnOk result (string_bytes text.new ≡ string_bytes text.old
        ++ flat_map spaced (event_words (names net.now.graph.now) net.now.topology.now event)) }
{
    match event {
        Event::Inject(source, dest) => {
            push_word(text, "inject")?;
            push_node(text, net, source)?;
            push_node(text, net, dest)
        }
        Event::Learn(epoch) => {
            push_word(text, "learn")?;
            push_next_number(text, epoch as usize)
        }
        Event::Take(node, way) => {
            push_word(text, "take")?;
            push_node(text, net, node)?;
            push_way(text, net, node, way)
        }
        Event::Read(node, version) => {
            push_word(text, "read")?;
            push_node(text, net, node)?;
            push_next_number(text, version)
        }
        Event::Act(node) => {
            push_word(text, "act")?;
            push_node(text, net, node)
        }
        Event::Install(kind, root) => {
            push_word(text, "install")?;
            push_word(text, kind_word(kind))?;
            push_node(text, net, root)
        }
        Event::Renumber(kind, root) => {
            push_word(text, "renumber")?;
            push_word(text, kind_word(kind))?;
            push_node(text, net, root)
        }
        Event::Retire(floor) => {
            push_word(text, "retire")?;
            push_next_number(text, floor as usize)
        }
        Event::Down(link) => push_mark(text, net, "down", link),
        Event::Up(link) => push_mark(text, net, "up", link),
        Event::Avoid(link) => push_mark(text, net, "avoid", link),
        Event::Heed(link) => push_mark(text, net, "heed", link),
    }
}

/// Writes the number of a packet and the epoch of its stamp, each after a space.
fn push_packet(text: &mut String, id: u32, packet: Option<&Record>) -> Result<(), AllocError>
    ensures { OnOk result (string_bytes text.new ≡ string_bytes text.old
        ++ flat_map spaced (packet_words id (option_copied packet.entry))) }
{
    push_next_number(text, id as usize)?;
    match packet {
        Some(packet) => push_next_number(text, packet.stamp() as usize),
        None => Ok(()),
    }
}

/// Writes what became of a packet, each word after a space.
fn push_end(text: &mut String, net: &Network<'_>, packet: Option<&Record>) -> Result<(), AllocError>
    ensures { OnOk result (string_bytes text.new ≡ string_bytes text.old
        ++ flat_map spaced (end_words (names net.now.graph.now) net.now.topology.now (option_copied packet.entry))) }
{
    match packet {
        Some(packet) => push_fate(text, net, packet.fate),
        None => Ok(()),
    }
}

/// Writes the words of a reply, over the packets of a world after it.
fn push_reply(
    text: &mut String,
    net: &Network<'_>,
    world: &World,
    reply: Reply,
) -> Result<(), AllocError>
    ensures { OnOk result (string_bytes text.new ≡ string_bytes text.old
        ++ flat_map spaced (reply_words (names net.now.graph.now) net.now.topology.now
        (λ id. slice_get world.now.records id) reply)) }
{
    match reply {
        Reply::Injected(id) => push_packet(text, id, world.packet(id)),
        Reply::Taken(id) => push_next_number(text, id as usize),
        Reply::Sent(id, to) => {
            push_packet(text, id, world.packet(id))?;
            push_word(text, "sent")?;
            push_node(text, net, to)
        }
        Reply::Settled(id) => {
            push_packet(text, id, world.packet(id))?;
            push_end(text, net, world.packet(id))
        }
        Reply::Installed(epoch) => push_next_number(text, epoch as usize),
        Reply::Learnt | Reply::Viewed | Reply::Changed => Ok(()),
    }
}

/// Writes an event with what it came to, or `refused NAME` before it, each word after a space.
fn push_told(
    text: &mut String,
    net: &Network<'_>,
    world: &World,
    event: Event,
    reply: Result<Reply, Refused>,
) -> Result<(), AllocError>
    ensures { OnOk result (string_bytes text.new ≡ string_bytes text.old
        ++ flat_map spaced (told_words (names net.now.graph.now) net.now.topology.now
        (λ id. slice_get world.now.records id) event reply)) }
{
    match reply {
        Ok(reply) => {
            push_event(text, net, event)?;
            push_reply(text, net, world, reply)
        }
        Err(refusal) => {
            push_word(text, "refused")?;
            push_word(text, refused_word(refusal))?;
            push_event(text, net, event)
        }
    }
}

/// Writes the line of an event, over the packets of a world after it.
pub fn push_line(
    text: &mut String,
    net: &Network<'_>,
    line: usize,
    world: &World,
    event: Event,
    reply: Result<Reply, Refused>,
) -> Result<(), AllocError>
    ensures { OnOk result (string_bytes text.new ≡ string_bytes text.old
        ++ event_line (names net.now.graph.now) net.now.topology.now line
        (λ id. slice_get world.now.records id) event reply) }
{
    write!(text, "{line}")?;
    push_told(text, net, world, event, reply)?;
    text.push_str("\n")
}
