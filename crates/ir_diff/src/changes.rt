//! The change from one row to another, by one walk along both.
ghost use Rattle.std.specs.Prelude.{◌≡◌, ◌≤◌, ◌↔◌, [], IfOk, IsTrue, length};
ghost use Rattle.ir_diff.specs.Changes.{AscendByStart, MakesNewRow, IsFewestChange, has_lead, has_start, put_leads, removed_starts};
ghost use Rattle.ir_diff.specs.Cuts.{AreLowerStarts, EndsLower, IsStartAt};

use std::alloc::{AllocError, Global};

/// A start of a row, and the node that its interval leads to.
#[derive(Clone, Copy, Debug, PartialEq, Eq)]
pub struct Lead {
    pub start: u16,
    pub node: u16,
}

/// What a node changes: the starts that go, and those that come or lead to another node.
#[derive(Drop)]
pub struct Changes {
    pub removed: Vec<u16>,
    pub put: Vec<Lead>,
}

/// Whether the starts of a row ascend. Takes O(k), for k starts. For users of the library.
#[tactic(auto, using(crate::proofs::Ascents::ascends, crate::proofs::Ascents::one_step, crate::proofs::Ascents::steps_up))]
pub fn is_ascending(row: &[Lead]) -> bool
    ensures { IsTrue result ↔ AscendByStart row.now }
{
    for place in 1..row.len() {
        if row[place].start <= row[place - 1].start {
            return false;
        }
    }
    true
}

/// The place of the first start, from one place on, that is not below this one.
fn place_from(row: &[Lead], place: usize, start: u16) -> usize
    requires { AreLowerStarts row.now start place }
    ensures { EndsLower row.now start result }
{
    let mut end = place;
    while end < row.len() && row[end].start < start {
        end += 1;
    }
    end
}

/// Whether a row has this start, which those before a place are below.
fn is_start(row: &[Lead], place: usize, start: u16) -> bool
    requires ascending { AscendByStart row.now }
    requires cut { EndsLower row.now start place }
    ensures value { result ≡ has_start row.now start }
    ensures place { IsTrue result → IsStartAt row.now start place }
{
    place < row.len() && row[place].start == start
}

/// Whether a row has this start with this node.
fn is_lead(row: &[Lead], place: usize, lead: Lead) -> bool
    requires ascending { AscendByStart row.now }
    requires cut { EndsLower row.now lead.start place }
    ensures { result ≡ has_lead row.now lead }
{
    is_start(row, place, lead.start) && row[place].node == lead.node
}

/// The starts of the old row that the new one has not.
fn removed_of(alloc: Global, old: &[Lead], new: &[Lead]) -> Result<Vec<u16>, AllocError>
    requires old { AscendByStart old.now }
    requires new { AscendByStart new.now }
    ensures { IfOk result (λ removed. removed.items ≡ removed_starts old.now new.now) }
{
    let mut removed = Vec::new(alloc);
    let mut place = 0;
    for lead in old {
        place = place_from(new, place, lead.start);
        if !is_start(new, place, lead.start) {
            removed.push(lead.start)?;
        }
    }
    Ok(removed)
}

/// The starts of the new row that the old one has not with that node.
fn put_of(alloc: Global, old: &[Lead], new: &[Lead]) -> Result<Vec<Lead>, AllocError>
    requires old { AscendByStart old.now }
    requires new { AscendByStart new.now }
    ensures { IfOk result (λ put. put.items ≡ put_leads old.now new.now) }
{
    let mut put = Vec::new(alloc);
    let mut place = 0;
    for lead in new {
        place = place_from(old, place, lead.start);
        if !is_lead(old, place, *lead) {
            put.push(*lead)?;
        }
    }
    Ok(put)
}

/// What a node changes whose row becomes another one, both by ascending starts. Removed are the
/// starts that the new row does not have; put are those that the old one does not have with that
/// node. The old row with them is the new row and no other, and whatever else makes the new row of
/// it removes and puts no fewer; where the rows are the same there are none. It is refused for
/// memory alone. Takes O(k), for k starts of both rows. For users of the library.
pub fn changes_of(alloc: Global, old: &[Lead], new: &[Lead]) -> Result<Changes, AllocError>
    requires old { AscendByStart old.now }
    requires new { AscendByStart new.now }
    ensures removed { IfOk result (λ c. c.removed.items ≡ removed_starts old.now new.now) }
    ensures put { IfOk result (λ c. c.put.items ≡ put_leads old.now new.now) }
    ensures same { IfOk result (λ c. (old.now ≡ new.now) ↔ ((c.removed.items ≡ []) × (c.put.items ≡ []))) }
    ensures few { IfOk result (λ c. (length c.removed.items ≤ length old.now)
        × (length c.put.items ≤ length new.now)) }
    ensures patched { IfOk result (λ c. MakesNewRow old.now new.now c.removed.items c.put.items) }
    ensures fewest { IfOk result (λ c. IsFewestChange old.now new.now (length c.removed.items) (length c.put.items)) }
{
    let removed = removed_of(alloc, old, new)?;
    let put = put_of(alloc, old, new)?;
    Ok(Changes { removed, put })
}
