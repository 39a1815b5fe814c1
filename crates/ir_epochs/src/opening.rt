//! A board with its writer and its readers.
ghost use Rattle.std.specs.Prelude.{◌≡◌, ◌≤◌, [], ◌∷◌, length, All, IfOk};
ghost use Rattle.ir_core.specs.declared.TheConstants.{MAX_LINKS};
ghost use Rattle.ir_epochs.specs.{Stamps.{epoch_of, knows}, declared.entry.Entry.TheVariants.Opened};
ghost use Rattle.ir_epochs.specs.Handles.{published, known, writer_board, reader_board};

use crate::error::BoardError;
use crate::handles::{BoardReader, BoardWriter};
use crate::registry::Stamp;
use std::alloc::Global;
use std::sync::Wait;

// So many readers, which know the board as it is.
fn seats<R: Wait + Drop>(
    alloc: Global,
    writer: &mut BoardWriter<R>,
    readers: u16,
) -> Result<Vec<BoardReader>, BoardError>
    ensures same { (published writer.new ≡ published writer.old)
        × (writer_board writer.new ≡ writer_board writer.old) }
    ensures count { IfOk result (λ r. length r.items ≡ readers) }
    ensures each { IfOk result (λ r. All
        (λ x. (known x ≡ published writer.old) × (reader_board x ≡ writer_board writer.old)) r.items) }
{
    let Ok(mut seats) = Vec::with_capacity(alloc, usize::from(readers)) else {
        return Err(BoardError::NoMemory);
    };
    for _ in 0..readers {
        let Ok(reader) = writer.reader() else {
            return Err(BoardError::TooManyReaders);
        };
        seats.push_reserved(reader);
    }
    Ok(seats)
}

/// Opens a board over the stamp of epoch 1, whose plan's network has so many links, with so many readers.
///
/// All links are up, and each reader knows the opening.
pub fn board<R: Wait + Drop>(
    rt: R,
    alloc: Global,
    opening: &Stamp,
    links: u16,
    readers: u16,
) -> Result<(BoardWriter<R>, Vec<BoardReader>), BoardError>
    requires epoch { epoch_of opening.now ≡ 1 }
    requires links { length (knows opening.now).topology.links ≡ links }
    requires few { links ≤ MAX_LINKS }
    ensures writer { IfOk result (λ r. published r.0 ≡ Opened links opening.now ∷ []) }
    ensures count { IfOk result (λ r. length r.1.items ≡ readers) }
    ensures each { IfOk result (λ r. All
        (λ x. (known x ≡ published r.0) × (reader_board x ≡ writer_board r.0)) r.1.items) }
{
    let Ok(mut writer) = BoardWriter::open(rt, alloc, opening, links, readers) else {
        return Err(BoardError::NoMemory);
    };
    match seats(alloc, &mut writer, readers) {
        Ok(seats) => Ok((writer, seats)),
        Err(error) => Err(error),
    }
}
