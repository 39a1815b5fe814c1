//! The board: one thread changes it, and readers read it with no lock and no wait.
ghost use Rattle.std.specs.Prelude.{◌≡◌, ◌+◌, ◌<◌, ◌≤◌, [], ◌∷◌, ◌++◌, ◌⊎◌, length, drop, option_map, Some, None, IsTrue, ◌↔◌, IfOk, IsOk, IfSome, IsSome, MatchOption, if◌then◌else◌};
ghost use Rattle.std.specs.Option.{ForSome};
ghost use mathlib.Core.List.{IsPrefix};
ghost use Rattle.left_right.specs.Sides.{view};
ghost use Rattle.ir_core.specs.declared.TheConstants.{MAX_LINKS, MAX_CHANGES};
ghost use Rattle.ir_epochs.specs.{Stamps.knows, Entries.{board_of, installed_by, IsSameOpening, Rises}};
ghost use Rattle.ir_epochs.specs.Seats.{IsNoted};

use crate::chronicle::{Chronicle, Front};
use crate::entry::{Change, Entry};
use crate::looks::Looks;
use crate::published::Published;
use crate::registry::Stamp;
use crate::seats::{Desk, Learn, See, Sitting, Tell};
use core::mem::replace_with;
use ir_core::Board;
use std::alloc::{AllocError, Global};
use std::sync::Wait;

// Puts the next value into the list of operations. The list has room for it, so the first try does; if there were none,
// this would wait for memory.
fn append<R: Wait>(rt: &R, writer: &mut Desk, next: Published)
    requires { drop writer.old.behind writer.old.log.items ≡ [] }
    ensures desk { writer.new.desk ≡ writer.old.desk }
    ensures pending { drop writer.new.behind writer.new.log.items ≡ next ∷ [] }
{
    let mut next = next;
    for _ in rt.forever() {
        match writer.append(next) {
            Ok(()) => return,
            Err(back) => next = back,
        }
    }
    unreachable!()
}

// Shows readers the value that is pending.
fn show<R: Wait>(rt: &R, writer: Desk, _next: &Published) -> Desk
    requires pending { drop writer.behind writer.log.items ≡ _next.now ∷ [] }
    requires board { _next.now.front.book ≡ writer.desk.shown.value.front.book }
    requires later { IsPrefix writer.desk.shown.value.front.log _next.now.front.log }
    ensures shown { result.desk.shown.value ≡ _next.now }
    ensures pending { drop result.behind result.log.items ≡ [] }
    ensures known { (view result.desk.place).known ≡ Some _next.now.front }
{
    let (writer, _) = writer.publish_as::<See, R>(rt);
    writer
}

// Shows readers one more value. At `Err` the list of operations has no room, and no memory for more, and nobody has the
// desk from then on.
fn publish<R: Wait>(rt: &R, mut writer: Desk, next: &Published) -> Result<Desk, AllocError>
    requires pending { drop writer.behind writer.log.items ≡ [] }
    requires board { next.now.front.book ≡ writer.desk.shown.value.front.book }
    requires later { IsPrefix writer.desk.shown.value.front.log next.now.front.log }
    ensures shown { IfOk result (λ w. w.desk.shown.value ≡ next.now) }
    ensures pending { IfOk result (λ w. drop w.behind w.log.items ≡ []) }
    ensures known { IfOk result (λ w. (view w.desk.place).known ≡ Some next.now.front) }
{
    match writer.append(next.again()) {
        Ok(()) => Ok(show(rt, writer, next)),
        Err(_) => {
            writer.take(rt);
            Err(AllocError)
        }
    }
}

// A desk that has shown this value twice, with places for so many readers, of which there is one at least.
fn desk_over<R: Wait>(
    rt: &R,
    alloc: Global,
    first: &Published,
    readers: u16,
) -> Result<Desk, AllocError>
    ensures shown { IfOk result (λ w. w.desk.shown.value ≡ first.now) }
    ensures pending { IfOk result (λ w. drop w.behind w.log.items ≡ []) }
    ensures known { IfOk result (λ w. (view w.desk.place).known ≡ Some first.now.front) }
{
    let readers = usize::from(readers.max(1));
    let Ok(writer) = Desk::new(alloc, first.again(), first.again(), readers) else {
        return Err(AllocError);
    };
    let Ok(writer) = publish(rt, writer, first) else {
        return Err(AllocError);
    };
    publish(rt, writer, first)
}

// Shows readers one more value, where the list of operations has room for it.
fn publish_in_room<R: Wait>(rt: &R, mut writer: Desk, next: Published) -> (Desk, ())
    requires pending { drop writer.behind writer.log.items ≡ [] }
    requires board { next.front.book ≡ writer.desk.shown.value.front.book }
    requires later { IsPrefix writer.desk.shown.value.front.log next.front.log }
    ensures shown { result.0.desk.shown.value ≡ next }
    ensures pending { drop result.0.behind result.0.log.items ≡ [] }
    ensures known { (view result.0.desk.place).known ≡ Some next.front }
{
    append(rt, &mut writer, next.again());
    (show(rt, writer, &next), ())
}

// Takes in a value of the same board: the later of the two stays. It is copied only where it is the later.
fn note(newest: &mut Published, other: &Published)
    requires { other.now.front.book ≡ newest.old.front.book }
    ensures either { (newest.new ≡ newest.old) ⊎ (newest.new ≡ other.now) }
    ensures old { IsPrefix newest.old.front.log newest.new.front.log }
    ensures other { IsPrefix other.now.front.log newest.new.front.log }
    ensures rises { Rises (board_of newest.old.front.log) (board_of newest.new.front.log) }
    ensures opening { IsSameOpening newest.old.front.log newest.new.front.log }
    ensures board { newest.new.front.book ≡ newest.old.front.book }
{
    let mut both = newest.front.again();
    both.learn(&other.front);
    if newest.board.version() < other.board.version() {
        newest.become_like(other);
    }
}

// Takes the value that was published last into the newest that is known, unless the writer is gone.
pub(crate) fn enter(reader: Sitting, newest: &mut Published) -> Sitting
    requires same_board { option_map (λ s. s.book) (view reader.place).known ≡ Some newest.old.front.book }
    requires noted { IsNoted (view reader.place) newest.old }
    ensures same_board { option_map (λ s. s.book) (view result.place).known ≡ Some newest.new.front.book }
    ensures noted { IsNoted (view result.place) newest.new }
    ensures later { IsPrefix newest.old.front.log newest.new.front.log }
    ensures rises { Rises (board_of newest.old.front.log) (board_of newest.new.front.log) }
    ensures opening { IsSameOpening newest.old.front.log newest.new.front.log }
    ensures board { newest.new.front.book ≡ newest.old.front.book }
{
    match reader.enter_as::<See>() {
        Ok(reading) => {
            note(newest, reading.get());
            reading.leave()
        }
        Err(reader) => reader,
    }
}

/// The one handle that changes the board. Contracts see the list of all entries that were published.
///
/// It keeps `R`, since letting it go waits for the readers that still read. From then on they read what they know.
pub struct BoardWriter<R: Wait + Drop> {
    writer: Desk,
    chronicle: Chronicle,
    rt: R,
    ghost settled: { drop writer.behind writer.log.items ≡ [] },
    ghost same_board: { writer.desk.shown.value.front.book ≡ chronicle.head.book },
    ghost next: { chronicle.pen.nib.key ≡ length writer.desk.shown.value.front.log },
    ghost knows: { (view writer.desk.place).known ≡ Some writer.desk.shown.value.front },
}

/// Shows that a change was published, and the board that it made. It may go to other threads.
#[derive(Drop)]
pub struct Receipt {
    published: Published,
    install: bool,
    ghost installed: { installed_by published.front.log ≡ (if install then Some published.stamp else None) },
}

/// One reader of the board. Contracts see the list of entries of the newest board that it has read or learnt.
///
/// That list begins with all that its seat has seen: who enters the board can't pass over what was found there.
#[derive(Drop)]
pub struct BoardReader {
    reader: Option<Sitting>,
    newest: Published,
    ghost seated: { IsSome reader },
    ghost same_board: { ForSome reader
        (λ r. option_map (λ s. s.book) (view r.place).known ≡ Some newest.front.book) },
    ghost noted: { ForSome reader (λ r. IsNoted (view r.place) newest) },
}

impl<R: Wait + Drop> Drop for BoardWriter<R> {
    fn drop(self) {
        let Self {
            writer,
            chronicle: _,
            rt,
        } = self;
        writer.take(&rt);
    }
}

impl<R: Wait + Drop> BoardWriter<R> {
    ghost use Rattle.ir_epochs.specs.declared.entry.Entry.TheVariants.{Opened, Changed};
    ghost use Rattle.ir_epochs.specs.Entries.{MayComeNext, HasLiveEpochs, IsCurrent};
    ghost use Rattle.ir_epochs.specs.Handles.{published, known, told, writer_board, reader_board, receipt_board};

    // A board that was just opened, with places for so many readers, of which there is one at least.
    //
    // The opening is published twice. From then on the list of operations has room for two, whatever the size of a
    // board, and it never holds more. It keeps the last one, which the other copy lacks, and takes in the next.
    pub(crate) fn open(
        rt: R,
        alloc: Global,
        opening: &Stamp,
        links: u16,
        readers: u16,
    ) -> Result<BoardWriter<R>, AllocError>
        requires epoch { opening.now.epoch ≡ 1 }
        requires links { length (knows opening.now).topology.links ≡ links }
        requires few { links ≤ MAX_LINKS }
        ensures { IfOk result (λ w. published w ≡ Opened links opening.now ∷ []) }
    {
        let (chronicle, front) = Chronicle::open(&rt, Entry::Opened(links, opening.again()));
        let first = Published {
            board: Board::opening(),
            stamp: opening.again(),
            front,
        };
        let made = desk_over(&rt, alloc, &first, readers);
        drop(first);
        match made {
            Ok(writer) => Ok(BoardWriter {
                writer,
                chronicle,
                rt,
            }),
            Err(error) => Err(error),
        }
    }

    /// The board as it is.
    pub fn board(&self) -> Board
        ensures board { result ≡ board_of (published self.now) }
        ensures version { result.version + 1 ≡ length (published self.now) }
        ensures live { HasLiveEpochs result }
    {
        self.writer.published().board
    }

    /// The stamp of the board's current epoch. It takes no memory and waits for nobody.
    pub fn stamp(&self) -> Stamp
        ensures { IsCurrent (published self.now) result }
    {
        self.writer.published().stamp.again()
    }

    /// Publishes one change, which is then the last entry. The change is one that may come next.
    ///
    /// It takes no memory, since `open` made the room that a change needs, and no change is refused. It waits for
    /// readers that still read an older board.
    pub fn change(&mut self, change: Change) -> Result<Receipt, AllocError>
        requires version { (board_of (published self.old)).version < MAX_CHANGES }
        requires fits { MayComeNext (published self.old) change }
        ensures change { IfOk result (λ t. (published self.new ≡ published self.old ++ Changed change ∷ [])
            × (told t ≡ published self.new)) }
        ensures succeeds { IsOk result }
        ensures opening { IsSameOpening (published self.old) (published self.new) }
        ensures board { writer_board self.new ≡ writer_board self.old }
        ensures receipt { IfOk result (λ t. receipt_board t ≡ writer_board self.old) }
    {
        let now = self.writer.published();
        let version = now.board.version();
        let board = change.applied(&now.board);
        let stamp = change.stamp_after(&now.stamp);
        let install = change.installs();
        let entry = Entry::Changed(change);
        let front = self
            .chronicle
            .record(&self.rt, &now.front, u64::from(version), entry);
        let next = Published {
            board,
            stamp,
            front,
        };
        let receipt = Receipt {
            published: next.again(),
            install,
        };
        replace_with(&mut self.writer, (&self.rt, next), |writer, (rt, next)| {
            publish_in_room(rt, writer, next)
        });
        Ok(receipt)
    }

    // The list of all that was published.
    pub(crate) fn published(&self) -> &Front
        ensures { (result.now.log ≡ published self.now) × (result.now.book ≡ writer_board self.now) }
    {
        &self.writer.published().front
    }

    /// Learns that all that a reader of this board knows was published; it does nothing else. Who has the pen of the
    /// next entry, as the writer does, knows that no list is longer than what it published.
    pub fn leads(&mut self, reader: &BoardReader)
        requires { reader_board reader.now ≡ writer_board self.old }
        ensures led { IsPrefix (known reader.now) (published self.old) }
        ensures same { (published self.new ≡ published self.old)
            × (writer_board self.new ≡ writer_board self.old) }
    {
        let mut both = self.published().again();
        both.learn(reader.known());
        self.chronicle.bound(&mut both);
    }

    // A reader that knows the board as it is. Returns `Err` where each place is in use.
    pub(crate) fn reader(&mut self) -> Result<BoardReader, AllocError>
        ensures same { (published self.new ≡ published self.old)
            × (writer_board self.new ≡ writer_board self.old) }
        ensures reader { IfOk result (λ r. (known r ≡ published self.old)
            × (reader_board r ≡ writer_board self.old)) }
    {
        let mut reader = self.writer.factory().reader()?;
        reader.learn::<Learn>(self.writer.tell::<Tell>());
        Ok(BoardReader {
            reader: Some(reader),
            newest: self.writer.published().again(),
        })
    }
}

impl Receipt {
    ghost use Rattle.ir_epochs.specs.{Entries.IsCurrent, Handles.{told, receipt_board}};

    // The list up to its change.
    pub(crate) fn told(&self) -> &Front
        ensures { (result.now.log ≡ told self.now) × (result.now.book ≡ receipt_board self.now) }
    {
        &self.published.front
    }

    /// The version that its change made.
    pub fn version(&self) -> u32
        ensures { result + 1 ≡ length (told self.now) }
    {
        self.board().version()
    }

    /// The stamp of an install, and `None` for another change.
    pub fn stamp(&self) -> Option<&Stamp>
        ensures installed { MatchOption result (installed_by (told self.now) ≡ None)
            (λ s. installed_by (told self.now) ≡ Some s.now) }
        ensures current { IfSome result (λ s. IsCurrent (told self.now) s.now) }
    {
        if self.install {
            Some(&self.published.stamp)
        } else {
            None
        }
    }

    /// The board that its change made.
    pub fn board(&self) -> Board
        ensures { result ≡ board_of (told self.now) }
    {
        self.published.board
    }
}

impl BoardReader {
    ghost use Rattle.ir_epochs.specs.Entries.{IsCurrent, HasLiveEpochs};
    ghost use Rattle.ir_epochs.specs.Handles.{known, told, reader_board, receipt_board};

    // The list of the newest board that it has read or learnt.
    pub(crate) fn known(&self) -> &Front
        ensures { (result.now.log ≡ known self.now) × (result.now.book ≡ reader_board self.now) }
    {
        &self.newest.front
    }

    /// From now on it knows the receipt's change: each later `read` has at least its version.
    pub fn learn(&mut self, receipt: &Receipt)
        requires { receipt_board receipt.now ≡ reader_board self.old }
        ensures either { (known self.new ≡ known self.old) ⊎ (known self.new ≡ told receipt.now) }
        ensures old { IsPrefix (known self.old) (known self.new) }
        ensures receipt { IsPrefix (told receipt.now) (known self.new) }
        ensures rises { Rises (board_of (told receipt.now)) (board_of (known self.new)) }
        ensures opening { IsSameOpening (known self.old) (known self.new) }
        ensures board { reader_board self.new ≡ reader_board self.old }
    {
        note(&mut self.newest, &receipt.published);
    }

    /// The board as it is, or the newest that it knows where the writer is gone. It waits for nobody.
    ///
    /// The board is that of the list of entries that it knows, which never gets shorter.
    pub fn read(&mut self) -> Board
        ensures board { result ≡ board_of (known self.new) }
        ensures version { result.version + 1 ≡ length (known self.new) }
        ensures live { HasLiveEpochs result }
        ensures later { IsPrefix (known self.old) (known self.new) }
        ensures rises { Rises (board_of (known self.old)) (board_of (known self.new)) }
        ensures opening { IsSameOpening (known self.old) (known self.new) }
        ensures same { reader_board self.new ≡ reader_board self.old }
    {
        self.look(&(), &());
        *self.board()
    }

    /// As `read`, without a copy of the board: `board` has it. The runtime's word says that its caller looked with this
    /// in hand.
    pub fn look<X, R: Looks<X>>(&mut self, rt: &R, in_hand: &X)
        ensures looked { R.looked in_hand.now (reader_board self.old) (known self.old) (known self.new) }
        ensures later { IsPrefix (known self.old) (known self.new) }
        ensures rises { Rises (board_of (known self.old)) (board_of (known self.new)) }
        ensures opening { IsSameOpening (known self.old) (known self.new) }
        ensures same { reader_board self.new ≡ reader_board self.old }
    {
        let Some(reader) = self.reader.take() else {
            unreachable!()
        };
        self.reader = Some(rt.enter(in_hand, reader, &mut self.newest));
    }

    /// The newest board that it has read or learnt.
    pub fn board(&self) -> &Board
        ensures board { result.now ≡ board_of (known self.now) }
        ensures version { result.now.version + 1 ≡ length (known self.now) }
        ensures live { HasLiveEpochs result.now }
    {
        &self.newest.board
    }

    /// The stamp of the current epoch of the newest board that it has read or learnt. It takes no memory and waits for
    /// nobody.
    pub fn stamp(&self) -> Stamp
        ensures { IsCurrent (known self.now) result }
    {
        self.newest.stamp.again()
    }
}
