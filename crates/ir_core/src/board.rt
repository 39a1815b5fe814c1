ghost use Rattle.std.specs.Prelude.{◌≡◌, ◌<◌, ◌≤◌, IfOk, length, take};
ghost use Rattle.ir_core.specs.declared.TheConstants.{MAX_LINKS, MAX_CHANGES};
ghost use Rattle.ir_core.specs.Board.{opening_board, is_link_up, is_heeded, links_used, marked, heeding, retired_below, installed};
ghost use Rattle.ir_core.specs.Refusals.{change_refused, retire_refused, mark_refused, heed_refused, install_refused};
ghost use Rattle.ir_core.specs.{declared.board.Board.Board, Kept.{kept_board, IsKeptBoard}};

use crate::event::Refused;
use crate::marks::Marks;
use crate::{MAX_CHANGES, MAX_EPOCHS};
use std::alloc::{AllocError, Global};
use std::marker::Model;

/// The published board of one version: which epochs are live, which links are up, and which of them
/// installs heed.
#[derive(Clone, Copy, Debug, PartialEq, Eq)]
pub struct Board {
    version: u32,
    current: u32,
    floor: u32,
    up: Marks,
    heeded: Marks,
}

impl Board {
    /// The board before any change: version 0, epoch 1 current and live, all links up and heeded.
    pub fn opening() -> Board
        ensures { result ≡ opening_board }
    {
        Board {
            version: 0,
            current: 1,
            floor: 1,
            up: Marks::all_up(),
            heeded: Marks::all_up(),
        }
    }

    /// How many changes were made.
    pub fn version(&self) -> u32
        ensures { result ≡ self.now.version }
    {
        self.version
    }

    /// The newest epoch.
    pub fn current(&self) -> u32
        ensures { result ≡ self.now.current }
    {
        self.current
    }

    /// The least epoch that is live; those below it are retired.
    pub fn floor(&self) -> u32
        ensures { result ≡ self.now.floor }
    {
        self.floor
    }

    /// Whether a link is up; true where the number is no link.
    pub fn is_up(&self, link: u32) -> bool
        ensures { result ≡ is_link_up self.now link }
    {
        self.up.is_up(link as usize)
    }

    /// Whether installs heed a link; true where the number is no link.
    pub fn is_heeded(&self, link: u32) -> bool
        ensures { result ≡ is_heeded self.now link }
    {
        self.heeded.is_up(link as usize)
    }

    /// A mark for each of the first links, up or down. Takes O(l), for l links.
    pub fn marks(&self, alloc: Global, links: usize) -> Result<Vec<bool>, AllocError>
        requires { links ≤ MAX_LINKS }
        ensures marks { IfOk result (λ v. v.items ≡ take links self.now.up) }
        ensures count { IfOk result (λ v. length v.items ≡ links) }
    {
        self.up.first(alloc, links)
    }

    /// For each of the first links whether an install uses it: it is up and heeded. Takes O(l), for
    /// l links.
    pub fn used(&self, alloc: Global, links: usize) -> Result<Vec<bool>, AllocError>
        requires { links ≤ MAX_LINKS }
        ensures marks { IfOk result (λ v. v.items ≡ links_used self.now links) }
        ensures count { IfOk result (λ v. length v.items ≡ links) }
    {
        self.up.first_of_both(&self.heeded, alloc, links)
    }

    /// The next board, with one link marked up or down.
    pub fn marked(&self, link: u32, up: bool) -> Board
        requires link_in { link < MAX_LINKS }
        requires room { self.now.version < MAX_CHANGES }
        ensures { result ≡ marked self.now link up }
    {
        let mut next = *self;
        next.version += 1;
        next.up.mark(link as usize, up);
        next
    }

    /// The next board, whose installs heed one link or avoid it. Packets may go by it all the same.
    pub fn heeding(&self, link: u32, heed: bool) -> Board
        requires link_in { link < MAX_LINKS }
        requires room { self.now.version < MAX_CHANGES }
        ensures { result ≡ heeding self.now link heed }
    {
        let mut next = *self;
        next.version += 1;
        next.heeded.mark(link as usize, heed);
        next
    }

    /// The next board, with this epoch as the current one.
    pub fn installed(&self, epoch: u32) -> Board
        requires { self.now.version < MAX_CHANGES }
        ensures { result ≡ installed self.now epoch }
    {
        let mut next = *self;
        next.version += 1;
        next.current = epoch;
        next
    }

    /// The next board, with the epochs below a floor retired.
    pub fn retired_below(&self, floor: u32) -> Board
        requires { self.now.version < MAX_CHANGES }
        ensures { result ≡ retired_below self.now floor }
    {
        let mut next = *self;
        next.version += 1;
        next.floor = floor;
        next
    }

    /// Why a floor is refused: it is above the current epoch (`NoEpoch`), it is not above the
    /// present floor (`Same`), or the change is one too many, in this order.
    pub fn retire_refusal(&self, floor: u32) -> Option<Refused>
        ensures { result ≡ retire_refused self.now floor }
    {
        if self.current < floor {
            return Some(Refused::NoEpoch);
        }
        if floor <= self.floor {
            return Some(Refused::Same);
        }
        self.change_refusal()
    }

    /// Why a mark of one of so many links is refused: the number is no link, the link is marked so already (`Same`), or
    /// the change is one too many, in this order.
    pub fn mark_refusal(&self, links: usize, link: u32, up: bool) -> Option<Refused>
        ensures { result ≡ mark_refused links self.now link up }
    {
        if link as usize >= links {
            return Some(Refused::NoLink);
        }
        if self.is_up(link) == up {
            return Some(Refused::Same);
        }
        self.change_refusal()
    }

    /// Why installs do not heed one of so many links, or do not avoid it: the number is no link, one to
    /// avoid is down (`LinkDown`), the link is heeded or avoided already (`Same`), or the change is
    /// one too many, in this order.
    pub fn heed_refusal(&self, links: usize, link: u32, heed: bool) -> Option<Refused>
        ensures { result ≡ heed_refused links self.now link heed }
    {
        if link as usize >= links {
            return Some(Refused::NoLink);
        }
        if !heed && !self.is_up(link) {
            return Some(Refused::LinkDown);
        }
        if self.is_heeded(link) == heed {
            return Some(Refused::Same);
        }
        self.change_refusal()
    }

    /// Why an install over so many nodes, where so many epochs are used up, is refused before any
    /// plan is made. The reasons are, in this order: the root is no node, no epoch is left, the
    /// change is one too many.
    pub fn install_refusal(&self, nodes: usize, epochs: usize, root: u16) -> Option<Refused>
        ensures { result ≡ install_refused nodes epochs self.now root }
    {
        if root as usize >= nodes {
            return Some(Refused::NoNode);
        }
        if epochs >= MAX_EPOCHS {
            return Some(Refused::EpochsFull);
        }
        self.change_refusal()
    }

    fn change_refusal(&self) -> Option<Refused>
        ensures { result ≡ change_refused self.now }
    {
        if self.version >= MAX_CHANGES {
            return Some(Refused::TooManyChanges);
        }
        None
    }
}

/// A board as a world keeps it: its marks take words up to the last link that is down, and no more,
/// and so up to the last one that is avoided.
#[derive(Drop)]
pub struct KeptBoard {
    version: u32,
    epoch: u32,
    floor: u32,
    words: Vec<u64>,
    heeded: Vec<u64>,
}

impl Model for KeptBoard {
    ghost Value = { Board };

    ghost view = { kept_board };

    ghost invariant = { IsKeptBoard };
}

impl KeptBoard {
    /// Keeps a board. It is refused for memory alone.
    pub(crate) fn new(alloc: Global, board: &Board) -> Result<KeptBoard, AllocError>
        ensures { IfOk result (λ kept. kept ≡ board.now) }
    {
        let words = board.up.to_words(alloc)?;
        let heeded = board.heeded.to_words(alloc)?;
        Ok(KeptBoard {
            version: board.version,
            epoch: board.current,
            floor: board.floor,
            words,
            heeded,
        })
    }

    /// The board.
    pub fn board(&self) -> Board
        ensures { result ≡ self.now }
    {
        Board {
            version: self.version,
            current: self.epoch,
            floor: self.floor,
            up: Marks::from_words(self.words.as_slice()),
            heeded: Marks::from_words(self.heeded.as_slice()),
        }
    }

    /// The board's current epoch.
    pub(crate) fn current(&self) -> u32
        ensures { result ≡ self.now.current }
    {
        self.epoch
    }
}
