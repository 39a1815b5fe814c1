//! Who makes what may be made in several threads: the thread that calls, or several.

ghost use Rattle.std.specs.Prelude.{ℕ, ◌<◌, IfOk, Ok, map};
ghost use Rattle.std.specs.List.{AllZip, range_with_len};
ghost use Rattle.ir_plan.specs.Crew.{MayBeShared};

use crate::making::{made_alone, made_in_threads};
use ir_lookup::Row;
use std::alloc::{AllocError, Global};
use std::thread::Threads;

/// Who makes what may be made in several threads. Each call makes something for each number below
/// `count`, by number, and gives at least `least` to a thread; it is refused where a growth is
/// refused in any of them. All crews make the same.
pub trait Crew {
    /// What its threads share.
    type Shared: Sync;

    /// Whether nothing is made but by the thread that calls.
    fn is_alone(&self) -> bool;

    /// Rows of a plan that has `all` rows.
    fn rows(
        &self,
        alloc: Global,
        all: usize,
        count: usize,
        least: usize,
        make: &(dyn Fn(usize) -> Result<Vec<Row>, AllocError> + Sync),
    ) -> Result<Vec<Vec<Row>>, AllocError>
        requires shared { MayBeShared Self.Shared.row }
        requires each { (k : ℕ) → k < count → pre make.now k }
        ensures { IfOk result (λ made. AllZip (post make.now) (range_with_len 0 count) (map Ok made.items)) };

    /// Lists of numbers.
    fn lists(
        &self,
        alloc: Global,
        count: usize,
        least: usize,
        make: &(dyn Fn(usize) -> Result<Vec<u16>, AllocError> + Sync),
    ) -> Result<Vec<Vec<u16>>, AllocError>
        requires shared { MayBeShared Self.Shared.row }
        requires each { (k : ℕ) → k < count → pre make.now k }
        ensures { IfOk result (λ made. AllZip (post make.now) (range_with_len 0 count) (map Ok made.items)) };

    /// Texts.
    fn texts(
        &self,
        alloc: Global,
        count: usize,
        least: usize,
        make: &(dyn Fn(usize) -> Result<Vec<u8>, AllocError> + Sync),
    ) -> Result<Vec<Vec<u8>>, AllocError>
        requires shared { MayBeShared Self.Shared.row }
        requires each { (k : ℕ) → k < count → pre make.now k }
        ensures { IfOk result (λ made. AllZip (post make.now) (range_with_len 0 count) (map Ok made.items)) };

    /// Texts of nodes.
    fn node_texts(
        &self,
        alloc: Global,
        count: usize,
        least: usize,
        make: &(dyn Fn(usize) -> Result<NodeText, AllocError> + Sync),
    ) -> Result<Vec<NodeText>, AllocError>
        requires shared { MayBeShared Self.Shared.row }
        requires each { (k : ℕ) → k < count → pre make.now k }
        ensures { IfOk result (λ made. AllZip (post make.now) (range_with_len 0 count) (map Ok made.items)) };
}

/// The text of a node, and how many lines it stands for.
#[derive(Drop)]
pub struct NodeText {
    pub text: String,
    pub lines: usize,
}

/// The thread that calls, alone: no other is started.
#[derive(Drop)]
pub struct Alone;

/// Several threads, started by a runtime: at most `most`, or as many as suit the processors where
/// it is None; where none can be started, the thread that calls.
#[derive(Drop)]
pub struct Several<'a, R> {
    pub rt: &'a R,
    pub most: Option<usize>,
}

impl Crew for Alone {
    type Shared = ();

    fn is_alone(&self) -> bool {
        true
    }

    fn rows(
        &self,
        alloc: Global,
        _all: usize,
        count: usize,
        _least: usize,
        make: &(dyn Fn(usize) -> Result<Vec<Row>, AllocError> + Sync),
    ) -> Result<Vec<Vec<Row>>, AllocError> {
        made_alone(
            alloc,
            count,
            |k: usize| -> Result<Vec<Row>, AllocError>
                requires { pre make.now k }
                ensures { post make.entry.now k result }
            { make(k) },
        )
    }

    fn lists(
        &self,
        alloc: Global,
        count: usize,
        _least: usize,
        make: &(dyn Fn(usize) -> Result<Vec<u16>, AllocError> + Sync),
    ) -> Result<Vec<Vec<u16>>, AllocError> {
        made_alone(
            alloc,
            count,
            |k: usize| -> Result<Vec<u16>, AllocError>
                requires { pre make.now k }
                ensures { post make.entry.now k result }
            { make(k) },
        )
    }

    fn texts(
        &self,
        alloc: Global,
        count: usize,
        _least: usize,
        make: &(dyn Fn(usize) -> Result<Vec<u8>, AllocError> + Sync),
    ) -> Result<Vec<Vec<u8>>, AllocError> {
        made_alone(
            alloc,
            count,
            |k: usize| -> Result<Vec<u8>, AllocError>
                requires { pre make.now k }
                ensures { post make.entry.now k result }
            { make(k) },
        )
    }

    fn node_texts(
        &self,
        alloc: Global,
        count: usize,
        _least: usize,
        make: &(dyn Fn(usize) -> Result<NodeText, AllocError> + Sync),
    ) -> Result<Vec<NodeText>, AllocError> {
        made_alone(
            alloc,
            count,
            |k: usize| -> Result<NodeText, AllocError>
                requires { pre make.now k }
                ensures { post make.entry.now k result }
            { make(k) },
        )
    }
}

impl<'a, R: Threads + Sync> Crew for Several<'a, R> {
    type Shared = R;

    fn is_alone(&self) -> bool {
        self.most == Some(1)
    }

    fn rows(
        &self,
        alloc: Global,
        _all: usize,
        count: usize,
        least: usize,
        make: &(dyn Fn(usize) -> Result<Vec<Row>, AllocError> + Sync),
    ) -> Result<Vec<Vec<Row>>, AllocError> {
        made_in_threads(
            self.rt,
            alloc,
            self.most,
            count,
            least,
            |k: usize| -> Result<Vec<Row>, AllocError>
                requires { pre make.now k }
                ensures { post make.entry.now k result }
            { make(k) },
        )
    }

    fn lists(
        &self,
        alloc: Global,
        count: usize,
        least: usize,
        make: &(dyn Fn(usize) -> Result<Vec<u16>, AllocError> + Sync),
    ) -> Result<Vec<Vec<u16>>, AllocError> {
        made_in_threads(
            self.rt,
            alloc,
            self.most,
            count,
            least,
            |k: usize| -> Result<Vec<u16>, AllocError>
                requires { pre make.now k }
                ensures { post make.entry.now k result }
            { make(k) },
        )
    }

    fn texts(
        &self,
        alloc: Global,
        count: usize,
        least: usize,
        make: &(dyn Fn(usize) -> Result<Vec<u8>, AllocError> + Sync),
    ) -> Result<Vec<Vec<u8>>, AllocError> {
        made_in_threads(
            self.rt,
            alloc,
            self.most,
            count,
            least,
            |k: usize| -> Result<Vec<u8>, AllocError>
                requires { pre make.now k }
                ensures { post make.entry.now k result }
            { make(k) },
        )
    }

    fn node_texts(
        &self,
        alloc: Global,
        count: usize,
        least: usize,
        make: &(dyn Fn(usize) -> Result<NodeText, AllocError> + Sync),
    ) -> Result<Vec<NodeText>, AllocError> {
        made_in_threads(
            self.rt,
            alloc,
            self.most,
            count,
            least,
            |k: usize| -> Result<NodeText, AllocError>
                requires { pre make.now k }
                ensures { post make.entry.now k result }
            { make(k) },
        )
    }
}
