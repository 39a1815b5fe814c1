//! Who makes the plans of a run of the program.
use crate::progress::Progress;
use ir_lookup::Row;
use ir_plan::{Crew, NodeText, Several, made_in_threads};
use std::alloc::{AllocError, Global};
use std::thread::Threads;

/// Several threads, of which the rows that are made are reported to the line of progress.
#[derive(Drop)]
pub struct Shown<'a, R> {
    pub several: Several<'a, R>,
    pub progress: &'a Progress<'a>,
}

impl<'a, R: Threads + Sync> Crew for Shown<'a, R> {
    type Shared = R;

    fn is_alone(&self) -> bool {
        self.several.is_alone()
    }

    fn rows(
        &self,
        alloc: Global,
        all: usize,
        count: usize,
        least: usize,
        make: &(dyn Fn(usize) -> Result<Vec<Row>, AllocError> + Sync),
    ) -> Result<Vec<Vec<Row>>, AllocError> {
        let progress = self.progress;
        made_in_threads(
            self.several.rt,
            alloc,
            self.several.most,
            count,
            least,
            |k: usize| -> Result<Vec<Row>, AllocError>
                requires { pre make.now k }
                ensures { post make.entry.now k result }
            {
                let rows = make(k);
                if let Ok(made) = &rows {
                    progress.rows_made(made.len(), all);
                }
                rows
            },
        )
    }

    fn lists(
        &self,
        alloc: Global,
        count: usize,
        least: usize,
        make: &(dyn Fn(usize) -> Result<Vec<u16>, AllocError> + Sync),
    ) -> Result<Vec<Vec<u16>>, AllocError> {
        self.several.lists(alloc, count, least, make)
    }

    fn texts(
        &self,
        alloc: Global,
        count: usize,
        least: usize,
        make: &(dyn Fn(usize) -> Result<Vec<u8>, AllocError> + Sync),
    ) -> Result<Vec<Vec<u8>>, AllocError> {
        self.several.texts(alloc, count, least, make)
    }

    fn node_texts(
        &self,
        alloc: Global,
        count: usize,
        least: usize,
        make: &(dyn Fn(usize) -> Result<NodeText, AllocError> + Sync),
    ) -> Result<Vec<NodeText>, AllocError> {
        self.several.node_texts(alloc, count, least, make)
    }
}
