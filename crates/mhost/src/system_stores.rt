// SPDX-License-Identifier: Apache-2.0
// The files of a store, as the system has them.
ghost use Rattle.std.specs.Prelude.{None, IfSome, IsSomeAnd, IsTrue};
ghost use Rattle.sqlite.specs.WalFiles.{image_at};
ghost use Rattle.sqlite.specs.WalReads.{AreClean};
ghost use Rattle.mstore.specs.InFiles.{FindsTable, LeavesTable};

use crate::store_files::StoreFiles;
use mfile::{ClosedFiles, FileTable, close_table, open_table};
use mstore::OpenFault;
use sqlite_disk::{Disk, Start};
use sqlite_std_file::FileFrom;
use std::alloc::Global;

/// The two files of one store: what stands for what they hold, until they are opened; and the files, once the store is closed.
pub struct SystemStores<'a, S: Start> {
    rt: &'a HostRuntime,
    start: Option<S>,
    pub closed: Option<ClosedFiles<S>>,
}

// Written out, so that dropping it is one call, which is proved once.
impl<S: Start> Drop for SystemStores<'_, S> {
    fn drop(self) {
        let SystemStores {
            rt: _,
            start: _,
            closed: _,
        } = self;
    }
}

impl<S: Start> SystemStores<'_, S> {
    /// None is opened yet.
    pub fn new(rt: &HostRuntime, start: S) -> SystemStores<'_, S> {
        SystemStores {
            rt,
            start: Some(start),
            closed: None,
        }
    }
}

impl<S: Start> StoreFiles for SystemStores<'_, S> {
    type Store = FileTable<S>;

    ghost tells = { ⊥ };

    ghost held = { λ _ _. None };

    ghost lent = { λ _ _. Unit };

    ghost finds = { λ _. FindsTable (image_at S.Start) };

    ghost clean = { λ s. IsSomeAnd s.closed (λ c. IsTrue c.alone × AreClean ⟦<FileFrom<S> as Disk>⟧ c.files.log c.files.db) };

    ghost leaves = { λ s globals. IfSome s.closed (λ c. LeavesTable ⟦<FileFrom<S> as Disk>⟧ c.files globals) };

    // A run opens one store. A second opening, of which nothing could be said, is refused.
    fn open(&mut self, _alloc: Global, path: &str) -> Result<FileTable<S>, OpenFault> {
        match self.start.take() {
            Some(start) => open_table(self.rt, path, start),
            None => Err(OpenFault::Store),
        }
    }

    // A fault of closing is passed over: the log beside the file then has what the file lacks, and the next opening finds it.
    fn close(&mut self, _path: &str, store: FileTable<S>) {
        self.closed = match close_table(store) {
            Ok(closed) => Some(closed),
            Err(_) => None,
        };
    }
}
