// SPDX-License-Identifier: Apache-2.0
// A table in a file.
ghost use Rattle.std.specs.Prelude.{◌≡◌, Err, IfOk, IsTrue, codes};
ghost use Rattle.sqlite.specs.WalFiles.{image_at};
ghost use Rattle.sqlite.specs.WalReads.{AreClean};
ghost use Rattle.mstore.specs.InFiles.{FindsTable, LeavesTable};
ghost use Rattle.mstore.specs.declared.open_fault.OpenFault.TheVariants.{Store};

use crate::closed_files::ClosedFiles;
use mnodes::NodeStore;
use mstore::{OpenFault, Table};
use sqlite::Error;
use sqlite_disk::{Disk, Start};
use sqlite_std_file::FileFrom;
use sqlite_store::FileStore;
use std::rt::HostRuntime;

/// A table in a file. `S` stands for what the files hold as they are opened.
pub type FileTable<S> = Table<FileStore<FileFrom<S>>>;

/// The table in a file, as by `Table::open_file`.
///
/// # Errors
///
/// Those of `Table::open_file`.
pub fn open_table<S: Start>(
    rt: &HostRuntime,
    path: &str,
    start: S,
) -> Result<FileTable<S>, OpenFault>
    ensures memory { path.now ≡ codes ":memory:" → result ≡ Err Store }
    ensures found { IfOk result (λ t. ⟦<FileTable<S> as NodeStore>⟧.doubt t ≡ 0 → FindsTable (image_at S.Start) (⟦<FileTable<S> as NodeStore>⟧.content t)) }
{
    match Table::open_file(rt, path, start) {
        Ok(table) => Ok(table),
        Err(fault) => Err(fault),
    }
}

/// Ends the table: the log of its database is copied into the file. If that fails, the log beside the file has what the file
/// lacks, and the next opening finds it.
///
/// # Errors
///
/// What the file refuses, and out of memory.
pub fn close_table<S: Start>(table: FileTable<S>) -> Result<ClosedFiles<S>, Error>
    ensures left { IfOk result (λ closed. IsTrue closed.alone → AreClean ⟦<FileFrom<S> as Disk>⟧ closed.files.log closed.files.db
        → LeavesTable ⟦<FileFrom<S> as Disk>⟧ closed.files (⟦<FileTable<S> as NodeStore>⟧.content table)) }
    ensures sure { IfOk result (λ closed. IsTrue closed.alone → AreClean ⟦<FileFrom<S> as Disk>⟧ closed.files.log closed.files.db
        → ⟦<FileTable<S> as NodeStore>⟧.doubt table ≡ 0) }
{
    let alone = table.is_alone();
    match table.close_file() {
        Ok(files) => Ok(ClosedFiles { files, alone }),
        Err(error) => Err(error),
    }
}
