// SPDX-License-Identifier: Apache-2.0
// The program, over any surroundings, any reader and two writers.
ghost use Rattle.std.specs.Prelude.{◌≡◌, false, map, string_bytes, IfSome, IsSomeAnd, IsTrue};
ghost use Rattle.sqlite.specs.WalFiles.{image_at};
ghost use Rattle.sqlite.specs.WalReads.{AreClean};
ghost use Rattle.mstore.specs.InFiles.{FindsTable, LeavesTable};
ghost use Rattle.mwire.specs.Watched.{failed_of};
ghost use Rattle.mhost.specs.Programs.{Ends, EndsOverSystem};

use crate::carrying_out::carry_out;
use crate::documents::Documents;
use crate::host::Host;
use crate::ports::Ports;
use crate::report::finish;
use crate::store_files::StoreFiles;
use crate::system::System;
use crate::system_stores::SystemStores;
use mcache::Cached;
use mfile::FileTable;
use mglobal::RoutineCache;
use mjob::command_line::job;
use mjob::refusal::refused;
use mmemory::Memory;
use mnodes::NodeStore;
use mstore::Table;
use mwire::Watched;
use sqlite_disk::{Disk, Start};
use sqlite_std_file::FileFrom;
use std::alloc::Global;
use std::io::{Read, Write};

/// Runs the program with these words, which come after its name on the command line, over the system's files and ports, and gives the exit
/// status: `program_over` says all of it. `S` stands for what the two files of the store that is named hold as they are opened, whatever
/// that is; `main` alone names one.
///
/// The condition: no call of the input or the output has failed yet.
pub fn program<S: Start, I: Read, O: Write, E: Write>(
    alloc: Global,
    host: &mut Host<System<'_>, SystemStores<'_, S>, System<'_>>,
    words: &[String],
    input: &mut Watched<I>,
    output: &mut Watched<O>,
    errors: &mut E,
) -> u8
    requires input_works { failed_of input.old ≡ false }
    requires output_works { failed_of output.old ≡ false }
    ensures { EndsOverSystem ⟦<RoutineCache<Cached<Table<Memory>>> as NodeStore>⟧ ⟦<RoutineCache<Cached<FileTable<S>>> as NodeStore>⟧ I.remaining O.contents
        (record {
          finds = FindsTable (image_at S.Start);
          clean = IsSomeAnd host.new.stores.closed (λ c. IsTrue c.alone × AreClean ⟦<FileFrom<S> as Disk>⟧ c.files.log c.files.db);
          leaves = λ globals. IfSome host.new.stores.closed (λ c. LeavesTable ⟦<FileFrom<S> as Disk>⟧ c.files globals);
        })
        (map string_bytes words.now) input.old input.new output.old output.new result }
{
    let mut errors = Watched::new(errors);
    program_over(alloc, host, words, input, output, &mut errors)
}

/// Runs the program with these words, which come after its name on the command line, over these surroundings, and gives the exit status.
///
/// 0: the job is done. 2: the words are refused or ask for help, and `errors` gets `clap`'s text, or there was no memory for them. 3, 4 and 5:
/// a fault of the settings, of the store and of the wire, in the order in which they are found; `errors` gets the line `mserve: ` and the
/// fault. A fault in writing to `errors` is passed over.
///
/// A job that serves connections asks the input and the output for nothing, nor are they asked for anything before a fault of the words, of
/// the settings or of the store is found.
///
/// The condition: no call of the input or the output has failed yet.
pub fn program_over<D: Documents, F: StoreFiles, P: Ports, I: Read, O: Write, E: Write>(
    alloc: Global,
    host: &mut Host<D, F, P>,
    words: &[String],
    input: &mut Watched<I>,
    output: &mut Watched<O>,
    errors: &mut Watched<E>,
) -> u8
    requires input_works { failed_of input.old ≡ false }
    requires output_works { failed_of output.old ≡ false }
    ensures { Ends ⟦<RoutineCache<Cached<Table<Memory>>> as NodeStore>⟧ ⟦<RoutineCache<Cached<F::Store>> as NodeStore>⟧ I.remaining O.contents
        (record { documents = D.tells; files = F.tells; ports = P.tells })
        (record {
          document = D.held host.old.documents;
          stored = F.held host.old.stores;
          ports = record {
            waiting = P.waiting host.old.ports;
            answered =
                P.answered host.old.ports;
          };
        })
        (record {
          document = D.held host.new.documents;
          stored = F.held host.new.stores;
          ports = record {
            waiting = P.waiting host.new.ports;
            answered =
                P.answered host.new.ports;
          };
        })
        (record { finds = F.finds host.old.stores; clean = F.clean host.new.stores; leaves = F.leaves host.new.stores })
        E.contents (map string_bytes words.now) input.old input.new output.old output.new errors.old errors.new result }
{
    let job = match job(alloc, words) {
        Ok(job) => job,
        Err(fault) => return refused(&fault, errors),
    };
    let outcome = carry_out(alloc, host, &job, input, output, errors);
    finish(&outcome, errors)
}
