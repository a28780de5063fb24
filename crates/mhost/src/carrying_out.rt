// SPDX-License-Identifier: Apache-2.0
// Jobs, carried out.
ghost use Rattle.std.specs.Prelude.{◌≡◌, false};
ghost use Rattle.mworld.specs.View.{settings_of};
ghost use Rattle.mwire.specs.Watched.{failed_of};
ghost use Rattle.mhost.specs.Asked.{IsQuiet, IsQuietTask};
ghost use Rattle.mhost.specs.Works.{Does};
ghost use Rattle.mhost.specs.Programs.{CarriesOut, InStore};

use crate::documents::Documents;
use crate::fault::RunFault;
use crate::host::Host;
use crate::only_job::run_only_job;
use crate::ports::Ports;
use crate::run::run_job;
use crate::serve_job::serve_job;
use crate::settings_document::{read_document, read_settings};
use crate::store_files::StoreFiles;
use crate::tasks::{Task, settings_path, store_named, task_of};
use crate::worlds::{file_world, memory_world, store_of};
use mcache::Cached;
use mglobal::RoutineCache;
use mgrant::Settings;
use mjob::jobs::{Job, Store};
use mmemory::Memory;
use mnodes::NodeStore;
use mstore::Table;
use mwire::Watched;
use mworld::World;
use std::alloc::Global;
use std::io::{Read, Write};

/// Carries a job out: by the settings of the document that it names, and over the store that it names.
///
/// # Errors
///
/// In this order: `Unread`, `Settings`, `NoAccount` and `Store`, before the input and the output are asked for anything; then `Listen` and
/// `Accept` of a job that serves connections, and `Wire` of the others.
///
/// The condition: no call of the input or the output has failed yet.
pub fn carry_out<D: Documents, F: StoreFiles, P: Ports, I: Read, O: Write, E: Write>(
    alloc: Global,
    host: &mut Host<D, F, P>,
    job: &Job,
    input: &mut Watched<I>,
    output: &mut Watched<O>,
    errors: &mut E,
) -> Result<(), RunFault>
    requires input_works { failed_of input.old ≡ false }
    requires output_works { failed_of output.old ≡ false }
    ensures carries { CarriesOut ⟦<RoutineCache<Cached<Table<Memory>>> as NodeStore>⟧ ⟦<RoutineCache<Cached<F::Store>> as NodeStore>⟧ I.remaining O.contents
        (record { documents = D.tells; files = F.tells; ports = P.tells })
        (record {
          document = D.held host.old.documents;
          stored = F.held host.old.stores;
          ports = record {
            waiting = P.waiting host.old.ports;
            answered =
                P.answered host.old.ports;
          };
        })
        (record {
          document = D.held host.new.documents;
          stored = F.held host.new.stores;
          ports = record {
            waiting = P.waiting host.new.ports;
            answered =
                P.answered host.new.ports;
          };
        })
        (record { finds = F.finds host.old.stores; clean = F.clean host.new.stores; leaves = F.leaves host.new.stores })
        job.now input.old input.new output.old output.new result }
    ensures quiet { IsQuiet job.now → errors.new ≡ errors.old }
{
    let document = match read_document(alloc, &mut host.documents, settings_path(job)) {
        Ok(document) => document,
        Err(fault) => return Err(fault),
    };
    let settings = match read_settings(alloc, document.as_slice()) {
        Ok(settings) => settings,
        Err(fault) => return Err(fault),
    };
    let task = match task_of(&settings, job) {
        Ok(task) => task,
        Err(fault) => return Err(fault),
    };
    in_store(
        alloc,
        &mut host.stores,
        &mut host.ports,
        store_named(job),
        settings,
        task,
        input,
        output,
        errors,
    )
}

// Does what is asked for in a world over the store that is named.
fn in_store<F: StoreFiles, P: Ports, I: Read, O: Write, E: Write>(
    alloc: Global,
    files: &mut F,
    ports: &mut P,
    store: &Store,
    settings: Settings,
    task: Task,
    input: &mut Watched<I>,
    output: &mut Watched<O>,
    errors: &mut E,
) -> Result<(), RunFault>
    requires input_works { failed_of input.old ≡ false }
    requires output_works { failed_of output.old ≡ false }
    ensures works { InStore ⟦<RoutineCache<Cached<Table<Memory>>> as NodeStore>⟧ ⟦<RoutineCache<Cached<F::Store>> as NodeStore>⟧ I.remaining O.contents
        F.tells (F.held files.old) (F.held files.new) (record { finds = F.finds files.old; clean = F.clean files.new; leaves = F.leaves files.new }) P.tells
        (record { waiting = P.waiting ports.old; answered = P.answered ports.old })
        (record { waiting = P.waiting ports.new; answered = P.answered ports.new }) store.now settings task input.old input.new output.old output.new result }
    ensures quiet { IsQuietTask task → errors.new ≡ errors.old }
{
    match store {
        Store::Memory => match memory_world(alloc, settings) {
            Ok(mut world) => in_world(alloc, &mut world, ports, task, input, output, errors),
            Err(fault) => Err(fault),
        },
        Store::File(path) => {
            let path = path.as_str();
            match file_world(alloc, files, path, settings) {
                Ok(mut world) => {
                    let outcome = in_world(alloc, &mut world, ports, task, input, output, errors);
                    files.close(path, store_of(world.into_store()));
                    outcome
                }
                Err(fault) => Err(fault),
            }
        }
    }
}

// Does it in this world.
fn in_world<S: NodeStore, P: Ports, I: Read, O: Write, E: Write>(
    alloc: Global,
    world: &mut World<S>,
    ports: &mut P,
    task: Task,
    input: &mut Watched<I>,
    output: &mut Watched<O>,
    errors: &mut E,
) -> Result<(), RunFault>
    requires input_works { failed_of input.old ≡ false }
    requires output_works { failed_of output.old ≡ false }
    ensures does { Does S.NodeStore world.old world.new I.remaining O.contents P.tells
        (record { waiting = P.waiting ports.old; answered = P.answered ports.old })
        (record { waiting = P.waiting ports.new; answered = P.answered ports.new }) input.old input.new output.old output.new task result }
    ensures settings { settings_of world.new ≡ settings_of world.old }
    ensures quiet { IsQuietTask task → errors.new ≡ errors.old }
{
    match task {
        Task::Answer => run_job(alloc, world, input, output),
        Task::Tell(account) => run_only_job(alloc, world, account, input, output),
        Task::Serve(port, connections) => {
            serve_job(alloc, world, ports, port, connections, errors)
        }
    }
}
