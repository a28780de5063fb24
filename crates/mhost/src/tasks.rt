// SPDX-License-Identifier: Apache-2.0
// What a job names, and what it asks for.
ghost use Rattle.std.specs.Prelude.{◌≡◌, string_bytes, IfOk, IfErr};
ghost use Rattle.mhost.specs.Asked.{settings_path, store_named, IsTask, HasAccount, LacksAccount};
ghost use Rattle.mhost.specs.declared.fault.RunFault.TheVariants.{NoAccount};

use crate::fault::RunFault;
use mgrant::{AccountId, Settings};
use mjob::jobs::{Job, Store};

/// What is to be done in a world.
#[derive(Clone, Copy, Drop)]
pub enum Task {
    /// To answer a stream.
    Answer,
    /// To run a stream to its end, and to answer this account alone.
    Tell(AccountId),
    /// To serve connections at a port: the port, and how many.
    Serve(u16, u32),
}

/// The path of the settings.
pub fn settings_path(job: &Job) -> &str
    ensures { result.now ≡ settings_path job.now }
{
    match job {
        Job::Run { settings, .. } => settings.as_str(),
        Job::Serve { settings, .. } => settings.as_str(),
    }
}

/// The store that is named.
pub fn store_named(job: &Job) -> &Store
    ensures { result.now ≡ store_named job.now }
{
    match job {
        Job::Run { store, .. } => store,
        Job::Serve { store, .. } => store,
    }
}

/// What a job asks for, by these settings.
///
/// # Errors
///
/// `NoAccount` if it names an account that they do not have.
pub fn task_of(settings: &Settings, job: &Job) -> Result<Task, RunFault>
    ensures task { IfOk result (IsTask job.now settings.now) }
    ensures account { IfOk result (λ _. HasAccount job.now settings.now) }
    ensures err { IfErr result (λ fault. (fault ≡ NoAccount) × LacksAccount job.now settings.now) }
{
    match job {
        Job::Run { only: None, .. } => Ok(Task::Answer),
        Job::Run {
            only: Some(name),
            ..
        } => match settings.account_named(name.as_bytes()) {
            Some(account) => Ok(Task::Tell(account)),
            None => Err(RunFault::NoAccount),
        },
        Job::Serve {
            port,
            connections,
            ..
        } => Ok(Task::Serve(*port, *connections)),
    }
}
