// SPDX-License-Identifier: Apache-2.0
// Peers in memory.
ghost use Rattle.std.specs.Prelude.{◌≡◌, ◌+◌, ◌<◌, ◌≤◌, [], map, IfOk, vec_len, vec_capacity};
ghost use Rattle.std.specs.VecDeque.{deque_len};

use crate::fault::AcceptFault;
use crate::listener::Listener;
use std::alloc::{AllocError, Global};
use std::collections::VecDeque;
use std::io::Cursor;

/// Peers in memory, who connect one after another: what each peer that still waits sends, and what each peer that went was answered.
pub struct Peers {
    alloc: Global,
    waiting: VecDeque<Vec<u8>>,
    answered: Vec<Vec<u8>>,
    ghost room: { vec_len answered + deque_len waiting ≤ vec_capacity answered },
}

// Written out, so that dropping it is one call, which is proved once.
impl Drop for Peers {
    fn drop(self) {
        let Peers {
            alloc: _,
            waiting: _,
            answered: _,
        } = self;
    }
}

impl Peers {
    /// Peers who send these bytes, one after another.
    ///
    /// # Errors
    ///
    /// Out of memory for their answers.
    pub fn new(alloc: Global, waiting: VecDeque<Vec<u8>>) -> Result<Peers, AllocError>
        ensures waiting { IfOk result (λ peers. ⟦<Peers as Listener>⟧.waiting peers ≡ map (λ sent. sent.items) waiting.items) }
        ensures answered { IfOk result (λ peers. ⟦<Peers as Listener>⟧.answered peers ≡ []) }
    {
        let answered = Vec::with_capacity(alloc, waiting.len())?;
        Ok(Peers {
            alloc,
            waiting,
            answered,
        })
    }

    /// What each peer that went was answered. Takes no memory.
    pub fn answers(&self) -> &[Vec<u8>]
        ensures { map (λ bytes. bytes.items) result.now ≡ ⟦<Peers as Listener>⟧.answered self.now }
    {
        &self.answered
    }
}

impl Listener for Peers {
    type Reader = Cursor<Vec<u8>>;

    type Writer = Vec<u8>;

    ghost tells = { Unit };

    ghost waiting = { λ peers. map (λ sent. sent.items) peers.waiting.items };

    ghost answered = { λ peers. map (λ bytes. bytes.items) peers.answered.items };

    ghost occupied = { λ peers. vec_len peers.answered + deque_len peers.waiting < vec_capacity peers.answered };

    fn accept(&mut self) -> Result<(Cursor<Vec<u8>>, Vec<u8>), AcceptFault> {
        match self.waiting.pop_front() {
            Some(sent) => Ok((Cursor::new(sent), Vec::new(self.alloc))),
            None => Err(AcceptFault),
        }
    }

    fn close(&mut self, _reader: Cursor<Vec<u8>>, writer: Vec<u8>) {
        // there is space, since the answers of those who wait have space too
        let _ = self.answered.push(writer);
    }
}
