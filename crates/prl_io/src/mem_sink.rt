//! A sink in memory.

ghost use Rattle.std.specs.Prelude.{◌≡◌, ◌<◌, ◌≤◌, Some, Ok, IfOk, length};

use super::mentions::Mentions;
use super::numbering::Calls;
use super::writing::{Failed, Sink};
use std::alloc::{AllocError, Global};
use std::marker::Model;

/// A sink in memory, whose bytes are known. It has room for a number of bytes, and each write takes
/// at most `most` of them. The writes are numbered from 0; those whose number is listed fail, as does
/// a write into a full room, and are counted. Contracts see a `MemStore`.
pub struct MemSink {
    bytes: Vec<u8>,
    room: u64,
    most: u64,
    calls: Calls,
    failed: Mentions,
}

impl Model for MemSink {
    ghost use Rattle.std.specs.Prelude.{◌≤◌, length, vec_capacity, vec_len};
    ghost use Rattle.prl_io.specs.MemStores.{MemStore};

    ghost Value = { MemStore };

    ghost view = { λ m. record {
      bytes = m.bytes.items;
      room = m.room;
      most = m.most;
      fails = m.calls.fails.items;
      next = m.calls.next;
      faults = length m.failed.all;
    } };

    ghost invariant = { λ m. (m.room ≤ vec_capacity m.bytes) × (vec_len m.bytes ≤ m.room) × (1 ≤ m.most) };
}

impl MemSink {
    ghost use Rattle.prl_io.specs.MemStores.{empty_store};

    /// A sink with this room, of which each write takes at most `most` bytes.
    pub fn new(alloc: Global, room: u64, most: u64, fails: Vec<u64>) -> Result<MemSink, AllocError>
        requires { 1 ≤ most }
        ensures { IfOk result (λ sink. sink ≡ empty_store room most fails.items) }
    {
        Ok(MemSink {
            bytes: Vec::with_capacity(alloc, room as usize)?,
            room,
            most,
            calls: Calls::new(fails),
            failed: Mentions::new(),
        })
    }

    /// The bytes that were written.
    pub fn bytes(&self) -> &[u8]
        ensures { result.now ≡ self.now.bytes }
    {
        self.bytes.as_slice()
    }
}

impl Sink for MemSink {
    ghost use Rattle.prl_io.specs.MemStores.{write_in, after_write};

    ghost seen = { λ m. record { written = Some m.bytes; faults = m.faults } };

    fn write(&mut self, piece: &[u8]) -> Result<usize, Failed>
        ensures answer { result ≡ write_in self.old piece.now }
        ensures state { self.new ≡ after_write self.old piece.now }
        ensures moves { result ≡ Ok 0 → length piece.now ≡ 0 }
    {
        let left = self.room - self.bytes.len() as u64;
        if self.calls.fails_now() || left == 0 {
            self.failed = Mentions::one_more(&self.failed, piece);
            return Err(Failed);
        }
        let count = self.most.min(left).min(piece.len() as u64) as usize;
        match self.bytes.extend_from_slice(&piece[..count]) {
            Ok(()) => Ok(count),
            Err(_) => unreachable!(),
        }
    }
}

impl Drop for MemSink {
    fn drop(self) {
        let MemSink {
            bytes,
            room: _,
            most: _,
            calls,
            failed,
        } = self;
        drop(bytes);
        drop(calls);
        drop(failed);
    }
}
