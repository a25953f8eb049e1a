// Room for the lines of a log, taken once.
ghost use Rattle.std.specs.Prelude.{◌≡◌, ◌≤◌, ◌+◌, ◌*◌, ◌++◌, ◌∷◌, [], length, IfOk, vec_len, vec_capacity};
ghost use Rattle.visa_io.specs.Puts.{Puts};

use crate::task::Task;
use std::alloc::{AllocError, Global};
use std::marker::Model;
use visa_io::{Sink, SinkFailed};

/// The line of a log that is being written. It takes no memory as it grows, up to its room.
#[derive(Debug, Drop)]
pub struct LineRoom {
    line: Vec<u8>,
    // in bytes
    room: usize,
}

impl Model for LineRoom {
    ghost use Rattle.std.specs.Prelude.{length, vec_capacity, ◌≤◌, ◌≡◌};
    ghost use Rattle.task_text.specs.LineRooms.{Roomed};

    ghost Value = { Roomed };

    ghost view = { λ room. record { line = room.line.items; room = room.room } };

    ghost invariant = { λ room. (length room.line.items ≤ room.room) × (vec_capacity room.line ≡ room.room) };
}

impl LineRoom {
    /// Room for each line of a log of a task's jobs: 1024 bytes, and nine for each word of the greatest output.
    pub fn new(alloc: Global, task: &Task) -> Result<LineRoom, AllocError>
        ensures { IfOk result (λ r. r ≡ record { line = []; room = 1024 + 9 * task.now.out_max }) }
    {
        let room = 1024 + 9 * task.out_max as usize;
        let line = Vec::with_capacity(alloc, room)?;
        Ok(LineRoom { line, room })
    }

    /// Empties the line. Takes no memory.
    pub fn clear(&mut self)
        ensures line { self.new.line ≡ [] }
        ensures room { self.new.room ≡ self.old.room }
    {
        self.line.clear();
    }

    /// Appends a piece. Takes no memory.
    pub fn add(&mut self, piece: &[u8])
        requires { length self.old.line + length piece.now ≤ self.old.room }
        ensures line { self.new.line ≡ self.old.line ++ piece.now }
        ensures len { length self.new.line ≡ length self.old.line + length piece.now }
        ensures room { self.new.room ≡ self.old.room }
    {
        append(&mut self.line, piece);
    }

    /// Puts the line by one put. Takes no memory.
    #[tactic(auto, using(visa_io::proofs::PutLaws::puts_piece))]
    pub fn put<S: Sink>(&self, sink: &mut S) -> Result<(), SinkFailed>
        ensures { Puts (S.taken sink.old) (S.taken sink.new) (self.now.line ∷ []) result }
    {
        sink.put(self.line())
    }

    /// The line. Takes no memory.
    pub fn line(&self) -> &[u8]
        ensures { result.now ≡ self.now.line }
    {
        self.line.as_slice()
    }
}

// Appends within the capacity, which stays.
fn append(line: &mut Vec<u8>, piece: &[u8])
    requires { vec_len line.old + length piece.now ≤ vec_capacity line.old }
    ensures items { line.new.items ≡ line.old.items ++ piece.now }
    ensures len { vec_len line.new ≡ vec_len line.old + length piece.now }
    ensures capacity { vec_capacity line.new ≡ vec_capacity line.old }
{
    for byte in piece {
        line.push_reserved(*byte);
    }
}
