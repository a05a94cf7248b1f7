//! The registers of sessions.

ghost use Rattle.std.specs.Prelude.{◌≡◌, ◌≤◌, ◌-◌, Some, length, slice_set};
ghost use Rattle.ol_engine.specs.Parts.{registers_of};
ghost use Rattle.ol_txn.specs.Seats.{IsSession};
ghost use Rattle.ol_turns.specs.Cores.{no_registers};

use ol_values::Rid;
use std::marker::Model;

/// The registers r0 to r9 of each of the 16 sessions: the place of a row, or none.
#[derive(Drop)]
pub struct Registers {
    sessions: [[Option<Rid>; 10]; 16],
}

impl Model for Registers {
    ghost use Rattle.std.specs.Prelude.{List, Option};
    ghost use Rattle.ol_values.specs.declared.record.Rid.{Rid};

    ghost Value = { List (List (Option Rid)) };

    ghost view = { λ r. r.sessions };
}

impl Registers {
    /// All are empty.
    pub fn new() -> Registers
        ensures { result ≡ no_registers }
    {
        Registers {
            sessions: [[None; 10]; 16],
        }
    }

    /// Those of a session, from 1 to 16.
    pub fn of(&self, session: u8) -> &[Option<Rid>; 10]
        requires { IsSession session }
        ensures value { result.now ≡ registers_of self.now session }
        ensures sessions { length self.now ≡ 16 }
    {
        &self.sessions[usize::from(session) - 1]
    }

    /// A session's register, from 0 to 9, holds a place from now on.
    pub fn set(&mut self, session: u8, register: u8, rid: Rid)
        requires session { IsSession session }
        requires register { register ≤ 9 }
        ensures { self.new ≡ slice_set self.old (session - 1) (slice_set (registers_of self.old session) register (Some rid)) }
    {
        self.sessions[usize::from(session) - 1][usize::from(register)] = Some(rid);
    }
}
