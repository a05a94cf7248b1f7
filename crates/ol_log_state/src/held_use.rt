//! One use of a log file, with the heads of its written pages.

ghost use Rattle.std.specs.List.{find};
ghost use Rattle.std.specs.Prelude.{◌≡◌, ◌≤◌, ◌<◌, ◌^◌, ◌+◌, ◌-◌, ◌++◌, ◌∷◌, [], IfOk, None, OnErr, OnOk, Option, Some, false, length, max};
ghost use Rattle.ol_rules.specs.Ring.{first_position, last_position, last_range};
ghost use Rattle.ol_log_state.specs.Uses.{closed_use, emptied, fresh, head_holds, pushed, use_of, with_head};
ghost use Rattle.ol_log_places.specs.Heads.{IsUniq, IsWritten};

use crate::NoMemory;
use ol_record::LogHead;
use std::alloc::Global;
use std::marker::Model;

/// One use of a log file: its unique number, the heads of its written pages in the order of their
/// writing, and whether it was closed by a switch.
#[derive(Drop)]
pub struct UseHeads {
    uniq: u64,
    switched: bool,
    heads: Vec<LogHead>,
    // There is memory for so many heads more.
    room: u32,
}

impl Model for UseHeads {
    ghost use Rattle.std.specs.Prelude.{vec_capacity, vec_len};
    ghost use Rattle.ol_log_state.specs.Uses.{IsStored, Stored};

    ghost Value = { Stored };

    ghost view = { λ u. record { held = record { uniq = u.uniq; heads = u.heads.items; switched = u.switched }; room = u.room } };

    ghost invariant = { λ u. IsStored u.uniq (vec_len u.heads) u.room (vec_capacity u.heads) u.heads.items };
}

impl UseHeads {
    /// A use with no page, which takes no memory.
    pub fn new(alloc: Global, uniq: u64) -> UseHeads
        requires { IsUniq uniq }
        ensures { result ≡ record { held = fresh uniq; room = 0 } }
    {
        UseHeads {
            uniq,
            switched: false,
            heads: Vec::new(alloc),
            room: 0,
        }
    }

    /// A spare use, which has memory for so many heads. `NoMemory` where there is none.
    pub fn with_room(alloc: Global, room: u32) -> Result<UseHeads, NoMemory>
        ensures { IfOk result (λ s. s ≡ record { held = fresh 1; room = room }) }
    {
        let heads = Vec::with_capacity(alloc, room as usize)?;
        Ok(UseHeads {
            uniq: 1,
            switched: false,
            heads,
            room,
        })
    }

    /// The unique number.
    pub fn uniq(&self) -> u64
        ensures value { result ≡ self.now.held.uniq }
        ensures limits { IsUniq result }
    {
        let _ = &self.heads;
        self.uniq
    }

    /// Whether it was closed by a switch.
    pub fn is_switched(&self) -> bool
        ensures { result ≡ self.now.held.switched }
    {
        self.switched
    }

    /// How many heads more it takes with no memory taken.
    pub fn room(&self) -> u32
        ensures { result ≡ self.now.room }
    {
        self.room
    }

    /// How many pages are written.
    pub fn count(&self) -> u32
        ensures { result ≡ length self.now.held.heads }
    {
        self.heads.len() as u32
    }

    /// The index of the last written page in its file, 0 where there is none.
    pub fn last_index(&self) -> u32
        ensures value { result ≡ (last_range (use_of self.now.held)).index }
        ensures limit { result < 1000 }
    {
        match self.heads.last() {
            Some(head) => head.index,
            None => 0,
        }
    }

    /// The position of the first record, 0 where there is none.
    pub fn first_position(&self) -> u64
        ensures { result ≡ first_position (use_of self.now.held) }
    {
        match self.heads.first() {
            Some(head) => head.first,
            None => 0,
        }
    }

    /// The position of the last record, 0 where there is none.
    pub fn last_position(&self) -> u64
        ensures { result ≡ last_position (use_of self.now.held) }
    {
        match self.heads.last() {
            Some(head) => head.first + u64::from(head.count) - 1,
            None => 0,
        }
    }

    /// The head of the first page that holds a position.
    pub fn find(&self, position: u64) -> Option<LogHead>
        ensures { result ≡ find (head_holds position) self.now.held.heads }
    {
        for head in &self.heads {
            if head.first <= position && position - head.first < u64::from(head.count) {
                return Some(*head);
            }
        }
        None
    }

    /// Appends a head, for which there is memory.
    pub fn push(&mut self, head: LogHead)
        requires room { 1 ≤ self.old.room }
        requires head { IsWritten head }
        ensures { self.new ≡ pushed head self.old }
    {
        match self.heads.push(head) {
            Ok(()) => (),
            Err(_) => unreachable!(),
        }
        self.room -= 1;
    }

    /// Appends a head, and takes memory for so many more. After `NoMemory` nothing has changed.
    pub fn grow(&mut self, head: LogHead, room: u32) -> Result<(), NoMemory>
        requires head { IsWritten head }
        requires few { length self.old.held.heads + 1 + room < 2 ^ 32 }
        ensures ok { OnOk result (self.new ≡ record { held = with_head head self.old.held; room = room }) }
        ensures unchanged { OnErr result (self.new ≡ self.old) }
    {
        self.heads.reserve(room as usize + 1)?;
        match self.heads.push(head) {
            Ok(()) => (),
            Err(_) => unreachable!(),
        }
        self.room = room;
        Ok(())
    }

    /// Closes the use.
    pub fn switch(&mut self)
        ensures { self.new ≡ record { held = closed_use self.old.held; room = self.old.room } }
    {
        self.switched = true;
    }

    /// Gives the memory to another use, which has no page yet.
    pub fn empty(&mut self, uniq: u64)
        requires { IsUniq uniq }
        ensures { self.new ≡ emptied uniq self.old }
    {
        self.uniq = uniq;
        self.switched = false;
        self.room += self.heads.len() as u32;
        self.heads.clear();
    }
}
