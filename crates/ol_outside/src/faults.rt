//! The faults of a device in memory, which the devices share.

ghost use Rattle.std.specs.Prelude.{◌≡◌, ◌≤◌, IfOk, IsTrue};
ghost use Rattle.ol_ports.specs.Causes.{Rose};
ghost use Rattle.ol_outside.specs.Faults.{no_calls, next_fails, after_call, after_refusal, faults_in_all};

use crate::NoMemory;
use std::alloc::Global;
use std::marker::Model;

/// Which calls of a device are to fail, and which faults there were. Each number here stands still at
/// the greatest `u64`.
#[derive(Debug, Drop)]
pub(crate) struct Faults {
    failing: Vec<u64>,
    calls: u64,
    count: u64,
    starved: u64,
}

impl Model for Faults {
    ghost use Rattle.std.specs.Prelude.{◌≡◌};
    ghost use Rattle.ol_outside.specs.Faults.{FaultState, count_of_faults};

    ghost Value = { FaultState };

    ghost view = { λ f. record {
      failing = f.failing.items;
      calls = f.calls;
      count = f.count;
      starved = f.starved;
    } };

    ghost invariant = { λ f. f.count ≡ count_of_faults f.failing.items f.calls f.starved };
}

impl Faults {
    /// No faults yet: the calls of these numbers are to fail, counted from 1.
    pub(crate) fn new(alloc: Global, failing: &[u64]) -> Result<Faults, NoMemory>
        ensures { IfOk result (λ faults. faults ≡ no_calls failing.now) }
    {
        Ok(Faults {
            failing: Vec::from_slice(alloc, failing)?,
            calls: 0,
            count: 0,
            starved: 0,
        })
    }

    /// Counts a call, and tells whether it is to fail, which is then a fault.
    pub(crate) fn fails(&mut self) -> bool
        ensures answer { result ≡ next_fails self.old }
        ensures counted { self.new ≡ after_call result self.old }
        ensures later { self.old.count ≤ self.new.count }
        ensures cause { IsTrue result → Rose self.old.count self.new.count }
    {
        // A call past the greatest number has none, so it can't be listed.
        let Some(call) = self.calls.checked_add(1) else {
            return false;
        };
        self.calls = call;
        let listed = self.failing.contains(&call);
        if listed {
            self.count = self.count.saturating_add(1);
        }
        listed
    }

    /// Counts a refusal of memory, which is a fault.
    pub(crate) fn starve(&mut self)
        ensures counted { self.new ≡ after_refusal self.old }
        ensures later { self.old.count ≤ self.new.count }
        ensures cause { Rose self.old.count self.new.count }
    {
        self.starved = self.starved.saturating_add(1);
        self.count = self.count.saturating_add(1);
    }

    /// The faults so far: the listed calls that were reached, and the refusals of memory.
    pub(crate) fn count(&self) -> u64
        ensures count { result ≡ self.now.count }
        ensures total { result ≡ faults_in_all self.now }
    {
        self.count
    }

    /// The refusals of memory so far.
    pub(crate) fn starved(&self) -> u64
        ensures { result ≡ self.now.starved }
    {
        self.starved
    }
}
