ghost use Rattle.std.specs.Prelude.{◌≡◌, ◌==◌};
ghost use Rattle.std.specs.Bool.{OnTrue};
ghost use Rattle.std.specs.List.{list_any};
ghost use Rattle.edge_io.specs.Faults.{Rose, raised};
ghost use Rattle.edge_io.specs.Plan.{CallPlan, new_plan, next_fails, plan_after_call};

use std::alloc::AllocError;
use std::marker::Model;

/// Which calls of a fake are to fail, counted from 1, how many were made, and how many of these failed.
#[derive(Drop)]
pub struct Plan {
    fails: Vec<u32>,
    calls: u64,
    faults: u64,
}

impl Model for Plan {
    ghost Value = { CallPlan };

    ghost view = { λ p. record { fails = p.fails.items; calls = p.calls; faults = p.faults } };
}

impl Plan {
    pub fn new(fails: Vec<u32>) -> Plan
        ensures { result ≡ new_plan fails.items }
    {
        Plan {
            fails,
            calls: 0,
            faults: 0,
        }
    }

    /// Counts one more call, and says whether it fails.
    pub fn fails_now(&mut self) -> bool
        ensures answer { result ≡ next_fails self.old }
        ensures after { self.new ≡ plan_after_call self.old }
        ensures rose { OnTrue result (Rose self.old.faults self.new.faults) }
    {
        self.calls = self.calls.saturating_add(1);
        let fails = is_listed(&self.fails, self.calls);
        if fails {
            self.faults = self.faults.saturating_add(1);
        }
        fails
    }

    /// Counts one more fault.
    pub fn count_fault(&mut self)
        ensures after { self.new ≡ record self.old { faults = raised self.old.faults } }
        ensures rose { Rose self.old.faults self.new.faults }
    {
        self.faults = self.faults.saturating_add(1);
    }
}

impl Clone for Plan {
    ghost is_clone = { λ plan copy. copy ≡ plan };

    fn clone(&self) -> Result<Plan, AllocError> {
        Ok(Plan {
            fails: self.fails.clone()?,
            calls: self.calls,
            faults: self.faults,
        })
    }
}

fn is_listed(calls: &[u32], call: u64) -> bool
    ensures { result ≡ list_any (λ listed. listed == call) calls.now }
{
    calls.iter().any(|listed| u64::from(*listed) == call)
}
