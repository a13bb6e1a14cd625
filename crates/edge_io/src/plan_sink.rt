ghost use Rattle.std.specs.Prelude.{◌≡◌, [], false};
ghost use Rattle.std.specs.declared.option.Option.TheVariants.{Some};
ghost use Rattle.edge_io.specs.Sink.{Appends, WriteCause};
ghost use Rattle.edge_io.specs.Plan.{new_plan, next_fails, plan_after_call};
ghost use Rattle.edge_io.specs.PlannedSink.{PlannedSink, told_after_write, FailsExactly};

use crate::plan::Plan;
use crate::{FrameSink, Keep, Sink, Wrote};
use std::alloc::{AllocError, Global};
use std::marker::Model;

/// A sink in memory that fails exactly at listed calls; a call that fails takes nothing.
#[derive(Drop)]
pub struct PlanSink {
    kept: Keep,
    plan: Plan,
}

impl Model for PlanSink {
    ghost Value = { PlannedSink };

    ghost view = { λ s. record { told = s.kept; plan = s.plan } };
}

impl PlanSink {
    /// A sink with the calls that fail, counted from 1.
    pub fn new(alloc: Global, fails: Vec<u32>) -> PlanSink
        ensures { result ≡ record { told = []; plan = new_plan fails.items } }
    {
        PlanSink {
            kept: Keep::new(alloc),
            plan: Plan::new(fails),
        }
    }

    /// The bytes that it was told.
    pub fn bytes(&self) -> &[u8]
        ensures { result.now ≡ self.now.told }
    {
        self.kept.bytes()
    }
}

impl Clone for PlanSink {
    ghost is_clone = { λ sink copy. copy ≡ sink };

    fn clone(&self) -> Result<PlanSink, AllocError> {
        Ok(PlanSink {
            kept: self.kept.clone()?,
            plan: self.plan.clone()?,
        })
    }
}

impl Sink for PlanSink {
    ghost told = { λ s. Some s.told };

    ghost faults = { λ s. s.plan.faults };

    fn write_all(&mut self, bytes: &[u8]) -> Wrote
        ensures bytes { Appends (Some self.old.told) (Some self.new.told) result bytes.now }
        ensures cause { WriteCause result self.old.plan.faults self.new.plan.faults }
        // It fails exactly at the listed calls, and then takes nothing; want of memory leaves its bytes too.
        ensures failed { FailsExactly (next_fails self.old.plan) result }
        ensures told { self.new.told ≡ told_after_write result self.old.told bytes.now }
        ensures plan { self.new.plan ≡ plan_after_call self.old.plan }
    {
        if self.plan.fails_now() {
            return Wrote::Failed;
        }
        self.kept.write_all(bytes)
    }
}

impl FrameSink for PlanSink {
    ghost keeps = { false };

    ghost kept = { λ _. 0 };

    fn keep(&mut self, _number: u64) -> Wrote {
        Wrote::All
    }
}
