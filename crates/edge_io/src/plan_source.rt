ghost use Rattle.std.specs.Prelude.{◌≡◌, ◌<◌, false, length};
ghost use Rattle.std.specs.declared.option.Option.TheVariants.{Some};
ghost use Rattle.edge_io.specs.Supply.{read_count};
ghost use Rattle.edge_io.specs.Source.{FitsRoom, Takes, ReadCause};
ghost use Rattle.edge_io.specs.Plan.{new_plan, next_fails};
ghost use Rattle.edge_io.specs.PlannedSource.{PlannedSource, planned_answer, planned_buffer, source_after_read};

use crate::plan::Plan;
use crate::{Bytes, Got, Source};
use std::alloc::AllocError;
use std::marker::Model;

/// A source in memory that fails exactly at listed calls; a call that fails takes and gives nothing.
#[derive(Drop)]
pub struct PlanSource {
    bytes: Bytes,
    plan: Plan,
}

impl Model for PlanSource {
    ghost Value = { PlannedSource };

    ghost view = { λ s. record { supply = s.bytes; plan = s.plan } };
}

impl PlanSource {
    /// Bytes and pieces as those of `Bytes`, and the calls that fail, counted from 1.
    pub fn new(bytes: Vec<u8>, pieces: Vec<usize>, fails: Vec<u32>) -> PlanSource
        ensures { result ≡ record { supply = record { left = bytes.items; pieces = pieces.items }; plan = new_plan fails.items } }
    {
        PlanSource {
            bytes: Bytes::new(bytes, pieces),
            plan: Plan::new(fails),
        }
    }
}

impl Clone for PlanSource {
    ghost is_clone = { λ source copy. copy ≡ source };

    fn clone(&self) -> Result<PlanSource, AllocError> {
        Ok(PlanSource {
            bytes: self.bytes.clone()?,
            plan: self.plan.clone()?,
        })
    }
}

impl Source for PlanSource {
    ghost left = { λ s. Some s.supply.left };

    ghost faults = { λ s. s.plan.faults };

    ghost limited = { λ _. false };

    fn read(&mut self, buf: &mut [u8]) -> Got
        requires { 0 < length buf.old }
        ensures count { FitsRoom result (length buf.old) }
        ensures bytes { Takes (Some self.old.supply.left) (Some self.new.supply.left) result buf.new }
        ensures cause { ReadCause result self.old.plan.faults self.new.plan.faults }
        // It fails exactly at the listed calls, and is as `Bytes` at each other.
        ensures answer { result ≡ planned_answer (next_fails self.old.plan) (read_count self.old.supply (length buf.old)) }
        ensures buffer { buf.new ≡ planned_buffer (next_fails self.old.plan) (read_count self.old.supply (length buf.old)) self.old.supply buf.old }
        ensures after { self.new ≡ source_after_read self.old (length buf.old) }
    {
        if self.plan.fails_now() {
            return Got::Failed;
        }
        self.bytes.read(buf)
    }

    fn lift_limit(&mut self)
        ensures { self.new ≡ self.old }
    {}
}
