ghost use Rattle.std.specs.Prelude.{◌≡◌, ◌^◌, ◌<◌, min, length, sum_by, MatchResult};
ghost use Rattle.solve.specs.Plans.{total_weight, hits_of, all_missed, exps_of};
ghost use Rattle.solve.specs.Works.{IsWork, IsRefusedBy};

use crate::counts::{exps_in_all, hits_in_all, misses_in_all, weight_of_all};
use crate::fault::WorkFault;
use crate::plan::Plan;
use crate::valid::first_invalid;
use std::marker::Model;
use tensor_product::fitting;
use words::Shape;

/// The work of a look at a version: valid plans of one shape, whose weight fits it.
#[derive(Drop)]
pub struct Work {
    pub(crate) shape: Shape,
    version: u64,
    pub(crate) plans: Vec<Plan>,
}

impl Model for Work {
    ghost use Rattle.solve.specs.Works.{WorkValue, IsWork};
    ghost use Rattle.std.specs.Coded.{codes};
    ghost use Rattle.solve.specs.contracts.plan.Plan as plan;

    ghost Value = { WorkValue };

    ghost coded = { Prim.hlevel (codes, plan.the_row.coded) };

    ghost view = { λ w. record { extent = w.shape; version = w.version; plans = w.plans.items } };

    ghost invariant = { λ w. IsWork (record { extent = w.shape; version = w.version; plans = w.plans.items }) };
}

impl Work {
    /// The work of these plans, refused exactly as `WorkFault` says. Takes no memory; plans that
    /// are refused are dropped.
    pub fn of(shape: Shape, version: u64, plans: Vec<Plan>) -> Result<Work, WorkFault>
        requires { total_weight plans.items < 2 ^ 128 }
        ensures { MatchResult result (λ work. (work ≡ record { extent = shape; version = version; plans = plans.items }) × IsWork work) (λ fault. IsRefusedBy shape plans.items fault) }
    {
        if let Some(at) = first_invalid(shape, &plans) {
            return Err(WorkFault::Plan(at));
        }
        fitting(shape, weight_of_all(&plans))?;
        Ok(Work {
            shape,
            version,
            plans,
        })
    }

    /// The version that is looked at.
    pub fn version(&self) -> u64
        ensures value { result ≡ self.now.version }
        ensures work { IsWork self.now }
    {
        self.version
    }

    /// How many nodes are kept; 2^64 - 1 where there are more.
    pub fn hits(&self) -> u64
        ensures { result ≡ min (sum_by hits_of self.now.plans) u64.MAX }
    {
        hits_in_all(&self.plans)
    }

    /// How many nodes are missed, which are the leaves and splits; 2^64 - 1 where there are more.
    pub fn misses(&self) -> u64
        ensures { result ≡ min (length (all_missed self.now.plans)) u64.MAX }
    {
        misses_in_all(&self.plans)
    }

    /// How many rows the leaves have; 2^64 - 1 where there are more.
    pub fn exps(&self) -> u64
        ensures { result ≡ min (sum_by exps_of self.now.plans) u64.MAX }
    {
        exps_in_all(&self.plans)
    }
}
