//! The horizon of a run: which jobs it has, and when it ends, by counts and division.

ghost use Rattle.std.specs.Prelude.{◌≡◌, ◌+◌, ◌*◌, ◌<◌, ◌≤◌, ◌^◌, length, MatchResult};
ghost use Rattle.prl_plan.specs.declared.limits.TheConstants.{MAX_JOBS};
ghost use Rattle.prl_plan.specs.Jobs.{task_at, job_count};
ghost use Rattle.prl_plan.specs.Operands.{operand_of};
ghost use Rattle.prl_plan.specs.Plans.{edge_at, actions_of, reading};
ghost use Rattle.prl_plan.specs.Horizons.{sum_below, jobs_up_to, actions_up_to, IsEnd, IsHorizon, IsPastLimit};

use crate::{MAX_EVENTS, MAX_JOBS, Plan, Producer};
use prl_base::{EdgeNo, Limit, TaskNo, What};

/// The horizon of a plan: the jobs that are released before `until`.
#[derive(Clone, Copy, PartialEq, Eq)]
pub struct Horizon {
    /// Jobs released at this tick or later are outside.
    pub until: u64,
    /// The greatest encoded deadline of a job, in ticks, 0 where there is none.
    pub end: u64,
    /// How many jobs there are.
    pub jobs: u64,
    /// How many actions these jobs have, and the ticks up to the end.
    pub events: u64,
}

impl Plan {
    /// How many jobs of task `i` are released before `until`.
    pub(crate) fn jobs_before(&self, i: TaskNo, until: u64) -> u64
        requires task { i.0 < length self.now.graph.tasks }
        requires until { until < 2 ^ 32 }
        ensures { result ≡ job_count (task_at self.now.graph i.0) until }
    {
        let clock = self.clock_of(i);
        (until.saturating_sub(clock.start) + (clock.period - 1)) / clock.period
    }

    /// How many actions the reads of the first `jobs` jobs of its consumer are on an edge: one for a constant, two for an
    /// instance.
    fn reads_on(&self, e: EdgeNo, jobs: u64) -> u64
        requires edge { e.0 < length self.now.graph.edges }
        requires jobs { jobs ≤ MAX_JOBS }
        ensures count { result ≡ sum_below (λ n. length (reading self.now e.0 (edge_at self.now.graph e.0) (operand_of (edge_at self.now.graph e.0) n))) jobs }
        ensures small { result ≤ 2 * jobs }
    {
        match self.source_of(e) {
            Producer::Constant(_) => jobs,
            Producer::Port { .. } => jobs + jobs.saturating_sub(self.constants_on(e)),
        }
    }

    /// How many actions the first `jobs` jobs of task `i` have.
    fn actions_of_task(&self, i: TaskNo, jobs: u64) -> u64
        requires task { i.0 < length self.now.graph.tasks }
        requires jobs { jobs ≤ MAX_JOBS }
        ensures actions { result ≡ sum_below (λ n. length (actions_of self.now i.0 n)) jobs }
        ensures small { result < 2 ^ 32 }
    {
        let mut count = jobs;
        for e in 0..self.graph().edges.len() {
            let e = EdgeNo(e as u32);
            if self.leads_to(e, i) {
                count += self.reads_on(e, jobs);
            }
            if self.comes_from(e, i) {
                count += self.writes_on(e, jobs);
            }
        }
        count
    }

    /// How many jobs are released before `until`.
    fn all_jobs(&self, until: u64) -> u64
        requires { until < 2 ^ 32 }
        ensures { result ≡ jobs_up_to self.now until }
    {
        let mut jobs = 0;
        for i in 0..self.graph().tasks.len() {
            jobs += self.jobs_before(TaskNo(i as u32), until);
        }
        jobs
    }

    /// How many actions the jobs have that are released before `until`.
    fn all_actions(&self, until: u64) -> u64
        requires until { until < 2 ^ 32 }
        requires few { jobs_up_to self.now until ≤ MAX_JOBS }
        ensures actions { result ≡ actions_up_to self.now until }
        ensures small { result < 2 ^ 40 }
    {
        let mut count = 0;
        for i in 0..self.graph().tasks.len() {
            let i = TaskNo(i as u32);
            count += self.actions_of_task(i, self.jobs_before(i, until));
        }
        count
    }

    /// The greatest encoded deadline of a job that is released before `until`, 0 where there is none.
    fn end_of(&self, until: u64) -> u64
        requires { until < 2 ^ 32 }
        ensures end { IsEnd self.now until result }
        ensures small { result < 2 ^ 33 }
    {
        let mut end = 0;
        for i in 0..self.graph().tasks.len() {
            let i = TaskNo(i as u32);
            let jobs = self.jobs_before(i, until);
            if jobs > 0 {
                let last = self.deadline(i, jobs - 1);
                if end < last {
                    end = last;
                }
            }
        }
        end
    }
}

impl Horizon {
    /// The horizon of the plan up to a tick, counted by division. A horizon of more than 200,000 jobs is refused, and then
    /// one of more than 1,000,000 events. Takes no memory.
    pub fn new(plan: &Plan, until: u32) -> Result<Horizon, Limit>
        ensures { MatchResult result (λ horizon. IsHorizon plan.now horizon × (horizon.until ≡ until)) (IsPastLimit plan.now until) }
    {
        let tick = u64::from(until);
        let jobs = plan.all_jobs(tick);
        if jobs > MAX_JOBS {
            return Err(Limit {
                what: What::Jobs,
                found: jobs,
            });
        }
        let end = plan.end_of(tick);
        let events = plan.all_actions(tick) + end;
        if events > MAX_EVENTS {
            return Err(Limit {
                what: What::Events,
                found: events,
            });
        }
        Ok(Horizon {
            until: tick,
            end,
            jobs,
            events,
        })
    }

    /// How many jobs of the horizon task `i` has. Takes no memory.
    pub fn jobs_of(&self, plan: &Plan, i: TaskNo) -> u64
        requires horizon { IsHorizon plan.now self.now }
        requires task { i.0 < length plan.now.graph.tasks }
        ensures { result ≡ job_count (task_at plan.now.graph i.0) self.now.until }
    {
        plan.jobs_before(i, self.until)
    }
}
