//! The actions of the jobs of a plan, one at a time.

ghost use Rattle.std.specs.Prelude.{◌≡◌, ◌+◌, ◌<◌, ◌^◌, [], length, is_some, slice_get, slice_index_or, Some, MatchResult, if◌then◌else◌};
ghost use Rattle.prl_plan.specs.declared.events.Action.TheVariants as actions;
ghost use Rattle.prl_plan.specs.Operands.{operand_of};
ghost use Rattle.prl_plan.specs.Plans.{edge_at, release_at, place_on, reading, both_writes, reads_of, writes_of, actions_of, IsSmallOperand};

use crate::{Action, Operand, Plan, SlotNo};
use prl_base::{EdgeNo, TaskNo};

impl Plan {
    /// The action at this place, from 0, among the reads of job `n` on an edge into its task, or how far the place is past
    /// them. Takes no memory.
    pub fn read_on(&self, e: EdgeNo, n: u64, place: u32) -> Result<Action, u32>
        requires edge { e.0 < length self.now.graph.edges }
        requires small { IsSmallOperand (operand_of (edge_at self.now.graph e.0) n) }
        ensures { MatchResult result (λ action. slice_get (reading self.now e.0 (edge_at self.now.graph e.0) (operand_of (edge_at self.now.graph e.0) n)) place ≡ Some action)
            (λ rest. place ≡ length (reading self.now e.0 (edge_at self.now.graph e.0) (operand_of (edge_at self.now.graph e.0) n)) + rest) }
    {
        let port = self.port_of(e);
        match self.operand(e, n) {
            Operand::Const(value) => {
                if place > 0 {
                    return Err(place - 1);
                }
                Ok(Action::ReadConst { port, value })
            }
            Operand::From(instance) => {
                if place > 1 {
                    return Err(place - 2);
                }
                let cell = self.cell(e, instance);
                Ok(Action::Read {
                    port,
                    edge: e,
                    instance,
                    slot: SlotNo(2 * cell.0 + place),
                })
            }
        }
    }

    /// The action at this place, from 0, among the writes of instance `n` to an edge from its task, or how far the place is
    /// past them. Takes no memory.
    pub fn write_on(&self, e: EdgeNo, n: u64, place: u32) -> Result<Action, u32>
        requires edge { e.0 < length self.now.graph.edges }
        ensures { MatchResult result (λ action. slice_get (if is_some (place_on self.now e.0 n) then both_writes self.now e.0 n else []) place ≡ Some action)
            (λ rest. place ≡ length (if is_some (place_on self.now e.0 n) then both_writes self.now e.0 n else []) + rest) }
    {
        if !self.uses(e, n) {
            return Err(place);
        }
        if place > 1 {
            return Err(place - 2);
        }
        let cell = self.cell(e, n);
        Ok(Action::Write {
            edge: e,
            instance: n,
            slot: SlotNo(2 * cell.0 + place),
        })
    }

    /// The action at this place among the reads of job `n` of task `i`, or how far the place is past them.
    #[tactic(auto, using(crate::proofs::ActionLists::read_found))]
    fn read_at(&self, i: TaskNo, n: u64, place: u32) -> Result<Action, u32>
        requires task { i.0 < length self.now.graph.tasks }
        requires small { release_at self.now i.0 n < 2 ^ 63 }
        ensures { MatchResult result (λ action. slice_get (reads_of self.now i.0 n 0 self.now.graph.edges) place ≡ Some action)
            (λ rest. place ≡ length (reads_of self.now i.0 n 0 self.now.graph.edges) + rest) }
    {
        let mut left = place;
        for e in 0..self.graph().edges.len() {
            let e = EdgeNo(e as u32);
            if self.leads_to(e, i) {
                match self.read_on(e, n, left) {
                    Ok(action) => return Ok(action),
                    Err(rest) => left = rest,
                }
            }
        }
        Err(left)
    }

    /// The action at this place among the writes of job `n` of task `i`, or how far the place is past them.
    #[tactic(auto, using(crate::proofs::ActionLists::write_found))]
    fn write_at(&self, i: TaskNo, n: u64, place: u32) -> Result<Action, u32>
        requires task { i.0 < length self.now.graph.tasks }
        ensures { MatchResult result (λ action. slice_get (writes_of self.now i.0 n 0 self.now.graph.edges) place ≡ Some action)
            (λ rest. place ≡ length (writes_of self.now i.0 n 0 self.now.graph.edges) + rest) }
    {
        let mut left = place;
        for e in 0..self.graph().edges.len() {
            let e = EdgeNo(e as u32);
            if self.comes_from(e, i) {
                match self.write_on(e, n, left) {
                    Ok(action) => return Ok(action),
                    Err(rest) => left = rest,
                }
            }
        }
        Err(left)
    }

    /// The action at this place, from 0, of job `n` of task `i`, whose operands have no higher numbers than its encoded
    /// release. After the last action stands the end. Takes no memory.
    pub fn action(&self, i: TaskNo, n: u64, place: u32) -> Action
        requires task { i.0 < length self.now.graph.tasks }
        requires small { release_at self.now i.0 n < 2 ^ 63 }
        ensures { result ≡ slice_index_or (actions_of self.now i.0 n) place actions.End }
    {
        match self.read_at(i, n, place) {
            Ok(action) => action,
            Err(left) => match self.write_at(i, n, left) {
                Ok(action) => action,
                Err(_) => Action::End,
            },
        }
    }
}
