//! Routes: the edges that the jobs of a task go through, and where an open job stands among them.

ghost use Rattle.std.specs.Prelude.{◌≡◌, ◌+◌, ◌<◌, ◌≤◌, ◌^◌, ◌++◌, map, length, Some, IfOk, OnOk, IsTrue, MatchResult, slice_get, slice_index_or};
ghost use Rattle.prl_plan.specs.declared.events.Action.TheVariants as actions;
ghost use Rattle.prl_plan.specs.Vocabulary.{IsWellFormed, release_at, actions_of};
ghost use Rattle.prl_track.specs.Routes.{ins_from, outs_from, is_from, route_of, on_access, IsAccessOf, IsAt, AreRoutes};

use prl_base::{EdgeNo, Seq, TaskNo};
use prl_plan::{Action, Edge, Plan, Producer, look_ups_fit, plan_is_one};
use std::alloc::{AllocError, AllocFailed, Global};
use std::marker::Model;

/// An edge that the jobs of a task go through.
#[derive(Clone, Copy)]
pub enum Access {
    /// They read on it.
    Reads(EdgeNo),
    /// They write to it.
    Writes(EdgeNo),
}

/// Where a job stands: past so many edges of its task's route, and then so many actions.
#[derive(Clone, Copy)]
pub struct Cursor {
    pub index: usize,
    pub rest: u32,
}

impl Cursor {
    /// One action further.
    pub fn moved(self) -> Cursor
        requires { self.rest + 1 < 2 ^ 32 }
        ensures { result ≡ record { index = self.index; rest = self.rest + 1 } }
    {
        Cursor {
            index: self.index,
            rest: self.rest + 1,
        }
    }
}

/// An action, and where it stands.
#[derive(Clone, Copy)]
pub struct NextAction {
    pub cursor: Cursor,
    pub action: Action,
}

/// Adds the edges into task `i`.
fn push_ins(edges: &[Edge], i: u32, route: &mut Vec<Access>) -> Result<(), AllocFailed<Access>>
    requires { length edges.now < 2 ^ 32 }
    ensures { OnOk result (route.new.items ≡ route.old.items ++ ins_from i 0 edges.now) }
{
    for (e, edge) in edges.iter().enumerate() {
        if edge.to.0 == i {
            route.push(Access::Reads(EdgeNo(e as u32)))?;
        }
    }
    Ok(())
}

/// Whether the values come from task `i`.
fn is_from(from: Producer, i: u32) -> bool
    ensures { result ≡ is_from i from }
{
    match from {
        Producer::Port { task, .. } => task.0 == i,
        Producer::Constant(_) => false,
    }
}

/// Adds the edges from task `i`.
fn push_outs(edges: &[Edge], i: u32, route: &mut Vec<Access>) -> Result<(), AllocFailed<Access>>
    requires { length edges.now < 2 ^ 32 }
    ensures { OnOk result (route.new.items ≡ route.old.items ++ outs_from i 0 edges.now) }
{
    for (e, edge) in edges.iter().enumerate() {
        if is_from(edge.from, i) {
            route.push(Access::Writes(EdgeNo(e as u32)))?;
        }
    }
    Ok(())
}

/// The route of task `i`: the edges into it, and then those from it.
fn route_of(alloc: Global, plan: &Plan, i: u32) -> Result<Seq<Access>, AllocError>
    ensures { IfOk result (λ route. route ≡ route_of plan.now.graph i) }
{
    plan_is_one(plan);
    let edges = plan.graph().edges.as_slice();
    let mut route = Vec::new(alloc);
    push_ins(edges, i, &mut route)?;
    push_outs(edges, i, &mut route)?;
    Ok(Seq::new(route))
}

/// The routes of all tasks.
fn all_routes(alloc: Global, plan: &Plan) -> Result<Vec<Seq<Access>>, AllocError>
    ensures { IfOk result (λ routes. AreRoutes plan.now.graph routes.items) }
{
    plan_is_one(plan);
    let mut routes = Vec::new(alloc);
    for i in 0..plan.graph().tasks.len() {
        routes.push(route_of(alloc, plan, i as u32)?)?;
    }
    Ok(routes)
}

/// The action at this place, from 0, of job `n` of task `i` on an edge of its route, or how far the place is past its actions
/// there.
fn on_access(plan: &Plan, access: Access, i: TaskNo, n: u64, place: u32) -> Result<Action, u32>
    requires access { IsAccessOf plan.now.graph i.0 access }
    requires small { release_at plan.now i.0 n < 2 ^ 63 }
    ensures { MatchResult result (λ action. slice_get (on_access plan.now n access) place ≡ Some action)
        (λ rest. place ≡ length (on_access plan.now n access) + rest) }
{
    plan_is_one(plan);
    look_ups_fit();
    match access {
        Access::Reads(e) => plan.read_on(e, n, place),
        Access::Writes(e) => plan.write_on(e, n, place),
    }
}

/// The action of job `n` of task `i` at a place of its list of actions, from a cursor at this place, along its route.
fn stop_at(
    plan: &Plan,
    route: &[Access],
    i: TaskNo,
    n: u64,
    place: u32,
    cursor: Cursor,
) -> NextAction
    requires route { route.now ≡ route_of plan.now.graph i.0 }
    requires small { release_at plan.now i.0 n < 2 ^ 63 }
    requires at { IsAt plan.now i.0 n place cursor }
    ensures at { IsAt plan.now i.0 n place result.cursor }
    ensures action { result.action ≡ slice_index_or (actions_of plan.now i.0 n) place actions.End }
{
    let mut at = cursor;
    while at.index < route.len() {
        match on_access(plan, route[at.index], i, n, at.rest) {
            Ok(action) => return NextAction { cursor: at, action },
            Err(rest) => {
                at = Cursor {
                    index: at.index + 1,
                    rest,
                };
            }
        }
    }
    NextAction {
        cursor: at,
        action: Action::End,
    }
}

/// The edges that the jobs of each task go through. Contracts see a list of them for each task.
pub struct Routes {
    of: Vec<Seq<Access>>,
}

impl Model for Routes {
    ghost use Rattle.std.specs.Prelude.{List};
    ghost use Rattle.prl_track.specs.declared.routes.Access.{Access};

    ghost Value = { List (List Access) };

    ghost view = { λ r. r.of.items };
}

impl Routes {
    /// The routes of the tasks of a plan.
    pub fn new(alloc: Global, plan: &Plan) -> Result<Routes, AllocError>
        ensures { IfOk result (AreRoutes plan.now.graph) }
    {
        let of = all_routes(alloc, plan)?;
        Ok(Routes { of })
    }

    /// The action of job `n` of task `i` at a place of its list of actions, and where it stands, from a cursor at this place.
    /// Takes no memory.
    pub fn stop(&self, plan: &Plan, i: TaskNo, n: u64, place: u32, cursor: Cursor) -> NextAction
        requires routes { AreRoutes plan.now.graph self.now }
        requires task { i.0 < length plan.now.graph.tasks }
        requires small { release_at plan.now i.0 n < 2 ^ 63 }
        requires at { IsAt plan.now i.0 n place cursor }
        ensures at { IsAt plan.now i.0 n place result.cursor }
        ensures action { result.action ≡ slice_index_or (actions_of plan.now i.0 n) place actions.End }
    {
        let route = self.of[i.0 as usize].as_slice();
        stop_at(plan, route, i, n, place, cursor)
    }

    /// The action of job `n` of task `i` at a place of its list of actions, found along the edges of its task. After the last
    /// action stands the end. Takes no memory.
    pub fn action(&self, plan: &Plan, i: TaskNo, n: u64, place: u32) -> Action
        requires routes { AreRoutes plan.now.graph self.now }
        requires task { i.0 < length plan.now.graph.tasks }
        requires small { release_at plan.now i.0 n < 2 ^ 63 }
        ensures { result ≡ slice_index_or (actions_of plan.now i.0 n) place actions.End }
    {
        let start = Cursor {
            index: 0,
            rest: place,
        };
        self.stop(plan, i, n, place, start).action
    }
}

impl Drop for Routes {
    fn drop(self) {
        let Routes { of } = self;
        drop(of);
    }
}
