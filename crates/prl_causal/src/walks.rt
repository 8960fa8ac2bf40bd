//! The search in depth that finds ranks, after Tarjan. It promises nothing of them: they are looked at once they are found.

use crate::sources::Source;
use prl_flow::{Arg, Flat};
use std::alloc::{AllocError, Global};

/// What the search knows of a flow, or of an application, which comes after all flows.
#[derive(Clone, Copy)]
struct Point {
    /// As which one it was met, from 1 on; 0 where it was not.
    met: u32,
    /// The first one without a rank to which uses were found to lead from it, or itself.
    first: u32,
    /// Its rank; 0 where it has none.
    rank: u32,
    /// How many of its arguments were looked at.
    looked: usize,
}

/// A point that was not met.
const UNMET: Point = Point {
    met: 0,
    first: 0,
    rank: 0,
    looked: 0,
};

/// A search under way.
#[derive(Drop)]
struct Walk {
    points: Vec<Point>,
    /// The way to where the search is, each used by the one before it.
    way: Vec<usize>,
    /// Those met that have no rank, in the order in which they were met.
    open: Vec<usize>,
    met: u32,
    rank: u32,
}

/// The point of this number.
fn point_at(points: &[Point], i: usize) -> Point {
    match points.get(i) {
        Some(point) => *point,
        None => UNMET,
    }
}

/// Changes the point of this number.
fn put(points: &mut [Point], i: usize, point: Point) {
    if i < points.len() {
        points[i] = point;
    }
}

/// What is known after a look at the arguments up to the first that was not met.
fn look_on(points: &[Point], args: &[Arg], before: Point) -> Point {
    let mut point = before;
    for j in before.looked..args.len() {
        let used = point_at(points, args[j].flow.0 as usize);
        if used.met == 0 {
            point.looked = j;
            return point;
        }
        if used.rank == 0 {
            point.first = point.first.min(used.met);
        }
    }
    point.looked = args.len();
    point
}

impl Walk {
    fn new(alloc: Global, points: usize) -> Result<Walk, AllocError> {
        Ok(Walk {
            points: vec![in alloc; UNMET; points]?,
            way: Vec::new(alloc),
            open: Vec::new(alloc),
            met: 0,
            rank: 0,
        })
    }

    fn point(&self, i: usize) -> Point {
        point_at(self.points.as_slice(), i)
    }

    fn set(&mut self, i: usize, point: Point) {
        put(self.points.as_mut_slice(), i, point);
    }

    /// Goes on to a point that was not met.
    fn meet(&mut self, i: usize) -> Result<(), AllocError> {
        self.met = self.met.saturating_add(1);
        let point = Point {
            met: self.met,
            first: self.met,
            rank: 0,
            looked: 0,
        };
        self.set(i, point);
        self.way.push(i)?;
        self.open.push(i)?;
        Ok(())
    }

    /// Notes that uses lead from the point to the one that was met as this one.
    fn lead(&mut self, i: usize, met: u32) {
        let mut point = self.point(i);
        point.first = point.first.min(met);
        self.set(i, point);
    }

    /// What the point uses, if that was not met.
    fn look(&mut self, i: usize, used: usize) -> Option<usize> {
        let point = self.point(used);
        if point.met == 0 {
            return Some(used);
        }
        if point.rank == 0 {
            self.lead(i, point.met);
        }
        None
    }

    /// The next of an application's arguments that was not met.
    fn look_at_arguments(&mut self, i: usize, args: &[Arg]) -> Option<usize> {
        let point = look_on(self.points.as_slice(), args, self.point(i));
        self.set(i, point);
        match args.get(point.looked) {
            Some(arg) => Some(arg.flow.0 as usize),
            None => None,
        }
    }

    /// What the point uses that was not met.
    fn unmet(&mut self, flat: &Flat, sources: &[Source], i: usize) -> Option<usize> {
        match sources.get(i) {
            Some(Source::Nothing) => None,
            Some(Source::Flow(of)) => self.look(i, of.0 as usize),
            Some(Source::Arguments(app)) => {
                self.look(i, sources.len().saturating_add(*app as usize))
            }
            None => match flat.apps().get(i.saturating_sub(sources.len())) {
                Some(app) => self.look_at_arguments(i, app.args.as_slice()),
                None => None,
            },
        }
    }

    /// Gives a rank to the point and to those met after it that have none.
    fn close(&mut self, i: usize) {
        self.rank = self.rank.saturating_add(1);
        while let Some(j) = self.open.pop() {
            let mut point = self.point(j);
            point.rank = self.rank;
            put(self.points.as_mut_slice(), j, point);
            if j == i {
                return;
            }
        }
    }

    /// Leaves a point all of whose uses were looked at.
    fn leave(&mut self, i: usize) {
        let point = self.point(i);
        if point.first == point.met {
            self.close(i);
        }
        let user = match self.way.last() {
            Some(user) => *user,
            None => return,
        };
        self.lead(user, point.first);
    }

    /// Goes a step on the way or back; false where there is none left.
    fn step(&mut self, flat: &Flat, sources: &[Source]) -> Result<bool, AllocError> {
        let Some(i) = self.way.pop() else {
            return Ok(false);
        };
        match self.unmet(flat, sources, i) {
            Some(used) => {
                self.way.push(i)?;
                self.meet(used)?;
            }
            None => self.leave(i),
        }
        Ok(true)
    }

    /// Gives ranks to the flow and to all that uses lead to from it.
    fn visit(&mut self, flat: &Flat, sources: &[Source], from: usize) -> Result<(), AllocError> {
        if self.point(from).met != 0 {
            return Ok(());
        }
        self.meet(from)?;
        // Each point is met once and left once.
        for _ in 0..self.points.len().saturating_mul(2) {
            if !self.step(flat, sources)? {
                return Ok(());
            }
        }
        Ok(())
    }
}

/// The ranks of these points.
fn ranks_of(alloc: Global, points: &[Point]) -> Result<Vec<u32>, AllocError> {
    points.iter().map(|point| point.rank).collect(alloc)
}

/// The ranks of the flows, and those of the applications.
pub fn walked(
    alloc: Global,
    flat: &Flat,
    sources: &[Source],
) -> Result<(Vec<u32>, Vec<u32>), AllocError> {
    let flows = sources.len();
    let mut walk = Walk::new(alloc, flows.saturating_add(flat.apps().len()))?;
    for from in 0..flows {
        walk.visit(flat, sources, from)?;
    }
    let (of_flows, of_apps) = walk
        .points
        .as_slice()
        .split_at(flows.min(walk.points.len()));
    let flow_ranks = ranks_of(alloc, of_flows)?;
    Ok((flow_ranks, ranks_of(alloc, of_apps)?))
}
