//! How the arrows of edges go, so that they can be told from one another.

ghost use Rattle.std.specs.Prelude.{◌≡◌};

use prl_drawing::{TRUNKS, Way};

/// How many of the last courses a new one keeps away from.
const KEPT: usize = 64;

/// How the arrows of an edge go: from the row of the producer to that of the consumer, and which way.
#[derive(Clone, Copy)]
pub(crate) struct Course {
    pub before: u32,
    pub after: u32,
    pub way: Way,
}

/// Whether a course and one between these rows pass by the same rows.
fn is_beside(course: &Course, before: u32, after: u32) -> bool {
    course.before.min(course.after) <= before.max(after)
        && before.min(after) <= course.before.max(course.after)
}

/// Whether a course between these rows would share a trunk with one of these.
fn is_taken(courses: &[Course], before: u32, after: u32, trunk: u64) -> bool {
    for course in courses {
        if course.way.trunk == trunk && is_beside(course, before, after) {
            return true;
        }
    }
    false
}

/// The first trunk that a course between these rows shares with none of these; where there is none, one
/// by their number.
fn free_trunk(courses: &[Course], before: u32, after: u32) -> u64 {
    for trunk in 0..TRUNKS {
        if !is_taken(courses, before, after, trunk) {
            return trunk;
        }
    }
    courses.len() as u64 % TRUNKS
}

/// How many courses begin in a row.
fn count_from(courses: &[Course], before: u32) -> u64 {
    let mut count: u64 = 0;
    for course in courses {
        if course.before == before {
            count = count.saturating_add(1);
        }
    }
    count
}

/// How many courses end in a row.
fn count_to(courses: &[Course], after: u32) -> u64 {
    let mut count: u64 = 0;
    for course in courses {
        if course.after == after {
            count = count.saturating_add(1);
        }
    }
    count
}

/// How the arrows of an edge between these rows go, where those before go by these courses.
pub(crate) fn course_of(courses: &[Course], before: u32, after: u32) -> Course
    ensures before { result.before ≡ before }
    ensures after { result.after ≡ after }
{
    let last = &courses[courses.len().saturating_sub(KEPT)..];
    Course {
        before,
        after,
        way: Way {
            lane: count_from(last, before),
            trunk: free_trunk(last, before, after),
            end: count_to(last, after),
        },
    }
}
