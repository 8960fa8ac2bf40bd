//! A loop over the tasks of a graph.

ghost use Rattle.std.specs.Prelude.{◌<◌, length};
ghost use Rattle.example_loop.specs.Longest.{IsLongest};

use prl_plan::TaskGraph;

/// The first of the tasks whose jobs may take longest.
pub fn longest(graph: &TaskGraph) -> usize
    requires { 0 < length graph.now.tasks }
    ensures { IsLongest graph.now result }
{
    let tasks = graph.tasks.as_slice();
    let mut found: usize = 0;
    for i in 1..tasks.len() {
        if tasks[found].wcet < tasks[i].wcet {
            found = i;
        }
    }
    found
}
