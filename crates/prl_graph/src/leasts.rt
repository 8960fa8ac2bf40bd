//! The least due of each application.

ghost use Rattle.std.specs.Prelude.{◌≡◌, ◌<◌, ◌≤◌, ℕ, IfOk, MatchOption, length, set, slice_index};
ghost use Rattle.prl_flow.specs.Solutions.{AreClocks};
ghost use Rattle.prl_graph.specs.Dues.{AreDuesInRange, BindsApplication};
ghost use Rattle.prl_graph.specs.Tasks.{application_clock};
ghost use Rattle.prl_graph.specs.code.Marks.{AreLeastDues, HasClock, AreOutputMarks, IsBinding};

use crate::dues::copied_application;
use crate::tasks::clock_of;
use prl_base::Clock;
use prl_flow::{App, Clocks, Flat};
use std::alloc::{AllocError, Global};

/// A due that binds an application.
#[derive(Clone, Copy)]
struct Binding {
    app: u32,
    due: u32,
}

/// The application that the due on the flow binds, where there is one.
fn binding_due(flat: &Flat, outputs: &[bool], i: usize) -> Option<Binding>
    requires outputs { AreOutputMarks flat.now outputs.now }
    requires within { i < length flat.now.flows }
    ensures { MatchOption result ((k due : ℕ) → BindsApplication flat.now k i due → ⊥) (λ b. IsBinding flat.now i b.app b.due) }
{
    if outputs[i] {
        return None;
    }
    let flows = flat.flows();
    let flow = &flows[i];
    match flow.due {
        Some(due) => match copied_application(flat, i) {
            Some(app) => Some(Binding { app, due }),
            None => None,
        },
        None => None,
    }
}

/// The clock of an application.
pub(crate) fn application_clock(clocks: &Clocks, app: &App) -> Clock
    requires { HasClock clocks.now.of app.now }
    ensures { result ≡ application_clock clocks.now.of app.now }
{
    clock_of(clocks, app.outs.as_slice()[0])
}

/// The period of each application.
fn periods(alloc: Global, flat: &Flat, clocks: &Clocks) -> Result<Vec<u64>, AllocError>
    requires { AreClocks flat.now clocks.now.of }
    ensures { IfOk result (λ dues. AreLeastDues flat.now clocks.now.of 0 dues.items) }
{
    let mut periods = Vec::new(alloc);
    for app in flat.apps() {
        let clock = application_clock(clocks, app);
        periods.push(clock.period)?;
    }
    Ok(periods)
}

/// Lowers the due of the application to this one, where it is less.
fn lower(dues: &mut Vec<u64>, app: usize, due: u64)
    requires { app < length dues.old.items }
    ensures less { due < slice_index dues.old.items app → dues.new.items ≡ set dues.old.items app due }
    ensures more { slice_index dues.old.items app ≤ due → dues.new.items ≡ dues.old.items }
{
    if due < dues[app] {
        dues[app] = due;
    }
}

/// The least of the dues that bind an application, or its period, for each application.
pub(crate) fn least_dues(
    alloc: Global,
    flat: &Flat,
    clocks: &Clocks,
    outputs: &[bool],
) -> Result<Vec<u64>, AllocError>
    requires clocks { AreClocks flat.now clocks.now.of }
    requires outputs { AreOutputMarks flat.now outputs.now }
    requires within { AreDuesInRange flat.now clocks.now.of }
    ensures { IfOk result (λ dues. AreLeastDues flat.now clocks.now.of (length flat.now.flows) dues.items) }
{
    let mut dues = periods(alloc, flat, clocks)?;
    let flows = flat.flows();
    for i in 0..flows.len() {
        match binding_due(flat, outputs, i) {
            Some(bound) => lower(&mut dues, bound.app as usize, u64::from(bound.due)),
            None => {}
        }
    }
    Ok(dues)
}
