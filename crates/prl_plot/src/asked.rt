//! The flows that the words ask for, by the files that they name.

ghost use Rattle.std.specs.Prelude.{◌≡◌, ◌≤◌, ◌++◌, [], IfOk, MatchOption, codes, length, map};
ghost use Rattle.std.specs.String.{string_bytes};
ghost use Rattle.prl_io.specs.Pairs.{value_of};
ghost use Rattle.prl_calls.specs.Stops.{given_of};
ghost use Rattle.prl_stages.specs.Vocabulary.{program_alone};
ghost use Rattle.prl_plot.specs.Asked.{AreFlows, AreSensors, IsAsked, IsFormAsked, dated_form};
ghost use Rattle.prl_plot.specs.Inputs.{AreInputsOf};

use crate::faults::bad_rows;
use crate::forms::{Form, Input};
use crate::inputs::inputs_of;
use crate::rows::read_flows;
use crate::words::FORM;
use prl_base::{Label, Seq};
use prl_calls::{Request, Texts, check_types, flat_of, read_program};
use prl_io::{Fault, Files, Stop, read_named, unfit_for, value_of};
use prl_steps::Flow;
use std::alloc::{AllocError, Global};

/// The most bytes of a program.
pub const MAX_PROGRAM: u64 = 1_048_576;

/// The most bytes of rows.
pub const MAX_ROWS: u64 = 33_554_432;

/// Why a program has no rows of sensors.
const NO_CLOCKS: &str = "a program without clocks; `prelude check` tells why";

/// The flows of the rows in the file of this name.
fn flows_in<F: Files>(
    alloc: Global,
    files: &mut F,
    form: &Form,
    name: &[u8],
) -> Result<Vec<Flow>, Fault>
    ensures flows { IfOk result (λ flows. AreFlows (F.seen files.old).folder form.now flows.items name.now) }
    ensures kept { (F.seen files.new).folder ≡ (F.seen files.old).folder }
{
    let text = read_named(alloc, files, name, MAX_ROWS)?;
    match read_flows(alloc, form, &text) {
        Ok(flows) => Ok(flows),
        Err(fault) => Err(bad_rows(alloc, name, fault)),
    }
}

/// The name of main that the words have, where they have one.
fn main_named(alloc: Global, words: &[String]) -> Result<Option<Label>, AllocError>
    ensures { IfOk result (λ name. name ≡ value_of (codes "--node") (map string_bytes words.now)) }
{
    match value_of(b"--node", words) {
        None => Ok(None),
        Some(name) => Ok(Some(Label::new(alloc, name)?)),
    }
}

/// What the stages are asked about a program alone.
fn request_of(alloc: Global, program: Vec<u8>, node: Option<Label>) -> Request
    ensures given { given_of result ≡ program_alone program.items node }
    ensures program { result.texts.program.items ≡ program.items }
{
    let texts = Texts {
        program,
        bodies: Vec::new(alloc),
        sensors: Vec::new(alloc),
        schedule: Vec::new(alloc),
        table: Vec::new(alloc),
        cores: Vec::new(alloc),
    };
    Request {
        texts,
        named: false,
        listed: false,
        node,
        until: 0,
    }
}

/// The sensors of the program that is asked about, each on the clock of its flow.
fn sensors_of(alloc: Global, request: &Request) -> Result<Vec<Input>, prl_stages::Stop>
    requires { length request.now.texts.program.items ≤ MAX_PROGRAM }
    ensures { IfOk result (λ inputs. AreInputsOf (given_of request.now) inputs.items) }
{
    let program = read_program(alloc, request)?;
    let typed = check_types(alloc, request, &program)?;
    let made = flat_of(alloc, request, &typed);
    drop(typed);
    let (flat, _, clocks) = made?;
    Ok(inputs_of(alloc, &flat, &clocks)?)
}

/// Says why the program in the file of a name has no sensors.
fn no_sensors(alloc: Global, name: &[u8], stop: prl_stages::Stop) -> Fault {
    let memory = stop.is_memory();
    drop(stop);
    if memory {
        return Fault::Stop(Stop::Memory);
    }
    unfit_for(alloc, name, Vec::from_slice(alloc, NO_CLOCKS.as_bytes()))
}

/// The form of the rows of the sensors of the program in the file that the words name.
fn form_asked<F: Files>(alloc: Global, words: &[String], files: &mut F) -> Result<Form, Fault>
    ensures form { IfOk result (IsFormAsked (F.seen files.old).folder (map string_bytes words.now)) }
    ensures kept { (F.seen files.new).folder ≡ (F.seen files.old).folder }
{
    let Some(name) = value_of(b"--program", words) else {
        return Err(Fault::Stop(Stop::Words(FORM)));
    };
    let node = main_named(alloc, words)?;
    let program = read_named(alloc, files, name, MAX_PROGRAM)?;
    let request = request_of(alloc, program, node);
    match sensors_of(alloc, &request) {
        Ok(inputs) => Ok(Form {
            dated: false,
            inputs: Seq::new(inputs),
        }),
        Err(stop) => Err(no_sensors(alloc, name, stop)),
    }
}

/// The flows of the sensors whose rows are in the file of this name.
fn sensors_in<F: Files>(
    alloc: Global,
    words: &[String],
    files: &mut F,
    name: &[u8],
) -> Result<Vec<Flow>, Fault>
    ensures flows { IfOk result (λ flows. AreSensors (F.seen files.old).folder (map string_bytes words.now) flows.items name.now) }
    ensures kept { (F.seen files.new).folder ≡ (F.seen files.old).folder }
{
    let form = form_asked(alloc, words, files)?;
    flows_in(alloc, files, &form, name)
}

/// The flows of the sensors that the words ask for.
fn sensors<F: Files>(alloc: Global, words: &[String], files: &mut F) -> Result<Vec<Flow>, Fault>
    ensures flows { IfOk result (λ flows. MatchOption (value_of (codes "--sensors") (map string_bytes words.now)) (flows.items ≡ [])
        (AreSensors (F.seen files.old).folder (map string_bytes words.now) flows.items)) }
    ensures kept { (F.seen files.new).folder ≡ (F.seen files.old).folder }
{
    match value_of(b"--sensors", words) {
        None => Ok(Vec::new(alloc)),
        Some(name) => sensors_in(alloc, words, files, name),
    }
}

/// The flows of the actuators that the words ask for.
fn actuators<F: Files>(alloc: Global, words: &[String], files: &mut F) -> Result<Vec<Flow>, Fault>
    ensures flows { IfOk result (λ flows. MatchOption (value_of (codes "--actuators") (map string_bytes words.now)) (flows.items ≡ [])
        (AreFlows (F.seen files.old).folder dated_form flows.items)) }
    ensures kept { (F.seen files.new).folder ≡ (F.seen files.old).folder }
{
    let Some(name) = value_of(b"--actuators", words) else {
        return Ok(Vec::new(alloc));
    };
    let form = Form {
        dated: true,
        inputs: Seq::new(Vec::new(alloc)),
    };
    flows_in(alloc, files, &form, name)
}

/// The flows of some rows, and then those of others.
fn joined(sensors: Vec<Flow>, actuators: Vec<Flow>) -> Result<Vec<Flow>, AllocError>
    ensures { IfOk result (λ flows. flows.items ≡ sensors.items ++ actuators.items) }
{
    let mut flows = sensors;
    for flow in actuators {
        flows.push(flow)?;
    }
    Ok(flows)
}

/// The flows that the words ask for.
pub(crate) fn asked<F: Files>(
    alloc: Global,
    words: &[String],
    files: &mut F,
) -> Result<Vec<Flow>, Fault>
    ensures flows { IfOk result (λ flows. IsAsked (F.seen files.old).folder (map string_bytes words.now) flows.items) }
    ensures kept { (F.seen files.new).folder ≡ (F.seen files.old).folder }
{
    let sensors = sensors(alloc, words, files)?;
    let actuators = actuators(alloc, words, files)?;
    Ok(joined(sensors, actuators)?)
}
