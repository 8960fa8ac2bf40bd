//! The page, part by part, and the call that writes it.

ghost use Rattle.std.specs.Prelude.{◌≡◌, ◌++◌, IfOk, OnOk};
ghost use Rattle.prl_page.specs.Pages.{about_text, body_text, head_text, page_text, part_text};
ghost use Rattle.prl_page.specs.Html.{escaped};
ghost use Rattle.std.specs.List.{flat_map};

use crate::html::{BODY, FOOT, HEAD, push_escaped};
use crate::names::names_of;
use crate::parts::{Body, Inputs, Part, flows_part, plan_of, plan_parts};
use crate::words::{Asked, FORM, HELP, asked_of};
use prl_io::{Fault, Files, Sink, Stop, after_name, asks_help, end, read_named};
use std::alloc::{AllocError, Global};

/// The most bytes of a file.
const MOST: u64 = 33_554_432;

/// Appends what a part shows.
fn push_body(text: &mut Vec<u8>, body: &Body) -> Result<(), AllocError>
    ensures { OnOk result (text.new.items ≡ text.old.items ++ body_text body.now) }
{
    match body {
        Body::Picture(svg) => {
            text.extend_from_slice(b"<figure>\n")?;
            text.extend_from_slice(svg)?;
            text.extend_from_slice(b"</figure>\n")
        }
        Body::Text(lines) => {
            text.extend_from_slice(b"<pre>")?;
            push_escaped(text, lines)?;
            text.extend_from_slice(b"</pre>\n")
        }
    }
}

/// Appends a text between two others.
fn push_between(text: &mut Vec<u8>, front: &str, middle: &str, end: &str) -> Result<(), AllocError>
    ensures { OnOk result (text.new.items ≡ text.old.items ++ front.now ++ middle.now ++ end.now) }
{
    text.extend_from_slice(front.as_bytes())?;
    text.extend_from_slice(middle.as_bytes())?;
    text.extend_from_slice(end.as_bytes())
}

/// Appends a text as HTML shows it between two others.
fn push_shown(text: &mut Vec<u8>, front: &str, bytes: &[u8], end: &str) -> Result<(), AllocError>
    ensures { OnOk result (text.new.items ≡ text.old.items ++ front.now ++ escaped bytes.now ++ end.now) }
{
    text.extend_from_slice(front.as_bytes())?;
    push_escaped(text, bytes)?;
    text.extend_from_slice(end.as_bytes())
}

/// Appends what a part says of what it shows.
fn push_about(text: &mut Vec<u8>, part: &Part) -> Result<(), AllocError>
    ensures { OnOk result (text.new.items ≡ text.old.items ++ about_text part.now) }
{
    push_between(text, "<h2>", part.heading, "</h2>\n")?;
    push_between(text, "<p>", part.says, " ")?;
    push_shown(text, "<code>", &part.words, "</code></p>\n")
}

/// Appends a part.
fn push_part(text: &mut Vec<u8>, part: &Part) -> Result<(), AllocError>
    ensures { OnOk result (text.new.items ≡ text.old.items ++ part_text part.now) }
{
    push_about(text, part)?;
    push_body(text, &part.body)
}

/// Appends parts, one below another.
fn push_parts(text: &mut Vec<u8>, parts: &[Part]) -> Result<(), AllocError>
    ensures { OnOk result (text.new.items ≡ text.old.items ++ flat_map part_text parts.now) }
{
    for part in parts {
        push_part(text, part)?;
    }
    Ok(())
}

/// Appends what stands above the parts.
fn push_head(text: &mut Vec<u8>, title: &[u8]) -> Result<(), AllocError>
    ensures { OnOk result (text.new.items ≡ text.old.items ++ head_text title.now) }
{
    push_shown(text, HEAD, title, BODY)?;
    push_shown(text, "<h1>", title, "</h1>\n")
}

/// The page of this title.
fn text_of(alloc: Global, title: &[u8], parts: &[Part]) -> Result<Vec<u8>, AllocError>
    ensures { IfOk result (λ text. text.items ≡ page_text title.now parts.now) }
{
    let mut text = Vec::new(alloc);
    push_head(&mut text, title)?;
    push_parts(&mut text, parts)?;
    text.extend_from_slice(FOOT.as_bytes())?;
    Ok(text)
}

/// The texts of the bodies and of the sensors' rows.
fn read_inputs<F: Files>(
    alloc: Global,
    asked: Asked<'_>,
    files: &mut F,
    sensors: &str,
) -> Result<Inputs, Fault> {
    let bodies = match asked.bodies {
        Some(name) => Some(read_named(alloc, files, name.as_bytes(), MOST)?),
        None => None,
    };
    let sensors = read_named(alloc, files, sensors.as_bytes(), MOST)?;
    Ok(Inputs { bodies, sensors })
}

/// The part of the flows, where they are asked for.
fn flows_asked<F: Files>(
    alloc: Global,
    asked: Asked<'_>,
    files: &mut F,
    source: &[u8],
) -> Result<Option<Part>, Fault> {
    if let (Some(sensors), Some(until)) = (asked.sensors, asked.until) {
        let inputs = read_inputs(alloc, asked, files, sensors)?;
        return Ok(Some(flows_part(alloc, asked, source, &inputs, sensors, until)?));
    }
    Ok(None)
}

/// The parts with one more, where there is one.
fn with_flows(mut parts: Vec<Part>, flows: Option<Part>) -> Result<Vec<Part>, AllocError> {
    if let Some(part) = flows {
        parts.push(part)?;
    }
    Ok(parts)
}

/// The page that is asked for.
fn page_of<F: Files>(alloc: Global, asked: Asked<'_>, files: &mut F) -> Result<Vec<u8>, Fault> {
    let source = read_named(alloc, files, asked.program.as_bytes(), MOST)?;
    let plan = plan_of(alloc, asked, &source)?;
    let names = names_of(alloc, asked.program, &plan)?;
    let flows = flows_asked(alloc, asked, files, &source)?;
    let parts = with_flows(plan_parts(alloc, asked, &source, &plan, &names)?, flows)?;
    Ok(text_of(alloc, asked.program.as_bytes(), &parts)?)
}

/// What the words ask for: what the options mean, or a page.
fn answer<F: Files>(alloc: Global, words: &[String], files: &mut F) -> Result<Vec<u8>, Fault> {
    if asks_help(words) {
        return Ok(Vec::from_slice(alloc, HELP.as_bytes())?);
    }
    match asked_of(words) {
        Some(asked) => page_of(alloc, asked, files),
        None => Err(Fault::Stop(Stop::Words(FORM))),
    }
}

/// Writes the page of a program: it goes to `out`, and at every status but 0 one line goes to `err`. The first word is the program's
/// own name, which is passed over.
pub fn page<F: Files, S: Sink, E: Sink>(
    alloc: Global,
    words: &[String],
    files: &mut F,
    out: &mut S,
    err: &mut E,
) -> u8 {
    let outcome = answer(alloc, after_name(words), files);
    end(out, err, outcome)
}
