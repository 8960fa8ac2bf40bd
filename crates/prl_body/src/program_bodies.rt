//! The checked bodies of a program.

ghost use Rattle.std.specs.Prelude.{◌≡◌, [], map, Ok};
ghost use Rattle.std.specs.Option.{option_copied};
ghost use Rattle.prl_base.specs.Reading.{GivesBut};
ghost use Rattle.prl_body.specs.Bodies.{body_named};
ghost use Rattle.prl_body.specs.Checks.{body_tree, has_body, checked_bodies, all_there, checked};
ghost use Rattle.prl_body.specs.Texts.{text_tree, text_trees};

use crate::bodies::Body;
use crate::checks::checked_body;
use crate::directories::Directory;
use crate::faults::BodyFault;
use crate::texts::BodyTexts;
use prl_ast::Import;
use prl_base::Name;
use std::alloc::Global;
use std::marker::Model;

/// The bodies of a program's imports. Contracts see the list of their parts, in the order of the text.
pub struct Bodies {
    bodies: Vec<Body>,
}

impl Model for Bodies {
    ghost use Rattle.std.specs.Prelude.{List};
    ghost use Rattle.prl_body.specs.declared.bodies.CheckedBody.{CheckedBody};
    ghost use Rattle.prl_body.specs.contracts.codes.Code as code;
    ghost use Rattle.std.specs.Coded.{codes};

    ghost Value = { List CheckedBody };

    ghost coded = { Prim.hlevel (codes, code.the_row.coded) };

    ghost view = { λ b. b.bodies.items };
}

impl Bodies {
    /// No body at all. Takes no memory.
    pub fn none(alloc: Global) -> Bodies
        ensures { result ≡ [] }
    {
        Bodies {
            bodies: Vec::new(alloc),
        }
    }

    /// The body of this name; none where there is no such body. Takes no memory.
    pub fn of(&self, name: &Name) -> Option<&Body>
        ensures { option_copied result ≡ body_named self.now name.now }
    {
        body_named(self.bodies.as_slice(), name)
    }
}

/// The body of this name.
fn body_named<'a>(bodies: &'a [Body], name: &Name) -> Option<&'a Body>
    ensures { option_copied result ≡ body_named bodies.now name.now }
{
    for body in bodies {
        if body.parts().name.bytes() == name.bytes() {
            return Some(body);
        }
    }
    None
}

/// The checked bodies of imports, in the order of the text.
fn checked_bodies(alloc: Global, directory: &Directory<'_>) -> Result<Vec<Body>, BodyFault>
    ensures { GivesBut BodyFault.Memory (λ v. map body_tree v.items) result (checked_bodies directory.now.imports [] (map text_tree directory.now.texts)) }
{
    let mut bodies = Vec::new(alloc);
    let texts = directory.texts();
    for (k, text) in texts.iter().enumerate() {
        match directory.import(&text.name) {
            None => {}
            Some(import) => {
                if directory.has_earlier_text(&text.name, k) {
                    return Err(BodyFault::BodyName(text.at.at));
                }
                let body = checked_body(alloc, import, text)?;
                bodies.push(body)?;
            }
        }
    }
    Ok(bodies)
}

/// Whether a body has the name, where these are the checked ones: one of the text has it, and an import.
fn has_body(directory: &Directory<'_>, _bodies: &[Body], name: &Name) -> bool
    requires { checked_bodies directory.now.imports [] (map text_tree directory.now.texts) ≡ Ok (map body_tree _bodies.now) }
    ensures { result ≡ has_body (map body_tree _bodies.now) name.now }
{
    directory.has_text(name) && directory.import(name).is_some()
}

/// Checks that each used import has a body, where these are the checked ones.
fn all_there(
    alloc: Global,
    directory: &Directory<'_>,
    bodies: &[Body],
    used: &[Name],
) -> Result<(), BodyFault>
    requires { checked_bodies directory.now.imports [] (map text_tree directory.now.texts) ≡ Ok (map body_tree bodies.now) }
    ensures { GivesBut BodyFault.Memory (λ x. x) result (all_there (map body_tree bodies.now) used.now) }
{
    for name in used {
        if !has_body(directory, bodies, name) {
            return Err(BodyFault::Missing(name.copy(alloc)?));
        }
    }
    Ok(())
}

/// The bodies of a program with these imports, where each of the names `used` has to have one. A body of no
/// import stays unread.
///
/// Else the first fault: each body in the order of the text has its faults of names in the order of the text,
/// then the first of types, then that an output has no statement; and then the first used import without a
/// body; or want of memory.
pub fn check_bodies(
    alloc: Global,
    texts: &BodyTexts,
    imports: &[Import],
    used: &[Name],
) -> Result<Bodies, BodyFault>
    ensures { GivesBut BodyFault.Memory (λ bodies. map body_tree bodies) result (checked imports.now used.now (text_trees texts.now)) }
{
    let directory = Directory::new(alloc, imports, texts.bodies.as_slice())?;
    let bodies = checked_bodies(alloc, &directory)?;
    all_there(alloc, &directory, bodies.as_slice(), used)?;
    Ok(Bodies { bodies })
}

impl Drop for Bodies {
    fn drop(self) {
        let Bodies { bodies } = self;
        drop(bodies);
    }
}
