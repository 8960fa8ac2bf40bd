//! The first stages after the files: the program, its names and types, and its bodies.

ghost use Rattle.std.specs.Prelude.{◌≡◌, ◌<◌, ◌≤◌, length, map};
ghost use Rattle.prl_base.specs.Reading.{GivesBut};
ghost use Rattle.prl_ast.specs.Trees.{program_tree};
ghost use Rattle.prl_body.specs.Vocabulary.{body_tree, checked, text_trees, HaveBodiesOf};
ghost use Rattle.prl_names.specs.Uses.{used_imports};
ghost use Rattle.prl_types.specs.Typing.{IsTyped};
ghost use Rattle.prl_stages.specs.Vocabulary.{IsProgram, IsMain, AreBodies};
ghost use Rattle.prl_calls.specs.Stops.{given_of, PassesAt};

use crate::reading::Request;
use prl_ast::Program;
use prl_body::{Bodies, BodyFault, BodyTexts, check_bodies, used_imports_have_bodies};
use prl_bodytext::parse_bodies;
use prl_names::{Names, right_names_stand_for_something, used_imports};
use prl_print::programs_are_in_range;
use prl_stages::{MAX_BODIES, MAX_PROGRAM, Stage, Stop};
use prl_syntax::parse;
use prl_types::{Typed, check_names_types};
use std::alloc::Global;

/// The program that the text is.
pub fn read_program(alloc: Global, request: &Request) -> Result<Program, Stop>
    requires { length request.now.texts.program.items ≤ MAX_PROGRAM }
    ensures { PassesAt (given_of request.now) Stage.Grammar (λ p. IsProgram (given_of request.now) (program_tree p)) result }
{
    Ok(parse(alloc, &request.texts.program)?)
}

/// The program with its main node, where its names and types are right.
pub fn check_types<'a>(
    alloc: Global,
    request: &Request,
    program: &'a Program,
) -> Result<Typed<'a>, Stop>
    requires { IsProgram (given_of request.now) (program_tree program.now) }
    ensures { PassesAt (given_of request.now) Stage.Types
        (λ t. (t.program ≡ program.now) × IsMain (given_of request.now) (program_tree program.now) t.main
        × IsTyped (program_tree program.now) (given_of request.now).node t.main t.types) result }
{
    right_names_stand_for_something();
    programs_are_in_range();
    Ok(check_names_types(alloc, program, request.node.as_ref())?)
}

/// The bodies, checked for the imports of the program, of which the expansion of main applies some.
fn check_texts(
    alloc: Global,
    program: &Program,
    main: u32,
    written: &BodyTexts,
) -> Result<Bodies, BodyFault>
    requires { main < length (program_tree program.now).nodes }
    ensures { GivesBut BodyFault.Memory (λ bodies. map body_tree bodies) result
        (checked (program_tree program.now).imports (used_imports (program_tree program.now) main) (text_trees written.now)) }
{
    let names = Names::new(alloc, program)?;
    let used = used_imports(alloc, &names, main as usize);
    drop(names);
    let used = used?;
    let bodies = check_bodies(alloc, written, program.imports.as_slice(), &used);
    drop(used);
    bodies
}

/// The bodies of the text, checked for the imports of the program: one for each that the expansion of main applies.
pub fn read_bodies(
    alloc: Global,
    request: &Request,
    program: &Program,
    main: u32,
) -> Result<Bodies, Stop>
    requires main { IsMain (given_of request.now) (program_tree program.now) main }
    requires text { length request.now.texts.bodies.items ≤ MAX_BODIES }
    ensures { PassesAt (given_of request.now) Stage.Bodies
        (λ bodies. AreBodies (given_of request.now) (map body_tree bodies)
        × HaveBodiesOf (program_tree program.now).imports (used_imports (program_tree program.now) main) bodies) result }
{
    used_imports_have_bodies();
    let written = parse_bodies(alloc, &request.texts.bodies)?;
    Ok(check_texts(alloc, program, main, &written)?)
}
