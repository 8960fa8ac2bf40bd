//! Laws of checked bodies, as functions that do nothing: the contract of each is the law.

ghost use Rattle.std.specs.Prelude.{◌≡◌, ◌≢◌, ℕ, List, Ok, Err, map};
ghost use Rattle.prl_ast.specs.declared.declarations.Import.{Import};
ghost use Rattle.prl_body.specs.declared.bodies.CheckedBody.{CheckedBody};
ghost use Rattle.prl_body.specs.Checks.{body_tree, checked};
ghost use Rattle.prl_body.specs.Texts.{TextTree};
ghost use Rattle.prl_body.specs.Used.{HaveBodiesOf};

use crate::faults::BodyFault;

/// After `check_bodies` each used import has a body, which has exactly the ports of the import.
pub fn used_imports_have_bodies()
    ensures { (imports : List Import) (used : List (List ℕ)) (texts : List TextTree) (bodies : List CheckedBody)
        → checked imports used texts ≡ Ok (map body_tree bodies) → HaveBodiesOf imports used bodies }
{}

/// Each list of bodies is right for the imports or has a fault of its own. That memory runs out is none.
pub fn each_list_of_bodies_has_an_outcome()
    ensures { (imports : List Import) (used : List (List ℕ)) (texts : List TextTree) →
        checked imports used texts ≢ Err BodyFault.Memory }
{}
