//! A law of texts of bodies, as a function that does nothing: its contract is the law.

ghost use Rattle.std.specs.Prelude.{◌≡◌, ℕ, List, Result};
ghost use Rattle.prl_body.specs.Texts.{TextTree};
ghost use Rattle.prl_bodytext.specs.Parsing.{IsParsed};

use prl_body::BodyFault;

/// Each text is bodies, in one way, or has one first fault. That memory runs out is none.
pub fn each_text_has_one_outcome()
    ensures some { (text : List ℕ) → (outcome : Result (List TextTree) BodyFault) × IsParsed text outcome }
    ensures one { (text : List ℕ) (a b : Result (List TextTree) BodyFault) → IsParsed text a → IsParsed text b → a ≡ b }
{}
