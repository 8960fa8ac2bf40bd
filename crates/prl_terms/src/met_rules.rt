//! The rules that were met, for contracts alone.

ghost use Rattle.std.specs.Prelude.{◌≡◌, ◌++◌, ◌∷◌, [], List};
ghost use Rattle.std.specs.Borrow.{ftrue};
ghost use Rattle.prl_terms.specs.declared.terms.Rule.{Rule as RuleOf};

use crate::terms::Rule;
use std::marker::Model;

/// The rules that were met, in order. It is a list of the contracts alone and takes no bytes: a program of a few
/// bytes has rules for each flow of each application.
#[derive(Drop)]
pub(crate) struct MetRules {
    pub ghost list: { List RuleOf },
}

impl Model for MetRules {
    ghost also_owns = { λ _. ftrue };
}

impl MetRules {
    /// No rule yet.
    pub(crate) fn new() -> MetRules
        ensures { result.list ≡ [] }
    {
        MetRules {}
    }

    /// This rule was met, too.
    pub(crate) fn one_more(_before: &MetRules, _rule: &Rule) -> MetRules
        ensures { result.list ≡ _before.now.list ++ (_rule.now ∷ []) }
    {
        MetRules {}
    }
}
