//! The imports of a program and the bodies of a text by their names, looked up in ordered maps.

ghost use Rattle.std.specs.Prelude.{◌≡◌, IfOk, map, take};
ghost use Rattle.std.specs.Option.{option_copied};
ghost use Rattle.prl_body.specs.Checks.{import_named, has_text};
ghost use Rattle.prl_body.specs.Texts.{text_tree};

use crate::scopes::{first_named, is_before};
use crate::texts::BodyText;
use prl_ast::Import;
use prl_base::Name;
use prl_names::{Indices, Mention, Mentioned, found, indices_of};
use std::alloc::{AllocError, Global};
use std::marker::Model;

/// The imports of a program and the bodies of a text, with the index of the first of each name. Contracts see both lists.
#[derive(Drop)]
pub struct Directory<'a> {
    imports: &'a [Import],
    texts: &'a [BodyText],
    of_imports: Indices<'a>,
    of_texts: Indices<'a>,
}

impl<'a> Model for Directory<'a> {
    ghost use Rattle.std.specs.Prelude.{map};
    ghost use Rattle.prl_ast.specs.declared.declarations.Import.{Import};
    ghost use Rattle.prl_names.specs.Tables.{AreIndices};
    ghost use Rattle.prl_body.specs.Directories.{DirectoryView, text_names};
    ghost use Rattle.prl_body.specs.contracts.texts.Expr as expr;
    ghost use Rattle.std.specs.Coded.{codes};

    ghost Value = { DirectoryView };

    ghost coded = { Prim.hlevel (codes, expr.the_row.coded) };

    ghost view = { λ d. record { imports = d.imports.now; texts = d.texts.now } };

    ghost invariant = { λ d. AreIndices d.of_imports (map (λ (i : Import). i.name) d.imports.now) × AreIndices d.of_texts (text_names d.texts.now) };
}

impl Mentioned for BodyText {
    ghost placed = { λ t. record { name = t.name; at = t.at } };

    fn mention(&self) -> Mention<'_> {
        Mention {
            name: &self.name,
            at: self.at,
        }
    }
}

impl<'a> Directory<'a> {
    /// The names of these.
    pub fn new(
        alloc: Global,
        imports: &'a [Import],
        texts: &'a [BodyText],
    ) -> Result<Directory<'a>, AllocError>
        ensures { IfOk result (λ d. d ≡ record { imports = imports.now; texts = texts.now }) }
    {
        let of_imports = indices_of(alloc, imports)?;
        let of_texts = indices_of(alloc, texts)?;
        Ok(Directory {
            imports,
            texts,
            of_imports,
            of_texts,
        })
    }

    /// The bodies of the text.
    pub fn texts(&self) -> &'a [BodyText]
        ensures { result.now ≡ self.now.texts }
    {
        self.texts
    }

    /// The import of this name.
    pub fn import(&self, name: &Name) -> Option<&'a Import>
        ensures { option_copied result ≡ import_named self.now.imports name.now }
    {
        match first_named(&self.of_imports, self.imports, name) {
            Some((_, import)) => Some(import),
            None => None,
        }
    }

    /// Whether a body of the text has the name.
    #[tactic(auto, using(crate::proofs::Lookups::text_is_there))]
    pub fn has_text(&self, name: &Name) -> bool
        ensures { result ≡ has_text (map text_tree self.now.texts) name.now }
    {
        found(&self.of_texts, name.bytes()).is_some()
    }

    /// Whether one of the first `k` bodies of the text has the name.
    #[tactic(auto, using(crate::proofs::Lookups::text_is_earlier))]
    pub fn has_earlier_text(&self, name: &Name, k: usize) -> bool
        ensures { result ≡ has_text (map text_tree (take k self.now.texts)) name.now }
    {
        is_before(&self.of_texts, name, k)
    }
}
