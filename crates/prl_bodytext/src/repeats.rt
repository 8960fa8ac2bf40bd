//! What is read one after another.

ghost use Rattle.std.specs.Prelude.{◌≡◌, map};
ghost use Rattle.prl_lex.specs.Vocabulary.{inner_of, IsApart, many, shape, next_in};
ghost use Rattle.prl_bodytext.specs.Grammar.{bodies};
ghost use Rattle.prl_bodytext.specs.code.Parses.{Parses};

use crate::parser::Parser;
use prl_lex::Stop;

/// What may stand many times in a row.
pub trait Item: Sized + Drop {
    ghost use Rattle.prl_lex.specs.Productions.{Grammar};
    ghost use Rattle.prl_lex.specs.code.Shapes.{shape};
    ghost use Rattle.prl_lex.specs.code.Languages.{inner_of};
    ghost use Rattle.prl_body.specs.Texts.{Tree};
    ghost use Rattle.prl_bodytext.specs.Grammar.{bodies};

    ghost Seen: { Type 0 };

    ghost seen: { Self → Seen };

    ghost grammar: { Grammar Tree Seen };

    /// Whether one is next.
    fn is_next(parser: &Parser<'_>) -> bool
        ensures { result ≡ next_in (shape (inner_of bodies) grammar).first parser.now };

    /// Takes one.
    fn read(parser: &mut Parser<'_>) -> Result<Self, Stop>
        ensures { Parses seen grammar result parser.entry.now parser.exit.now };
}

impl<'a> Parser<'a> {
    /// Takes as many as there are.
    #[tactic(auto, using(prl_lex::proofs::Loops::loops, crate::proofs::Right::loop_steps))]
    pub fn many<T: Item>(&mut self) -> Result<Vec<T>, Stop>
        requires { IsApart (inner_of bodies) (many T.grammar) }
        ensures { Parses (λ x. map T.seen x.items) (many T.grammar) result self.entry.now self.exit.now }
    {
        let mut items = Vec::new(self.alloc);
        'more: while T::is_next(self) {
            items.push(T::read(self)?)?;
        }
        Ok(items)
    }
}
