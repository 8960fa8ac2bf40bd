//! Expressions. Only parentheses nest: prefixes and postfixes are read by loops.

ghost use Rattle.std.specs.Prelude.{◌≡◌, ◌∷◌, ◌≤◌, [], length, map, IfOk};
ghost use Rattle.prl_base.specs.Reading.{Gives};
ghost use Rattle.prl_ast.specs.Trees.{none, root_of, tree_of};
ghost use Rattle.prl_lex.specs.Vocabulary.{first_place, stop_of, with_front, ◌&◌, ◌⊳◌, number};
ghost use Rattle.prl_lex.specs.Vocabulary.{inner_of, read_at, read_nested, many, shape};
ghost use Rattle.prl_lex.specs.Vocabulary.{next_in};
ghost use Rattle.prl_syntax.specs.code.Links.{link_view, with_prefixes};
ghost use Rattle.prl_syntax.specs.code.Links as links;
ghost use Rattle.prl_syntax.specs.Grammar as grammar;
ghost use Rattle.prl_syntax.specs.code.Parses.{Parses};
ghost use Rattle.prl_syntax.specs.Trees.{trees_from};
ghost use Rattle.prl_syntax.specs.declared.words.Fixed.TheVariants as kinds;

use crate::parser::Parser;
use crate::values::small;
use crate::words::Fixed;
use prl_ast::{Base, Expr, PlacedOp};
use prl_base::{Op, Seq, Span};
use prl_lex::Stop;

impl<'a> Parser<'a> {
    /// Takes this token and a factor.
    fn factor(&mut self, fixed: Fixed) -> Result<(Span, u64), Stop>
        ensures { Parses (λ x. x) (grammar.the fixed & number) result self.entry.now self.exit.now }
    {
        let at = self.expect(fixed)?;
        let factor = self.number()?;
        Ok((at, factor))
    }

    /// Takes a postfix.
    #[tactic(auto, unfolding(crate::specs::Grammar::Postfix))]
    fn postfix(&mut self) -> Result<PlacedOp, Stop>
        ensures { Parses (λ x. x) grammar.Postfix result self.entry.now self.exit.now }
    {
        if self.next_is(Fixed::Up) {
            let (at, factor) = self.factor(Fixed::Up)?;
            let op = Op::Up(small(factor));
            return Ok(PlacedOp { op, at });
        }
        if self.next_is(Fixed::Down) {
            let (at, factor) = self.factor(Fixed::Down)?;
            let op = Op::Down(small(factor));
            return Ok(PlacedOp { op, at });
        }
        let at = self.expect(Fixed::Shift)?;
        let shift = self.ratio()?;
        let op = Op::Shift(shift);
        Ok(PlacedOp { op, at })
    }

    #[tactic(auto, unfolding(crate::specs::Grammar::Postfix))]
    fn begins_postfix(&self) -> bool
        ensures { result ≡ next_in (shape (inner_of grammar.programs) grammar.Postfix).first self.now }
    {
        self.next_is(Fixed::Up) || self.next_is(Fixed::Down) || self.next_is(Fixed::Shift)
    }

    /// Takes postfixes, as many as there are.
    #[tactic(auto, using(prl_lex::proofs::Loops::loops, crate::proofs::Right::postfix_steps))]
    fn postfixes(&mut self) -> Result<Vec<PlacedOp>, Stop>
        ensures { Parses (λ x. x.items) (many grammar.Postfix) result self.entry.now self.exit.now }
    {
        let mut ops = Vec::new(self.alloc);
        'more: while self.begins_postfix() {
            let PlacedOp { op, at } = self.postfix()?;
            ops.push(PlacedOp { op, at })?;
        }
        Ok(ops)
    }

    #[tactic(auto, unfolding(crate::specs::Grammar::Base))]
    fn begins_base(&self) -> bool
        ensures { result ≡ next_in (shape (inner_of grammar.programs) grammar.Base).first self.now }
    {
        self.next_is_name() || self.next_is(Fixed::Open)
    }
}

/// A prefix, or what the prefixes are applied to.
#[derive(Drop)]
enum Link {
    Prefix(PlacedOp),
    Base(Base),
}

impl<'a> Parser<'a> {
    /// Takes a constant, and the operator of which it is the constant.
    #[tactic(auto, unfolding(crate::specs::code::Links::ConstantLink, crate::specs::code::Links::AfterLink))]
    fn constant_link(&mut self) -> Result<Link, Stop>
        ensures { Parses link_view links.ConstantLink result self.entry.now self.exit.now }
    {
        let value = self.constant()?;
        if self.next_is(Fixed::Fby) {
            let at = self.expect(Fixed::Fby)?;
            let op = Op::Fby(value);
            return Ok(Link::Prefix(PlacedOp { op, at }));
        }
        if self.next_is(Fixed::Cons) {
            let at = self.expect(Fixed::Cons)?;
            let op = Op::Cons(value);
            return Ok(Link::Prefix(PlacedOp { op, at }));
        }
        Ok(Link::Base(Base::Const(value)))
    }

    /// Takes a prefix, or what the prefixes are applied to.
    #[cycle(expression)]
    #[tactic(auto, unfolding(crate::specs::code::Links::NextLink))]
    fn read_link(&mut self) -> Result<Link, Stop>
        ensures { Parses link_view links.NextLink result self.entry.now self.exit.now }
    {
        if self.begins_base() {
            return Ok(Link::Base(self.base()?));
        }
        if self.next_is(Fixed::Tail) {
            let at = self.expect(Fixed::Tail)?;
            let op = Op::Tail;
            return Ok(Link::Prefix(PlacedOp { op, at }));
        }
        self.constant_link()
    }

    /// Takes a name, an application or a group.
    #[cycle(expression)]
    #[tactic(auto, using(crate::proofs::Rows::root_group, crate::proofs::Rows::root_apply), unfolding(crate::specs::Grammar::Base))]
    fn base(&mut self) -> Result<Base, Stop>
        ensures { Parses root_of grammar.Base result self.entry.now self.exit.now }
    {
        if self.next_is_name() {
            let (name, at) = self.name()?;
            if self.next_is(Fixed::Open) {
                let args = self.arguments()?;
                return Ok(Base::Apply { name, at, args });
            }
            return Ok(Base::Var(name));
        }
        self.expect(Fixed::Open)?;
        let parts = self.closed_exprs()?;
        Ok(Base::Group(parts))
    }

    /// Takes arguments in parentheses, or parentheses alone.
    #[cycle(expression)]
    fn arguments(&mut self) -> Result<Vec<Expr>, Stop>
        ensures { Parses (λ x. trees_from (map tree_of x.items)) (grammar.maybe_in_parens none grammar.Exprs) result self.entry.now self.exit.now }
    {
        self.expect(Fixed::Open)?;
        if self.next_is(Fixed::Close) {
            self.expect(Fixed::Close)?;
            return Ok(Vec::new(self.alloc));
        }
        self.closed_exprs()
    }

    /// Takes a comma and an expression.
    #[cycle(expression)]
    fn comma_expr(&mut self) -> Result<Expr, Stop>
        ensures { Parses tree_of (grammar.the kinds.Comma ⊳ grammar.Expr) result self.entry.now self.exit.now }
    {
        self.expect(Fixed::Comma)?;
        self.expr()
    }

    /// Takes expressions after the first ones, each with a comma before it.
    #[cycle(expression)]
    #[tactic(auto, using(prl_lex::proofs::Loops::loops, crate::proofs::Right::comma_expr_steps))]
    fn more_exprs(&mut self, front: Vec<Expr>) -> Result<Vec<Expr>, Stop>
        ensures { Gives (λ x. (map tree_of x.items, self.exit.now)) stop_of result (with_front (map tree_of front.items) (read_at grammar.programs (many (grammar.the kinds.Comma ⊳ grammar.Expr)) self.entry.now)) }
    {
        let mut exprs = front;
        'more: while self.next_is(Fixed::Comma) {
            exprs.push(self.comma_expr()?)?;
        }
        Ok(exprs)
    }

    /// Takes expressions with commas between, and the closing parenthesis.
    #[cycle(expression)]
    #[tactic(auto, unfolding(crate::specs::Grammar::Exprs))]
    fn closed_exprs(&mut self) -> Result<Vec<Expr>, Stop>
        ensures { Parses (λ x. trees_from (map tree_of x.items)) (grammar.closed grammar.Exprs) result self.entry.now self.exit.now }
    {
        let first = self.expr()?;
        let mut front = Vec::new(self.alloc);
        front.push(first)?;
        let exprs = self.more_exprs(front)?;
        self.expect(Fixed::Close)?;
        Ok(exprs)
    }

    /// Takes prefixes after the first ones, and what they are applied to.
    #[cycle(expression)]
    fn stem(&mut self, front: Vec<PlacedOp>) -> Result<(Vec<PlacedOp>, Base), Stop>
        ensures { Gives (λ x. ((x.0.items, root_of x.1), self.exit.now)) stop_of result (with_prefixes front.items (read_nested grammar.programs self.entry.now)) }
    {
        let mut prefixes = front;
        'each: loop {
            let link = self.read_link()?;
            match link {
                Link::Prefix(op) => prefixes.push(op)?,
                Link::Base(base) => return Ok((prefixes, base)),
            }
        }
    }

    /// Takes an expression.
    #[cycle(expression)]
    #[tactic(auto, unfolding(crate::specs::Grammar::Expr))]
    pub fn expr(&mut self) -> Result<Expr, Stop>
        ensures { Parses tree_of grammar.Expr result self.entry.now self.exit.now }
    {
        let at = self.place_of_first();
        let (pre, base) = self.stem(Vec::new(self.alloc))?;
        let post = self.postfixes()?;
        Ok(Expr {
            pre: Seq::new(pre),
            base,
            post: Seq::new(post),
            at,
        })
    }
}
