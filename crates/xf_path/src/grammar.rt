//! The rules of the grammar (XPath 1.0, sections 2 and 3), each of which takes its tokens from the front of those that are left.

ghost use Rattle.std.specs.Prelude.{◌≡◌, ◌≤◌, [], Ok, IfOk};
ghost use Rattle.xf_base.specs.Gives.{Gives};
ghost use Rattle.xf_path.specs.Reading.{Reads, place_of, open_bracket};
ghost use Rattle.xf_path.specs.Steps as step;
ghost use Rattle.xf_path.specs.Paths as path;
ghost use Rattle.xf_path.specs.Calls as call;
ghost use Rattle.xf_path.specs.Primary as primary;
ghost use Rattle.xf_path.specs.Operators as operator;
ghost use Rattle.xf_path.specs.Grammar as spec;

use crate::calls::{takes, unknown};
use crate::fault::{ExprKind, ParseFault};
use crate::operands::{chain_of, filter_of, literal, negated, number};
use crate::steps::{abbreviated, axis, close, close_square, node_test, open_bracket};
use crate::token::Kind;
use crate::tokens::Tokens;
use crate::words::{
    begins_primary, begins_step, is_comma, next_rank, opens_predicate, operator_at, separator,
};
use std::alloc::Global;
use xf_base::limits::{EXPRESSION_LIMIT, NESTING_LIMIT};
use xf_base::{Boxed, Items};
use xf_def_syntax::{Axis, Expr, ExprList, Link, LinkList, Start, Step, StepList};
use xf_name::Prefixes;
use xf_num::Decimals;
use xf_table::find;
use xf_table::functions::rows;

/// How many ranks of operators there are, the union among them.
const RANKS: u32 = 7;

/// The expression that a text is, with numbers of so many decimals.
#[tactic(auto, unfolding(crate::specs::Grammar::side))]
pub fn parse(
    alloc: Global,
    text: &str,
    prefixes: &Prefixes,
    decimals: Decimals,
) -> Result<Expr, ParseFault>
    ensures { Gives ParseFault.Memory (λ tree. tree) result (spec.parsed decimals prefixes.now text.now) }
{
    if text.len() > EXPRESSION_LIMIT {
        return Err(ParseFault::Expr(0, ExprKind::Long));
    }
    let mut tokens = Tokens::new(text);
    let grammar = Grammar {
        alloc,
        prefixes,
        decimals,
    };
    let tree = grammar.side(&mut tokens, RANKS, NESTING_LIMIT)?;
    match tokens.kind() {
        Kind::End => Ok(tree),
        _ => Err(tokens.fault(ExprKind::Syntax)),
    }
}

/// What the rules need.
#[derive(Clone, Copy)]
struct Grammar<'a> {
    alloc: Global,
    prefixes: &'a Prefixes,
    decimals: Decimals,
}

impl<'a> Grammar<'a> {
    // ---- operators

    /// What stands beside an operator of a rank: an expression of tighter operators alone.
    #[cycle(rules)]
    fn side(&self, tokens: &mut Tokens<'_>, rank: u32, depth: u32) -> Result<Expr, ParseFault>
        ensures { Reads (spec.side self.now.decimals self.now.prefixes.now depth rank tokens.old) result tokens.new }
    {
        if rank == 0 {
            return self.operand(tokens, depth);
        }
        let mut tree = self.unary(tokens, depth)?;
        // Of the ranks below this one the operators are read. A rank that has none here is passed over.
        let mut least = 1;
        while let Some(next) = next_rank(tokens.kind(), tokens.text()) {
            if next < least || rank <= next {
                break;
            }
            let found = self.links(tokens, next, depth)?;
            tree = chain_of(self.alloc, tree, found)?;
            least = next + 1;
        }
        Ok(tree)
    }

    /// The operators of a rank that follow, with their right sides.
    #[cycle(rules)]
    fn links(&self, tokens: &mut Tokens<'_>, rank: u32, depth: u32) -> Result<LinkList, ParseFault>
        ensures { Reads (operator.more_links (spec.side self.now.decimals self.now.prefixes.now depth rank) rank EXPRESSION_LIMIT [] tokens.old) result tokens.new }
    {
        let mut found = Items::new(self.alloc);
        // A text has no more operators than bytes.
        for _turn in 0..EXPRESSION_LIMIT {
            let place = tokens.place();
            let Some(operator) = operator_at(rank, tokens.kind(), tokens.text()) else {
                return Ok(found);
            };
            tokens.take();
            let right = self.side(tokens, rank, depth)?;
            found.push(Link {
                place,
                operator,
                right,
            })?;
        }
        Ok(found)
    }

    // ---- signs

    /// A union behind any number of signs.
    #[cycle(rules)]
    #[tactic(auto, unfolding(crate::specs::Grammar::unary_by))]
    fn unary(&self, tokens: &mut Tokens<'_>, depth: u32) -> Result<Expr, ParseFault>
        ensures { Reads (spec.unary_by (spec.signed self.now.decimals self.now.prefixes.now depth) tokens.old) result tokens.new }
    {
        match tokens.kind() {
            Kind::Minus => {
                let place = tokens.place();
                let (signs, inner) = self.signed(tokens, depth)?;
                Ok(negated(self.alloc, place, signs, inner)?)
            }
            _ => self.union(tokens, depth),
        }
    }

    /// The number of signs, and the union behind them.
    #[cycle(rules)]
    fn signed(&self, tokens: &mut Tokens<'_>, depth: u32) -> Result<(u32, Expr), ParseFault>
        ensures reads { Reads (spec.signed self.now.decimals self.now.prefixes.now depth tokens.old) result tokens.new }
        ensures within { IfOk result (λ found. found.0 ≤ depth) }
    {
        match tokens.kind() {
            Kind::Minus => {
                if depth == 0 {
                    return Err(tokens.fault(ExprKind::Deep));
                }
                tokens.take();
                let (signs, inner) = self.signed(tokens, depth - 1)?;
                Ok((signs + 1, inner))
            }
            _ => {
                let inner = self.union(tokens, depth)?;
                Ok((0, inner))
            }
        }
    }

    /// Operands with `|` between them.
    #[cycle(rules)]
    #[tactic(auto, unfolding(crate::specs::Operators::chain, crate::specs::Grammar::side))]
    fn union(&self, tokens: &mut Tokens<'_>, depth: u32) -> Result<Expr, ParseFault>
        ensures { Reads (operator.chain (spec.side self.now.decimals self.now.prefixes.now depth 0) 0 tokens.old) result tokens.new }
    {
        let first = self.operand(tokens, depth)?;
        if operator_at(0, tokens.kind(), tokens.text()).is_none() {
            return Ok(first);
        }
        let found = self.links(tokens, 0, depth)?;
        Ok(chain_of(self.alloc, first, found)?)
    }

    // ---- operands

    /// A primary expression with predicates and steps behind it, or a location path.
    #[cycle(rules)]
    fn operand(&self, tokens: &mut Tokens<'_>, depth: u32) -> Result<Expr, ParseFault>
        ensures { Reads (spec.operand self.now.decimals self.now.prefixes.now depth tokens.old) result tokens.new }
    {
        if !begins_primary(tokens.kind(), tokens.text()) {
            return self.path(tokens, depth);
        }
        let first = self.filtered(tokens, depth)?;
        self.onward(tokens, first, depth)
    }

    /// A primary expression and its predicates.
    #[cycle(rules)]
    #[tactic(auto, unfolding(crate::specs::Primary::filtered))]
    fn filtered(&self, tokens: &mut Tokens<'_>, depth: u32) -> Result<Expr, ParseFault>
        ensures { Reads (primary.filtered self.now.decimals (spec.nested self.now.decimals self.now.prefixes.now depth) (spec.called self.now.decimals self.now.prefixes.now depth) tokens.old) result tokens.new }
    {
        let first = self.primary(tokens, depth)?;
        let found = self.predicates(tokens, depth)?;
        Ok(filter_of(self.alloc, first, found)?)
    }

    /// The steps behind an expression, if any.
    #[cycle(rules)]
    #[tactic(auto, unfolding(crate::specs::Primary::onward))]
    fn onward(&self, tokens: &mut Tokens<'_>, first: Expr, depth: u32) -> Result<Expr, ParseFault>
        ensures { Reads (primary.onward self.now.prefixes.now (spec.nested self.now.decimals self.now.prefixes.now depth) first tokens.old) result tokens.new }
    {
        let Some(is_below) = separator(tokens.kind()) else {
            return Ok(first);
        };
        tokens.take();
        let found = self.steps(tokens, is_below, depth)?;
        Ok(Expr::From(Boxed::new(self.alloc, first)?, found))
    }

    /// A number, a literal, an expression in parentheses, or a call.
    #[cycle(rules)]
    #[tactic(auto, unfolding(crate::specs::Primary::primary))]
    fn primary(&self, tokens: &mut Tokens<'_>, depth: u32) -> Result<Expr, ParseFault>
        ensures { Reads (primary.primary self.now.decimals (spec.nested self.now.decimals self.now.prefixes.now depth) (spec.called self.now.decimals self.now.prefixes.now depth) tokens.old) result tokens.new }
    {
        match tokens.kind() {
            Kind::Open => self.grouped(tokens, depth),
            Kind::Number => Ok(number(tokens, self.decimals)),
            Kind::Literal => literal(self.alloc, tokens),
            _ => self.call(tokens, depth),
        }
    }

    // ---- brackets

    /// An expression in parentheses.
    #[cycle(rules)]
    #[tactic(auto, unfolding(crate::specs::Primary::grouped))]
    fn grouped(&self, tokens: &mut Tokens<'_>, depth: u32) -> Result<Expr, ParseFault>
        ensures { Reads (primary.grouped (spec.nested self.now.decimals self.now.prefixes.now depth) tokens.old) result tokens.new }
    {
        let inner = self.nested(tokens, depth)?;
        close(tokens)?;
        Ok(inner)
    }

    /// An expression in brackets, from the opening one on.
    #[cycle(rules)]
    #[tactic(auto, unfolding(crate::specs::Grammar::nested))]
    fn nested(&self, tokens: &mut Tokens<'_>, depth: u32) -> Result<Expr, ParseFault>
        ensures { Reads (spec.nested self.now.decimals self.now.prefixes.now depth tokens.old) result tokens.new }
    {
        open_bracket(tokens, depth)?;
        self.inside(tokens, depth)
    }

    /// What stands in a bracket that is open.
    #[cycle(rules)]
    fn inside(&self, tokens: &mut Tokens<'_>, depth: u32) -> Result<Expr, ParseFault>
        ensures { Reads (spec.inside self.now.decimals self.now.prefixes.now depth tokens.old) result tokens.new }
    {
        if depth == 0 {
            return Err(tokens.fault(ExprKind::Deep));
        }
        self.side(tokens, RANKS, depth - 1)
    }

    // ---- calls

    /// A call of a function.
    #[cycle(rules)]
    fn call(&self, tokens: &mut Tokens<'_>, depth: u32) -> Result<Expr, ParseFault>
        ensures { Reads (spec.called self.now.decimals self.now.prefixes.now depth tokens.old) result tokens.new }
    {
        match find(rows(), tokens.text()) {
            Some(code) => self.called(tokens, code, depth),
            None => Err(unknown(self.prefixes, tokens)),
        }
    }

    /// A call of the function of a code.
    #[cycle(rules)]
    #[tactic(auto, unfolding(crate::specs::Calls::called))]
    fn called(&self, tokens: &mut Tokens<'_>, code: u16, depth: u32) -> Result<Expr, ParseFault>
        ensures { Reads (call.called (open_bracket depth) (spec.inside self.now.decimals self.now.prefixes.now depth) (place_of tokens.old) code tokens.old) result tokens.new }
    {
        let place = tokens.place();
        tokens.take();
        open_bracket(tokens, depth)?;
        let found = self.arguments(tokens, depth)?;
        if !takes(code, found.as_slice()) {
            return Err(ParseFault::Expr(place, ExprKind::Arity));
        }
        Ok(Expr::Call(place, code, found))
    }

    /// The arguments of a call, and its end.
    #[cycle(rules)]
    #[tactic(auto, unfolding(crate::specs::Calls::arguments))]
    fn arguments(&self, tokens: &mut Tokens<'_>, depth: u32) -> Result<ExprList, ParseFault>
        ensures { Reads (call.arguments (spec.inside self.now.decimals self.now.prefixes.now depth) tokens.old) result tokens.new }
    {
        match tokens.kind() {
            Kind::Close => {
                tokens.take();
                Ok(Items::new(self.alloc))
            }
            _ => {
                let mut found = Items::new(self.alloc);
                let first = self.inside(tokens, depth)?;
                found.push(first)?;
                let found = self.more_arguments(tokens, found, depth)?;
                ended(tokens, found)
            }
        }
    }

    /// The arguments behind those found.
    #[cycle(rules)]
    fn more_arguments(
        &self,
        tokens: &mut Tokens<'_>,
        found: ExprList,
        depth: u32,
    ) -> Result<ExprList, ParseFault>
        ensures { Reads (call.more_arguments (spec.inside self.now.decimals self.now.prefixes.now depth) EXPRESSION_LIMIT found tokens.old) result tokens.new }
    {
        let mut found = found;
        // A text has no more arguments than bytes.
        for _turn in 0..EXPRESSION_LIMIT {
            if !is_comma(tokens.kind()) {
                return Ok(found);
            }
            tokens.take();
            let next = self.inside(tokens, depth)?;
            found.push(next)?;
        }
        Ok(found)
    }

    // ---- location paths

    #[cycle(rules)]
    #[tactic(auto, unfolding(crate::specs::Paths::path))]
    fn path(&self, tokens: &mut Tokens<'_>, depth: u32) -> Result<Expr, ParseFault>
        ensures { Reads (path.path self.now.prefixes.now (spec.nested self.now.decimals self.now.prefixes.now depth) tokens.old) result tokens.new }
    {
        let place = tokens.place();
        match tokens.kind() {
            Kind::Slash => {
                tokens.take();
                if !begins_step(tokens.kind()) {
                    return Ok(Expr::Path(place, Start::Root, Items::new(self.alloc)));
                }
                let found = self.steps(tokens, false, depth)?;
                Ok(Expr::Path(place, Start::Root, found))
            }
            Kind::SlashSlash => {
                tokens.take();
                let found = self.steps(tokens, true, depth)?;
                Ok(Expr::Path(place, Start::Root, found))
            }
            _ => {
                let found = self.steps(tokens, false, depth)?;
                Ok(Expr::Path(place, Start::Context, found))
            }
        }
    }

    /// Steps with `/` or `//` between them, the first of which is below where `//` stood before it.
    #[cycle(rules)]
    #[tactic(auto, unfolding(crate::specs::Paths::steps))]
    fn steps(
        &self,
        tokens: &mut Tokens<'_>,
        is_below: bool,
        depth: u32,
    ) -> Result<StepList, ParseFault>
        ensures { Reads (path.steps self.now.prefixes.now (spec.nested self.now.decimals self.now.prefixes.now depth) is_below tokens.old) result tokens.new }
    {
        let mut found = Items::new(self.alloc);
        let first = self.step(tokens, is_below, depth)?;
        found.push(first)?;
        // A text has no more steps than bytes.
        for _turn in 0..EXPRESSION_LIMIT {
            let Some(is_below) = separator(tokens.kind()) else {
                return Ok(found);
            };
            tokens.take();
            let next = self.step(tokens, is_below, depth)?;
            found.push(next)?;
        }
        Ok(found)
    }

    #[cycle(rules)]
    #[tactic(auto, unfolding(crate::specs::Steps::step))]
    fn step(&self, tokens: &mut Tokens<'_>, is_below: bool, depth: u32) -> Result<Step, ParseFault>
        ensures { Reads (step.step self.now.prefixes.now (spec.nested self.now.decimals self.now.prefixes.now depth) is_below tokens.old) result tokens.new }
    {
        match tokens.kind() {
            Kind::Dot => Ok(abbreviated(self.alloc, tokens, is_below, Axis::Self_)),
            Kind::DotDot => Ok(abbreviated(self.alloc, tokens, is_below, Axis::Parent)),
            _ => self.written(tokens, is_below, depth),
        }
    }

    /// A step whose node test is written.
    #[cycle(rules)]
    #[tactic(auto, unfolding(crate::specs::Steps::written))]
    fn written(
        &self,
        tokens: &mut Tokens<'_>,
        is_below: bool,
        depth: u32,
    ) -> Result<Step, ParseFault>
        ensures { Reads (step.written self.now.prefixes.now (spec.nested self.now.decimals self.now.prefixes.now depth) is_below tokens.old) result tokens.new }
    {
        let place = tokens.place();
        let axis = axis(tokens)?;
        let test = node_test(self.alloc, self.prefixes, tokens)?;
        let predicates = self.predicates(tokens, depth)?;
        Ok(Step {
            place,
            is_below,
            is_written: true,
            axis,
            test,
            predicates,
        })
    }

    /// The predicates that follow, if any.
    #[cycle(rules)]
    fn predicates(&self, tokens: &mut Tokens<'_>, depth: u32) -> Result<ExprList, ParseFault>
        ensures { Reads (step.more_predicates (spec.nested self.now.decimals self.now.prefixes.now depth) EXPRESSION_LIMIT [] tokens.old) result tokens.new }
    {
        if !opens_predicate(tokens.kind()) {
            return Ok(Items::new(self.alloc));
        }
        self.some_predicates(tokens, depth)
    }

    /// The predicates that follow, one after another.
    #[cycle(rules)]
    fn some_predicates(&self, tokens: &mut Tokens<'_>, depth: u32) -> Result<ExprList, ParseFault>
        ensures { Reads (step.more_predicates (spec.nested self.now.decimals self.now.prefixes.now depth) EXPRESSION_LIMIT [] tokens.old) result tokens.new }
    {
        let mut found = Items::new(self.alloc);
        // A text has no more predicates than bytes.
        for _turn in 0..EXPRESSION_LIMIT {
            if !opens_predicate(tokens.kind()) {
                return Ok(found);
            }
            let next = self.predicate(tokens, depth)?;
            found.push(next)?;
        }
        Ok(found)
    }

    #[cycle(rules)]
    #[tactic(auto, unfolding(crate::specs::Steps::predicate))]
    fn predicate(&self, tokens: &mut Tokens<'_>, depth: u32) -> Result<Expr, ParseFault>
        ensures { Reads (step.predicate (spec.nested self.now.decimals self.now.prefixes.now depth) tokens.old) result tokens.new }
    {
        let inner = self.nested(tokens, depth)?;
        close_square(tokens)?;
        Ok(inner)
    }
}

/// The end of the arguments.
fn ended(tokens: &mut Tokens<'_>, found: ExprList) -> Result<ExprList, ParseFault>
    ensures { Reads (call.ended found tokens.old) result tokens.new }
{
    close(tokens)?;
    Ok(found)
}
