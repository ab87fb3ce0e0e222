//! Programs (ISO 7185, 6.10).

ghost use Rattle.std.specs.Prelude.{◌≡◌, ◌≤◌, ◌*◌, ℕ, Bool, true, length, IfOk};
ghost use Rattle.pas_lexer.specs.Spans.{NumbersFit, SpansRise};
ghost use Rattle.pas_parser.specs.Depth.{tree_depth};
ghost use Rattle.pas_parser.specs.Each.{NumbersPass, each_tree, fits, numbered, within};
ghost use Rattle.pas_parser.specs.Grammar.Program.{IsProgram};
ghost use Rattle.pas_tree.specs.Order.{IsRising, tree_starts};
ghost use Rattle.pas_parser.specs.Parts.{tree_parts};
ghost use Rattle.pas_parser.specs.Program as spec;
ghost use Rattle.pas_parser.specs.Outcome.{Gives, IsPlace};
ghost use Rattle.pas_parser.specs.Reading.{Advances, Stays};

use crate::block::block;
use crate::constant::idents;
use crate::fault::ParseFault;
use crate::look::{expect_ident, expect_symbol, expect_word, is_symbol, kind_at, span_at};
use pas_lexer::{Symbol, Token, Word};
use pas_tree::Tree;
use std::alloc::Global;

/// The greatest depth of a measured construct.
const MAX_DEPTH: u32 = 200;

/// `["(" idents ")"]`, whose names declare nothing: the place after it.
#[tactic(auto, unfolding(crate::specs::Program::parameters))]
fn parameters(alloc: Global, tokens: &[Token], at: u32) -> Result<u32, ParseFault>
    requires { IsPlace tokens.now at }
    ensures place { spec.StaysAt tokens.now at result }
    ensures value { Gives (spec.parameters tokens.now at) result }
{
    if !is_symbol(tokens, at, Symbol::LeftParen) {
        return Ok(at);
    }
    let found = idents(alloc, tokens, at + 1)?;
    expect_symbol(tokens, found.next, Symbol::RightParen)
}

/// `"program" ident ["(" idents ")"] ";" block "."`, and then the end.
#[tactic(auto, unfolding(crate::specs::Program::program, crate::specs::Program::nothing_at))]
fn program(alloc: Global, tokens: &[Token]) -> Result<Tree, ParseFault>
    requires { length tokens.now ≤ 1048576 }
    ensures within { spec.Faults tokens.now result }
    ensures value { Gives (spec.program tokens.now) result }
{
    let name = expect_word(tokens, 0, Word::WProgram)?;
    let semicolon = parameters(alloc, tokens, expect_ident(tokens, name)?)?;
    let first = expect_symbol(tokens, semicolon, Symbol::Semicolon)?;
    let block = block(alloc, tokens, MAX_DEPTH, first)?;
    let end = expect_symbol(tokens, block.next, Symbol::Dot)?;
    if kind_at(tokens, end).is_some() {
        return Err(ParseFault::NoRule { token: end });
    }
    Ok(Tree {
        name: span_at(tokens, name),
        block: block.tree,
    })
}

/// The tree of a program, or the first fault of its tokens.
///
/// # Errors
///
/// Of the two faults the one at the earlier token counts, and at one token `NoRule`.
pub fn parse(alloc: Global, tokens: &[Token]) -> Result<Tree, ParseFault>
    requires { length tokens.now ≤ 1048576 }
    ensures within { spec.Faults tokens.now result }
    ensures value { Gives (spec.program tokens.now) result }

    // All the tokens are a program of the grammar, and this is its tree.
    ensures grammar { IfOk result (λ tree. IsProgram tokens.now tree) }

    ensures depth { IfOk result (λ tree. tree_depth tree ≤ 200) }
    ensures parts { IfOk result (λ tree. tree_parts tree ≤ 2 * length tokens.now) }

    // Each number of the tree is that of a number token: what all of those pass, it passes.
    ensures numbers { (passes : ℕ → Bool) → NumbersPass passes tokens.now → IfOk result (λ tree. each_tree (numbered passes) tree ≡ true) }
    ensures spans { (len : ℕ) → SpansRise len tokens.now → IfOk result (λ tree. each_tree (within len) tree ≡ true) }

    // Its constructs begin in the order in which the grammar writes them, at different places for different tokens.
    ensures order { (len : ℕ) → SpansRise len tokens.now → IfOk result (λ tree. IsRising 0 (tree_starts tree)) }

    // Of the tokens of a text of `len` bytes the numbers and the spans hold at once.
    ensures text { (len : ℕ) → SpansRise len tokens.now → NumbersFit tokens.now → IfOk result (λ tree. each_tree (fits len) tree ≡ true) }
{
    program(alloc, tokens)
}
