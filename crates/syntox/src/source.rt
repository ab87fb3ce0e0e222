//! From the bytes of a source to its flow, with the cause where there is none.
ghost use Rattle.std.specs.Prelude.{◌≡◌, ◌≤◌, List, ℕ, length, IfOk, IfErr};
ghost use Rattle.pas_check.specs.Blocks.{IsSound};
ghost use Rattle.pas_check.specs.Fault.{IsWithin};
ghost use Rattle.pas_check.specs.Placing.{PlacesRise};
ghost use Rattle.pas_lexer.specs.Covering as covering;
ghost use Rattle.pas_lexer.specs.Covering.{HasTokens};
ghost use Rattle.pas_lexer.specs.Spans.{SpansRise};
ghost use Rattle.pas_lexer.specs.declared.token.Token.{Token};
ghost use Rattle.pas_parser.specs.Grammar.Program.{IsProgram};
ghost use Rattle.pas_parser.specs.Outcome.{Gives};
ghost use Rattle.pas_parser.specs.Program.{program};
ghost use Rattle.pas_program.specs.Rising as rising;
ghost use Rattle.pas_tree.specs.declared.block.Block.{Block};
ghost use Rattle.pas_tree.specs.declared.block.RoutineBody.TheViews.{out-Block};
ghost use Rattle.pas_tree.specs.declared.block.Tree.{Tree};
ghost use Rattle.syntox.specs.Lines.{max_source};
ghost use Rattle.syntox.specs.Rising.{IsBlockIn};
ghost use Rattle.syntox.specs.Source.{CanBeTold, IsFlowOf, IsTreeOf, Refuses, token_place};

use control_points::{Flow, build, flows_are_those_of_paths};
use pas_check::{CheckFault, check};
use pas_lexer::{LexFault, Token, lex};
use pas_parser::{ParseFault, parse};
use report::SourceFault;
use std::alloc::{AllocError, Global};

/// Why a source has no flow.
#[derive(Debug, Drop)]
pub enum Refusal {
    /// It has a fault.
    Fault(SourceFault),
    /// There was too little memory.
    Memory(AllocError),
}

/// What a lexical fault is to the source.
fn lexical(fault: LexFault) -> Refusal
    ensures fault { (text : List ℕ) → covering.Refuses text fault → Refuses text result }
    ensures place { (text : List ℕ) → covering.Refuses text fault → CanBeTold (length text) result }
{
    match fault {
        LexFault::Memory(error) => Refusal::Memory(error),
        _ => Refusal::Fault(SourceFault::Lex(fault)),
    }
}

/// The place of a token, or the end of the text.
fn place_of(tokens: &[Token], end: u32, token: u32) -> u32
    ensures { result ≡ token_place end tokens.now token }
{
    match tokens.get(token as usize) {
        Some(token) => token.span.start,
        None => end,
    }
}

/// What a fault of the syntax is to a source that ends there.
fn syntax(fault: ParseFault, tokens: &[Token], end: u32) -> Refusal
    ensures fault { (text : List ℕ) → length text ≡ end → HasTokens text tokens.now
        → Gives (program tokens.now) (Err fault) → Refuses text result }
    ensures place { SpansRise end tokens.now → CanBeTold end result }
{
    match fault {
        ParseFault::NoRule { token } | ParseFault::TooDeep { token } => {
            Refusal::Fault(SourceFault::Parse(fault, place_of(tokens, end, token)))
        }
        ParseFault::Memory(error) => Refusal::Memory(error),
    }
}

/// What a broken rule is to the source.
fn checked(fault: CheckFault) -> Refusal
    ensures fault { (text : List ℕ) (tree : Tree) → IsTreeOf text tree → IsWithin (length text) fault → IsSound text tree fault → Refuses text result }
    ensures place { (text : List ℕ) → IsWithin (length text) fault → CanBeTold (length text) result }
{
    match fault {
        CheckFault::Wrong { .. } => Refusal::Fault(SourceFault::Check(fault)),
        CheckFault::Memory(error) => Refusal::Memory(error),
    }
}

/// The flow of the program in a text of at most 1,048,576 bytes.
///
/// # Errors
///
/// The first fault of the text: lexical, then of the syntax, then of a rule of names, types, labels or control variables.
pub fn flow_of(alloc: Global, text: &[u8]) -> Result<Flow, Refusal>
    requires { length text.now ≤ max_source }
    ensures flow { IfOk result (IsFlowOf text.now) }
    ensures rising { IfOk result (λ flow. rising.PlacesRise flow.program.routines flow.program.asserts) }
    ensures fault { IfErr result (Refuses text.now) }
    ensures place { IfErr result (CanBeTold (length text.now)) }
{
    let tokens = match lex(alloc, text) {
        Ok(tokens) => tokens,
        Err(fault) => return Err(lexical(fault)),
    };
    let tree = match parse(alloc, &tokens) {
        Ok(tree) => tree,
        Err(fault) => return Err(syntax(fault, &tokens, text.len() as u32)),
    };
    let program = match check(alloc, text, &tree) {
        Ok(program) => program,
        Err(fault) => return Err(checked(fault)),
    };
    flows_are_those_of_paths();
    match build(alloc, program) {
        Ok(flow) => Ok(flow),
        Err(error) => Err(Refusal::Memory(error)),
    }
}

/// A law: in the tree of a program the places of the statements of each block, and of their labels, rise with the text. So by
/// its place a `goto` may lead to a label exactly where it may by its path (`places_say_the_same_as_paths` of `pas_check`).
pub fn places_rise_in_each_tree()
    ensures { (tokens : List Token) (len : ℕ) → SpansRise len tokens → (tree : Tree) → IsProgram tokens tree
        → (b : Block) → IsBlockIn b tree.block → PlacesRise (out-Block b).body }
{}
