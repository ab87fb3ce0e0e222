use crate::expr::Expr;
use crate::statement::Statement;
use px_base::Span;
use sqlite_items::Items;

/// The program's block, a procedure or a function.
#[derive(Debug, Drop)]
pub struct Routine {
    pub name: Span,
    /// The routine in whose block it is declared. The program's block alone has none.
    pub parent: Option<u32>,
    /// How many routines are around it.
    pub level: u32,
    /// The names of the constants, types and routines that its block declares, in the order of the text. A routine is named
    /// where it is declared, not again where the body of its `forward` heading stands.
    pub names: Items<Span>,
    /// Its parameters, in order.
    pub formals: Items<u32>,
    /// All its variables: the parameters, those of its variable part, the result, and the hidden ones for calls and then
    /// for `for` statements, each of these by place.
    pub vars: Items<u32>,
    /// The variable for the result of a function.
    pub result: Option<u32>,
    /// A `Body::Begin`, with the places of the `begin` and the `end` of its statement part.
    pub body: Statement,
}

/// An assertion that stands at a statement.
#[derive(Debug, Drop)]
pub struct Assert {
    /// The routine in which it stands.
    pub routine: u32,
    /// Whether it need only hold at some time, and not always.
    pub sometime: bool,
    pub cond: Expr,
    /// The place of its opening bracket.
    pub at: u32,
}
