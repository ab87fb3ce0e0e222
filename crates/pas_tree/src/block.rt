use crate::constant::Constant;
use crate::statement::Statement;
use crate::type_expr::TypeExpr;
use px_base::Span;
use sqlite_items::Items;

/// A program (ISO 7185, 6.10). The names after its own declare nothing and are left out.
#[derive(Debug, Drop)]
pub struct Tree {
    pub name: Span,
    pub block: Block,
}

/// Declarations and a statement part (ISO 7185, 6.2.1).
#[cycle(block)]
#[derive(Debug, Drop)]
pub struct Block {
    pub labels: Items<Label>,
    pub consts: Items<ConstDecl>,
    pub types: Items<TypeDecl>,
    pub vars: Items<VarDecl>,
    pub routines: Items<Routine>,
    /// The word `begin` of the statement part.
    pub begin: Span,
    pub body: Items<Statement>,
    /// The word `end` of the statement part.
    pub end: Span,
}

/// A label by the value of its digits, and where they stand.
#[derive(Clone, Copy, Debug, PartialEq, Eq)]
pub struct Label {
    pub value: u32,
    pub at: Span,
}

/// `name = value` of a constant part.
#[derive(Clone, Copy, Debug, PartialEq, Eq)]
pub struct ConstDecl {
    pub name: Span,
    pub value: Constant,
}

/// `name = of_type` of a type part.
#[derive(Debug, Drop)]
pub struct TypeDecl {
    pub name: Span,
    pub of_type: TypeExpr,
}

/// `names: of_type` of a variable part, with one or more names.
#[derive(Debug, Drop)]
pub struct VarDecl {
    pub names: Items<Span>,
    pub of_type: TypeExpr,
}

/// The declaration of a procedure or a function (ISO 7185, 6.6).
#[cycle(block)]
#[derive(Debug, Drop)]
pub struct Routine {
    pub name: Span,
    /// Whether the heading begins with `function`.
    pub function: bool,
    pub formals: Items<Section>,
    /// The identifier of the result type, where one is written.
    pub result: Option<Span>,
    pub body: RoutineBody,
}

/// A section of formal parameters, with one or more names.
#[derive(Debug, Drop)]
pub struct Section {
    /// Whether the section begins with `var`.
    pub by_var: bool,
    pub names: Items<Span>,
    /// The identifier of their type.
    pub of_type: Span,
}

/// What follows the heading of a routine.
#[cycle(block)]
#[derive(Debug, Drop)]
pub enum RoutineBody {
    Block(Block),
    /// A word in place of the block, as `forward`.
    Word(Span),
}
