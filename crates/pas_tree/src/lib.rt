//! A Pascal program as it is written (ISO 7185, 6.2 to 6.10): what the parser makes and the checker reads.
//!
//! To contracts each of these types is plain data: an `Items` is the list of its elements and a `Boxed` is what it
//! holds. All spans are byte offsets from 0 into the source.
#![tactic(auto)]

mod block;
mod constant;
mod expr;
mod statement;
mod type_expr;

pub use block::{Block, ConstDecl, Label, Routine, RoutineBody, Section, Tree, TypeDecl, VarDecl};
pub use constant::{Constant, ConstantValue, Sign};
pub use expr::{Access, Actual, ActualValue, Expr, span_of};
pub use statement::{Assertion, Body, Element, Statement};
pub use type_expr::TypeExpr;
