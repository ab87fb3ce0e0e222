use crate::constant::Constant;
use px_base::Span;
use sqlite_items::{Boxed, Items};

/// A type as a definition or a declaration writes it (ISO 7185, 6.4).
#[derive(Debug, Drop)]
pub enum TypeExpr {
    /// The identifier of a type.
    Name {
        name: Span,
    },
    /// `lo..hi`
    Range {
        lo: Constant,
        hi: Constant,
        span: Span,
    },
    /// `array[indexes] of element`, with one or more index types.
    Array {
        indexes: Items<TypeExpr>,
        element: Boxed<TypeExpr>,
        span: Span,
    },
}
