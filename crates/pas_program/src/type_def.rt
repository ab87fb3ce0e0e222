/// A type (ISO 7185, 6.4). Each subrange and each array that a program writes is a type of its own.
#[derive(Clone, Copy, Debug, PartialEq, Eq)]
pub enum TypeDef {
    /// The values from `lo` to `hi` of the host `Boolean`, as 0 and 1, or of the host `integer`.
    Scalar { boolean: bool, lo: i32, hi: i32 },
    /// An array over two types: its `index` and its `element`.
    Array { index: u32, element: u32 },
}
