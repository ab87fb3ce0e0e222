/// What a runtime check guards against. The order is that in which the kinds are listed in the documents.
#[derive(Clone, Copy, Debug, PartialEq, Eq)]
pub enum Kind {
    Overflow,
    DivisionByZero,
    ModulusNotPositive,
    UndefinedValue,
    IndexOutOfRange,
    ValueOutOfRange,
    NoCaseLabel,
    NoNeighbour,
    NoNumber,
    WidthOutOfRange,
    NoResult,
    Assertion,
}
