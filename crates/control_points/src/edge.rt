use pas_program::{Access, Actual, Expr, WriteItem};
use sqlite_items::Items;

/// A way from one point to another, with the action that is done on it.
#[derive(Debug, Drop)]
pub struct Edge {
    pub from: u32,
    pub act: Act,
    pub to: u32,
}

/// An action. The calls in its expressions are made before it, by actions of their own.
#[derive(Debug, Drop)]
pub enum Act {
    /// Nothing is done.
    Skip,
    /// The assignment of a scalar.
    Assign {
        to: Access,
        value: Expr,
    },
    /// The assignment of a whole array.
    Copy {
        to: Access,
        from: Access,
    },
    /// To the entry of `routine`. `slot` is the variable for the result of a function, and `at` the place of the name.
    Call {
        routine: u32,
        actuals: Items<Actual>,
        slot: Option<u32>,
        at: u32,
    },
    /// From the exit of a routine to where the call of the edge `call` returns.
    Return {
        call: u32,
    },
    /// To a label that stands in `routine`, whose activation goes on.
    Goto {
        routine: u32,
    },
    /// Where the condition has the value `wanted`.
    Test {
        cond: Expr,
        wanted: bool,
    },
    /// Where the selector of a `case` is one of the constants.
    Arm {
        of: Expr,
        consts: Items<i32>,
    },
    /// Into the statement of a `for`, where its range is not empty.
    Enter {
        control: u32,
        bound: u32,
        first: Expr,
        down: bool,
        last: Expr,
    },
    /// Past a `for` whose range is empty.
    Bypass {
        control: u32,
        bound: u32,
        first: Expr,
        down: bool,
        last: Expr,
    },
    /// To the next turn of a `for`, where the control variable has not reached the last value.
    Next {
        control: u32,
        bound: u32,
        down: bool,
    },
    /// Out of a `for`, where the control variable has reached the last value.
    Finish {
        control: u32,
        bound: u32,
        down: bool,
    },
    /// One parameter of `read`.
    Read {
        to: Access,
    },
    /// To the next line of the input.
    DropLine,
    /// One parameter of `write`.
    Write {
        item: WriteItem,
    },
    /// A line end to the output.
    EndLine,
}
