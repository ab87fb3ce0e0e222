//! What is said of each fault.
ghost use Rattle.std.specs.Prelude.{◌≡◌, ◌≤◌};
ghost use Rattle.report.specs.Report as report;
ghost use Rattle.report.specs.Wording as spec;

use control_points::PointKind;
use pas_lexer::LexFault;
use pas_parser::ParseFault;

/// What is said of a lexical fault.
pub fn lexical_message(fault: LexFault) -> &'static str
    requires { spec.IsLexical fault }
    ensures { result.now ≡ spec.lexical_message fault }
{
    match fault {
        LexFault::BadByte { .. } => "bad byte",
        LexFault::Unclosed { comment: true, .. } => "unclosed comment",
        LexFault::Unclosed { comment: false, .. } => "unclosed string",
        LexFault::TooBig { .. } => "number too large",
        LexFault::OpenAssertion { .. } => "unclosed assertion",
        LexFault::Memory(_) => unreachable!(),
    }
}

/// What is said of a fault of the syntax, at a token or at the end of the text.
pub fn syntax_message(fault: ParseFault, at_end: bool) -> &'static str
    requires { spec.IsSyntax fault }
    ensures { result.now ≡ spec.syntax_message fault at_end }
{
    match fault {
        ParseFault::NoRule { .. } if at_end => "unexpected end",
        ParseFault::NoRule { .. } => "unexpected token",
        ParseFault::TooDeep { .. } => "nesting too deep",
        ParseFault::Memory(_) => unreachable!(),
    }
}

/// What is said of a broken rule of names, types, labels or control variables.
pub fn check_message(code: u8) -> &'static str
    requires low { 1 ≤ code }
    requires high { code ≤ 18 }
    ensures { result.now ≡ spec.check_message code }
{
    match code {
        1 => "unknown name",
        2 => "declared twice",
        3 => "used before its declaration",
        4 => "wrong kind of name",
        5 => "wrong type",
        6 => "wrong number of actuals",
        7 => "not a variable of the formal type",
        8 => "empty range",
        9 => "label not declared and placed once",
        10 => "goto not allowed",
        11 => "control variable not allowed",
        12 => "double case constant",
        13 => "function without assignment to its name",
        14 => "forward without body",
        15 => "call in an assertion",
        16 => "too many elements",
        17 => "procedures nested too deep",
        18 => "label above 9999",
        _ => unreachable!(),
    }
}

/// Where a point lies, as a report says it.
pub(crate) fn point_word(kind: PointKind) -> &'static str
    ensures { result.now ≡ report.point_word kind }
{
    match kind {
        PointKind::Entry => "entry",
        PointKind::Before => "before",
        PointKind::AfterCall => "after call",
        PointKind::AfterRead => "after read",
        PointKind::AfterWrite => "after write",
        PointKind::Until => "until",
        PointKind::Step => "step",
        PointKind::Exit => "exit",
    }
}
