//! The lines as people read them. Expected lines are written out from the rules, and none is computed.
ghost use Rattle.std.specs.Prelude.{◌≤◌};
ghost use Rattle.report.specs.Wording.{CanTell};

use crate::{SourceFault, fault_text};
use pas_check::CheckFault;
use pas_lexer::LexFault;
use pas_parser::ParseFault;
use std::alloc::{AllocError, Global};
use std::test::Fail;

/// 33 bytes; the line feeds stand at 10 and 17.
const TEXT: &[u8; 33] = b"program p;\nbegin \n  x := 1 end. {";

fn told(alloc: Global, fault: &SourceFault) -> Result<Vec<u8>, AllocError>
    requires { CanTell 33 fault.now }
{
    fault_text(alloc, "a.pas", TEXT, fault)
}

fn lexical(alloc: Global, fault: LexFault) -> Result<Vec<u8>, AllocError>
    requires { CanTell 33 (SourceFault.Lex fault) }
{
    told(alloc, &SourceFault::Lex(fault))
}

fn syntax(alloc: Global, fault: ParseFault, at: u32) -> Result<Vec<u8>, AllocError>
    requires { CanTell 33 (SourceFault.Parse fault at) }
{
    told(alloc, &SourceFault::Parse(fault, at))
}

#[test]
fn lines(rt: HostRuntime) -> Result<(), Fail> {
    let alloc = rt.alloc();
    let lines: [(Vec<u8>, &str); 11] = [
        (told(alloc, &SourceFault::TooLarge)?, "a.pas: too large\n"),
        (
            told(alloc, &SourceFault::Cells(4_002_000))?,
            "a.pas: too many cells: 4002000\n",
        ),
        (
            lexical(alloc, LexFault::BadByte { at: 0 })?,
            "a.pas:1:1: bad byte\n",
        ),
        (
            lexical(
                alloc,
                LexFault::Unclosed {
                    at: 32,
                    comment: true,
                },
            )?,
            "a.pas:3:15: unclosed comment\n",
        ),
        (
            lexical(
                alloc,
                LexFault::Unclosed {
                    at: 11,
                    comment: false,
                },
            )?,
            "a.pas:2:1: unclosed string\n",
        ),
        (
            lexical(alloc, LexFault::TooBig { at: 10 })?,
            "a.pas:1:11: number too large\n",
        ),
        (
            lexical(alloc, LexFault::OpenAssertion { at: 17 })?,
            "a.pas:2:7: unclosed assertion\n",
        ),
        (
            syntax(alloc, ParseFault::NoRule { token: 5 }, 20)?,
            "a.pas:3:3: unexpected token\n",
        ),
        (
            syntax(alloc, ParseFault::NoRule { token: 9 }, 33)?,
            "a.pas:3:16: unexpected end\n",
        ),
        (
            syntax(alloc, ParseFault::TooDeep { token: 9 }, 32)?,
            "a.pas:3:15: nesting too deep\n",
        ),
        (
            fault_text(
                alloc,
                "",
                b"",
                &SourceFault::Parse(ParseFault::NoRule { token: 0 }, 0),
            )?,
            ":1:1: unexpected end\n",
        ),
    ];
    for (line, wanted) in &lines {
        assert_eq!(rt; line.as_slice(), wanted.as_bytes());
    }
    Ok(())
}

#[test]
fn rules(rt: HostRuntime) -> Result<(), Fail> {
    let messages: [&str; 18] = [
        "a.pas:3:8: unknown name\n",
        "a.pas:3:8: declared twice\n",
        "a.pas:3:8: used before its declaration\n",
        "a.pas:3:8: wrong kind of name\n",
        "a.pas:3:8: wrong type\n",
        "a.pas:3:8: wrong number of actuals\n",
        "a.pas:3:8: not a variable of the formal type\n",
        "a.pas:3:8: empty range\n",
        "a.pas:3:8: label not declared and placed once\n",
        "a.pas:3:8: goto not allowed\n",
        "a.pas:3:8: control variable not allowed\n",
        "a.pas:3:8: double case constant\n",
        "a.pas:3:8: function without assignment to its name\n",
        "a.pas:3:8: forward without body\n",
        "a.pas:3:8: call in an assertion\n",
        "a.pas:3:8: too many elements\n",
        "a.pas:3:8: procedures nested too deep\n",
        "a.pas:3:8: label above 9999\n",
    ];
    for code in 1..19u8 {
        let wrong = CheckFault::Wrong { code, at: 25 };
        let line = told(rt.alloc(), &SourceFault::Check(wrong))?;
        assert_eq!(rt; line.as_slice(), messages[code as usize - 1].as_bytes());
    }
    Ok(())
}
