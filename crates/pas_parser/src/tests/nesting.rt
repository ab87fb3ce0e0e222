use super::*;

/// `front`, so many times `part`, and `back`.
fn repeated(
    alloc: Global,
    front: &str,
    part: &str,
    times: u32,
    back: &str,
) -> Result<String, Fail> {
    let mut source = String::from_str(alloc, front)?;
    for _ in 0..times {
        source.push_str(part)?;
    }
    source.push_str(back)?;
    Ok(source)
}

/// What is repeated, how often it may be, and the first token of the construct that is too deep where it is repeated once
/// more. The program's block has depth 1, a statement in it 2, and an expression in that 3.
const MEASURED: [(&str, &str, &str, u32, u32); 11] = [
    // 199 blocks in the program's
    (
        "program p; ",
        "procedure q; ",
        "begin end; begin end.",
        199,
        603,
    ),
    // 199 statements
    ("program p; begin ", "begin ", "end.", 199, 203),
    ("program p; begin ", "while a do ", "end.", 198, 599),
    ("program p; begin ", "if a then ", "else end.", 198, 599),
    ("program p; begin ", "repeat ", "until a; end.", 199, 203),
    // 198 expressions, of which the outermost stands in no other
    ("program p; begin x := ", "(", "a) end.", 197, 204),
    ("program p; begin x := ", "a[", "1] end.", 197, 402),
    // the factor after `not`
    ("program p; begin x := ", "not ", "a end.", 197, 204),
    // 198 types
    (
        "program p; type t = ",
        "array[1..2] of ",
        "u; begin end.",
        198,
        1399,
    ),
    // operators: the left operand of the last is all that stands before it
    (
        "program p; var x: integer; begin x := 1 ",
        "+ 1 ",
        "end.",
        197,
        406,
    ),
    (
        "program p; var x: integer; begin x := 1 ",
        "div 1 ",
        "end.",
        197,
        406,
    ),
];

/// With one too many the fault is there, whatever comes later.
#[test]
fn greatest_depths(rt: HostRuntime) -> Result<(), Fail> {
    for (front, part, back, most, token) in MEASURED {
        assert!(rt; most < 1000);
        for (times, too_deep) in [(most, false), (most + 1, true)] {
            let source = repeated(rt.alloc(), front, part, times, back)?;
            let tokens = tokens_of(&rt, rt.alloc(), &source)?;
            let fault = fault_of(&rt, rt.alloc(), &tokens);
            assert_eq!(rt;
                fault == Some(ParseFault::TooDeep { token }),
                too_deep,
                "{times} times {part}: {fault:?}"
            );
        }
    }
    Ok(())
}

/// Sources that are nested as deep as may be, and read.
#[test]
fn deep_programs(rt: HostRuntime) -> Result<(), Fail> {
    for (front, part, middle, closing, back, times) in [
        (
            "program p; ",
            "procedure q; ",
            "begin end",
            "; begin end",
            ".",
            199,
        ),
        ("program p; begin ", "begin ", "", " end", " end.", 199),
        ("program p; begin ", "if a then ", "", " else", " end.", 198),
        ("program p; begin ", "repeat ", "", " until a", " end.", 198),
        ("program p; begin x := ", "(", "a", ")", " end.", 197),
        ("program p; begin x := ", "f(a[", "a", "])", " end.", 98),
        ("program p; begin x := ", "not ", "a", "", " end.", 197),
        ("program p; begin x := -", "a - ", "a", "", " end.", 197),
        (
            "program p; type t = ",
            "array[1..2] of ",
            "u",
            "",
            "; begin end.",
            198,
        ),
    ] {
        let front = repeated(rt.alloc(), front, part, times, middle)?;
        let source = repeated(rt.alloc(), &front, closing, times, back)?;
        let tokens = tokens_of(&rt, rt.alloc(), &source)?;
        assert_eq!(rt;
            fault_of(&rt, rt.alloc(), &tokens),
            None,
            "{times} times {part}"
        );
    }
    Ok(())
}

/// At a token that begins no construct the depth doesn't count.
#[test]
fn unexpected_before_too_deep(rt: HostRuntime) -> Result<(), Fail> {
    for (front, part, back, times, token) in [
        ("program p; ", "procedure q; ", "of", 200, 603),
        ("program p; begin ", "begin ", ")", 199, 203),
        ("program p; begin x := ", "(", ")", 198, 204),
        ("program p; begin x := ", "not ", "+", 198, 204),
        ("program p; type t = ", "array[1..2] of ", "(", 199, 1399),
    ] {
        let source = repeated(rt.alloc(), front, part, times, back)?;
        let tokens = tokens_of(&rt, rt.alloc(), &source)?;
        assert_eq!(rt;
            fault_of(&rt, rt.alloc(), &tokens),
            Some(ParseFault::NoRule { token }),
            "{times} times {part}"
        );
    }
    Ok(())
}

/// The front, and then its last token up to so many tokens in all.
fn filled(alloc: Global, front: &[Token], last: Token, len: usize) -> Result<Vec<Token>, Fail> {
    let mut tokens = front.to_vec(alloc)?;
    for _ in front.len()..len {
        tokens.push(last)?;
    }
    Ok(tokens)
}

/// The greatest number of tokens, all of them parentheses but for what makes them an expression.
#[test]
fn as_many_parentheses_as_may_be(rt: HostRuntime) -> Result<(), Fail> {
    let front = tokens_of(&rt, rt.alloc(), "program p; begin x := (")?;
    let paren = front.last().copied().ok_or("no token")?;
    for (front, fault) in [
        (&front[..], ParseFault::TooDeep { token: 204 }),
        (&front[..0], ParseFault::NoRule { token: 0 }),
    ] {
        let tokens = filled(rt.alloc(), front, paren, 1048576)?;
        assert_eq!(rt; fault_of(&rt, rt.alloc(), &tokens), Some(fault));
    }
    Ok(())
}
