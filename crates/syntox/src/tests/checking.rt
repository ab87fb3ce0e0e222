//! The rules of names, types, labels and control variables, on small programs whose faults follow from the rules.
use crate::limit::MAX_SOURCE;
use crate::source::{Refusal, flow_of};
use pas_check::CheckFault;
use report::SourceFault;
use std::alloc::{AllocError, Global};
use std::process::Abort;
use std::test::Fail;

/// A text with the code of its first fault, which stands behind the comment `{!}`; or 0 where there is none.
type Case = (u8, &'static str);

const NAMES: [Case; 21] = [
    (1, "program p; begin {!}x := 1 end."),
    (
        1,
        "program p; procedure q; var x: integer; begin x := 1 end; begin {!}x := 1 end.",
    ),
    (1, "program p; begin {!}q end."),
    // A block is no place for names of another one.
    (
        1,
        "program p; procedure q; var a: integer; begin a := 1 end; procedure r; begin {!}a := 1 end; begin end.",
    ),
    (2, "program p; var x: integer; {!}x: boolean; begin end."),
    (
        2,
        "program p; const a = 1; var A1: integer; {!}A: integer; begin end.",
    ),
    (
        2,
        "program p; procedure q(x: integer); var {!}x: integer; begin end; begin end.",
    ),
    (
        2,
        "program p; procedure q(x: integer; {!}x: integer); begin end; begin end.",
    ),
    (2, "program p; label 1, {!}01; begin 1: end."),
    (
        2,
        "program p; procedure q; begin end; procedure {!}q; begin end; begin end.",
    ),
    // Twice in one block and once in another one.
    (
        0,
        "program p; var x: integer; procedure q; var x: boolean; begin x := true end; begin x := 1 end.",
    ),
    (3, "program p; const a = {!}a; begin end."),
    // A name is that of its block from the block's beginning on.
    (
        3,
        "program p; const a = 1; procedure q; const b = {!}a; a = 2; begin end; begin end.",
    ),
    (
        0,
        "program p; const a = 1; procedure q; const b = a; begin end; begin end.",
    ),
    (3, "program p; type t = {!}u; u = 1..2; begin end."),
    (
        3,
        "program p; procedure q; begin {!}r end; procedure r; begin end; begin end.",
    ),
    (
        3,
        "program p; type t = 1..2; procedure q(x: {!}t); const t = 1; begin end; begin end.",
    ),
    (0, "program p; procedure q; begin q end; begin q end."),
    (4, "program p; type t = 1..2; begin {!}t := 1 end."),
    (4, "program p; var x: integer; y: {!}x; begin end."),
    (
        4,
        "program p; procedure q; const a = {!}q; begin end; begin end.",
    ),
];

const ROUTINES: [Case; 23] = [
    (
        2,
        "program p; procedure q(x: integer); forward; procedure {!}q(x: integer); begin end; begin end.",
    ),
    (
        2,
        "program p; function f: integer; forward; function {!}f: integer; begin f := 1 end; begin end.",
    ),
    (
        2,
        "program p; function f: integer; forward; procedure {!}f; begin end; begin end.",
    ),
    (
        2,
        "program p; procedure q; forward; procedure {!}q; forward; procedure q; begin end; begin end.",
    ),
    (
        2,
        "program p; procedure q; forward; procedure q; begin end; procedure {!}q; begin end; begin end.",
    ),
    (
        0,
        "program p; procedure q(x: integer); forward; procedure r; begin q(1) end; procedure q; begin x := x; r end; begin r end.",
    ),
    // The names of the body are known at the heading, where they mean nothing so far.
    (
        3,
        "program p; type t = integer; procedure q(x: {!}t); forward; procedure q; var t: integer; begin end; begin end.",
    ),
    (
        0,
        "program p; type t = integer; procedure q(x: t); forward; function t1: integer; begin t1 := 1 end; procedure q; begin end; begin end.",
    ),
    (4, "program p; procedure q; {!}backward; begin end."),
    (4, "program p; function {!}f; begin f := 1 end; begin end."),
    (
        4,
        "program p; var x: integer; function f: integer; begin f := 1 end; begin {!}f := x end.",
    ),
    (
        5,
        "program p; type a = array[1..2] of integer; function f: {!}a; begin end; begin end.",
    ),
    (
        6,
        "program p; procedure q(x: integer); begin end; begin {!}q end.",
    ),
    (
        6,
        "program p; procedure q(x: integer); begin end; begin {!}q(1, 2) end.",
    ),
    (6, "program p; begin {!}write end."),
    (0, "program p; begin writeln end."),
    (
        13,
        "program p; function {!}f: integer; begin end; begin end.",
    ),
    (
        13,
        "program p; function {!}f: integer; function g: integer; begin g := 1 end; begin end; begin end.",
    ),
    // In one branch, or in a routine inside it, is enough.
    (
        0,
        "program p; function f: integer; begin if odd(1) then f := 1 end; begin end.",
    ),
    (
        0,
        "program p; function f: integer; procedure q; begin f := 1 end; begin q end; begin end.",
    ),
    (14, "program p; procedure {!}q; forward; begin end."),
    (
        14,
        "program p; procedure q; forward; procedure {!}r; forward; procedure q; begin end; begin end.",
    ),
    // The end of the block comes after its statement part.
    (1, "program p; procedure q; forward; begin {!}x := 1 end."),
];

const TYPES: [Case; 17] = [
    (5, "program p; var x: integer; begin x := {!}true end."),
    (5, "program p; var x: integer; begin x := 1 + {!}true end."),
    (5, "program p; begin if {!}1 then end."),
    (
        5,
        "program p; var a: array[1..2] of integer; b: array[1..2] of integer; begin a := {!}b end.",
    ),
    (
        0,
        "program p; type t = array[1..2] of integer; var a: t; b: t; begin a := b end.",
    ),
    (5, "program p; const a = {!}-true; begin end."),
    (5, "program p; type t = 1..{!}true; begin end."),
    (
        7,
        "program p; type t = 1..2; var x: t; procedure q(var y: integer); begin end; begin q({!}x) end.",
    ),
    (
        7,
        "program p; procedure q(var y: integer); begin end; begin q({!}1) end.",
    ),
    (
        0,
        "program p; type t = 1..2; var x: t; procedure q(y: integer); begin end; begin q(x) end.",
    ),
    (8, "program p; type t = {!}2..1; begin end."),
    (8, "program p; const a = 2; type t = {!}a..1; begin end."),
    (
        12,
        "program p; const a = 1; begin case 1 of 1: ; {!}a: end end.",
    ),
    (12, "program p; begin case 1 of 1, 2: ; 3, {!}2: end end."),
    (
        0,
        "program p; type t = array[1..1000] of array[1..1000] of integer; begin end.",
    ),
    (
        16,
        "program p; type t = {!}array[1..1000] of array[0..1000] of integer; begin end.",
    ),
    (
        16,
        "program p; type t = {!}array[1..1000001] of boolean; begin end.",
    ),
];

const LABELS: [Case; 17] = [
    (9, "program p; label {!}1; begin end."),
    (9, "program p; begin {!}1: end."),
    (9, "program p; label 1; begin 1: ; {!}1: end."),
    (9, "program p; label 1; begin begin 1: end; {!}1: end."),
    (
        9,
        "program p; label 1; procedure q; begin {!}1: end; begin 1: end.",
    ),
    (9, "program p; begin goto {!}1 end."),
    (10, "program p; label 1; begin goto {!}1; begin 1: end end."),
    (
        10,
        "program p; label 1; begin if odd(1) then goto {!}1 else 1: end.",
    ),
    (
        10,
        "program p; label 1; begin while odd(1) do 1: ; goto {!}1 end.",
    ),
    (
        10,
        "program p; label 1; procedure q; begin goto {!}1 end; begin begin 1: end end.",
    ),
    (
        0,
        "program p; label 1; procedure q; begin goto 1 end; begin 1: end.",
    ),
    (0, "program p; label 1; begin 1: begin goto 1 end end."),
    (0, "program p; label 1; begin begin goto 1 end; 1: end."),
    (
        0,
        "program p; label 1; begin repeat goto 1; 1: until true end.",
    ),
    (18, "program p; label {!}10000; begin 10000: end."),
    (0, "program p; label 9999; begin 9999: end."),
    // The label of an inner block hides that of an outer one.
    (
        9,
        "program p; label 1; procedure q; label {!}1; begin goto 1 end; begin 1: end.",
    ),
];

const CONTROLS: [Case; 16] = [
    (
        0,
        "program p; var i: integer; begin for i := 1 to 2 do end.",
    ),
    (
        4,
        "program p; const i = 1; begin for {!}i := 1 to 2 do end.",
    ),
    (
        11,
        "program p; var i: array[1..2] of integer; begin for {!}i := 1 to 2 do end.",
    ),
    (
        11,
        "program p; procedure q(i: integer); begin for {!}i := 1 to 2 do end; begin end.",
    ),
    (
        11,
        "program p; var i: integer; procedure q; begin for {!}i := 1 to 2 do end; begin end.",
    ),
    (
        11,
        "program p; var i: integer; begin for i := 1 to 2 do {!}i := 1 end.",
    ),
    (
        11,
        "program p; var i: integer; begin for i := 1 to 2 do read({!}i) end.",
    ),
    (
        11,
        "program p; var i: integer; procedure q(var x: integer); begin end; begin for i := 1 to 2 do q({!}i) end.",
    ),
    (
        11,
        "program p; var i: integer; begin for i := 1 to 2 do for {!}i := 1 to 2 do end.",
    ),
    (
        11,
        "program p; var i: integer; procedure q; begin i := 1 end; begin for {!}i := 1 to 2 do end.",
    ),
    (
        11,
        "program p; var i: integer; procedure q; begin read(i) end; begin for {!}i := 1 to 2 do end.",
    ),
    (
        11,
        "program p; var i: integer; procedure r(var x: integer); begin end; procedure q; begin r(i) end; begin for {!}i := 1 to 2 do end.",
    ),
    (
        11,
        "program p; var i: integer; procedure q; procedure r; begin i := 1 end; begin end; begin for {!}i := 1 to 2 do end.",
    ),
    // A threat to a variable of the same name is none.
    (
        0,
        "program p; var i: integer; procedure q; var i: integer; begin i := 1 end; begin for i := 1 to 2 do end.",
    ),
    (
        0,
        "program p; var i, j: integer; procedure q; begin j := i end; begin for i := 1 to 2 do q end.",
    ),
    (
        0,
        "program p; var i: integer; begin for i := 1 to 2 do ; i := 1 end.",
    ),
];

/// Of two faults the first in the text counts, those at the end of a block after those in it, and at one place the lower code.
const FIRST: [Case; 7] = [
    (
        5,
        "program p; label 1; var x: integer; begin x := {!}true; 1: ; 1: end.",
    ),
    (9, "program p; label {!}1; procedure q; forward; begin end."),
    (
        13,
        "program p; function {!}f: integer; label 1; procedure q; forward; begin end; begin end.",
    ),
    (1, "program p; type t = {!}x..true; begin end."),
    (
        1,
        "program p; procedure q(var x: integer); begin end; begin q({!}y + 1) end.",
    ),
    (
        6,
        "program p; procedure q(x: integer); begin end; begin {!}q(true, 1) end.",
    ),
    (
        1,
        "program p; var x: integer; begin {!}y[true] := x + false end.",
    ),
];

const MARK: &str = "{!}";

/// The code and the place of the first fault of a text; or zeros where there is none.
fn outcome(alloc: Global, text: &str) -> Result<(u8, usize), Fail> {
    if text.len() > MAX_SOURCE as usize {
        return Err(Fail::new("the source is too large"));
    }
    match flow_of(alloc, text.as_bytes()) {
        Ok(_) => Ok((0, 0)),
        Err(Refusal::Fault(SourceFault::Check(CheckFault::Wrong { code, at }))) => Ok((
            code,
            at as usize,
        )),
        Err(_) => Err(Fail::new("the source has a fault of another kind")),
    }
}

/// The place behind the first of such pieces of a text; or zero where there is none.
fn behind(text: &str, piece: &str) -> usize {
    match text.find(piece) {
        Some(at) => at.saturating_add(piece.len()),
        None => 0,
    }
}

fn check_all(rt: &impl Abort, alloc: Global, cases: &[Case]) -> Result<(), Fail> {
    for (code, text) in cases.iter() {
        assert_eq!(rt;
            outcome(alloc, text)?,
            (*code, behind(text, MARK)),
            "{text}"
        );
    }
    Ok(())
}

#[test]
fn names(rt: HostRuntime) -> Result<(), Fail> {
    check_all(&rt, rt.alloc(), &NAMES)
}

#[test]
fn routines(rt: HostRuntime) -> Result<(), Fail> {
    check_all(&rt, rt.alloc(), &ROUTINES)
}

#[test]
fn types(rt: HostRuntime) -> Result<(), Fail> {
    check_all(&rt, rt.alloc(), &TYPES)
}

#[test]
fn labels(rt: HostRuntime) -> Result<(), Fail> {
    check_all(&rt, rt.alloc(), &LABELS)
}

#[test]
fn controls(rt: HostRuntime) -> Result<(), Fail> {
    check_all(&rt, rt.alloc(), &CONTROLS)
}

#[test]
fn first_faults(rt: HostRuntime) -> Result<(), Fail> {
    check_all(&rt, rt.alloc(), &FIRST)
}

/// No comment stands in an assertion, so the fault is found by what is before it.
#[test]
fn assertions(rt: HostRuntime) -> Result<(), Fail> {
    let cases: [Case; 3] = [
        (
            15,
            "program p; function f: integer; begin f := 1 end; begin {% f = 1 %} end.",
        ),
        (
            6,
            "program p; function f(x: integer): integer; begin f := x end; begin {% f = 1 %} end.",
        ),
        (5, "program p; begin {% 1 %} end."),
    ];
    for (code, text) in cases {
        assert_eq!(rt;
            outcome(rt.alloc(), text)?,
            (code, behind(text, "{% ")),
            "{text}"
        );
    }
    Ok(())
}

/// A program with so many routines in one another.
fn nested(alloc: Global, routines: u32) -> Result<String, AllocError> {
    let mut text = String::from_str(alloc, "program p; ")?;
    for _ in 0..routines {
        text.push_str("procedure q; ")?;
    }
    for _ in 0..routines {
        text.push_str("begin end; ")?;
    }
    text.push_str("begin end.")?;
    Ok(text)
}

#[test]
fn nesting(rt: HostRuntime) -> Result<(), Fail> {
    let sixteen = nested(rt.alloc(), 16)?;
    assert_eq!(rt; outcome(rt.alloc(), sixteen.as_str())?, (0, 0));
    let seventeen = nested(rt.alloc(), 17)?;
    // The name of the last one stands ten bytes behind the sixteen headings around it, of 13 bytes each.
    assert_eq!(rt;
        outcome(rt.alloc(), seventeen.as_str())?,
        (17, 11 + 16 * 13 + 10)
    );
    Ok(())
}

/// 3,375 declarations, each a letter and three others between two pieces.
fn declare_many(text: &mut String, before: &str, after: &str) -> Result<(), AllocError> {
    let letters = "abcdefghijklmno";
    for first in letters.chars() {
        for second in letters.chars() {
            for third in letters.chars() {
                text.push_str(before)?;
                text.push(first)?;
                text.push(second)?;
                text.push(third)?;
                text.push_str(after)?;
            }
        }
    }
    Ok(())
}

/// 10,125 constants, variables and routines in one block.
#[test]
fn many_names(rt: HostRuntime) -> Result<(), Fail> {
    let mut text = String::from_str(rt.alloc(), "program p; const ")?;
    declare_many(&mut text, "c", " = 1; ")?;
    text.push_str("var ")?;
    declare_many(&mut text, "v", ": integer; ")?;
    declare_many(&mut text, "procedure r", "; begin end; ")?;
    let mut good = String::from_str(rt.alloc(), text.as_str())?;
    good.push_str("begin vooo := cooo; rooo end.")?;
    assert_eq!(rt; outcome(rt.alloc(), good.as_str())?, (0, 0));
    let at = text.len().saturating_add(6);
    text.push_str("begin xooo := cooo; rooo end.")?;
    assert_eq!(rt; outcome(rt.alloc(), text.as_str())?, (1, at));
    Ok(())
}
