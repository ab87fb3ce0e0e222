use super::*;

/// Each with the number of the token that no program has there.
const UNEXPECTED: [(&str, u32); 66] = [
    ("", 0),
    ("begin end.", 0),
    ("program", 1),
    ("program p; begin end", 5),
    ("program p; begin end. end", 6),
    ("program p; begin x = 1 end.", 5),
    ("program p(; begin end.", 3),
    ("program p() ; begin end.", 3),
    ("program p; label 1 begin end.", 5),
    ("program p; label a; begin end.", 4),
    ("program p; const begin end.", 4),
    ("program p; const a = ; begin end.", 6),
    ("program p; var x: integer; const c = 1; begin end.", 8),
    ("program p; type t = array[1..2 of integer; begin end.", 11),
    ("program p; type t = 1; begin end.", 7),
    ("program p; type t = a..; begin end.", 8),
    ("program p; var x, : integer; begin end.", 6),
    ("program p; procedure q: integer; begin end; begin end.", 5),
    ("program p; function f(var x); forward; begin end.", 8),
    ("program p; procedure q; begin end begin end.", 8),
    ("program p; begin begin end begin end end.", 6),
    ("program p; begin x := 1 y := 2 end.", 7),
    ("program p; begin x y end.", 5),
    ("program p; begin case a of end end.", 7),
    ("program p; begin case a of 1: ; ; end end.", 10),
    ("program p; begin if a then; else end.", 8),
    ("program p; begin repeat x := 1 end.", 8),
    ("program p; begin for i := 1 step 2 do end.", 8),
    ("program p; begin x := 'a' end.", 6),
    ("program p; begin x := a < b < c end.", 9),
    ("program p; begin x := a + - b end.", 8),
    ("program p; begin {% a ? ? %} end.", 7),
    ("program p; begin 1: 2: end.", 6),
    ("program p; begin x[] := p() end.", 6),
    // a token left out of `program p; begin x := a + 1; end.`
    ("p; begin x := a + 1; end.", 0),
    ("program; begin x := a + 1; end.", 1),
    ("program p begin x := a + 1; end.", 2),
    ("program p; x := a + 1; end.", 3),
    ("program p; begin := a + 1; end.", 4),
    ("program p; begin x a + 1; end.", 5),
    ("program p; begin x := a 1; end.", 7),
    ("program p; begin x := a +; end.", 8),
    ("program p; begin x := a + 1;.", 10),
    ("program p; begin x := a + 1; end", 11),
    // twice
    ("program program p; begin x := a + 1; end.", 1),
    ("program p p; begin x := a + 1; end.", 2),
    ("program p;; begin x := a + 1; end.", 3),
    ("program p; begin begin x := a + 1; end.", 12),
    ("program p; begin x x := a + 1; end.", 5),
    ("program p; begin x := := a + 1; end.", 6),
    ("program p; begin x := a a + 1; end.", 7),
    ("program p; begin x := a + + 1; end.", 8),
    ("program p; begin x := a + 1 1; end.", 9),
    ("program p; begin x := a + 1; end end.", 11),
    ("program p; begin x := a + 1; end. .", 12),
    // in the place of the next
    ("p program; begin x := a + 1; end.", 0),
    ("program; p begin x := a + 1; end.", 1),
    ("program p begin; x := a + 1; end.", 2),
    ("program p; x begin := a + 1; end.", 3),
    ("program p; begin := x a + 1; end.", 4),
    ("program p; begin x a := + 1; end.", 5),
    ("program p; begin x := + a 1; end.", 8),
    ("program p; begin x := a 1 +; end.", 7),
    ("program p; begin x := a +; 1 end.", 8),
    ("program p; begin x := a + 1 end;.", 10),
    ("program p; begin x := a + 1;. end", 10),
];

#[test]
fn unexpected_tokens(rt: HostRuntime) -> Result<(), Fail> {
    for (source, token) in UNEXPECTED {
        let tokens = tokens_of(&rt, rt.alloc(), source)?;
        assert_eq!(rt;
            fault_of(&rt, rt.alloc(), &tokens),
            Some(ParseFault::NoRule { token }),
            "{source}"
        );
    }
    Ok(())
}

/// A program with every production.
const WHOLE: &str = "program whole(input, output);
label 1, 2; const c = -10; d = c; e = +d; type t = array[1..c, t] of array[u] of -1..+1; u = d..5;
var x, y: t; z: integer;
procedure q; forward; procedure r(a, b: t; var k: t); begin end;
function f(n: t): t; label 3; var l: t; begin 3: f := n end; function g; begin end;
begin
  1: {% x > 0 %} {% not y ? %} q; 2: r(1, x[y] + 1); write('s': 3, x: y, z);
  x[1, 2][3] := -(f(1) * 2 div z) + 3 mod 4 or (a and b) - 5; goto 1;
  begin ; end; if a = b then if a <> b then c else; case z of 1, -c: ; +2: q; end; case 1 of 1: end;
  while a <= b do while a >= b do ; repeat q; until not not (x < 5);
  for z := 1 to 10 do for z := 10 downto 1 do begin end; {% true %}
end.";

/// What has been read of it can always be finished, so its first tokens alone have their fault at their end.
#[test]
fn each_front_ends_too_early(rt: HostRuntime) -> Result<(), Fail> {
    let tokens = tokens_of(&rt, rt.alloc(), WHOLE)?;
    assert_eq!(rt; fault_of(&rt, rt.alloc(), &tokens), None);
    assert!(rt; tokens.len() <= 1048576);
    for n in 0..tokens.len() {
        let token = n as u32;
        assert_eq!(rt;
            fault_of(&rt, rt.alloc(), &tokens[..n]),
            Some(ParseFault::NoRule { token }),
            "the first {n}"
        );
    }
    Ok(())
}
