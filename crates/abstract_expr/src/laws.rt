//! Laws of the definitions. Each is the contract of a function without a body.
ghost use Rattle.std.specs.Prelude.{◌≡◌, ℕ, true};
ghost use Rattle.alias_class.specs.Cells.{IsClass, routine_of};
ghost use Rattle.alias_class.specs.Classes.{Class};
ghost use Rattle.alias_class.specs.Outlines.{outline_of_program};
ghost use Rattle.environment.specs.Environments.{Environment, cell_count, env_below};
ghost use Rattle.interval.specs.declared.itv.Itv.{Itv};
ghost use Rattle.pas_program.specs.declared.expr.Access.{Access};
ghost use Rattle.pas_program.specs.declared.expr.Expr.{Expr};
ghost use Rattle.pas_program.specs.declared.program.Program.{Program};
ghost use Rattle.pas_program.specs.Checked.{scope_in};
ghost use Rattle.pas_program.specs.Each.{each_access, each_expr};
ghost use Rattle.px_base.specs.declared.operator.BinOp.{BinOp};
ghost use Rattle.abstract_expr.specs.Expressions.{Scope, indexed, names_related, refined, related};
ghost use Rattle.abstract_expr.specs.Standing.{seen_rule};

/// What stands in the routine of a class uses variables that are seen from the class.
pub fn what_is_visible_is_seen()
    ensures exprs { (p : Program) (c : Class) (e : Expr) → IsClass (outline_of_program p) c → each_expr (scope_in p (routine_of (outline_of_program p) c)) e ≡ true → each_expr (seen_rule (outline_of_program p) c) e ≡ true }
    ensures accesses { (p : Program) (c : Class) (a : Access) → IsClass (outline_of_program p) c → each_access (scope_in p (routine_of (outline_of_program p) c)) a ≡ true → each_access (seen_rule (outline_of_program p) c) a ≡ true }
{}

/// Refining leaves of an environment one that is below it and has as many cells: by an expression, by the subscripts of a variable, and by a relation
/// of two expressions or of two variables.
pub fn refining_leaves_less()
    ensures exprs { (s : Scope) (e : Expr) (w : Itv) (env : Environment) → env_below (refined s e w env) env ≡ true }
    ensures expr_cells { (s : Scope) (e : Expr) (w : Itv) (env : Environment) → cell_count (refined s e w env) ≡ cell_count env }
    ensures accesses { (s : Scope) (a : Access) (env : Environment) → env_below (indexed s a env) env ≡ true }
    ensures access_cells { (s : Scope) (a : Access) (env : Environment) → cell_count (indexed s a env) ≡ cell_count env }
    ensures relations { (s : Scope) (op : BinOp) (left right : Expr) (w : Itv) (env : Environment) → env_below (related s op left right w env) env ≡ true }
    ensures relation_cells { (s : Scope) (op : BinOp) (left right : Expr) (w : Itv) (env : Environment) → cell_count (related s op left right w env) ≡ cell_count env }
    ensures names { (s : Scope) (op : BinOp) (left right : ℕ) (w : Itv) (env : Environment) → env_below (names_related s op left right w env) env ≡ true }
    ensures name_cells { (s : Scope) (op : BinOp) (left right : ℕ) (w : Itv) (env : Environment) → cell_count (names_related s op left right w env) ≡ cell_count env }
{}
