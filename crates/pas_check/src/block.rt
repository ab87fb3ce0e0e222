//! Blocks and their declarations (ISO 7185, 6.2).

ghost use Rattle.std.specs.Prelude.{◌≡◌, ℕ, List, IfErr, IfOk, OnOk, Some, length};
ghost use Rattle.std.specs.Option.{option_map};
ghost use Rattle.pas_check.specs.Blocks as spec;
ghost use Rattle.pas_check.specs.Block.{ends_inside};
ghost use Rattle.pas_check.specs.Blocks.{BlockMay, EndMay, begins, bodies_given, entered, lacking_by, outer_of, own_block, parts, program_opened, statements_ended};
ghost use Rattle.pas_check.specs.Built.{with_routine};
ghost use Rattle.pas_check.specs.Declarations.{const_declared, led, led_by, local_declared, type_declared, var_declared};
ghost use Rattle.pas_check.specs.Headings.{inside, outside};
ghost use Rattle.pas_check.specs.Labels.{kept_in, labelled};
ghost use Rattle.pas_check.specs.Outcome.{Gives, IsMemory, Meets};
ghost use Rattle.pas_check.specs.Sight.{innermost, sight};
ghost use Rattle.pas_check.specs.Stage.{Stage, stage};
ghost use Rattle.pas_check.specs.StatementForms.{sequence_form};
ghost use Rattle.pas_check.specs.declared.heading.Opened.{Opened as Begun};
ghost use Rattle.pas_tree.specs.declared.block.RoutineBody.TheViews.{out-Block};

use crate::checker::Checker;
use crate::fault::{Fault, Rule};
use crate::frame::Frame;
use crate::heading::{Function, Opened};
use crate::label::{LabelDecl, labels_of};
use crate::meaning::{Meaning, Variable};
use crate::scope::{Names, Scope};
use crate::waiting::Waiting;
use indexmap::IndexMap;
use pas_program::{Body, Statement, VarKind};
use pas_tree::{Block, ConstDecl, Tree, TypeDecl, VarDecl};
use px_base::Span;
use sqlite_items::Items;
use std::alloc::{AllocError, Global};
use std::mem;

/// What is around a block.
#[derive(Drop)]
struct Outer {
    frame: Frame,
    level: u32,
}

impl<'t> Checker<'t> {
    /// The program's block.
    pub fn program(&mut self, tree: &Tree) -> Result<(), Fault>
        ensures value { self.old.made.built.frame.routine ≡ ends_inside tree.now.block → Meets (λ u. stage self.new) (BlockMay (stage self.old) (program_opened (sight self.old.seen).text tree.now) tree.now.block) result }
    {
        let routine = self.made.built.frame.routine;
        let mut names = Names::new(self.seen.alloc);
        self.seen
            .note_block(&mut self.made.lower, &mut names, &tree.block)?;
        let no_formals = Items::new(self.seen.alloc);
        let opened = Opened {
            frame: Frame::new(
                self.seen.alloc,
                tree.name,
                routine,
                None,
                0,
                no_formals,
                None,
            ),
            function: false,
            names,
            result: None,
        };
        self.block(&tree.block, opened)
    }

    /// The block of an opening, whose routine is made.
    #[cycle(block)]
    pub fn block(&mut self, block: &Block, opened: Opened) -> Result<(), Fault>
        ensures value { Meets (λ u. stage self.new) (BlockMay (stage self.old) opened block.now) result }
    {
        let function = opened.result;
        let outer = self.begin(block, opened)?;
        let Ok(first) = u32::try_from(self.made.built.routines.len()) else {
            return Err(Fault::Memory(AllocError));
        };
        let routines = block.routines.as_slice();
        let mut plans = self.seen.plans(&mut self.made.lower, first, routines)?;
        let mut waiting = Waiting::new(self.seen.alloc);
        self.routine_part(routines, &mut plans.list, &mut waiting)?;
        self.end(block, function, plans.lacking, outer)
    }

    /// The block of an opening, up to its routines.
    #[tactic(auto, unfolding(crate::specs::Blocks::begins))]
    fn begin(&mut self, block: &Block, opened: Opened) -> Result<Outer, Fault>
        ensures value { Gives (λ o. stage self.new) (begins (stage self.old) opened block.now) result }
        ensures outer { IfOk result (λ o. o ≡ outer_of (stage self.old)) }
    {
        let labels = labels_of(self.seen.alloc, block)?;
        let outer = self.enter(opened, labels)?;
        self.parts(block)?;
        Ok(outer)
    }

    /// Goes into the block of an opening, with its labels.
    #[tactic(auto, unfolding(crate::specs::Sight::sight))]
    fn enter(&mut self, opened: Opened, labels: IndexMap<u32, LabelDecl>) -> Result<Outer, Fault>
        ensures entered { OnOk result (stage self.new ≡ entered (stage self.old) opened (own_block opened (kept_in labels))) }
        ensures outer { IfOk result (λ o. o ≡ outer_of (stage self.old)) }
        ensures memory { IfErr result IsMemory }
    {
        let Opened {
            frame,
            function: _function,
            names,
            result,
        } = opened;
        self.push_scope(Scope {
            routine: frame.routine,
            function: head_of(result),
            names,
            labels,
        })?;
        let level = mem::replace(&mut self.seen.level, frame.level);
        let frame = mem::replace(&mut self.made.built.frame, frame);
        Ok(Outer { frame, level })
    }

    /// The parts of a block before its routines.
    #[tactic(auto, unfolding(crate::specs::Blocks::parts))]
    fn parts(&mut self, block: &Block) -> Result<(), Fault>
        ensures value { Gives (λ u. stage self.new) (parts (stage self.old) block.now) result }
    {
        self.const_part(block.consts.as_slice())?;
        self.type_part(block.types.as_slice())?;
        self.var_part(block.vars.as_slice())
    }

    /// A block from its statement part on.
    fn end(
        &mut self,
        block: &Block,
        function: Option<Function>,
        lacking: Option<u32>,
        outer: Outer,
    ) -> Result<(), Fault>
        ensures value { (s : Stage) → (p : Begun) → (text : List ℕ) → outer ≡ outer_of s → p.result ≡ function → lacking_by lacking ≡ bodies_given text (out-Block block.now).routines
            → Meets (λ u. stage self.new) (EndMay s p block.now text (stage self.old)) result }
    {
        let names = self.seen.other_names(&mut self.made.lower, block)?;
        let body = self.statement_part(block.body.as_slice())?;
        self.end_allowed(block, function, lacking)?;
        self.leave(outer, names, statement_of(self.seen.alloc, block, body))
    }

    /// The statement part of a block.
    #[tactic(auto, unfolding(crate::specs::Blocks::statements_ended))]
    fn statement_part(&mut self, body: &[pas_tree::Statement]) -> Result<Items<Statement>, Fault>
        ensures value { Gives (λ list. sight self.new.seen) (statements_ended (sight self.old.seen) body.now) result }
        ensures form { IfOk result (λ list. sequence_form (sight self.old.seen) body.now self.old.made.built ≡ Some (list, self.new.made.built)) }
    {
        self.made.begin_statements();
        let body = self.sequence(body)?;
        self.note_written().map_err(Fault::Memory)?;
        Ok(body)
    }

    /// The tests at the end of a block, in the order of their places.
    #[tactic(auto, unfolding(crate::specs::Blocks::end_allowed))]
    fn end_allowed(
        &self,
        block: &Block,
        function: Option<Function>,
        lacking: Option<u32>,
    ) -> Result<(), Fault>
        ensures value { (text : List ℕ) → lacking_by lacking ≡ bodies_given text (out-Block block.now).routines → Gives (λ u. u) (spec.end_allowed text (sight self.now.seen) function block.now) result }
    {
        self.seen.result_assigned(function)?;
        self.seen.labels_placed(block.labels.as_slice())?;
        match lacking {
            Some(at) => Err(Rule::Body.broken(at)),
            None => Ok(()),
        }
    }

    /// Leaves a block for what is around it.
    #[tactic(auto, unfolding(crate::specs::Sight::sight))]
    fn leave(&mut self, outer: Outer, names: Items<Span>, body: Statement) -> Result<(), Fault>
        ensures left { OnOk result (sight self.new.seen ≡ record (outside (sight self.old.seen)) { level = outer.level }) }
        ensures number { OnOk result (self.old.made.built.frame.routine ≡ length self.old.made.built.routines) }
        ensures built { OnOk result (self.new.made.built ≡ with_routine self.old.made.built.frame names body (record self.old.made.built { frame = outer.frame })) }
        ensures memory { IfErr result IsMemory }
    {
        let Outer { frame, level } = outer;
        let _names = self.pop_scope(0);
        self.seen.level = level;
        let done = mem::replace(&mut self.made.built.frame, frame);
        match self
            .made
            .built
            .add_routine(self.seen.alloc, done, names, body)
        {
            Ok(()) => Ok(()),
            Err(error) => Err(Fault::Memory(error)),
        }
    }

    fn const_part(&mut self, decls: &[ConstDecl]) -> Result<(), Fault>
        ensures value { Gives (λ u. sight self.new.seen) (led_by const_declared (sight self.old.seen) decls.now) result }
        ensures kept { self.new.made.built ≡ self.old.made.built }
    {
        for decl in decls {
            self.const_declared(decl)?;
        }
        Ok(())
    }

    #[tactic(auto, unfolding(crate::specs::Declarations::const_declared))]
    fn const_declared(&mut self, decl: &ConstDecl) -> Result<(), Fault>
        ensures value { Gives (λ u. sight self.new.seen) (const_declared (sight self.old.seen) decl.now) result }
        ensures kept { self.new.made.built ≡ self.old.made.built }
    {
        self.seen.claim(&mut self.made, decl.name)?;
        let value = self.seen.constant(&mut self.made, &decl.value)?;
        self.seen
            .define(&mut self.made, decl.name, Meaning::Constant(value))
    }

    fn type_part(&mut self, decls: &[TypeDecl]) -> Result<(), Fault>
        ensures value { Gives (λ u. sight self.new.seen) (led_by type_declared (sight self.old.seen) decls.now) result }
        ensures kept { self.new.made.built ≡ self.old.made.built }
    {
        for decl in decls {
            self.type_declared(decl)?;
        }
        Ok(())
    }

    #[tactic(auto, unfolding(crate::specs::Declarations::type_declared))]
    fn type_declared(&mut self, decl: &TypeDecl) -> Result<(), Fault>
        ensures value { Gives (λ u. sight self.new.seen) (type_declared (sight self.old.seen) decl.now) result }
        ensures kept { self.new.made.built ≡ self.old.made.built }
    {
        self.seen.claim(&mut self.made, decl.name)?;
        let number = self.type_expr(&decl.of_type)?;
        self.seen
            .define(&mut self.made, decl.name, Meaning::Type(number))
    }

    fn var_part(&mut self, decls: &[VarDecl]) -> Result<(), Fault>
        ensures value { Gives (λ u. stage self.new) (led_by var_declared (stage self.old) decls.now) result }
    {
        for decl in decls {
            self.var_declared(decl)?;
        }
        Ok(())
    }

    /// The variables of a section.
    #[tactic(auto, unfolding(crate::specs::Declarations::var_declared))]
    fn var_declared(&mut self, decl: &VarDecl) -> Result<(), Fault>
        ensures value { Gives (λ u. stage self.new) (var_declared (stage self.old) decl.now) result }
    {
        let names = decl.names.as_slice();
        self.claim_names(names)?;
        let of_type = self.type_expr(&decl.of_type)?;
        self.locals(names, of_type)?;
        Ok(())
    }

    fn locals(&mut self, names: &[Span], of_type: u32) -> Result<(), Fault>
        ensures value { OnOk result (stage self.new ≡ led (local_declared of_type) (stage self.old) names.now) }
        ensures memory { IfErr result IsMemory }
    {
        for name in names {
            self.local(*name, of_type)?;
        }
        Ok(())
    }

    /// A variable of the block at hand.
    #[tactic(auto, unfolding(crate::specs::Declarations::local_declared, crate::specs::Sight::sight))]
    fn local(&mut self, name: Span, of_type: u32) -> Result<(), Fault>
        ensures value { OnOk result (stage self.new ≡ local_declared of_type (stage self.old) name) }
        ensures memory { IfErr result IsMemory }
    {
        let number = self.made.built.add_own(name, VarKind::Local, of_type)?;
        let variable = Variable {
            number,
            at: name.start,
            level: self.seen.level,
            kind: VarKind::Local,
            of_type,
        };
        self.seen
            .define(&mut self.made, name, Meaning::Variable(variable))?;
        Ok(())
    }

    /// A block inside the one at hand.
    #[tactic(auto, unfolding(crate::specs::Sight::sight))]
    pub fn push_scope(&mut self, scope: Scope) -> Result<(), Fault>
        ensures inside { OnOk result (sight self.new.seen ≡ inside (sight self.old.seen) scope.names (labelled scope)) }
        ensures kept { self.new.made ≡ self.old.made }
        ensures memory { IfErr result IsMemory }
    {
        match self.seen.scopes.push(scope) {
            Ok(()) => Ok(()),
            Err(_) => Err(Fault::Memory(AllocError)),
        }
    }

    /// The innermost block's names, which are taken off.
    #[tactic(auto, unfolding(crate::specs::Sight::sight))]
    pub fn pop_scope(&mut self, number: u32) -> Scope
        ensures names { result.names ≡ innermost (sight self.old.seen).blocks }
        ensures outside { sight self.new.seen ≡ outside (sight self.old.seen) }
        ensures kept { self.new.made ≡ self.old.made }
    {
        match self.seen.scopes.pop() {
            Some(scope) => scope,
            None => Scope::new(self.seen.alloc, number, Names::new(self.seen.alloc)),
        }
    }
}

/// The statement part of a block as one statement.
fn statement_of(alloc: Global, block: &Block, body: Items<Statement>) -> Statement
    ensures { result ≡ spec.statement_of block.now body }
{
    Statement {
        at: block.begin.start,
        label: None,
        asserts: Items::new(alloc),
        body: Body::Begin {
            body,
            end: block.end.start,
        },
    }
}

/// The function whose block it is, by its heading.
fn head_of(function: Option<Function>) -> Option<usize>
    ensures { result ≡ option_map spec.head_of function }
{
    match function {
        Some(function) => Some(function.head),
        None => None,
    }
}
