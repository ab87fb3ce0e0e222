ghost use Rattle.std.specs.Prelude.{◌≡◌, [], OnErr, OnOk, Some, map, nat_eq, reverse};
ghost use Rattle.std.specs.Option.{option_copied};
ghost use Rattle.pas_program.specs.Tables.{holds_of};
ghost use Rattle.pas_check.specs.Declarations.{in_innermost};
ghost use Rattle.pas_check.specs.Expr as expr;
ghost use Rattle.pas_check.specs.Labels.{first_scope, labelled, unlabelled};
ghost use Rattle.pas_check.specs.Names as spec;
ghost use Rattle.pas_check.specs.Names.{ended, found_in, noted, with_meaning};
ghost use Rattle.pas_check.specs.Sight.{names_around};

use crate::label::LabelDecl;
use crate::meaning::Meaning;
use indexmap::IndexMap;
use std::alloc::{AllocError, Global};
use std::marker::Model;

/// The first declaration of a name in a block.
#[derive(Clone, Copy, Debug, PartialEq, Eq)]
pub struct Declaration {
    /// The place of the name.
    pub at: u32,
    /// What it stands for, once the declaration has ended.
    pub meaning: Option<Meaning>,
}

/// The names that a block declares, in lower case, each with its first declaration.
#[derive(Drop)]
pub struct Names {
    declared: IndexMap<Vec<u8>, Declaration>,
}

impl Model for Names {
    ghost use Rattle.std.specs.Prelude.{List, ℕ, map};
    ghost use Rattle.pas_check.specs.declared.scope.Declaration.{Declaration};

    ghost Value = { List (List ℕ × Declaration) };

    ghost view = { λ n. map (λ e. (e.0.items, e.1)) n.declared.entries };
}

impl Names {
    pub fn new(alloc: Global) -> Names
        ensures { result ≡ [] }
    {
        Names {
            declared: IndexMap::new(alloc),
        }
    }

    /// The declaration of a name in lower case.
    pub fn get(&self, name: &[u8]) -> Option<Declaration>
        ensures { result ≡ found_in name.now self.now }
    {
        self.declared.get(name).copied()
    }

    /// Takes note that the block declares a name at a place. The first place counts.
    pub fn note(&mut self, alloc: Global, name: &[u8], at: u32) -> Result<(), AllocError>
        ensures ok { OnOk result (self.new ≡ noted name.now at self.old) }
        ensures err { OnErr result (self.new ≡ self.old) }
    {
        match self.get(name) {
            Some(_) => Ok(()),
            None => self.set(alloc, name, Declaration { at, meaning: None }),
        }
    }

    /// Gives a name its meaning, at the end of its declaration.
    pub fn end(
        &mut self,
        alloc: Global,
        name: &[u8],
        at: u32,
        meaning: Meaning,
    ) -> Result<(), AllocError>
        ensures ok { OnOk result (self.new ≡ ended name.now at meaning self.old) }
        ensures err { OnErr result (self.new ≡ self.old) }
    {
        let declaration = Declaration {
            at,
            meaning: Some(meaning),
        };
        self.set(alloc, name, declaration)
    }

    fn set(
        &mut self,
        alloc: Global,
        name: &[u8],
        declaration: Declaration,
    ) -> Result<(), AllocError>
        ensures ok { OnOk result (self.new ≡ with_meaning name.now declaration self.old) }
        ensures err { OnErr result (self.new ≡ self.old) }
    {
        let key = Vec::from_slice(alloc, name)?;
        self.declared.insert(key, declaration)?;
        Ok(())
    }
}

/// What one block declares.
#[derive(Drop)]
pub struct Scope {
    /// The number of the block's routine.
    pub routine: u32,
    /// The function whose block it is, by its heading.
    pub function: Option<usize>,
    pub names: Names,
    /// The labels by their values.
    pub labels: IndexMap<u32, LabelDecl>,
}

impl Scope {
    /// A block with these names and without labels, which is no function's.
    pub fn new(alloc: Global, routine: u32, names: Names) -> Scope
        ensures names { result.names ≡ names }
        ensures labels { labelled result ≡ unlabelled routine }
    {
        Scope {
            routine,
            function: None,
            names,
            labels: IndexMap::new(alloc),
        }
    }

    /// Whether it is the block of the function with this heading.
    fn is_of(&self, head: usize) -> bool
        ensures { result ≡ holds_of (λ own. nat_eq own head) self.now.function }
    {
        match self.function {
            Some(own) => own == head,
            None => false,
        }
    }
}

/// The declaration of a name in the innermost of these blocks that declares it; the innermost stands last.
pub fn denoted(scopes: &[Scope], name: &[u8]) -> Option<Declaration>
    ensures { result ≡ spec.denoted name.now (map (λ s. s.names) (reverse scopes.now)) }
{
    let (innermost, around) = scopes.split_last()?;
    match innermost.names.get(name) {
        Some(declaration) => Some(declaration),
        None => denoted(around, name),
    }
}

/// The innermost of these blocks, which stands last.
pub fn innermost(scopes: &[Scope]) -> Option<&Scope>
    ensures { option_copied result ≡ first_scope (reverse scopes.now) }
{
    match scopes.split_last() {
        Some((innermost, _)) => Some(innermost),
        None => None,
    }
}

/// Whether one of these blocks is that of the function with a heading; the innermost stands last.
pub fn is_inside(scopes: &[Scope], head: usize) -> bool
    ensures { result ≡ expr.is_inside (map labelled (reverse scopes.now)) head }
{
    match scopes.split_last() {
        Some((innermost, around)) => innermost.is_of(head) || is_inside(around, head),
        None => false,
    }
}

/// Gives a name its meaning in the innermost of these blocks, which stands last.
pub fn end_innermost(
    alloc: Global,
    scopes: &mut Vec<Scope>,
    name: &[u8],
    at: u32,
    meaning: Meaning,
) -> Result<(), AllocError>
    ensures names { OnOk result (names_around scopes.new.items ≡ in_innermost (ended name.now at meaning) (names_around scopes.old.items)) }
    ensures labels { OnOk result (map labelled (reverse scopes.new.items) ≡ map labelled (reverse scopes.old.items)) }
{
    let Some(scope) = scopes.pop() else {
        return Ok(());
    };
    let Scope {
        routine,
        function,
        mut names,
        labels,
    } = scope;
    names.end(alloc, name, at, meaning)?;
    scopes.push(Scope {
        routine,
        function,
        names,
        labels,
    })?;
    Ok(())
}
