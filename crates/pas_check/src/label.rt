//! Labels and where they stand (ISO 7185, 6.8.1).

ghost use Rattle.std.specs.Prelude.{◌≡◌, [], ◌∷◌, ℕ, Bool, IfOk, List, None, OnOk, Some, map, nat_eq, reverse, true};
ghost use Rattle.std.specs.Option.{option_map};
ghost use Rattle.indexmap.specs.IndexMap.{get, keys};
ghost use Rattle.pas_tree.specs.declared.statement.Statement.{Statement};
ghost use Rattle.pas_check.specs.declared.label.LabelDecl.{LabelDecl};
ghost use Rattle.pas_check.specs.Labels as spec;
ghost use Rattle.pas_check.specs.Labels.{declaration_of, kept_in, label_before, labelled, labels_declared, placed_in};
ghost use Rattle.pas_check.specs.Outcome.{Gives, each};
ghost use Rattle.pas_check.specs.Placing as placing;
ghost use Rattle.pas_check.specs.Placing.{Branches, IsPlacedRightly, Members, Notes, Nothing, PlacesRise, arm_of, below, content, content_of, end_of, in_order, label_mark, labels_read, last_place, marks, marks_inside, member_marks, or_nothing, outline, outline_of, sequence_marks};
ghost use Rattle.pas_check.specs.Sight.{sight};
ghost use Rattle.pas_check.specs.StatementForms.{goto_form, label_value};

use crate::fault::{Fault, Rule};
use crate::scope::{Scope, innermost};
use crate::seen::Seen;
use indexmap::IndexMap;
use pas_program::Body;
use pas_tree::{Block, Label, Statement};
use sqlite_items::Boxed;
use std::alloc::{AllocError, Global};

/// The greatest label.
const MOST_LABEL: u32 = 9999;

/// A label of a block.
#[derive(Clone, Copy, Debug, PartialEq, Eq)]
pub struct LabelDecl {
    /// The place of its declaration.
    pub at: u32,
    /// The first statement of the block's statement part that has it.
    pub placed: Option<Placement>,
}

/// Where a labelled statement stands.
#[derive(Clone, Copy, Debug, PartialEq, Eq)]
pub struct Placement {
    /// The place of the label's number.
    pub at: u32,
    /// From the first to the last place at which a statement may stand that leaves for it: the statement itself, or the
    /// sequence of which it is a member.
    from: u32,
    to: u32,
    /// Whether it is a member of the outermost sequence.
    outermost: bool,
}

/// Takes note of the labels of a statement sequence, and answers the last place of a statement in it.
#[cycle(place)]
pub fn place_sequence(
    labels: &mut IndexMap<u32, LabelDecl>,
    body: &[Statement],
    outermost: bool,
) -> Result<u32, AllocError>
    ensures last { IfOk result (λ to. to ≡ last_place (outline body.now)) }
    ensures noted { OnOk result (Notes labels.old (sequence_marks body.now outermost) labels.new) }
{
    let to = place_members(labels, body)?;
    let from = first_place(body);
    note_members(labels, body, from, to, outermost)?;
    Ok(to)
}

/// The place of the first of the statements.
fn first_place(body: &[Statement]) -> u32
    ensures { result ≡ placing.first_place (outline body.now) }
{
    match body.first() {
        Some(first) => first.at.start,
        None => 0,
    }
}

/// Takes note of the labels inside the members of a sequence, and answers the last place of a statement in it.
#[cycle(place)]
fn place_members(
    labels: &mut IndexMap<u32, LabelDecl>,
    body: &[Statement],
) -> Result<u32, AllocError>
    ensures last { IfOk result (λ to. to ≡ last_place (outline body.now)) }
    ensures noted { (first last : ℕ) (outermost : Bool) → OnOk result (Notes labels.old (marks_inside (Members first last outermost) (outline body.now)) labels.new) }
{
    let mut to = 0;
    for statement in body {
        to = to.max(place_inner(labels, statement)?);
    }
    Ok(to)
}

/// Takes note of the labels of the members of a sequence with these places.
fn note_members(
    labels: &mut IndexMap<u32, LabelDecl>,
    body: &[Statement],
    from: u32,
    to: u32,
    outermost: bool,
) -> Result<(), AllocError>
    ensures noted { OnOk result (Notes labels.old (member_marks (Members «from» to outermost) (outline body.now)) labels.new) }
{
    for statement in body {
        note_label(labels, statement.label, from, to, outermost)?;
    }
    Ok(())
}

/// The same for a statement that is a member of no sequence.
#[cycle(place)]
fn place_branch(
    labels: &mut IndexMap<u32, LabelDecl>,
    statement: &Statement,
) -> Result<u32, AllocError>
    ensures last { IfOk result (λ to. to ≡ end_of statement.now) }
    ensures noted { OnOk result (Notes labels.old (marks Branches (outline_of statement.now Nothing)) labels.new) }
{
    let to = place_inner(labels, statement)?;
    note_label(labels, statement.label, statement.at.start, to, false)?;
    Ok(to)
}

/// The same for the statements inside a statement.
#[cycle(place)]
fn place_inner(
    labels: &mut IndexMap<u32, LabelDecl>,
    statement: &Statement,
) -> Result<u32, AllocError>
    ensures last { IfOk result (λ to. to ≡ end_of statement.now) }
    ensures noted { OnOk result (Notes labels.old (below (content_of statement.now)) labels.new) }
{
    let last = place_body(labels, &statement.body)?;
    Ok(last.max(statement.at.start))
}

#[tactic(auto, unfolding(crate::specs::Placing::outline_of, crate::specs::Placing::content, crate::specs::Placing::arm_of))]
#[cycle(place)]
fn place_body(
    labels: &mut IndexMap<u32, LabelDecl>,
    body: &pas_tree::Body,
) -> Result<u32, AllocError>
    ensures last { IfOk result (λ to. to ≡ last_place (content body.now).inner) }
    ensures noted { OnOk result (Notes labels.old (below (content body.now)) labels.new) }
{
    match body {
        pas_tree::Body::Begin { body } | pas_tree::Body::Repeat { body, .. } => {
            place_sequence(labels, body.as_slice(), false)
        }
        pas_tree::Body::If { yes, no, .. } => {
            let first = place_branch(labels, yes.get())?;
            let second = place_other(labels, no)?;
            Ok(first.max(second))
        }
        pas_tree::Body::Case { arms, .. } => place_arms(labels, arms.as_slice()),
        pas_tree::Body::While { body, .. } | pas_tree::Body::For { body, .. } => {
            place_branch(labels, body.get())
        }
        pas_tree::Body::Empty
        | pas_tree::Body::Call { .. }
        | pas_tree::Body::Assign { .. }
        | pas_tree::Body::Goto { .. } => Ok(0),
    }
}

/// The `else` of an `if`, where there is one.
#[cycle(place)]
fn place_other(
    labels: &mut IndexMap<u32, LabelDecl>,
    statement: &Option<Boxed<Statement>>,
) -> Result<u32, AllocError>
    ensures last { IfOk result (λ to. to ≡ last_place (or_nothing (option_map outline_of statement.now))) }
    ensures noted { OnOk result (Notes labels.old (marks Branches (or_nothing (option_map outline_of statement.now))) labels.new) }
{
    match statement {
        Some(statement) => place_branch(labels, statement.get()),
        None => Ok(0),
    }
}

#[cycle(place)]
fn place_arms(
    labels: &mut IndexMap<u32, LabelDecl>,
    arms: &[pas_tree::Element],
) -> Result<u32, AllocError>
    ensures last { IfOk result (λ to. to ≡ last_place (in_order (map arm_of arms.now))) }
    ensures noted { OnOk result (Notes labels.old (marks Branches (in_order (map arm_of arms.now))) labels.new) }
{
    let mut to = 0;
    for arm in arms {
        to = to.max(place_branch(labels, &arm.body)?);
    }
    Ok(to)
}

/// Takes note of the label of a statement, if it has one, with the places of what may leave for it.
fn note_label(
    labels: &mut IndexMap<u32, LabelDecl>,
    label: Option<Label>,
    from: u32,
    to: u32,
    outermost: bool,
) -> Result<(), AllocError>
    ensures noted { OnOk result (Notes labels.old (label_mark «from» to outermost label) labels.new) }
{
    match label {
        Some(label) => {
            let placement = Placement {
                at: label.at.start,
                from,
                to,
                outermost,
            };
            note(labels, label.value, placement)
        }
        None => Ok(()),
    }
}

/// Takes note that a label stands at a statement. Of two statements the first in the text counts.
fn note(
    labels: &mut IndexMap<u32, LabelDecl>,
    value: u32,
    placement: Placement,
) -> Result<(), AllocError>
    ensures noted { OnOk result (Notes labels.old (record { value = value; placement = placement } ∷ []) labels.new) }
{
    let Some(label) = labels.get(&value).copied() else {
        return Ok(());
    };
    if let Some(earlier) = label.placed {
        if earlier.at <= placement.at {
            return Ok(());
        }
    }
    labels.insert(
        value,
        LabelDecl {
            at: label.at,
            placed: Some(placement),
        },
    )?;
    Ok(())
}

/// A law: what `place_sequence` keeps of the labels of a block is right where the places of the statements rise with the text,
/// as they do in each tree that the parser makes. By its place a `goto` may lead to a label exactly where it may by its path,
/// and a label that is kept with no statement stands before none.
pub fn places_say_the_same_as_paths()
    ensures { (body : List Statement) → PlacesRise body → (before after : spec.Labels) → Notes before (sequence_marks body true) after
        → (value : ℕ) (declared placed : LabelDecl) → get nat_eq before value ≡ Some declared → declared.placed ≡ None → get nat_eq after value ≡ Some placed
        → IsPlacedRightly (outline body) value placed.placed }
{}

/// Declares a label of a label part.
fn declare_label(labels: &mut IndexMap<u32, LabelDecl>, label: Label) -> Result<(), Fault>
    ensures value { Gives (λ u. keys labels.new) (spec.label_declared (keys labels.old) label) result }
    ensures added { (n : ℕ) → OnOk result (get nat_eq labels.new n ≡ declaration_of n (label ∷ []) (get nat_eq labels.old n)) }
{
    if labels.contains_key(&label.value) {
        return Err(Rule::DeclaredOnce.broken(label.at.start));
    }
    if label.value > MOST_LABEL {
        return Err(Rule::LabelValue.broken(label.at.start));
    }
    let declared = LabelDecl {
        at: label.at.start,
        placed: None,
    };
    match labels.insert(label.value, declared) {
        Ok(_) => Ok(()),
        Err(_) => Err(Fault::Memory(AllocError)),
    }
}

/// Declares the labels of a label part.
fn declare_labels(labels: &mut IndexMap<u32, LabelDecl>, label_part: &[Label]) -> Result<(), Fault>
    ensures value { Gives (λ u. keys labels.new) (labels_declared (keys labels.old) label_part.now) result }
    ensures added { (n : ℕ) → OnOk result (get nat_eq labels.new n ≡ declaration_of n label_part.now (get nat_eq labels.old n)) }
{
    for label in label_part {
        declare_label(labels, *label)?;
    }
    Ok(())
}

/// The labels of a block by their values, with the statements that have them.
pub fn labels_of(alloc: Global, block: &Block) -> Result<IndexMap<u32, LabelDecl>, Fault>
    ensures value { Gives (λ labels. kept_in labels) (labels_read block.now) result }
{
    let mut labels = IndexMap::new(alloc);
    declare_labels(&mut labels, block.labels.as_slice())?;
    place_labels(&mut labels, block.body.as_slice()).map_err(Fault::Memory)?;
    Ok(labels)
}

/// Takes note of the labels of a block at the statements of its statement part.
fn place_labels(labels: &mut IndexMap<u32, LabelDecl>, body: &[Statement]) -> Result<(), AllocError>
    ensures noted { OnOk result (Notes labels.old (sequence_marks body.now true) labels.new) }
{
    if labels.is_empty() {
        return Ok(());
    }
    place_sequence(labels, body, true)?;
    Ok(())
}

impl Scope {
    /// Tests a label at a statement of the block: the block declares it, and no statement before has it.
    fn placed_label(&self, label: Label) -> Result<u32, Fault>
        ensures value { Gives (λ n. n) (spec.placed_label (kept_in self.now.labels) label) result }
    {
        match self.place_of(label.value) {
            Some(at) if at == label.at.start => Ok(label.value),
            _ => Err(Rule::Label.broken(label.at.start)),
        }
    }

    /// The place of the first statement that has a label of the block.
    fn place_of(&self, value: u32) -> Option<u32>
        ensures { result ≡ spec.place_in (kept_in self.now.labels) value }
    {
        match self.labels.get(&value) {
            Some(declared) => match declared.placed {
                Some(placed) => Some(placed.at),
                None => None,
            },
            None => None,
        }
    }
}

impl Placement {
    /// Whether a `goto` that stands at `at` may lead here; `inner` says whether it stands in the same block.
    fn is_reached(&self, inner: bool, at: u32) -> bool
        ensures { result ≡ spec.may_reach inner at self.now }
    {
        self.outermost || (inner && self.from <= at && at <= self.to)
    }
}

impl LabelDecl {
    /// Whether a `goto` that stands at `at` may not lead to its statement. Where there is none the label is at fault.
    fn is_out_of_reach(&self, inner: bool, at: u32) -> bool
        ensures { result ≡ spec.is_out_of_reach inner at self.now }
    {
        match &self.placed {
            Some(placed) => !placed.is_reached(inner, at),
            None => false,
        }
    }
}

/// The routine whose block declares the label of a `goto` that stands at `at`: the innermost of these, which stand from the
/// outside to the inside. `inner` says whether the `goto` stands in the last of them.
fn left_for(scopes: &[Scope], label: Label, at: u32, inner: bool) -> Result<u32, Fault>
    ensures value { Gives (λ r. r) (spec.left_for (map labelled (reverse scopes.now)) label at inner) result }
{
    let Some((scope, around)) = scopes.split_last() else {
        return Err(Rule::Label.broken(label.at.start));
    };
    match scope.labels.get(&label.value) {
        Some(declared) => {
            if declared.is_out_of_reach(inner, at) {
                Err(Rule::Goto.broken(label.at.start))
            } else {
                Ok(scope.routine)
            }
        }
        None => left_for(around, label, at, false),
    }
}

impl<'t> Seen<'t> {
    /// At the end of a block, each of its labels stands at a statement.
    pub fn labels_placed(&self, labels: &[Label]) -> Result<(), Fault>
        ensures value { Gives (λ u. u) (each (placed_in (sight self.now).labels) labels.now) result }
    {
        for label in labels {
            self.label_placed(*label)?;
        }
        Ok(())
    }

    #[tactic(auto, unfolding(crate::specs::Sight::sight))]
    fn label_placed(&self, label: Label) -> Result<(), Fault>
        ensures value { Gives (λ u. u) (placed_in (sight self.now).labels label) result }
    {
        let placed = match innermost(self.scopes.as_slice()) {
            Some(scope) => scope.place_of(label.value),
            None => None,
        };
        match placed {
            Some(_) => Ok(()),
            None => Err(Rule::Label.broken(label.at.start)),
        }
    }

    /// The label of a statement, if it has one.
    pub fn label_before(&self, label: Option<Label>) -> Result<Option<u32>, Fault>
        ensures value { Gives (λ n. tt) (label_before (sight self.now).labels label) result }
        ensures form { IfOk result (λ n. n ≡ option_map label_value label) }
    {
        match label {
            Some(label) => Ok(Some(self.placed_label(label)?)),
            None => Ok(None),
        }
    }

    /// Tests a label at a statement: its block declares it, and no statement before has it.
    #[tactic(auto, unfolding(crate::specs::Sight::sight))]
    fn placed_label(&self, label: Label) -> Result<u32, Fault>
        ensures value { Gives (λ n. n) (spec.placed_by (sight self.now).labels label) result }
    {
        match innermost(self.scopes.as_slice()) {
            Some(scope) => scope.placed_label(label),
            None => Err(Rule::Label.broken(label.at.start)),
        }
    }

    /// A `goto` that stands at `at`: to a statement that contains it, a member of a sequence that contains it, or a member
    /// of the outermost sequence of a block around it.
    #[tactic(auto, unfolding(crate::specs::Sight::sight, crate::specs::StatementForms::goto_form))]
    pub fn goto(&self, label: Label, at: u32) -> Result<Body, Fault>
        ensures value { Gives (λ b. tt) (spec.goto_allowed (sight self.now).labels label at) result }
        ensures form { IfOk result (λ b. goto_form (sight self.now) label at ≡ Some b) }
    {
        let routine = left_for(self.scopes.as_slice(), label, at, true)?;
        Ok(Body::Goto {
            routine,
            label: label.value,
        })
    }
}
