//! What stands at the statements of routines: no label twice in one of them, and each assertion once.

ghost use Rattle.std.specs.Prelude.{◌≡◌, ◌+◌, ◌<◌, ◌++◌, ◌∷◌, [], ℕ, suc, Bool, true, false, nat_eq, IfOk, OnOk, Some, count_by, length, map, replicate, slice_get};
ghost use Rattle.std.specs.Bool.{OnTrue};
ghost use Rattle.std.specs.List.{sum};
ghost use Rattle.pas_program.specs.Labels.{count_asserted, count_labelled};
ghost use Rattle.pas_program.specs.Scopes.{is_the};
ghost use Rattle.pas_valid.specs.Standing.{LabelsAre, arm_over, assert_worth, body_over, counted_if, is_mark_of, is_marked, label_count, label_worth, mark_count, one_if};

use crate::refusal::Refusal;
use pas_program::{Arm, Assert, Body, Routine, Statement};
use sqlite_items::at;
use std::alloc::{AllocError, Global};
use std::collections::HashSet;

/// More routines than a program can have.
const MOST_ROUTINES: usize = 8_388_609;

/// Takes note of the labels and the assertions of a statement of a routine; `mark` is one more than the routine's number.
#[cycle(standing)]
fn statement(
    s: &Statement,
    mark: u32,
    labels: &mut HashSet<u32>,
    marks: &mut [u32],
) -> Result<(), Refusal>
    ensures labels { OnOk result ((n : ℕ) → label_count labels.new n ≡ label_count labels.old n + count_labelled n s.now) }
    ensures asserts { OnOk result ((test : ℕ → Bool) (a : ℕ) → test 0 ≡ false → mark_count test marks.new a ≡ mark_count test marks.old a + counted_if (test mark) (count_asserted a s.now)) }
{
    label(s.label, labels)?;
    assertions(s.asserts.as_slice(), mark, marks)?;
    body(&s.body, mark, labels, marks)
}

#[cycle(standing)]
fn body(b: &Body, mark: u32, labels: &mut HashSet<u32>, marks: &mut [u32]) -> Result<(), Refusal>
    ensures labels { OnOk result ((n : ℕ) → label_count labels.new n ≡ label_count labels.old n + body_over (label_worth n) b.now) }
    ensures asserts { OnOk result ((test : ℕ → Bool) (a : ℕ) → test 0 ≡ false → mark_count test marks.new a ≡ mark_count test marks.old a + counted_if (test mark) (body_over (assert_worth a) b.now)) }
{
    match b {
        Body::Begin { body, .. } => sequence(body.as_slice(), mark, labels, marks),
        Body::Repeat { body, .. } => sequence(body.as_slice(), mark, labels, marks),
        Body::If { yes, no, .. } => {
            statement(yes.get(), mark, labels, marks)?;
            match no {
                Some(no) => statement(no.get(), mark, labels, marks),
                None => Ok(()),
            }
        }
        Body::Case { arms, .. } => all_arms(arms.as_slice(), mark, labels, marks),
        Body::While { body, .. } => statement(body.get(), mark, labels, marks),
        Body::For { body, .. } => statement(body.get(), mark, labels, marks),
        Body::Empty => Ok(()),
        Body::Assign { .. } => Ok(()),
        Body::Copy { .. } => Ok(()),
        Body::Call { .. } => Ok(()),
        Body::Read { .. } => Ok(()),
        Body::Write { .. } => Ok(()),
        Body::Goto { .. } => Ok(()),
    }
}

#[cycle(standing)]
fn sequence(
    list: &[Statement],
    mark: u32,
    labels: &mut HashSet<u32>,
    marks: &mut [u32],
) -> Result<(), Refusal>
    ensures labels { OnOk result ((n : ℕ) → label_count labels.new n ≡ label_count labels.old n + sum (map (count_labelled n) list.now)) }
    ensures asserts { OnOk result ((test : ℕ → Bool) (a : ℕ) → test 0 ≡ false → mark_count test marks.new a ≡ mark_count test marks.old a + counted_if (test mark) (sum (map (count_asserted a) list.now))) }
{
    for s in list {
        statement(s, mark, labels, marks)?;
    }
    Ok(())
}

#[cycle(standing)]
fn all_arms(
    list: &[Arm],
    mark: u32,
    labels: &mut HashSet<u32>,
    marks: &mut [u32],
) -> Result<(), Refusal>
    ensures labels { OnOk result ((n : ℕ) → label_count labels.new n ≡ label_count labels.old n + sum (map (arm_over (label_worth n)) list.now)) }
    ensures asserts { OnOk result ((test : ℕ → Bool) (a : ℕ) → test 0 ≡ false → mark_count test marks.new a ≡ mark_count test marks.old a + counted_if (test mark) (sum (map (arm_over (assert_worth a)) list.now))) }
{
    for arm in list {
        in_arm(arm, mark, labels, marks)?;
    }
    Ok(())
}

#[cycle(standing)]
fn in_arm(arm: &Arm, mark: u32, labels: &mut HashSet<u32>, marks: &mut [u32]) -> Result<(), Refusal>
    ensures labels { OnOk result ((n : ℕ) → label_count labels.new n ≡ label_count labels.old n + arm_over (label_worth n) arm.now) }
    ensures asserts { OnOk result ((test : ℕ → Bool) (a : ℕ) → test 0 ≡ false → mark_count test marks.new a ≡ mark_count test marks.old a + counted_if (test mark) (arm_over (assert_worth a) arm.now)) }
{
    statement(&arm.body, mark, labels, marks)
}

/// Takes note of a statement's label, which no other statement of the routine has.
fn label(label: Option<u32>, labels: &mut HashSet<u32>) -> Result<(), Refusal>
    ensures { OnOk result ((n : ℕ) → label_count labels.new n ≡ label_count labels.old n + one_if (is_the n label)) }
{
    let Some(value) = label else {
        return Ok(());
    };
    match labels.insert(value) {
        Ok(true) => Ok(()),
        Ok(false) => Err(Refusal::Invalid),
        Err(_) => Err(Refusal::Memory(AllocError)),
    }
}

/// Marks the assertions of a statement, none of which has a mark.
fn assertions(list: &[u32], mark: u32, marks: &mut [u32]) -> Result<(), Refusal>
    ensures { OnOk result ((test : ℕ → Bool) (a : ℕ) → test 0 ≡ false → mark_count test marks.new a ≡ mark_count test marks.old a + counted_if (test mark) (count_by (λ b. nat_eq a b) list.now)) }
{
    for a in list {
        assertion(*a, mark, marks)?;
    }
    Ok(())
}

fn assertion(number: u32, mark: u32, marks: &mut [u32]) -> Result<(), Refusal>
    ensures { OnOk result ((test : ℕ → Bool) (a : ℕ) → test 0 ≡ false → mark_count test marks.new a ≡ mark_count test marks.old a + counted_if (test mark) (one_if (nat_eq a number))) }
{
    let place = number as usize;
    if place < marks.len() && marks[place] == 0 {
        marks[place] = mark;
        Ok(())
    } else {
        Err(Refusal::Invalid)
    }
}

/// The labels of a routine, whose number is one less than `mark`.
fn labels_of(
    alloc: Global,
    d: &Routine,
    mark: u32,
    marks: &mut [u32],
) -> Result<HashSet<u32>, Refusal>
    ensures labels { IfOk result (λ labels. (n : ℕ) → label_count labels n ≡ count_labelled n d.now.body) }
    ensures asserts { OnOk result ((test : ℕ → Bool) (a : ℕ) → test 0 ≡ false → mark_count test marks.new a ≡ mark_count test marks.old a + counted_if (test mark) (count_asserted a d.now.body)) }
{
    let mut labels = HashSet::new(alloc);
    statement(&d.body, mark, &mut labels, marks)?;
    Ok(labels)
}

/// The labels of each routine, with the marks of the assertions that stand in them.
fn all_labels(
    alloc: Global,
    routines: &[Routine],
    marks: &mut [u32],
) -> Result<Vec<HashSet<u32>>, Refusal>
    requires { marks.old ≡ replicate (length marks.old) 0 }
    ensures labels { IfOk result (λ sets. LabelsAre routines.now sets.items) }
    ensures once { OnOk result ((a : ℕ) → mark_count is_marked marks.new a ≡ sum (map (λ (d : Routine). count_asserted a d.body) routines.now)) }
    ensures own { OnOk result ((a r : ℕ) (d : Routine) → slice_get routines.now r ≡ Some d → mark_count (is_mark_of r) marks.new a ≡ count_asserted a d.body) }
{
    let mut sets = Vec::new(alloc);
    for (r, d) in routines.iter().enumerate() {
        if r >= MOST_ROUTINES {
            return Err(Refusal::Invalid);
        }
        let labels = labels_of(alloc, d, r as u32 + 1, marks)?;
        push(&mut sets, labels)?;
    }
    Ok(sets)
}

fn push(sets: &mut Vec<HashSet<u32>>, labels: HashSet<u32>) -> Result<(), Refusal>
    ensures { OnOk result (sets.new.items ≡ sets.old.items ++ labels ∷ []) }
{
    match sets.push(labels) {
        Ok(()) => Ok(()),
        Err(_) => Err(Refusal::Memory(AllocError)),
    }
}

/// A mark for each assertion, none of which stands anywhere yet.
pub fn no_marks(alloc: Global, count: usize) -> Result<Vec<u32>, Refusal>
    ensures { IfOk result (λ marks. marks.items ≡ replicate count 0) }
{
    let mut marks = Vec::new(alloc);
    for _i in 0..count {
        add_mark(&mut marks)?;
    }
    Ok(marks)
}

fn add_mark(marks: &mut Vec<u32>) -> Result<(), Refusal>
    ensures { OnOk result (marks.new.items ≡ marks.old.items ++ 0 ∷ []) }
{
    match marks.push(0) {
        Ok(()) => Ok(()),
        Err(_) => Err(Refusal::Memory(AllocError)),
    }
}

/// Whether each assertion has the mark of its routine.
fn all_marked(asserts: &[Assert], marks: &[u32]) -> bool
    ensures { OnTrue result ((a : ℕ) (d : Assert) → slice_get asserts.now a ≡ Some d → slice_get marks.now a ≡ Some (suc d.routine)) }
{
    for (a, d) in asserts.iter().enumerate() {
        match at(marks, a) {
            Some(mark) => {
                if *mark == 0 || *mark - 1 != d.routine {
                    return false;
                }
            }
            None => return false,
        }
    }
    true
}

/// The labels of each routine, where no routine has one twice and each assertion stands once, in its routine; `marks` are
/// those of the assertions.
pub fn standing_with(
    alloc: Global,
    routines: &[Routine],
    asserts: &[Assert],
    marks: &mut [u32],
) -> Result<Vec<HashSet<u32>>, Refusal>
    requires { marks.old ≡ replicate (length marks.old) 0 }
    ensures labels { IfOk result (λ sets. LabelsAre routines.now sets.items) }
    ensures once { OnOk result ((a : ℕ) → a < length asserts.now → sum (map (λ (d : Routine). count_asserted a d.body) routines.now) ≡ 1) }
    ensures own { OnOk result ((a : ℕ) (d : Assert) (e : Routine) → slice_get asserts.now a ≡ Some d → slice_get routines.now d.routine ≡ Some e → count_asserted a e.body ≡ 1) }
{
    let sets = all_labels(alloc, routines, marks)?;
    if all_marked(asserts, marks) {
        Ok(sets)
    } else {
        Err(Refusal::Invalid)
    }
}
