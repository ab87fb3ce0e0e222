//! The points before which labelled statements stand.
ghost use Rattle.std.specs.Prelude.{◌≡◌, ℕ, suc, ◌+◌, ◌-◌, ◌<◌, ◌^◌, ◌≤◌, length, nat_eq, OnOk, IfOk, Some, slice_get, slice_index, slice_range};
ghost use Rattle.std.specs.HashMap.{get};
ghost use Rattle.control_points.specs.Labelled.{label_in, one_label, or_else};
ghost use Rattle.control_points.specs.declared.labels.Labels.{Labels};

use crate::numbering::{Mark, Numbering};
use sqlite_items::Items;
use std::alloc::{AllocError, Global};
use std::collections::HashMap;

/// For each label of one routine the point before its statement, which is the first with that label.
#[derive(Drop)]
pub struct Labels {
    pub points: HashMap<u32, u32>,
}

/// Notes the point before a statement that may have a label.
fn note(points: &mut HashMap<u32, u32>, label: Option<u32>, point: u32) -> Result<(), AllocError>
    ensures { OnOk result ((n : ℕ) → get nat_eq points.new n ≡ or_else (get nat_eq points.old n) (one_label label point n)) }
{
    let Some(number) = label else {
        return Ok(());
    };
    if points.contains_key(&number) {
        return Ok(());
    }
    points.insert(number, point)?;
    Ok(())
}

/// The labels of the routine with these points, of which the first has the number `first`.
fn labels_of(alloc: Global, marks: &[Mark], first: u32) -> Result<Labels, AllocError>
    requires { first + length marks.now < 2 ^ 32 }
    ensures { IfOk result (λ t. (n : ℕ) → get nat_eq t.points n ≡ label_in first marks.now n) }
{
    let mut points = HashMap::new(alloc);
    for (k, mark) in marks.iter().enumerate() {
        note(&mut points, mark.label, first + k as u32)?;
    }
    Ok(Labels { points })
}

/// The labels of each of the `count` routines.
pub fn label_tables(
    alloc: Global,
    numbering: &Numbering,
    count: usize,
) -> Result<Items<Labels>, AllocError>
    requires starts { length numbering.now.entries ≡ suc count }
    requires rise { (r : ℕ) → r < count → slice_index numbering.now.entries r ≤ slice_index numbering.now.entries (suc r) }
    requires within { (r : ℕ) → r < count → slice_index numbering.now.entries (suc r) ≤ length numbering.now.marks }
    ensures many { IfOk result (λ tables. length tables ≡ count) }
    ensures each { IfOk result (λ tables. (r : ℕ) (t : Labels) → slice_get tables r ≡ Some t → (n : ℕ) → get nat_eq t.points n ≡ label_in (slice_index numbering.now.entries r) (slice_range numbering.now.marks (slice_index numbering.now.entries r) (slice_index numbering.now.entries (suc r))) n) }
{
    let mut tables = Items::new(alloc);
    for r in 0..count {
        tables.push(labels_at(alloc, numbering, r)?)?;
    }
    Ok(tables)
}

/// The labels of the routine `r`.
fn labels_at(alloc: Global, numbering: &Numbering, r: usize) -> Result<Labels, AllocError>
    requires known { suc r < length numbering.now.entries }
    requires rise { slice_index numbering.now.entries r ≤ slice_index numbering.now.entries (suc r) }
    requires within { slice_index numbering.now.entries (suc r) ≤ length numbering.now.marks }
    ensures { IfOk result (λ t. (n : ℕ) → get nat_eq t.points n ≡ label_in (slice_index numbering.now.entries r) (slice_range numbering.now.marks (slice_index numbering.now.entries r) (slice_index numbering.now.entries (suc r))) n) }
{
    let entries = numbering.entries.as_slice();
    let first = entries[r];
    let end = entries[r + 1];
    labels_of(
        alloc,
        &numbering.marks.as_slice()[first as usize..end as usize],
        first,
    )
}
