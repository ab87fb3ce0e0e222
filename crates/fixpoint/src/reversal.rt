//! Lists of numbers turned round.

ghost use Rattle.std.specs.Prelude.{◌≡◌, ℕ, ◌<◌, ◌≤◌, [], map, length, vec_len, replicate, OnOk, IfOk};
ghost use Rattle.std.specs.List.{All, Contains};
ghost use Rattle.std.specs.List.Sorted.{IsStrictlyIncreasing};
ghost use Rattle.fixpoint.specs.Reversal.{AddsNumber, AddsToEach, IsReversal, list_at};

use std::alloc::{AllocError, Global};

/// Counts each member of a list. A count stops at the greatest `usize`.
fn count_members(members: &[u32], counts: &mut [usize])
    requires { All (λ n. n < length counts.old) members.now }
{
    for &member in members {
        counts[member as usize] = counts[member as usize].saturating_add(1);
    }
}

/// How often each number is in the lists.
fn counts_of(alloc: Global, lists: &[Vec<u32>]) -> Result<Vec<usize>, AllocError>
    requires { All (λ list. All (λ n. n < length lists.now) list.items) lists.now }
    ensures { IfOk result (λ counts. vec_len counts ≡ length lists.now) }
{
    let mut counts = vec![in alloc; 0usize; lists.len()]?;
    for list in lists {
        count_members(list, &mut counts);
    }
    Ok(counts)
}

/// Empty lists with room for so many numbers each.
fn empty_lists(alloc: Global, rooms: &[usize]) -> Result<Vec<Vec<u32>>, AllocError>
    ensures { IfOk result (λ lists. map (λ v. v.items) lists.items ≡ replicate (length rooms.now) []) }
{
    let mut lists = Vec::with_capacity(alloc, rooms.len())?;
    for &room in rooms {
        lists.push(Vec::with_capacity(alloc, room)?)?;
    }
    Ok(lists)
}

/// Adds a number to a list, unless it is its last.
fn add(list: &mut Vec<u32>, number: u32) -> Result<(), AllocError>
    ensures { OnOk result (AddsNumber number list.old.items list.new.items) }
{
    if list.ends_with(&[number]) {
        return Ok(());
    }
    list.push(number)?;
    Ok(())
}

/// Adds a number to each of the lists at the places.
fn add_to_each(lists: &mut Vec<Vec<u32>>, places: &[u32], number: u32) -> Result<(), AllocError>
    requires { All (λ n. n < vec_len lists.old) places.now }
    ensures { OnOk result (AddsToEach number places.now (map (λ v. v.items) lists.old.items) (map (λ v. v.items) lists.new.items)) }
{
    for &place in places {
        add(&mut lists[place as usize], number)?;
    }
    Ok(())
}

/// For each number below that of the lists, in rising order which lists it is in.
///
/// It takes time and memory in proportion to the lists and their members. It fails for want of memory, and where there are
/// more lists than a `u32` can number.
pub fn reverse_lists(alloc: Global, lists: &[Vec<u32>]) -> Result<Vec<Vec<u32>>, AllocError>
    requires { All (λ list. All (λ n. n < length lists.now) list.items) lists.now }
    ensures reversal { IfOk result (λ reversed. IsReversal (length lists.now) (list_at (map (λ v. v.items) lists.now)) (map (λ v. v.items) reversed.items)) }
    ensures rising { IfOk result (λ reversed. All (λ list. IsStrictlyIncreasing list.items) reversed.items) }
{
    let mut reversed = empty_lists(alloc, &counts_of(alloc, lists)?)?;
    for (number, list) in lists.iter().enumerate() {
        let Ok(number) = u32::try_from(number) else {
            return Err(AllocError);
        };
        add_to_each(&mut reversed, list, number)?;
    }
    Ok(reversed)
}
