//! The writes of the applications.
ghost use Rattle.std.specs.Prelude.{ℕ, ◌≡◌, ◌<◌, ◌++◌, [], IfOk, OnOk, length, map};
ghost use Rattle.std.specs.List.{cons_option, filter_map, range_with_len};
ghost use Rattle.history.specs.Lists.{list_at};
ghost use Rattle.report_history.specs.Shown.{own_write};

use crate::choices::add;
use history::SockWrite;
use report_reader::AppWrite;
use std::alloc::Global;
use steer_base::{List, OutOfMemory};

// The write, if it is of this application.
fn own_write(app: u8, write: AppWrite) -> Option<SockWrite>
    ensures { result ≡ own_write app write }
{
    if write.app.0 == app {
        Some(write.write)
    } else {
        None
    }
}

// An empty list for each of so many applications.
fn empty_lists(alloc: Global, apps: u8) -> Result<Vec<List<SockWrite>>, OutOfMemory>
    ensures long { IfOk result (λ v. length v.items ≡ apps) }
    ensures empty { IfOk result (λ v. (a : ℕ) → list_at v.items a ≡ []) }
{
    let mut lists = Vec::with_capacity(alloc, apps as usize)?;
    for _app in 0..apps {
        lists.push(List::from_vec(Vec::new(alloc)))?;
    }
    Ok(lists)
}

// Adds a write to the list of its application, if there is that list.
fn note(alloc: Global, lists: &mut Vec<List<SockWrite>>, write: AppWrite) -> Result<(), OutOfMemory>
    ensures long { OnOk result (length lists.new.items ≡ length lists.old.items) }
    ensures each { OnOk result ((a : ℕ) → a < length lists.old.items
        → list_at lists.new.items a
        ≡ list_at lists.old.items a ++ cons_option (own_write a write) []) }
{
    let app = write.app.0;
    let at = usize::from(app);
    if at >= lists.len() {
        return Ok(());
    }
    match own_write(app, write) {
        Some(own) => add(alloc, lists, at, own),
        None => Ok(()),
    }
}

/// The writes of each of so many applications, in one walk over all writes.
pub fn all_writes(
    alloc: Global,
    writes: &[AppWrite],
    apps: u8,
) -> Result<Vec<List<SockWrite>>, OutOfMemory>
    ensures { IfOk result (λ v. v.items
        ≡ map (λ a. filter_map (own_write a) writes.now) (range_with_len 0 apps)) }
{
    let mut lists = empty_lists(alloc, apps)?;
    for write in writes {
        note(alloc, &mut lists, *write)?;
    }
    Ok(lists)
}
