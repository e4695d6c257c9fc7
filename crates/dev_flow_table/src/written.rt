//! The entries of a table that were written: memory is touched as far as they go.
ghost use Rattle.std.specs.Prelude.{ℕ, ◌≡◌, ◌<◌, ◌≤◌, ◌+◌, slice_index_or, slice_set};
ghost use Rattle.std.specs.Vec.{vec_capacity, vec_len};
ghost use Rattle.dev_flow_table.specs.Tables.{unset};
ghost use Rattle.dev_flow_table.specs.Written.{filled};
ghost use Rattle.dev_flow_table.specs.declared.table.TheConstants.{MAX_EXACT_CLASSES};

use steer_base::Entry;

// The entry of a class: unset behind those that were written.
pub(crate) fn entry_at(rows: &Vec<Entry>, class: u32, start: u32) -> Entry
    ensures { result ≡ slice_index_or rows.now.items class (unset start) }
{
    match rows.get(class as usize) {
        Some(entry) => *entry,
        None => unset(start),
    }
}

// Writes the entry of a class for which there is room.
pub(crate) fn write_at(rows: &mut Vec<Entry>, class: u32, entry: Entry, start: u32)
    requires room { class < vec_capacity rows.old }
    requires few { vec_capacity rows.old ≤ MAX_EXACT_CLASSES }
    ensures capacity { vec_capacity rows.new ≡ vec_capacity rows.old }
    ensures within { (size : ℕ) → class < size → vec_len rows.old ≤ size
        → vec_len rows.new ≤ size }
    ensures written { (size : ℕ) → class < size → vec_len rows.old ≤ size
        → filled rows.new.items size start
        ≡ slice_set (filled rows.old.items size start) class entry }
{
    reach(rows, class + 1, start);
    rows[class as usize] = entry;
}

// Writes unset entries until there are at least `count`.
fn reach(rows: &mut Vec<Entry>, count: u32, start: u32)
    requires room { count ≤ vec_capacity rows.old }
    requires few { vec_capacity rows.old ≤ MAX_EXACT_CLASSES }
    ensures capacity { vec_capacity rows.new ≡ vec_capacity rows.old }
    ensures enough { count ≤ vec_len rows.new }
    ensures within { (size : ℕ) → count ≤ size → vec_len rows.old ≤ size
        → vec_len rows.new ≤ size }
    ensures same { (size : ℕ) → count ≤ size → vec_len rows.old ≤ size
        → filled rows.new.items size start ≡ filled rows.old.items size start }
{
    let from = rows.len() as u32;
    for _ in from..count {
        rows.push_reserved(unset(start));
    }
}

// The entry of a class without a lane. The lanes' counters begin at `start`.
fn unset(start: u32) -> Entry
    ensures { result ≡ unset start }
{
    Entry {
        lane: None,
        tail: start,
    }
}
