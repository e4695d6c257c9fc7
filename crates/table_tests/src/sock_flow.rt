//! The socket flow table, as applications write it and packets read it.
use crate::equal::same;
use sock_flow_table::SockTable;
use std::alloc::Global;
use std::process::Abort;
use std::test::Fail;
use steer_base::{Cpu, MAX_SOCKET_SIZE, OutOfMemory};

/// What is done to a table, with the answer that is wanted.
enum Deed {
    /// An application on this processor notes a hash; whether the table takes it.
    Note(u32, u8, bool),
    /// The processor that is noted for a hash.
    Desired(u32, Option<u8>),
    /// The table is emptied, and gets so many entries.
    Resize(u32),
}

// Three entries are rounded up to four, so 5 and 9 have entry 1, and 6 has entry 2.
const NOTES: &[Deed] = &[
    Deed::Desired(5, None),
    Deed::Note(5, 1, true),
    Deed::Note(9, 2, true),
    Deed::Note(6, 0, true),
    Deed::Desired(5, Some(2)),
    Deed::Desired(4294967294, Some(0)),
    Deed::Desired(7, None),
    Deed::Resize(4),
    Deed::Desired(5, None),
];

const LAST: &[Deed] = &[
    Deed::Note(65535, 7, true),
    Deed::Desired(65535, Some(7)),
    Deed::Resize(0),
    Deed::Note(65535, 7, false),
    Deed::Desired(65535, None),
];

fn act(rt: &impl Abort, table: &mut SockTable, deed: &Deed, case: usize) {
    match *deed {
        Deed::Note(hash, cpu, wanted) => same(rt, &table.note(hash, Cpu(cpu)), &wanted, case),
        Deed::Desired(hash, wanted) => {
            let wanted = match wanted {
                Some(cpu) => Some(Cpu(cpu)),
                None => None,
            };
            same(rt, &table.desired(hash), &wanted, case);
        }
        Deed::Resize(entries) => {
            assert!(rt; entries <= MAX_SOCKET_SIZE);
            table.resize(entries);
        }
    }
}

fn play(rt: &impl Abort, alloc: Global, entries: u32, deeds: &[Deed]) -> Result<(), OutOfMemory> {
    assert!(rt; entries <= MAX_SOCKET_SIZE);
    let mut table = SockTable::make(alloc, entries)?;
    for (case, deed) in deeds.iter().enumerate() {
        act(rt, &mut table, deed, case);
    }
    Ok(())
}

#[test]
fn the_last_note_of_an_entry_stands(rt: HostRuntime) -> Result<(), Fail> {
    play(&rt, rt.alloc(), 3, NOTES)?;
    Ok(())
}

#[test]
fn a_table_without_entries_takes_no_note(rt: HostRuntime) -> Result<(), Fail> {
    play(&rt, rt.alloc(), MAX_SOCKET_SIZE, LAST)?;
    Ok(())
}
