//! The effect of an event on the two tables that a broker keeps beside its journal.
ghost use Rattle.std.specs.Prelude.{◌≡◌, ◌∷◌, [], ◌++◌, ◌<◌, vec_len, vec_capacity, OnOk, OnErr};
ghost use Rattle.call_broker.specs.Tables.{HasRoom, IsEntered, SameCalls, SameDropped};

use crate::decision::{Decision, Entry};
use crate::event::Event;
use crate::table::{self, Table};
use std::alloc::AllocError;
use std::collections::BTreeSet;

/// Enters the decision on an event in the tables. If memory runs out, both tables are as they were.
pub(crate) fn enter(
    calls: &mut Table,
    dropped: &mut BTreeSet<u32>,
    event: &Event,
    decision: Decision,
) -> Result<(), AllocError>
    requires { HasRoom event.now decision calls.old }
    ensures ok { OnOk result (IsEntered event.now decision calls.old dropped.old calls.new dropped.new) }
    ensures err { OnErr result (SameCalls calls.old calls.new × SameDropped dropped.old dropped.new) }
{
    match event {
        Event::Trigger { from, .. } => {
            if let Decision::Accepted { to, port } = decision {
                table::add_call(calls, *from, to, port)?;
            }
        }
        Event::Terminated { .. } => {
            if let Decision::Ended { from, to, port } = decision {
                table::end_call(calls, from, to, port);
            }
        }
        Event::Dropped { domain } => {
            dropped.insert(*domain)?;
        }
    }
    Ok(())
}

/// Appends an entry to a journal that has room for it.
pub(crate) fn append(journal: &mut Vec<Entry>, entry: Entry)
    requires { vec_len journal.old < vec_capacity journal.old }
    ensures { journal.new.items ≡ journal.old.items ++ entry ∷ [] }
{
    let Ok(()) = journal.push(entry) else {
        unreachable!()
    };
}
