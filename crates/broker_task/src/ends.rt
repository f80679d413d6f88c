//! The ends of the task, at its start and when it is done.
ghost use Rattle.std.specs.Prelude.{◌≡◌, ◌≤◌, ◌<◌, ◌^◌, [], true, length, vec_capacity};
ghost use Rattle.std.specs.List.{AllByRecursion as Each};
ghost use Rattle.std.specs.List.{AllZip as EachPair};
ghost use Rattle.broker_task.specs.Lines.{end_of, IsLine};
ghost use Rattle.broker_task.specs.Given.{IsNewClient, IsRetiredOf, IsGivenBack};
ghost use Rattle.broker_task.specs.Starting.{AreStarted};

use crate::daemon::Daemon;
use std::alloc::Global;
use task_duties::RetiredEnd;
use vchan_rule::End;

/// Makes what the broker keeps for each domain at first, from these awaited calls and control ends, in a list
/// that has room for it.
pub(crate) fn daemons_of<'p>(
    alloc: Global,
    awaited: &[u32],
    controls: Vec<End<'p>>,
    mut daemons: Vec<Daemon<'p>>,
) -> Vec<Daemon<'p>>
    requires few { length awaited.now < 2 ^ 32 }
    requires each { length controls.items ≡ length awaited.now }
    requires unused { Each IsNewClient controls.items }
    requires empty { daemons.items ≡ [] }
    requires room { length controls.items ≤ vec_capacity daemons }
    ensures { AreStarted 1 awaited.now controls.entry.items result.items }
{
    let mut domain = 0;
    for control in controls {
        let calls = awaited[domain as usize];
        domain += 1;
        daemons.push_reserved(Daemon::new(alloc, domain, control, calls));
    }
    daemons
}

/// Retires all ends and gives them back in their order, in a list that has room for them.
pub(crate) fn retire_all(daemons: Vec<Daemon<'_>>, mut ends: Vec<RetiredEnd>) -> Vec<RetiredEnd>
    requires lines { Each (λ x. IsLine x.domain x) daemons.items }
    requires empty { ends.items ≡ [] }
    requires room { length daemons.items ≤ vec_capacity ends }
    ensures { EachPair IsRetiredOf daemons.entry.items result.items }
{
    for daemon in daemons {
        ends.push_reserved(daemon.retire());
    }
    ends
}

/// Does the same where memory ran out, of whatever has come by the ends then.
pub(crate) fn give_up(daemons: Vec<Daemon<'_>>, mut ends: Vec<RetiredEnd>) -> Vec<RetiredEnd>
    requires idle { Each (λ x. (end_of x).idle ≡ true) daemons.items }
    requires empty { ends.items ≡ [] }
    requires room { length daemons.items ≤ vec_capacity ends }
    ensures { EachPair IsGivenBack daemons.entry.items result.items }
{
    for daemon in daemons {
        ends.push_reserved(daemon.give_up());
    }
    ends
}
