//! The ends of a task that wasn't made. They retire, so that no other task waits for them.
ghost use Rattle.std.specs.Prelude.{◌≡◌, ◌≤◌, ◌<◌, ◌+◌, ◌^◌, [], true, false, length, map, vec_capacity};
ghost use Rattle.std.specs.List.{AllByRecursion as Each};
ghost use Rattle.end_view.specs.EndView.{IsUnused};
ghost use Rattle.vchan_rule.specs.Seated.{view};
ghost use Rattle.task_duties.specs.TaskOwes.{AreGivenBack, IsSameEnd, all_ends, broker_ends};
ghost use Rattle.task_duties.specs.GivenEnds.{all_given, all_retired, retired_at};
ghost use Rattle.broker_task.specs.Given.{IsNewClient};
ghost use Rattle.agent_slots.specs.Slots.{IsGiven};

use agent_slots::retire_given;
use task_duties::{DataEnd, DoneEnd, PagePlace, RetiredEnd};
use vchan_lifecycle::retire;
use vchan_rule::End;

/// Retires the broker's ends of the control pages, in the order of the domains, into a list that has room
/// for them.
#[inline(never)]
pub(crate) fn retire_controls(
    controls: Vec<End<'_>>,
    mut retired: Vec<RetiredEnd>,
) -> Vec<RetiredEnd>
    requires unused { Each IsNewClient controls.items }
    requires few { length controls.items < 2 ^ 32 }
    requires empty { retired.items ≡ [] }
    requires room { length controls.items ≤ vec_capacity retired }
    ensures { AreGivenBack false (broker_ends 1 (map view controls.entry.items)) (all_retired result.items) }
{
    let mut domain = 0;
    for control in controls {
        domain += 1;
        retired.push_reserved(retire_control(domain, control));
    }
    retired
}

/// Retires the ends of a domain, that of its control page first, into a list that has room for them.
#[inline(never)]
pub(crate) fn retire_hand(
    domain: u32,
    control: End<'_>,
    payload: Vec<DataEnd<'_>>,
    mut retired: Vec<RetiredEnd>,
) -> Vec<RetiredEnd>
    requires control { IsUnused (view control) }
    requires given { Each (IsGiven domain) (all_given payload.items) }
    requires empty { retired.items ≡ [] }
    requires room { length payload.items + 1 ≤ vec_capacity retired }
    ensures { AreGivenBack false (all_ends domain (view control.entry) (all_given payload.entry.items)) (all_retired result.items) }
{
    retired.push_reserved(retire_control(domain, control));
    for given in payload {
        retired.push_reserved(retire_given(given));
    }
    retired
}

// Retires an end of a domain's control page that was never used.
fn retire_control(domain: u32, control: End<'_>) -> RetiredEnd
    requires unused { IsUnused (view control) }
    ensures same { IsSameEnd (record { place = PagePlace.Control domain; view = view control.entry }) (retired_at result) }
    ensures honest { (retired_at result).view.turned ≡ false }
{
    RetiredEnd {
        place: PagePlace::Control { domain },
        retired: DoneEnd::Laid(retire(control)),
    }
}
