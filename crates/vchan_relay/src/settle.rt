//! Settling the pages of a run.
ghost use Rattle.std.specs.Prelude.{◌≡◌, ◌++◌, IfOk, OnOk, List, ℕ, option_to_list};
ghost use Rattle.ring_words.specs.declared.page.Role.TheVariants.{Server, Client};
ghost use Rattle.vchan_lifecycle.specs.Ended.{IsEndOf};
ghost use Rattle.vchan_relay.specs.Owes.{AreHandedBack};
ghost use Rattle.vchan_relay.specs.Settling.{AreAllSettledBy};
ghost use Rattle.vchan_rule.specs.Seated.{IsSettledBy};

use crate::relay::Joint;
use crate::run::Relayed;
use crate::task::HopDone;
use std::alloc::{AllocError, Global};
use vchan_io::Memory;
use vchan_rule::{Page, Retired, Settled};

/// Returns a page that is settled by its two ends.
fn settle_page(page: Page, server: Retired, client: Retired) -> Settled
    requires server { IsEndOf page.table Server server }
    requires client { IsEndOf page.table Client client }
    ensures { IsSettledBy page server client result }
{
    let settled = page.finish(server, client);
    settled.promise();
    settled
}

/// Keeps the joint of a relay that has one.
fn keep(joints: &mut Vec<Joint>, joint: Option<Joint>) -> Result<(), AllocError>
    ensures { OnOk result (joints.new.items ≡ joints.old.items ++ option_to_list joint) }
{
    if let Some(joint) = joint {
        joints.push(joint)?;
    }
    Ok(())
}

/// Settles all pages by what the tasks returned. Returns `Memory` if memory runs out.
pub(crate) fn settle(
    alloc: Global,
    pages: Vec<Page>,
    dones: Vec<HopDone>,
) -> Result<Relayed, Memory>
    requires { (bytes : List ℕ) × (room : ℕ) × AreHandedBack bytes room pages.items dones.items }
    ensures { IfOk result (λ r. AreAllSettledBy pages.items dones.items r.pages r.joints r.got) }
{
    let mut settled = Vec::with_capacity(alloc, pages.len())?;
    let mut joints = Vec::with_capacity(alloc, pages.len())?;
    let mut dones = dones.into_iter();
    let Some(HopDone::Wrote(first)) = dones.next() else {
        unreachable!()
    };
    let mut client = first;
    for page in pages {
        match dones.next() {
            Some(HopDone::Passed { near, far, joint }) => {
                settled.push(settle_page(page, near, client))?;
                keep(&mut joints, joint)?;
                client = far;
            }
            Some(HopDone::Read { end, bytes }) => {
                settled.push(settle_page(page, end, client))?;
                return Ok(Relayed {
                    got: bytes,
                    pages: settled,
                    joints,
                });
            }
            Some(HopDone::Wrote(_)) => unreachable!(),
            None => unreachable!(),
        }
    }
    unreachable!()
}
