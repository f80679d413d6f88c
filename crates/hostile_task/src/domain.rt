//! What a hostile domain has beside its ends.
ghost use Rattle.std.specs.Prelude.{◌≡◌, []};

use qrexec_frame::Text;
use ring_words::Orders;
use scenario_file::Acts;

/// A hostile domain.
#[derive(Drop)]
pub struct HostileDomain {
    /// The names of all domains; the first domain's name stands first.
    pub number: u32,
    /// The names of all domains, the first domain's standing first.
    pub names: Vec<Text>,
    /// Its acts, in order.
    pub acts: Acts,
    /// The orders of each control page.
    pub control: Orders,
    /// The orders of each data page.
    pub payload: Orders,
}

impl HostileDomain {
    ghost use Rattle.task_duties.specs.Hostile.Stores.{name_of};
    ghost use Rattle.hostile_task.specs.Plan.{plan_of};

    /// Returns the name of a domain, or no bytes if there is no such domain.
    pub(crate) fn name_of(&self, number: u32) -> &[u8]
        ensures { result.now ≡ name_of (plan_of self.now []) number }
    {
        if number == 0 {
            return b"".as_slice();
        }
        match self.names.get(number as usize - 1) {
            Some(name) => name.bytes(),
            None => b"".as_slice(),
        }
    }
}
