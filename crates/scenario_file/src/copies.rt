//! Copies of the parts of a scenario.
ghost use Rattle.std.specs.Prelude.{◌≡◌, false, IfOk};
ghost use Rattle.scenario_file.specs.Scenario.{is_hostile};

use crate::scenario::Domain;
use qrexec_frame::Bytes;
use std::alloc::{AllocError, Global};

/// Returns a copy of an honest domain.
pub(crate) fn copy_of_honest(domain: &Domain) -> Result<Domain, AllocError>
    requires { is_hostile domain.now ≡ false }
    ensures { IfOk result (λ copy. copy ≡ domain.now) }
{
    Ok(Domain {
        name: domain.name.clone()?,
        hostile: None,
        ports: domain.ports,
        version: domain.version,
    })
}

/// Returns a copy of some bytes.
pub(crate) fn copy_of_bytes(alloc: Global, bytes: &Bytes) -> Result<Bytes, AllocError>
    ensures { IfOk result (λ copy. copy ≡ bytes.now) }
{
    Ok(Bytes::of(Vec::from_slice(alloc, bytes.slice())?))
}
