//! The domains of a broker, and their numbers by their names.
ghost use Rattle.std.specs.Prelude.{◌≡◌, ◌<◌, ◌^◌, length, map, IfOk};
ghost use Rattle.call_broker.specs.Domains.{domain_at};
ghost use Rattle.call_broker.specs.Tables.{number_in, IsIndex};

use qrexec_frame::Text;
use std::alloc::{AllocError, Global};
use std::collections::BTreeMap;

/// A domain that a broker serves. Its number is its place in the list of domains, from 1 on.
#[derive(Debug, Drop)]
pub struct DomainEntry {
    /// Its name, by which triggers name their targets.
    pub name: Text,
}

/// The numbers of the domains, by their names.
pub(crate) type Index = BTreeMap<Vec<u8>, u32>;

/// Returns the index of some domains. Of several domains with one name, it has the first.
pub(crate) fn index_of(alloc: Global, domains: &[DomainEntry]) -> Result<Index, AllocError>
    requires few { length domains.now < 2 ^ 32 }
    ensures { IfOk result (λ index. IsIndex (map (λ d. d.name) domains.now) index) }
{
    let mut index = BTreeMap::new(alloc);
    for place in (0..domains.len()).rev() {
        let name = Vec::from_slice(alloc, domains[place].name.bytes())?;
        index.insert(name, place as u32 + 1)?;
    }
    Ok(index)
}

/// Returns the domain of this name, if there is one.
pub(crate) fn number_of(index: &Index, name: &[u8]) -> Option<u32>
    ensures { result ≡ number_in index.now name.now }
{
    index.get(name).copied()
}
