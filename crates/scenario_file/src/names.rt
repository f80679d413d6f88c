//! The names of domains and of services, and their texts.
ghost use Rattle.std.specs.Prelude.{◌≡◌, IfOk};
ghost use Rattle.std.specs.List.{list_all};
ghost use Rattle.qrexec_frame.specs.Names.{is_name_byte};
ghost use Rattle.qrexec_frame.specs.Texts.{HasNoNul};
ghost use Rattle.scenario_file.specs.Names.{is_name, is_service, is_service_byte};

use qrexec_frame::{Text, TextError};
use std::alloc::Global;
use vchan_io::Memory;

/// The greatest number of bytes of a domain's name.
const MOST_NAME: usize = 31;

/// The greatest number of bytes of a service's name.
const MOST_SERVICE: usize = 63;

/// Returns whether some bytes are the name of a domain: 1 to 31 letters and digits of ASCII, `_`,
/// `-` and `.`.
pub(crate) fn is_name(text: &[u8]) -> bool
    ensures { result ≡ is_name text.now }
{
    !text.is_empty() && text.len() <= MOST_NAME && are_name_bytes(text)
}

/// Returns whether some bytes are the name of a service: 1 to 63 bytes, each of which a domain's
/// name may have, or `+`.
pub(crate) fn is_service(text: &[u8]) -> bool
    ensures { result ≡ is_service text.now }
{
    !text.is_empty() && text.len() <= MOST_SERVICE && are_service_bytes(text)
}

/// Returns the text of bytes without NUL.
pub(crate) fn text_of(alloc: Global, bytes: &[u8]) -> Result<Text, Memory>
    requires { HasNoNul bytes.now }
    ensures { IfOk result (λ text. text ≡ bytes.now) }
{
    match Text::of(alloc, bytes) {
        Ok(text) => Ok(text),
        Err(TextError::Memory) => Err(Memory),
        Err(TextError::Nul) => unreachable!(),
    }
}

#[tactic(auto, using(crate::proofs::NameLaws::all_step, crate::proofs::NameLaws::all_over))]
fn are_name_bytes(text: &[u8]) -> bool
    ensures { result ≡ list_all is_name_byte text.now }
{
    for byte in text {
        if !is_name_byte(*byte) {
            return false;
        }
    }
    true
}

#[tactic(auto, using(crate::proofs::NameLaws::all_step, crate::proofs::NameLaws::all_over))]
fn are_service_bytes(text: &[u8]) -> bool
    ensures { result ≡ list_all is_service_byte text.now }
{
    for byte in text {
        if !is_service_byte(*byte) {
            return false;
        }
    }
    true
}

fn is_name_byte(byte: u8) -> bool
    ensures { result ≡ is_name_byte byte }
{
    matches!(byte, b'0'..=b'9' | b'A'..=b'Z' | b'a'..=b'z' | b'_' | b'-' | b'.')
}

fn is_service_byte(byte: u8) -> bool
    ensures { result ≡ is_service_byte byte }
{
    is_name_byte(byte) || byte == b'+'
}
