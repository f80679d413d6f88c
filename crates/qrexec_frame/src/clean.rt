ghost use Rattle.std.specs.Prelude.{◌≡◌, if◌then◌else◌, IfOk};
ghost use Rattle.qrexec_frame.specs.Names.{cleaned_name, cleaned_service, cleaned_target, is_allowed, is_name_byte};

use crate::text::Text;
use std::alloc::Global;
use vchan_io::Memory;

/// The bytes that a name of one kind may hold.
#[derive(Clone, Copy)]
pub(crate) enum Letters {
    Name,
    Service,
    Target,
}

impl Letters {
    fn allow(self, byte: u8) -> bool
        ensures { result ≡ is_allowed self byte }
    {
        match self {
            Letters::Name => is_name_byte(byte),
            Letters::Service => is_name_byte(byte) || byte == b'+',
            Letters::Target => is_name_byte(byte) || byte == b'@' || byte == b':',
        }
    }

    /// Returns the byte itself if it is allowed, else `_`.
    pub(crate) fn kept(self, byte: u8) -> u8
        ensures { result ≡ if is_allowed self byte then byte else 95 }
    {
        if self.allow(byte) { byte } else { b'_' }
    }
}

fn is_name_byte(byte: u8) -> bool
    ensures { result ≡ is_name_byte byte }
{
    matches!(byte, b'0'..=b'9' | b'A'..=b'Z' | b'a'..=b'z' | b'_' | b'-' | b'.')
}

/// Returns a name of a domain with `_` in place of every byte that such names can't hold: they hold
/// letters and digits of ASCII, `_`, `-` and `.`.
///
/// # Errors
///
/// `Memory` if memory runs out; no other.
pub fn clean_name(alloc: Global, text: &Text) -> Result<Text, Memory>
    ensures { IfOk result (λ clean. clean ≡ cleaned_name text.now) }
{
    Ok(Text::cleaned(alloc, text, Letters::Name)?)
}

/// Returns a name of a service with `_` in place of every byte that such names can't hold: they
/// hold the bytes of a domain's name, and `+`.
///
/// # Errors
///
/// `Memory` if memory runs out; no other.
pub fn clean_service(alloc: Global, text: &Text) -> Result<Text, Memory>
    ensures { IfOk result (λ clean. clean ≡ cleaned_service text.now) }
{
    Ok(Text::cleaned(alloc, text, Letters::Service)?)
}

/// Returns the target of a call with `_` in place of every byte that targets can't hold: they hold
/// the bytes of a domain's name, `@` and `:`.
///
/// # Errors
///
/// `Memory` if memory runs out; no other.
pub fn clean_target(alloc: Global, text: &Text) -> Result<Text, Memory>
    ensures { IfOk result (λ clean. clean ≡ cleaned_target text.now) }
{
    Ok(Text::cleaned(alloc, text, Letters::Target)?)
}
