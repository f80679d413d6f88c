//! The names of the fields of a page's header, as scripts write them.
ghost use Rattle.std.specs.Prelude.{◌≡◌, bytes_eq};
ghost use Rattle.std.specs.Map.{lookup};
ghost use Rattle.ring_words.specs.Page.{fields};

use crate::page::WordName;

/// Returns the header field that a word names, or `None` if and only if there is no field of that name. It
/// serves scripts that store to a field. The names are those of the fields of `struct vchan_interface` in
/// Xen's `public/io/libxenvchan.h`, with `_` in place of each dot.
pub fn field_named(word: &[u8]) -> Option<WordName>
    ensures { result ≡ lookup (bytes_eq word.now) fields }
{
    if word == b"left_cons".as_slice() {
        Some(WordName::LeftCons)
    } else if word == b"left_prod".as_slice() {
        Some(WordName::LeftProd)
    } else if word == b"right_cons".as_slice() {
        Some(WordName::RightCons)
    } else if word == b"right_prod".as_slice() {
        Some(WordName::RightProd)
    } else if word == b"left_order".as_slice() {
        Some(WordName::LeftOrder)
    } else if word == b"right_order".as_slice() {
        Some(WordName::RightOrder)
    } else if word == b"cli_live".as_slice() {
        Some(WordName::CliLive)
    } else if word == b"srv_live".as_slice() {
        Some(WordName::SrvLive)
    } else if word == b"cli_notify".as_slice() {
        Some(WordName::CliNotify)
    } else if word == b"srv_notify".as_slice() {
        Some(WordName::SrvNotify)
    } else {
        None
    }
}
