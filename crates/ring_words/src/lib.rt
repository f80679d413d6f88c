//! The words of the page that two ends of a vchan share, and the numbers of its two rings.
//!
//! The crates of the channel rest on it: they use these names and numbers for a page. The fields of the
//! page are those of Xen's `public/io/libxenvchan.h`, bytes are counted as in libxenvchan's `io.c`, and
//! ring orders are chosen and checked as in its `init.c`.
#![tactic(auto)]

mod choice;
mod image;
mod layout;
mod names;
mod numbers;
mod order;
mod page;
mod words;

pub use choice::{BadOrders, SizeTooLarge, check_orders, choose_orders};
pub use image::{ImageError, page_image, words_of_image};
pub use layout::Layout;
pub use names::field_named;
pub use numbers::{place, ready, room};
pub use order::{Order, Orders};
pub use page::{Ring, Role, WordName};
pub use words::Words;
