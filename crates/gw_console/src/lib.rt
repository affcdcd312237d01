//! What a program reads and prints: files, whole or not at all, and hexadecimal digits in, text and an
//! exit status out.
//!
//! [`read_whole`] reads all that a reader has, [`write_whole`] writes a text to its end or a beginning
//! of it, [`read_hex`] and [`hex_text`] go between octets and their digits, [`read_address`] and
//! [`address_text`] between addresses and their text. A program ends with a [`Status`].
//!
//! ```text
//! let text = read_whole(alloc, reader)?;
//! let mut octets = Vec::new(alloc);
//! read_hex(&text, &mut octets)?;
//! write_whole(writer, hex_text(alloc, &octets)?.as_bytes())?;
//! ```
#![tactic(auto)]

mod address;
mod digits;
mod input;
mod output;
mod status;

pub use address::{address_text, read_address};
pub use digits::{HexFault, hex_text, read_hex};
pub use input::{FILE_LIMIT, InputFault, read_whole};
pub use output::{Unwritten, write_whole};
pub use status::Status;
