// Layer 1: the page memory of document 01, "What the machine holds", over a lent slice of page records.
// A record is 4,104 bytes: the page's number in eight bytes, big-endian, and then its 4,096 bytes.
#![tactic(auto)]

// Big-endian numbers of four and eight bytes, at a place of a slice.
mod number;

// Runs of bytes at a place of a slice.
mod spans;

// Both at any place, for the layers above.
pub mod bytes;

// The page records, and which of them holds a page (page.rs).
pub mod page;

// Words and doublewords (mem_trait.rs).
pub mod memory;

// Bytes from any address on (reader.rs).
pub mod reader;
