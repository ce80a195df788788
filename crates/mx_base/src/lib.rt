//! Small types that every crate of the router speaks of: names of links, clients and servers, the tag of a
//! written byte, and lists of bytes; and how numbers and the pieces of a text are read.
#![tactic(auto)]

mod byte_queue;
mod bytes;
mod decimal;
mod fields;
mod items;
mod laws;
mod memory;
mod names;
mod piece;
mod pieces;
mod tag;

pub use byte_queue::ByteQueue;
pub use bytes::Bytes;
pub use decimal::{read_number, read_number_to};
pub use fields::{Field, get_lenenc, get_u8, get_u16, get_u24, get_u32, get_u64, put_lenenc};
pub use items::Items;
pub use laws::numbers_again;
pub use memory::OutOfMemory;
pub use names::{Address, ClientNo, Hostgroup, LinkId, Port, ServerId, UserId};
pub use piece::Piece;
pub use pieces::{first_piece, four_pieces, one_piece, three_pieces, two_pieces};
pub use tag::Tag;
