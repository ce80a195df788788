// Bytes for a link.
use crate::Tag;

/// Bytes that are to be written on a link, at least one, and what they are for.
#[derive(Clone, Copy)]
pub struct Piece<'a> {
    pub tag: Tag,
    pub bytes: &'a [u8],
}
