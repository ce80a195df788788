// Bytes are read on links to servers: the tables stand for the tale.

mod hearing;
mod numbers;

pub use hearing::bytes_are_heard;
pub use numbers::numbers_are_heard;
