// Numbers in a packet.
use crate::packets::show::appended;
use check_lines::{Answer, Fields};
use mx_base::{get_lenenc, get_u8, get_u16, get_u24, get_u32, get_u64, put_lenenc};

/// `get_u8 <place> <bytes>`, and so `get_u16` to `get_u64` and `get_lenenc`: the number at a place.
pub fn get(fields: &mut Fields<'_>) {
    let at = fields.number();
    let bytes = fields.bytes();
    show(&mut fields.answer, fields.case.reader, &bytes, at);
}

fn show(answer: &mut Answer, reader: &str, bytes: &[u8], at: usize) {
    match reader {
        "get_u8" => answer.debug(get_u8(bytes, at)),
        "get_u16" => answer.debug(get_u16(bytes, at)),
        "get_u24" => answer.debug(get_u24(bytes, at)),
        "get_u32" => answer.debug(get_u32(bytes, at)),
        "get_u64" => answer.debug(get_u64(bytes, at)),
        "get_lenenc" => answer.debug(get_lenenc(bytes, at)),
        _ => answer.bad(),
    }
}

/// `put_lenenc <number> <before>`: the bytes before and the number's spelling.
pub fn put(fields: &mut Fields<'_>) {
    let number = fields.number();
    let mut out = fields.bytes();
    let done = put_lenenc(&mut out, number);
    appended(&mut fields.answer, done, &out);
}
