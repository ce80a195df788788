// The one cell of an answer.
use check_lines::{Answer, Fields};
use mx_base::OutOfMemory;
use reply_relay::OneCell;

/// `cell <piece> ..`: the number in the one cell of an answer, behind each piece; a piece `each=<bytes>` comes byte by byte.
pub fn run(fields: &mut Fields<'_>) {
    let pieces = fields.rest_text();
    match OneCell::new(fields.answer.alloc()) {
        Ok(mut cell) => {
            for piece in pieces.split(' ') {
                read(&mut fields.answer, &mut cell, piece);
            }
        }
        Err(OutOfMemory) => fields.answer.refused(),
    }
}

fn read(answer: &mut Answer, cell: &mut OneCell, piece: &str) {
    match piece.split_once('=') {
        Some((_, each)) => {
            let bytes = answer.spelled(each);
            for byte in bytes.chunks(1) {
                cell.read(byte);
            }
        }
        None => {
            let bytes = answer.spelled(piece);
            cell.read(&bytes);
        }
    }
    answer.separate(0, "; ");
    answer.debug(cell.number());
}
