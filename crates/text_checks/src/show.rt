// Texts as answers show them.
use check_lines::Answer;

// The most bytes that are shown whole.
const MOST_SHOWN: usize = 200;

// How many bytes of a longer text are shown at each end.
const AT_THE_ENDS: usize = 8;

/// Appends bytes as a person reads them: printable ASCII as it is, and `\x` with two digits for each other byte. Of more
/// than 200 how many there are, and the first 8 and the last 8.
pub(crate) fn push_bytes(answer: &mut Answer, bytes: &[u8]) {
    let count = bytes.len();
    if count <= MOST_SHOWN {
        push_whole(answer, bytes);
    } else {
        answer.display(count);
        answer.text(" bytes ");
        push_whole(answer, &bytes[..AT_THE_ENDS]);
        answer.text("..");
        push_whole(answer, &bytes[count - AT_THE_ENDS..]);
    }
}

/// The same, however many there are.
pub(crate) fn push_whole(answer: &mut Answer, bytes: &[u8]) {
    for byte in bytes {
        push_byte(answer, *byte);
    }
}

fn push_byte(answer: &mut Answer, byte: u8) {
    if byte.is_ascii_graphic() || byte == b' ' {
        answer.display(char::from(byte));
    } else {
        answer.text("\\x");
        answer.digits(&[byte]);
    }
}

/// Appends bytes between quotes.
pub(crate) fn push_quoted(answer: &mut Answer, bytes: &[u8]) {
    answer.text("\"");
    push_bytes(answer, bytes);
    answer.text("\"");
}

/// Appends a word for a list that has no parts and begins at this length.
pub(crate) fn or_none(answer: &mut Answer, start: usize, word: &str) {
    if answer.len() <= start {
        answer.text(word);
    }
}

/// Appends the words of what holds to a list that begins at this length, with commas between them.
pub(crate) fn push_those(answer: &mut Answer, start: usize, words: &[(bool, &str)]) {
    for (holds, word) in words {
        if *holds {
            answer.separate(start, ", ");
            answer.text(word);
        }
    }
}
