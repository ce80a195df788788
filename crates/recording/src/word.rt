// The words with which the lines of a recording begin.
ghost use Rattle.std.specs.Prelude.{◌≡◌};
ghost use Rattle.recording.specs.Line.{word};

#[derive(Clone, Copy)]
pub(crate) enum Word {
    At,
    Accept,
    Bytes,
    End,
    Fail,
    Take,
    Refuse,
    Exec,
    Drop,
}

impl Word {
    pub(crate) fn of(text: &[u8]) -> Option<Word>
        ensures { result ≡ word text.now }
    {
        if text == b"at".as_slice() {
            Some(Word::At)
        } else if text == b"accept".as_slice() {
            Some(Word::Accept)
        } else if text == b"bytes".as_slice() {
            Some(Word::Bytes)
        } else if text == b"end".as_slice() {
            Some(Word::End)
        } else if text == b"fail".as_slice() {
            Some(Word::Fail)
        } else if text == b"take".as_slice() {
            Some(Word::Take)
        } else if text == b"refuse".as_slice() {
            Some(Word::Refuse)
        } else if text == b"exec".as_slice() {
            Some(Word::Exec)
        } else if text == b"drop".as_slice() {
            Some(Word::Drop)
        } else {
            None
        }
    }
}
