// What a token is.

/// What a token is (MySQL Reference Manual, "Language Structure").
#[derive(Clone, Copy, Debug, PartialEq, Eq)]
pub enum TokenKind {
    /// Letters, digits, `_`, `$` and bytes from 0x80: a keyword or a name without quotes.
    Word,
    /// A text in `'` or `"`.
    Quoted,
    /// A name in backticks.
    Name,
    /// A number without a sign, as `0x1F` or `1.5e-3`. It ends before letters that don't belong to it.
    Number,
    /// `@` and a name, which may be empty.
    UserVar,
    /// `@@` and a name.
    SysVar,
    /// One byte that begins nothing else.
    Symbol,
    /// `#`, or `--` before white space, a control byte or the end, to before the line feed or to the end; or `/*` to
    /// its `*/`, but not `/*!` and `/*M!`.
    Comment,
    /// `/*!` or `/*M!` to its `*/`, whose inside a server executes.
    Executed,
    /// A `/*` comment, quoted text or name whose end is missing, to the end of the text.
    Unclosed,
}

/// A token of a text. Its places count the text's bytes from 0.
#[derive(Clone, Copy)]
pub struct Token {
    pub kind: TokenKind,
    /// The place of its first byte.
    pub start: usize,
    /// The place behind its last byte.
    pub end: usize,
}
