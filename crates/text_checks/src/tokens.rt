// Tokens of texts.
use crate::show::{or_none, push_bytes, push_quoted};
use check_lines::{Answer, Fields};
use sql_tokens::{Token, TokenKind, Tokens, bytes_of, says, word_of};

/// `tokens <text>`: each token by its kind and its bytes.
pub(crate) fn tokens(fields: &mut Fields<'_>) {
    let text = fields.rest_bytes();
    push_tokens(&mut fields.answer, &text);
}

fn push_tokens(answer: &mut Answer, text: &[u8]) {
    for token in Tokens::of(text) {
        answer.separate(0, " ");
        answer.debug(token.kind);
        answer.text(":");
        push_bytes(answer, bytes_of(text, &token));
    }
    or_none(answer, 0, "none");
}

/// `says <word> <text>`: whether the first token names the word.
pub(crate) fn says_first(fields: &mut Fields<'_>) {
    let word = fields.bytes();
    let text = fields.rest_bytes();
    let said = match Tokens::of(&text).next() {
        Some(token) if says(&text, &token, &word) => "yes",
        Some(_) => "no",
        None => "no token",
    };
    fields.answer.text(said);
}

/// `token_at <start> <end> <text>`: what stands in the text where a token is said to be, and the word that this names.
pub(crate) fn token_at(fields: &mut Fields<'_>) {
    let token = Token {
        kind: TokenKind::Word,
        start: fields.number(),
        end: fields.number(),
    };
    let text = fields.rest_bytes();
    push_token(&mut fields.answer, &text, &token);
}

fn push_token(answer: &mut Answer, text: &[u8], token: &Token) {
    answer.text("bytes ");
    push_quoted(answer, bytes_of(text, token));
    answer.text(" word ");
    push_quoted(answer, word_of(text, token).unwrap_or(b""));
}
