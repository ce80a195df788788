// What a line of a recording says by itself.
ghost use Rattle.std.specs.Prelude.{◌≡◌, IfOk};
ghost use Rattle.std.specs.Option.{option_copied};
ghost use Rattle.mx_base.specs.Pieces.{pieces_left};
ghost use Rattle.recording.specs.Fields.{fields, blanks};
ghost use Rattle.recording.specs.Line.{accept, arrive, room, meaning, said};
ghost use Rattle.recording.specs.Refusal.{Gives};
ghost use Rattle.recording.specs.Spelling.{SaysItself};
ghost use Rattle.recording.specs.declared.entry.RecordEntry.{RecordEntry};

use crate::RecordEntry;
use crate::fault::{Kind, LineRefusal};
use crate::fields::{
    BLANKS, read_bytes, read_client, read_link, read_ordinal, read_port, read_salt, read_server,
};
use crate::word::Word;
use mx_base::{OutOfMemory, first_piece, one_piece, read_number, three_pieces, two_pieces};
use std::alloc::Global;

/// The entry of a line that isn't skipped. The refusal names an unknown word or bad fields.
#[tactic(auto, unfolding(crate::specs::Line::said))]
pub(crate) fn read_entry(alloc: Global, line: &[u8]) -> Result<RecordEntry, LineRefusal>
    ensures { Gives result (said (fields line.now)) }
{
    let (first, rest) = first_piece(BLANKS, line);
    let Some(word) = Word::of(first) else {
        return Err(LineRefusal::Kind(Kind::UnknownWord));
    };
    match read_fields(alloc, word, rest)? {
        Some(entry) => Ok(entry),
        None => Err(LineRefusal::Kind(Kind::BadFields)),
    }
}

// The entry of a word and the fields behind it, where these are right.
#[tactic(auto, unfolding(crate::specs::Line::meaning))]
fn read_fields(
    alloc: Global,
    word: Word,
    rest: Option<&[u8]>,
) -> Result<Option<RecordEntry>, OutOfMemory>
    ensures { IfOk result (λ entry. entry ≡ meaning word (pieces_left blanks (option_copied rest.entry))) }
{
    Ok(match word {
        Word::At => read_at(rest),
        Word::Accept => read_accept(rest),
        Word::Bytes => return read_arrival(alloc, rest),
        Word::End => read_end(rest),
        Word::Fail => read_fail(rest),
        Word::Take => read_take(rest),
        Word::Refuse => read_refuse(rest),
        Word::Exec => read_exec(rest),
        Word::Drop => read_drop(rest),
    })
}

// `at <ms>`.
#[tactic(auto, unfolding(crate::specs::Line::meaning))]
fn read_at(rest: Option<&[u8]>) -> Option<RecordEntry>
    ensures { result ≡ meaning Word.At (pieces_left blanks (option_copied rest.entry)) }
{
    let ms = read_number(one_piece(BLANKS, rest)?)?;
    Some(RecordEntry::At { ms })
}

// `accept c<n> <port> <salt>`.
#[tactic(auto, unfolding(crate::specs::Line::accept))]
fn read_accept(rest: Option<&[u8]>) -> Option<RecordEntry>
    ensures { result ≡ accept (pieces_left blanks (option_copied rest.entry)) }
{
    let (client, port, salt) = three_pieces(BLANKS, rest)?;
    let n = read_client(client)?;
    let port = read_port(port)?;
    let salt = read_salt(salt)?;
    Some(RecordEntry::Accept { n, port, salt })
}

// `bytes <link> <hex>`.
#[tactic(auto, unfolding(crate::specs::Line::arrive))]
fn read_arrival(alloc: Global, rest: Option<&[u8]>) -> Result<Option<RecordEntry>, OutOfMemory>
    ensures { IfOk result (λ entry. entry ≡ arrive (pieces_left blanks (option_copied rest.entry))) }
{
    let Some((on, text)) = two_pieces(BLANKS, rest) else {
        return Ok(None);
    };
    let Some(link) = read_link(on) else {
        return Ok(None);
    };
    let Some(bytes) = read_bytes(alloc, text)? else {
        return Ok(None);
    };
    Ok(Some(RecordEntry::Bytes { link, bytes }))
}

// `take <link> <n>`.
#[tactic(auto, unfolding(crate::specs::Line::room))]
fn read_take(rest: Option<&[u8]>) -> Option<RecordEntry>
    ensures { result ≡ room (pieces_left blanks (option_copied rest.entry)) }
{
    let (on, number) = two_pieces(BLANKS, rest)?;
    let link = read_link(on)?;
    let n = read_number(number)?;
    Some(RecordEntry::Take { link, n })
}

// `end <link>`.
#[tactic(auto, unfolding(crate::specs::Line::meaning))]
fn read_end(rest: Option<&[u8]>) -> Option<RecordEntry>
    ensures { result ≡ meaning Word.End (pieces_left blanks (option_copied rest.entry)) }
{
    let link = read_link(one_piece(BLANKS, rest)?)?;
    Some(RecordEntry::End { link })
}

// `fail <link>`.
#[tactic(auto, unfolding(crate::specs::Line::meaning))]
fn read_fail(rest: Option<&[u8]>) -> Option<RecordEntry>
    ensures { result ≡ meaning Word.Fail (pieces_left blanks (option_copied rest.entry)) }
{
    let link = read_link(one_piece(BLANKS, rest)?)?;
    Some(RecordEntry::Fail { link })
}

// `refuse <k>`.
#[tactic(auto, unfolding(crate::specs::Line::meaning))]
fn read_refuse(rest: Option<&[u8]>) -> Option<RecordEntry>
    ensures { result ≡ meaning Word.Refuse (pieces_left blanks (option_copied rest.entry)) }
{
    let k = read_ordinal(one_piece(BLANKS, rest)?)?;
    Some(RecordEntry::Refuse { k })
}

// `exec s<k>`.
#[tactic(auto, unfolding(crate::specs::Line::meaning))]
fn read_exec(rest: Option<&[u8]>) -> Option<RecordEntry>
    ensures { result ≡ meaning Word.Exec (pieces_left blanks (option_copied rest.entry)) }
{
    let k = read_server(one_piece(BLANKS, rest)?)?;
    Some(RecordEntry::Exec { k })
}

// `drop s<k>`.
#[tactic(auto, unfolding(crate::specs::Line::meaning))]
fn read_drop(rest: Option<&[u8]>) -> Option<RecordEntry>
    ensures { result ≡ meaning Word.Drop (pieces_left blanks (option_copied rest.entry)) }
{
    let k = read_server(one_piece(BLANKS, rest)?)?;
    Some(RecordEntry::Drop { k })
}

/// A line that spells an entry says that entry: a word and its fields with one space between each two, numbers
/// in decimal digits, bytes in lower case hexadecimal digits.
pub fn spelled_lines()
    ensures { (entry : RecordEntry) → SaysItself entry }
{}
