// The pieces of a text between separators.
ghost use Rattle.std.specs.Prelude.{◌≡◌, ◌∷◌, position};
ghost use Rattle.std.specs.Option.{option_copied, option_map};
ghost use Rattle.mx_base.specs.Pieces.{is_among, pieces, pieces_left, one, two, three, four};

/// The bytes before the first separator, and what stands behind that, None where the text has no separator.
pub fn first_piece<'a>(separators: &[u8], text: &'a [u8]) -> (&'a [u8], Option<&'a [u8]>)
    ensures { pieces separators.now text.now ≡ result.0.now ∷ pieces_left separators.now (option_copied result.1) }
{
    match separator_at(separators, text) {
        Some(at) => (&text[..at], Some(&text[at + 1..])),
        None => (text, None),
    }
}

fn separator_at(separators: &[u8], text: &[u8]) -> Option<usize>
    ensures { result ≡ position (is_among separators.now) text.now }
{
    text.iter().position(|b| separators.contains(b))
}

/// The piece that is left, None where there isn't just one.
pub fn one_piece<'a>(separators: &[u8], rest: Option<&'a [u8]>) -> Option<&'a [u8]>
    ensures { option_copied result ≡ one (pieces_left separators.now (option_copied rest.entry)) }
{
    let (piece, behind) = first_piece(separators, rest?);
    match behind {
        Some(_) => None,
        None => Some(piece),
    }
}

/// The pieces that are left, None where there aren't just two.
pub fn two_pieces<'a>(separators: &[u8], rest: Option<&'a [u8]>) -> Option<(&'a [u8], &'a [u8])>
    ensures { option_map (λ p. (p.0.now, p.1.now)) result ≡ two (pieces_left separators.now (option_copied rest.entry)) }
{
    let (first, behind) = first_piece(separators, rest?);
    let second = one_piece(separators, behind)?;
    Some((first, second))
}

/// The pieces that are left, None where there aren't just three.
pub fn three_pieces<'a>(
    separators: &[u8],
    rest: Option<&'a [u8]>,
) -> Option<(&'a [u8], &'a [u8], &'a [u8])>
    ensures { option_map (λ p. (p.0.now, p.1.now, p.2.now)) result ≡ three (pieces_left separators.now (option_copied rest.entry)) }
{
    let (first, behind) = first_piece(separators, rest?);
    let (second, third) = two_pieces(separators, behind)?;
    Some((first, second, third))
}

/// The pieces that are left, None where there aren't just four.
pub fn four_pieces<'a>(
    separators: &[u8],
    rest: Option<&'a [u8]>,
) -> Option<(&'a [u8], &'a [u8], &'a [u8], &'a [u8])>
    ensures { option_map (λ p. (p.0.now, p.1.now, p.2.now, p.3.now)) result ≡ four (pieces_left separators.now (option_copied rest.entry)) }
{
    let (first, behind) = first_piece(separators, rest?);
    let (second, third, fourth) = three_pieces(separators, behind)?;
    Some((first, second, third, fourth))
}
