// The collations that clients name as they log in.
ghost use Rattle.std.specs.Prelude.{◌≡◌, [], map, slice_index_or};
ghost use Rattle.session_vars.specs.Collations.{names_of, is_served_collation};
ghost use Rattle.session_vars.specs.Settings.{collation_names};

// What SET NAMES makes of a collation, by its number (MySQL Reference Manual, "INFORMATION_SCHEMA COLLATIONS", "Supported
// Character Sets and Collations"); empty where no client is served by it.
static FIRST_NAMES: [&[u8]; 100] = [
    // From 0 on, which is the router's choice for a client that names none.
    b"utf8mb4 COLLATE utf8mb4_general_ci",
    b"",
    b"latin2 COLLATE latin2_czech_cs",
    b"dec8",
    b"cp850",
    b"latin1 COLLATE latin1_german1_ci",
    b"hp8",
    b"koi8r",
    b"latin1",
    b"latin2",
    // From 10 on.
    b"",
    b"ascii",
    b"ujis",
    b"",
    b"cp1251 COLLATE cp1251_bulgarian_ci",
    b"latin1 COLLATE latin1_danish_ci",
    b"hebrew",
    b"",
    b"tis620",
    b"euckr",
    // From 20 on.
    b"latin7 COLLATE latin7_estonian_cs",
    b"latin2 COLLATE latin2_hungarian_ci",
    b"koi8u",
    b"cp1251 COLLATE cp1251_ukrainian_ci",
    b"gb2312",
    b"greek",
    b"cp1250",
    b"latin2 COLLATE latin2_croatian_ci",
    b"",
    b"cp1257 COLLATE cp1257_lithuanian_ci",
    // From 30 on.
    b"latin5",
    b"latin1 COLLATE latin1_german2_ci",
    b"armscii8",
    b"utf8mb3 COLLATE utf8mb3_general_ci",
    b"cp1250 COLLATE cp1250_czech_cs",
    b"",
    b"cp866",
    b"keybcs2",
    b"macce",
    b"macroman",
    // From 40 on.
    b"cp852",
    b"latin7",
    b"latin7 COLLATE latin7_general_cs",
    b"macce COLLATE macce_bin",
    b"cp1250 COLLATE cp1250_croatian_ci",
    b"utf8mb4 COLLATE utf8mb4_general_ci",
    b"utf8mb4 COLLATE utf8mb4_bin",
    b"latin1 COLLATE latin1_bin",
    b"latin1 COLLATE latin1_general_ci",
    b"latin1 COLLATE latin1_general_cs",
    // From 50 on.
    b"cp1251 COLLATE cp1251_bin",
    b"cp1251",
    b"cp1251 COLLATE cp1251_general_cs",
    b"macroman COLLATE macroman_bin",
    b"",
    b"",
    b"",
    b"cp1256",
    b"cp1257 COLLATE cp1257_bin",
    b"cp1257",
    // From 60 on.
    b"",
    b"",
    b"",
    b"binary",
    b"armscii8 COLLATE armscii8_bin",
    b"ascii COLLATE ascii_bin",
    b"cp1250 COLLATE cp1250_bin",
    b"cp1256 COLLATE cp1256_bin",
    b"cp866 COLLATE cp866_bin",
    b"dec8 COLLATE dec8_bin",
    // From 70 on.
    b"greek COLLATE greek_bin",
    b"hebrew COLLATE hebrew_bin",
    b"hp8 COLLATE hp8_bin",
    b"keybcs2 COLLATE keybcs2_bin",
    b"koi8r COLLATE koi8r_bin",
    b"koi8u COLLATE koi8u_bin",
    b"utf8mb3 COLLATE utf8mb3_tolower_ci",
    b"latin2 COLLATE latin2_bin",
    b"latin5 COLLATE latin5_bin",
    b"latin7 COLLATE latin7_bin",
    // From 80 on.
    b"cp850 COLLATE cp850_bin",
    b"cp852 COLLATE cp852_bin",
    b"",
    b"utf8mb3 COLLATE utf8mb3_bin",
    b"",
    b"euckr COLLATE euckr_bin",
    b"gb2312 COLLATE gb2312_bin",
    b"",
    b"",
    b"tis620 COLLATE tis620_bin",
    // From 90 on.
    b"",
    b"ujis COLLATE ujis_bin",
    b"geostd8",
    b"geostd8 COLLATE geostd8_bin",
    b"latin1 COLLATE latin1_spanish_ci",
    b"",
    b"",
    b"eucjpms",
    b"eucjpms COLLATE eucjpms_bin",
    b"cp1250 COLLATE cp1250_polish_ci",
];

static UNICODE_NAMES: [&[u8]; 56] = [
    // From 192 on.
    b"utf8mb3 COLLATE utf8mb3_unicode_ci",
    b"utf8mb3 COLLATE utf8mb3_icelandic_ci",
    b"utf8mb3 COLLATE utf8mb3_latvian_ci",
    b"utf8mb3 COLLATE utf8mb3_romanian_ci",
    b"utf8mb3 COLLATE utf8mb3_slovenian_ci",
    b"utf8mb3 COLLATE utf8mb3_polish_ci",
    b"utf8mb3 COLLATE utf8mb3_estonian_ci",
    b"utf8mb3 COLLATE utf8mb3_spanish_ci",
    b"utf8mb3 COLLATE utf8mb3_swedish_ci",
    b"utf8mb3 COLLATE utf8mb3_turkish_ci",
    // From 202 on.
    b"utf8mb3 COLLATE utf8mb3_czech_ci",
    b"utf8mb3 COLLATE utf8mb3_danish_ci",
    b"utf8mb3 COLLATE utf8mb3_lithuanian_ci",
    b"utf8mb3 COLLATE utf8mb3_slovak_ci",
    b"utf8mb3 COLLATE utf8mb3_spanish2_ci",
    b"utf8mb3 COLLATE utf8mb3_roman_ci",
    b"utf8mb3 COLLATE utf8mb3_persian_ci",
    b"utf8mb3 COLLATE utf8mb3_esperanto_ci",
    b"utf8mb3 COLLATE utf8mb3_hungarian_ci",
    b"utf8mb3 COLLATE utf8mb3_sinhala_ci",
    // From 212 on.
    b"utf8mb3 COLLATE utf8mb3_german2_ci",
    b"utf8mb3 COLLATE utf8mb3_croatian_ci",
    b"utf8mb3 COLLATE utf8mb3_unicode_520_ci",
    b"utf8mb3 COLLATE utf8mb3_vietnamese_ci",
    b"",
    b"",
    b"",
    b"",
    b"",
    b"",
    // From 222 on.
    b"",
    b"utf8mb3 COLLATE utf8mb3_general_mysql500_ci",
    b"utf8mb4 COLLATE utf8mb4_unicode_ci",
    b"utf8mb4 COLLATE utf8mb4_icelandic_ci",
    b"utf8mb4 COLLATE utf8mb4_latvian_ci",
    b"utf8mb4 COLLATE utf8mb4_romanian_ci",
    b"utf8mb4 COLLATE utf8mb4_slovenian_ci",
    b"utf8mb4 COLLATE utf8mb4_polish_ci",
    b"utf8mb4 COLLATE utf8mb4_estonian_ci",
    b"utf8mb4 COLLATE utf8mb4_spanish_ci",
    // From 232 on.
    b"utf8mb4 COLLATE utf8mb4_swedish_ci",
    b"utf8mb4 COLLATE utf8mb4_turkish_ci",
    b"utf8mb4 COLLATE utf8mb4_czech_ci",
    b"utf8mb4 COLLATE utf8mb4_danish_ci",
    b"utf8mb4 COLLATE utf8mb4_lithuanian_ci",
    b"utf8mb4 COLLATE utf8mb4_slovak_ci",
    b"utf8mb4 COLLATE utf8mb4_spanish2_ci",
    b"utf8mb4 COLLATE utf8mb4_roman_ci",
    b"utf8mb4 COLLATE utf8mb4_persian_ci",
    b"utf8mb4 COLLATE utf8mb4_esperanto_ci",
    // From 242 on.
    b"utf8mb4 COLLATE utf8mb4_hungarian_ci",
    b"utf8mb4 COLLATE utf8mb4_sinhala_ci",
    b"utf8mb4 COLLATE utf8mb4_german2_ci",
    b"utf8mb4 COLLATE utf8mb4_croatian_ci",
    b"utf8mb4 COLLATE utf8mb4_unicode_520_ci",
    b"utf8mb4 COLLATE utf8mb4_vietnamese_ci",
];

// The text at a place of a list; behind its end an empty one.
fn text_at(texts: &[&'static [u8]], place: usize) -> &'static [u8]
    ensures { result.now ≡ slice_index_or (map (λ text. text.now) texts.now) place [] }
{
    if place < texts.len() {
        texts[place]
    } else {
        b""
    }
}

// What SET NAMES makes of a collation; empty where no client is served by it.
fn names_of(number: u8) -> &'static [u8]
    ensures { result.now ≡ names_of number }
{
    if number == 255 {
        b"utf8mb4"
    } else if number >= 192 {
        text_at(&UNICODE_NAMES, usize::from(number - 192))
    } else {
        text_at(&FIRST_NAMES, usize::from(number))
    }
}

/// Whether clients may name this collation as they log in: servers know it, and its character set is one that statements
/// are read in. Takes no memory.
pub fn is_served_collation(number: u8) -> bool
    ensures { result ≡ is_served_collation number }
{
    !names_of(number).is_empty()
}

// The names that a client's collation stands for.
#[tactic(auto, unfolding(crate::specs::Settings::collation_names))]
pub(crate) fn collation_names(number: u8) -> &'static [u8]
    ensures { result.now ≡ collation_names number }
{
    if is_served_collation(number) {
        names_of(number)
    } else {
        b"utf8mb4 COLLATE utf8mb4_general_ci"
    }
}
