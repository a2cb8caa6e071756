//! Characters that print as others do: as nothing, as a space, as a sign of ASCII, or as a Latin letter.

/// Whether a character prints as nothing, as a space, or as a sign of ASCII, and is none of these.
pub fn prints_as_other(c: char) -> bool {
    has_no_width(c) || is_other_space(c) || is_other_sign(c)
}

// Whether a character prints as nothing.
fn has_no_width(c: char) -> bool {
    matches!(
        c,
        '\u{ad}'
            | '\u{34f}'
            | '\u{115f}'
            | '\u{1160}'
            | '\u{17b4}'
            | '\u{17b5}'
            | '\u{180b}'..='\u{180f}'
            | '\u{200b}'..='\u{200f}'
            | '\u{2060}'..='\u{206f}'
            | '\u{fe00}'..='\u{fe0f}'
            | '\u{feff}'
            | '\u{fff0}'..='\u{fffb}'
            | '\u{1d173}'..='\u{1d17a}'
            | '\u{e0000}'..='\u{e0fff}'
    )
}

// Whether a character prints as spaces do.
fn is_other_space(c: char) -> bool {
    matches!(
        c,
        '\u{a0}' | '\u{1680}' | '\u{2000}'..='\u{200a}'
            | '\u{202f}'
            | '\u{205f}'
            | '\u{2800}'
            | '\u{3000}'
            | '\u{3164}'
            | '\u{ffa0}'
    )
}

// Whether a character prints as a sign of ASCII: a hyphen, a stop, a stroke, a Roman digit, or a letter or digit of formulas.
fn is_other_sign(c: char) -> bool {
    matches!(
        c,
        '\u{2bc}'
            | '\u{2010}'
            | '\u{2011}'
            | '\u{2024}'
            | '\u{2044}'
            | '\u{2160}'..='\u{217f}'
            | '\u{2212}'
            | '\u{2215}'
            | '\u{1d400}'..='\u{1d7ff}'
    )
}

/// Whether a word could be read as one in Latin letters, though some of its letters are Cyrillic or Greek: they are such as print as Latin
/// ones, or stand beside letters of ASCII.
pub fn reads_as_latin(word: &str) -> bool {
    let has_ascii = word.bytes().any(|byte| byte.is_ascii_alphabetic());
    let has_like = word.chars().any(prints_as_latin);
    let has_other = word.chars().any(is_unlike_latin);
    (has_like && !has_other) || (has_ascii && (has_like || has_other))
}

// Whether a character is a Cyrillic or Greek letter that prints as no Latin one.
fn is_unlike_latin(c: char) -> bool {
    is_cyrillic_or_greek(c) && !prints_as_latin(c)
}

/// Whether a character is of the Cyrillic or the Greek alphabet.
pub fn is_cyrillic_or_greek(c: char) -> bool {
    matches!(
        c,
        '\u{370}'..='\u{3ff}' | '\u{400}'..='\u{52f}' | '\u{1c80}'..='\u{1c8f}' | '\u{1f00}'..='\u{1fff}' | '\u{2de0}'..='\u{2dff}' | '\u{a640}'..='\u{a69f}'
    )
}

// Whether a character is a Cyrillic or Greek letter that prints as a Latin one, as the micro sign, or as a digit.
fn prints_as_latin(c: char) -> bool {
    prints_as_latin_in_cyrillic(c) || prints_as_latin_in_greek(c)
}

fn prints_as_latin_in_cyrillic(c: char) -> bool {
    matches!(
        c,
        '\u{400}'
            | '\u{401}'
            | '\u{405}'..='\u{408}'
            | '\u{410}'
            | '\u{412}'
            | '\u{415}'
            | '\u{417}'
            | '\u{41a}'
            | '\u{41c}'..='\u{41e}'
            | '\u{420}'..='\u{423}'
            | '\u{425}'
            | '\u{430}'
            | '\u{435}'
            | '\u{43e}'
            | '\u{440}'
            | '\u{441}'
            | '\u{443}'
            | '\u{445}'
            | '\u{450}'
            | '\u{451}'
            | '\u{455}'..='\u{458}'
            | '\u{4ae}'
            | '\u{4af}'
            | '\u{4ba}'
            | '\u{4bb}'
            | '\u{4c0}'
            | '\u{4cf}'
            | '\u{4d0}'..='\u{4d3}'
            | '\u{4e0}'
            | '\u{501}'
            | '\u{50c}'
            | '\u{51a}'..='\u{51d}'
    )
}

fn prints_as_latin_in_greek(c: char) -> bool {
    matches!(
        c,
        '\u{37f}' | '\u{391}' | '\u{392}' | '\u{395}'..='\u{397}'
            | '\u{399}'
            | '\u{39a}'
            | '\u{39c}'
            | '\u{39d}'
            | '\u{39f}'
            | '\u{3a1}'
            | '\u{3a4}'
            | '\u{3a5}'
            | '\u{3a7}'
            | '\u{3b1}'
            | '\u{3b3}'
            | '\u{3b9}'
            | '\u{3ba}'
            | '\u{3bc}'
            | '\u{3bd}'
            | '\u{3bf}'
            | '\u{3c1}'
            | '\u{3c5}'
            | '\u{3c7}'
            | '\u{3f2}'
            | '\u{3f3}'
            | '\u{3f9}'
    )
}
