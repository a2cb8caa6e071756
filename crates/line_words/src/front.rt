//! Words and names at the front of bytes: what reads a part gives the part and the bytes after it.
ghost use Rattle.std.specs.Prelude.{◌≡◌, ◌≢◌, ◌≤◌, ◌<◌, ◌↔◌, ◌++◌, ◌∷◌, [], ℕ, List, IfSome, IsSome, IsTrue, MatchOption, length, slice_index};
ghost use Rattle.line_words.specs.Names.{IsName, IsNameByte, NoNameAhead};
ghost use Rattle.line_words.specs.Words.{words, IsWordEnd, NoSpaceAhead};

/// The first word, empty where there is none, and the bytes after it.
pub fn split_word(bytes: &[u8]) -> (&[u8], &[u8])
    ensures none { result.0.now ≡ [] → words bytes.now ≡ [] }
    ensures word { result.0.now ≢ [] → words bytes.now ≡ result.0.now ∷ words result.1.now }
{
    let word = skip_spaces(bytes);
    word.split_at(word_len(word))
}

// How many bytes stand before the first space.
#[inline(always)]
fn word_len(bytes: &[u8]) -> usize
    ensures within { result ≤ length bytes.now }
    ensures before { (k : ℕ) → k < result → slice_index bytes.now k ≢ 32 }
    ensures end { result < length bytes.now → slice_index bytes.now result ≡ 32 }
{
    let end = bytes.iter().position(|byte| *byte == b' ');
    end.unwrap_or(bytes.len())
}

// How many bytes stand before the first that is no space.
#[inline(always)]
fn spaces_len(bytes: &[u8]) -> usize
    ensures within { result ≤ length bytes.now }
    ensures before { (k : ℕ) → k < result → slice_index bytes.now k ≡ 32 }
    ensures end { result < length bytes.now → slice_index bytes.now result ≢ 32 }
{
    let start = bytes.iter().position(|byte| *byte != b' ');
    start.unwrap_or(bytes.len())
}

/// The bytes from the first on that is no space.
#[inline(always)]
pub fn skip_spaces(bytes: &[u8]) -> &[u8]
    ensures within { length result.now ≤ length bytes.now }
    ensures words { words result.now ≡ words bytes.now }
    ensures ahead { NoSpaceAhead result.now }
{
    &bytes[spaces_len(bytes)..]
}

/// The name that the bytes begin with, one or more bytes of `a` to `z` and `0` to `9`, and the bytes after it, or None.
#[inline(always)]
pub fn split_name(bytes: &[u8]) -> Option<(&[u8], &[u8])>
    ensures name { MatchOption result (NoNameAhead bytes.now)
        (λ parts. IsName parts.0.now × NoNameAhead parts.1.now) }
    ensures parts { IfSome result (λ parts. bytes.now ≡ parts.0.now ++ parts.1.now) }
    ensures rest { IfSome result (λ parts. length parts.1.now < length bytes.now) }
{
    let end = bytes
        .iter()
        .position(|byte| !is_name_byte(*byte))
        .unwrap_or(bytes.len());
    if end == 0 {
        return None;
    }
    Some(bytes.split_at(end))
}

/// Two names, parted by a byte that is none of a name, that the bytes begin with, and the bytes after them, or None.
#[inline(always)]
pub fn split_names(bytes: &[u8], parting: u8) -> Option<((&[u8], &[u8]), &[u8])>
    requires { ¬ IsNameByte parting }
    ensures names { IfSome result (λ parts. (bytes.now
        ≡ (parts.0.0.now ++ parting ∷ parts.0.1.now) ++ parts.1.now)
        × IsName parts.0.0.now × IsName parts.0.1.now × NoNameAhead parts.1.now) }
    ensures some { (v w rest : List ℕ) → IsName v → IsName w → NoNameAhead rest
        → bytes.now ≡ (v ++ parting ∷ w) ++ rest → IsSome result }
    ensures rest { IfSome result (λ parts. length parts.1.now < length bytes.now) }
{
    let (first, rest) = split_name(bytes)?;
    let others = split_byte(rest, parting)?;
    let (second, rest) = split_name(others)?;
    Some(((first, second), rest))
}

/// The bytes after this byte, or None where another is in front, or none.
#[inline(always)]
pub fn split_byte(bytes: &[u8], byte: u8) -> Option<&[u8]>
    ensures { MatchOption result ((rest : List ℕ) → bytes.now ≡ byte ∷ rest → ⊥)
        (λ rest. bytes.now ≡ byte ∷ rest.now) }
{
    match bytes {
        [first, rest @ ..] if *first == byte => Some(rest),
        _ => None,
    }
}

/// Whether a word ends before these bytes.
#[inline(always)]
pub fn is_word_end(rest: &[u8]) -> bool
    ensures { IsTrue result ↔ IsWordEnd rest.now }
{
    matches!(rest, [] | [b' ', ..])
}

// Each byte of a name at its own place, and a dot at every other. A look-up takes one step for any byte, where two comparisons would
// branch on whether it is a letter or a digit.
static NAME_BYTES: [u8; 256] = *b"\
    ................................\
    ................0123456789......\
    ................................\
    .abcdefghijklmnopqrstuvwxyz.....\
    ................................\
    ................................\
    ................................\
    ................................";

#[inline(always)]
fn is_name_byte(byte: u8) -> bool
    ensures { IsTrue result ↔ IsNameByte byte }
{
    NAME_BYTES[usize::from(byte)] != b'.'
}
