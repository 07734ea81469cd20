//! Lines, and the words of a line.
ghost use Rattle.std.specs.Prelude.{◌≡◌, [], ◌∷◌, ◌<◌, ◌≤◌, ℕ, length, map, take, slice_index, true, false, Some, None, IfSome, IfNone, IfErr, OnOk};
ghost use Rattle.std.specs.Option.{option_copied};
ghost use Rattle.query_rules.specs.Words.{lines_of, words_of};
ghost use Rattle.query_rules.specs.Grammar as grammar;
ghost use Rattle.query_rules.specs.declared.query.Cause.TheVariants.{BadByte};
ghost use Rattle.query_text.specs.Reads.{rest_words};
ghost use Rattle.query_text.specs.Spelling as spelling;

use arrayvec::ArrayVec;
use memchr::memchr;
use query_rules::Cause;

/// One more word than any form of a line has.
pub const ENOUGH_WORDS: usize = 6;

/// Takes the first line off, without its end.
pub fn cut_line(bytes: &[u8]) -> (&[u8], &[u8])
    requires { 0 < length bytes.now }
    ensures cut { lines_of bytes.now ≡ result.0.now ∷ lines_of result.1.now }
    ensures shorter { length result.1.now < length bytes.now }
{
    match memchr(b'\n', bytes) {
        Some(end) => (&bytes[..end], &bytes[end + 1..]),
        None => (bytes, &[]),
    }
}

/// Takes the first word off; where no space follows it, nothing is left.
pub fn cut_word(text: &[u8]) -> (&[u8], Option<&[u8]>)
    ensures cut { words_of text.now ≡ result.0.now ∷ rest_words (option_copied result.1) }
    ensures shorter { IfSome result.1 (λ rest. length rest.now < length text.now) }
{
    match memchr(b' ', text) {
        Some(end) => (&text[..end], Some(&text[end + 1..])),
        None => (text, None),
    }
}

// Whether the byte can stand in a word.
fn is_visible(byte: u8) -> bool
    ensures { result ≡ spelling.is_visible byte }
{
    0x20 < byte && byte <= 0x7E
}

// Where the first byte stands that no word has, or where the text ends.
fn word_end(text: &[u8]) -> usize
    ensures within { result ≤ length text.now }
    ensures before { (k : ℕ) → k < result → spelling.is_visible (slice_index text.now k) ≡ true }
    ensures found { result < length text.now → spelling.is_visible (slice_index text.now result) ≡ false }
{
    for (i, b) in text.iter().enumerate() {
        if !is_visible(*b) {
            return i;
        }
    }
    text.len()
}

// Takes the first word off, as `cut_word` does, unless a bad byte follows it.
fn take_word(text: &[u8]) -> Option<(&[u8], Option<&[u8]>)>
    ensures cut { IfSome result (λ r. words_of text.now ≡ r.0.now ∷ rest_words (option_copied r.1)) }
    ensures spelled { IfSome result (λ r. 0 < length r.0.now → spelling.fault_in text.now ≡ spelling.rest_fault (option_copied r.1)) }
    ensures shorter { IfSome result (λ r. IfSome r.1 (λ rest. length rest.now < length text.now)) }
    ensures bad { IfNone result (spelling.fault_in text.now ≡ Some BadByte) }
{
    let end = word_end(text);
    if end == text.len() {
        return Some((text, None));
    }
    if text[end] == b' ' {
        Some((&text[..end], Some(&text[end + 1..])))
    } else {
        None
    }
}

/// Puts the first words of a line, at most six, into an empty list, or says what is wrong with its bytes and spaces. A
/// line of at most six words is gone over once.
pub fn spell_words<'a>(
    line: &'a [u8],
    words: &mut ArrayVec<&'a [u8], ENOUGH_WORDS>,
) -> Result<(), Cause>
    requires { words.old.items ≡ [] }
    ensures words { OnOk result (map (λ w. w.now) words.new.items ≡ take 6 (words_of line.now)) }
    ensures spelled { OnOk result (spelling.fault_in line.now ≡ None) }
    ensures fault { IfErr result (λ cause. spelling.fault_in line.now ≡ Some cause) }
{
    let mut rest = Some(line);
    while let Some(text) = rest {
        if words.is_full() {
            return match fault_in(text) {
                None => Ok(()),
                Some(cause) => Err(cause),
            };
        }
        let Some((word, after)) = take_word(text) else {
            return Err(Cause::BadByte);
        };
        if word.is_empty() {
            return Err(spacing_fault(text));
        }
        words.push(word);
        rest = after;
    }
    Ok(())
}

// What is wrong with the bytes and spaces of a text.
fn fault_in(text: &[u8]) -> Option<Cause>
    ensures { result ≡ spelling.fault_in text.now }
{
    if has_bad_byte(text) {
        Some(Cause::BadByte)
    } else if is_misspaced(text) {
        Some(Cause::Spacing)
    } else {
        None
    }
}

// What is wrong with a text whose spaces are: bad bytes come first.
fn spacing_fault(text: &[u8]) -> Cause
    requires { grammar.is_misspaced (words_of text.now) ≡ true }
    ensures { spelling.fault_in text.now ≡ Some result }
{
    if has_bad_byte(text) {
        Cause::BadByte
    } else {
        Cause::Spacing
    }
}

// Whether the text has a byte that isn't a printable character of ASCII.
fn has_bad_byte(line: &[u8]) -> bool
    ensures { result ≡ grammar.has_bad_byte line.now }
{
    line.iter().any(|b| *b < 0x20 || *b > 0x7E)
}

// Whether the text is empty, begins or ends with a space, or has two in a row.
fn is_misspaced(line: &[u8]) -> bool
    ensures { result ≡ grammar.is_misspaced (words_of line.now) }
{
    let mut rest = Some(line);
    while let Some(text) = rest {
        let (word, after) = cut_word(text);
        if word.is_empty() {
            return true;
        }
        rest = after;
    }
    false
}
