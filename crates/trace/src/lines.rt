//! The bytes of a trace: lines, and the words of a line.

ghost use Rattle.std.specs.Prelude.{◌≡◌, ◌<◌, true, [], ◌∷◌, length, IfSome};
ghost use Rattle.trace.specs.Lines.{are_words_left, digit_of, is_note_line, is_reset_line, is_word, is_words_line, lines_of, word_value, words_left, words_of};

// The value of a hexadecimal digit, if the byte is one.
fn digit_value(byte: u8) -> Option<u8>
    ensures is_the_value_of_a_digit { result ≡ digit_of byte }
    ensures is_below_16 { IfSome result (λ d. d < 16) }
{
    // A trace is text, so each byte is matched as a char, and either case of a digit by its own letters.
    match byte as char {
        '0'..='9' => Some(byte - b'0'),
        'A'..='F' => Some(byte - b'A' + 10),
        'a'..='f' => Some(byte - b'a' + 10),
        _ => None,
    }
}

// The first line without its byte 10, and the bytes behind it. (A loop over places: `position` makes a slice anew for each byte, which takes twice the time.
// It is called for each line, and so are `read_line` and `next` of the reader: put into the loops that call them, what they tell of a line needs no place
// in memory, and short lines take a third of the time.)
#[inline(always)]
pub(crate) fn cut_line(bytes: &[u8]) -> (&[u8], &[u8])
    requires is_not_empty { 0 < length bytes.now }
    ensures cuts_at_the_first_line_feed { lines_of bytes.now ≡ result.0.now ∷ lines_of result.1.now }
    ensures leaves_fewer { length result.1.now < length bytes.now }
{
    for i in 0..bytes.len() {
        if bytes[i] == b'\n' {
            return (&bytes[..i], &bytes[i + 1..]);
        }
    }
    (bytes, &[])
}

// Is the line a note: empty, or with the note sign first? (A sign is matched as a char, as digits are.)
pub(crate) fn is_note(line: &[u8]) -> bool
    ensures tells_if_it_is { result ≡ is_note_line line.now }
{
    line.first().is_none_or(|byte| matches!(*byte as char, '#'))
}

// Is the line `reset`?
pub(crate) fn is_reset(line: &[u8]) -> bool
    ensures tells_if_it_is { result ≡ is_reset_line line.now }
{
    line == b"reset".as_slice()
}

// Is the line words of eight digits with one space between? (The space is matched as a char, as digits are. A loop, and no `split` at the spaces:
// that looks for the next space before it looks at the first digit, so that a long line of something else takes twice the time.)
pub(crate) fn is_words(line: &[u8]) -> bool
    ensures tells_if_it_is { result ≡ is_words_line line.now }
{
    let mut digits: usize = 0;
    for byte in line {
        match *byte as char {
            ' ' => {
                if digits != 8 {
                    return false;
                }
                digits = 0;
            }
            _ => {
                if digit_value(*byte).is_none() {
                    return false;
                }
                digits += 1;
            }
        }
    }
    digits == 8
}

// The word that eight digits tell, the highest first.
pub(crate) fn read_word(digits: &[u8]) -> u32
    requires are_eight_digits { is_word digits.now ≡ true }
    ensures is_their_value { result ≡ word_value digits.now }
{
    // No fold: its closure is not told that the value so far leaves room for one more digit.
    let mut value: u32 = 0;
    for byte in digits {
        value = value * 16 + u32::from(digit_value(*byte).unwrap());
    }
    value
}

// The first word of a words line, and what is left behind it: nothing, or a words line again.
pub(crate) fn cut_word(line: &[u8]) -> (u32, &[u8])
    requires is_a_words_line { is_words_line line.now ≡ true }
    ensures gives_the_first_word { words_of line.now ≡ result.0 ∷ words_left result.1.now }
    ensures leaves_the_others { are_words_left result.1.now ≡ true }
{
    let (digits, behind) = line.split_at(8);
    let word = read_word(digits);
    match behind {
        [] => (word, behind),
        [_, others @ ..] => (word, others),
    }
}
