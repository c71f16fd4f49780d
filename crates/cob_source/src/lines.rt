ghost use Rattle.std.specs.Prelude.{◌≡◌, ℕ, ◌+◌, ◌<◌, ◌≤◌, false, List, ◌∷◌, length, IfSome, IfNone, ◌≢◌, take, drop};
ghost use Rattle.cob_source.specs.Cuts.{open_with};
ghost use Rattle.cob_source.specs.Comments.{greater_first, begins_comment, comment_at, written};
ghost use Rattle.cob_source.specs.Lines.{lines, cut_return, FeedFirst, program_text, indicator, is_comment, is_blank, spaces, behind_spaces, same_letters, is_listing_word, is_period_or_nothing, is_listing, closes_title, is_title_literal, is_title, ends_word, is_first_word, is_setting, is_period_first, is_space_first, has_options, is_options, is_for_compiler, is_direction, kind_by, kind_of_line};
ghost use Rattle.cob_source.specs.Words.{is_foreign, has_foreign, has_tab, is_unknown, has_unknown, BreaksAlone, KeepsCharacters};
ghost use Rattle.std.specs.List.{AllByRecursion};

use crate::fault::SourceRule;

/// What a line adds to the text.
#[derive(Clone, Copy, PartialEq, Eq)]
pub enum LineKind {
    /// Nothing: a comment, a blank line, or a word that arranges a listing.
    Skipped,
    /// A line of its own.
    Plain,
    /// A line that goes on where the line before ended.
    Continuation,
}

/// How many bytes stand before the first line feed.
fn line_len(text: &[u8]) -> usize
    ensures within { result ≤ length text.now }
    ensures none { AllByRecursion (λ b. b ≢ 10) (take result text.now) }
    ensures feed { FeedFirst (drop result text.now) }
{
    for (i, b) in text.iter().enumerate() {
        if *b == b'\n' {
            return i;
        }
    }
    text.len()
}

/// The bytes of a line without one carriage return at their end.
pub fn without_return(line: &[u8]) -> &[u8]
    ensures { result.now ≡ cut_return line.now }
{
    let Some((last, front)) = line.split_last() else {
        return line;
    };
    if *last == b'\r' { front } else { line }
}

/// The first line of a text without its end, and what follows it.
pub fn next_line(text: &[u8]) -> (&[u8], &[u8])
    requires { 0 < length text.now }
    ensures line { lines text.now ≡ result.0.now ∷ lines result.1.now }
    ensures shorter { length result.1.now < length text.now }
{
    let (line, rest) = text.split_at(line_len(text));
    match rest.split_first() {
        Some((_, more)) => (without_return(line), more),
        None => (line, rest),
    }
}

/// The first columns, as far as they are written.
pub fn front(line: &[u8], columns: usize) -> &[u8]
    ensures { result.now ≡ take columns line.now }
{
    if line.len() > columns {
        &line[..columns]
    } else {
        line
    }
}

/// What is written behind the first columns.
pub fn behind(line: &[u8], columns: usize) -> &[u8]
    ensures { result.now ≡ drop columns line.now }
{
    if line.len() > columns {
        &line[columns..]
    } else {
        &line[line.len()..]
    }
}

/// The literal that is open behind one more character.
pub fn open_behind_byte(quote: Option<u8>, byte: u8) -> Option<u8>
    ensures { result ≡ open_with quote byte }
{
    match quote {
        Some(opening) => if byte == opening { None } else { quote },
        None => if byte == b'"' || byte == b'\'' {
            Some(byte)
        } else {
            None
        },
    }
}

/// Whether a greater-than sign stands in front.
fn starts_with_greater(bytes: &[u8]) -> bool
    ensures { result ≡ greater_first bytes.now }
{
    match bytes.first() {
        Some(first) => *first == b'>',
        None => false,
    }
}

/// Whether a comment begins with this character, these behind it.
fn starts_comment(quote: Option<u8>, behind_space: bool, byte: u8, more: &[u8]) -> bool
    ensures { result ≡ begins_comment quote behind_space byte more.now }
{
    quote.is_none() && behind_space && byte == b'*' && starts_with_greater(more)
}

/// How many of the characters from column 8 on stand before a comment.
pub fn comment_start(text: &[u8]) -> usize
    ensures at { result ≡ comment_at text.now }
    ensures within { result ≤ length text.now }
{
    let mut quote: Option<u8> = None;
    let mut behind_space = true;
    for (i, b) in text.iter().enumerate() {
        if starts_comment(quote, behind_space, *b, behind(text, i + 1)) {
            return i;
        }
        quote = open_behind_byte(quote, *b);
        behind_space = *b == b' ';
    }
    text.len()
}

/// Columns 1 to 72 without a comment.
fn counted_columns(line: &[u8]) -> &[u8]
    ensures { result.now ≡ written line.now }
{
    let columns = front(line, 72);
    front(columns, 7 + comment_start(behind(columns, 7)))
}

/// What is written in columns 8 to 72, without a comment.
pub fn written_in(line: &[u8]) -> &[u8]
    ensures columns { result.now ≡ program_text line.now }
    ensures short { length result.now ≤ 65 }
{
    behind(counted_columns(line), 7)
}

/// Column 7, or a space.
fn indicator_of(line: &[u8]) -> u8
    ensures { result ≡ indicator line.now }
{
    line.get(6).copied().unwrap_or(b' ')
}

/// Whether column 7 makes a comment of a line.
fn makes_comment(indicator: u8) -> bool
    ensures { result ≡ is_comment indicator }
{
    matches!(indicator, b'*' | b'/' | b'D' | b'd')
}

/// Whether there are only spaces.
pub fn is_blank_text(bytes: &[u8]) -> bool
    ensures { result ≡ is_blank bytes.now }
{
    bytes.iter().all(|b| *b == b' ')
}

/// How many spaces stand in front.
pub fn leading_spaces(bytes: &[u8]) -> usize
    ensures count { result ≡ spaces bytes.now }
    ensures within { result ≤ length bytes.now }
{
    for (i, b) in bytes.iter().enumerate() {
        if *b != b' ' {
            return i;
        }
    }
    bytes.len()
}

/// The bytes behind the spaces in front.
pub fn without_spaces(bytes: &[u8]) -> &[u8]
    ensures { result.now ≡ behind_spaces bytes.now }
{
    behind(bytes, leading_spaces(bytes))
}

/// How many bytes stand before the spaces at the end.
pub fn written_len(bytes: &[u8]) -> usize
    ensures within { result ≤ length bytes.now }
    ensures blank { AllByRecursion (λ b. b ≡ 32) (drop result bytes.now) }
{
    let mut end = bytes.len();
    while end > 0 {
        if bytes[end - 1] != b' ' {
            break;
        }
        end -= 1;
    }
    end
}

/// Whether the word is written with these letters, in either case.
fn is_spelled(word: &[u8], capitals: &[u8]) -> bool
    ensures { result ≡ same_letters word.now capitals.now }
{
    let mut rest = capitals;
    for b in word {
        let Some((capital, more)) = rest.split_first() else {
            return false;
        };
        if b.to_ascii_uppercase() != *capital {
            return false;
        }
        rest = more;
    }
    rest.is_empty()
}

/// Whether the word only arranges a printed listing.
fn arranges_listing(word: &[u8]) -> bool
    ensures { result ≡ is_listing_word word.now }
{
    is_spelled(word, b"EJECT")
        || is_spelled(word, b"SKIP1")
        || is_spelled(word, b"SKIP2")
        || is_spelled(word, b"SKIP3")
}

/// Whether there is nothing, or one period and spaces.
fn ends_listing(bytes: &[u8]) -> bool
    ensures { result ≡ is_period_or_nothing bytes.now }
{
    match bytes.split_first() {
        Some((first, rest)) => *first == b'.' && is_blank_text(rest),
        None => true,
    }
}

/// Whether only such a word stands there, with or without a period.
fn is_listing_text(bytes: &[u8]) -> bool
    ensures { result ≡ is_listing bytes.now }
{
    let word = without_spaces(bytes);
    arranges_listing(front(word, 5)) && ends_listing(without_spaces(behind(word, 5)))
}

/// Whether a literal closes behind its quote, and nothing stands behind it but perhaps a period.
#[tactic(auto, using(crate::proofs::TitleLemmas::title_on, crate::proofs::TitleLemmas::title_over))]
fn ends_title(quote: u8, bytes: &[u8]) -> bool
    ensures { result ≡ closes_title quote false bytes.now }
{
    let mut behind_quote = false;
    let mut rest = bytes;
    while let Some((first, more)) = rest.split_first() {
        let is_quote = *first == quote;
        if behind_quote && !is_quote {
            return ends_listing(without_spaces(rest));
        }
        behind_quote = is_quote && !behind_quote;
        rest = more;
    }
    behind_quote
}

/// Whether there is a quoted literal, with or without a period.
fn is_quoted_title(bytes: &[u8]) -> bool
    ensures { result ≡ is_title_literal bytes.now }
{
    match bytes.split_first() {
        Some((first, rest)) => (*first == b'"' || *first == b'\'') && ends_title(*first, rest),
        None => false,
    }
}

/// Whether only TITLE and a quoted literal stand there, with or without a period.
fn is_title_text(bytes: &[u8]) -> bool
    ensures { result ≡ is_title bytes.now }
{
    let word = without_spaces(bytes);
    is_spelled(front(word, 5), b"TITLE") && is_quoted_title(without_spaces(behind(word, 5)))
}

/// Whether nothing is left, or a space or a period stands in front.
fn is_word_over(bytes: &[u8]) -> bool
    ensures { result ≡ ends_word bytes.now }
{
    match bytes.first() {
        Some(first) => *first == b' ' || *first == b'.',
        None => true,
    }
}

/// Whether this word stands in front.
pub fn starts_with_word(bytes: &[u8], word: &[u8]) -> bool
    ensures { result ≡ is_first_word word.now bytes.now }
{
    is_spelled(front(bytes, word.len()), word) && is_word_over(behind(bytes, word.len()))
}

/// Whether settings of a compiler stand there.
fn is_setting_text(bytes: &[u8]) -> bool
    ensures { result ≡ is_setting bytes.now }
{
    let word = without_spaces(bytes);
    starts_with_word(word, b"*CBL")
        || starts_with_word(word, b"*CONTROL")
        || starts_with_word(word, b"$SET")
}

/// Whether a space stands in front.
fn starts_with_space(bytes: &[u8]) -> bool
    ensures { result ≡ is_space_first bytes.now }
{
    match bytes.first() {
        Some(first) => *first == b' ',
        None => false,
    }
}

/// Whether nothing is left, or a period stands in front.
fn is_at_period(bytes: &[u8]) -> bool
    ensures { result ≡ is_period_first bytes.now }
{
    match bytes.first() {
        Some(first) => *first == b'.',
        None => true,
    }
}

/// Whether this word stands in front, and behind a space something that is no period.
fn starts_options(bytes: &[u8], word: &[u8]) -> bool
    ensures { result ≡ has_options word.now bytes.now }
{
    let rest = behind(bytes, word.len());
    is_spelled(front(bytes, word.len()), word)
        && starts_with_space(rest)
        && !is_at_period(without_spaces(rest))
}

/// Whether CBL or PROCESS and options of a compiler stand there.
pub fn is_options_text(bytes: &[u8]) -> bool
    ensures { result ≡ is_options bytes.now }
{
    let word = without_spaces(bytes);
    starts_options(word, b"CBL") || starts_options(word, b"PROCESS")
}

/// Whether the line is for the compiler from its first columns on.
fn is_compiler_line(line: &[u8]) -> bool
    ensures { result ≡ is_for_compiler line.now }
{
    let columns = counted_columns(line);
    starts_with_word(behind(columns, 6), b"$SET") || is_options_text(columns)
}

/// Whether what stands there is only for a compiler or its listing.
pub fn is_direction_text(bytes: &[u8]) -> bool
    ensures { result ≡ is_direction bytes.now }
{
    is_listing_text(bytes) || is_title_text(bytes) || is_setting_text(bytes)
}

/// The kind of a line.
pub fn line_kind(line: &[u8]) -> LineKind
    ensures { result ≡ kind_of_line line.now }
{
    let indicator = indicator_of(line);
    let text = written_in(line);
    if makes_comment(indicator) || is_blank_text(text) {
        LineKind::Skipped
    } else if indicator == b'-' {
        LineKind::Continuation
    } else if indicator == b' ' && !is_direction_text(text) {
        LineKind::Plain
    } else {
        LineKind::Skipped
    }
}

/// Whether a tab stands before column 73, and in no comment.
fn holds_tab(line: &[u8]) -> bool
    ensures { result ≡ has_tab line.now }
{
    let columns = counted_columns(line);
    columns.iter().any(|b| *b == b'\t')
}

/// Whether the byte is outside 20 to 7E, and no tab.
pub fn is_foreign_byte(byte: u8) -> bool
    ensures { result ≡ is_foreign byte }
{
    (byte < 32 || byte > 126) && byte != b'\t'
}

/// Whether columns 7 to 72 hold a byte outside 20 to 7E, a tab apart, and in no comment.
fn holds_foreign(line: &[u8]) -> bool
    ensures { result ≡ has_foreign line.now }
{
    let columns = behind(counted_columns(line), 6);
    columns.iter().any(|b| is_foreign_byte(*b))
}

/// Whether column 7 is no indicator.
fn is_unknown_indicator(indicator: u8) -> bool
    ensures { result ≡ is_unknown indicator }
{
    indicator > 32 && indicator < 127 && indicator != b'-'
}

/// Whether column 7 is none that a line may have.
fn holds_unknown(line: &[u8]) -> bool
    ensures { result ≡ has_unknown line.now }
{
    is_unknown_indicator(indicator_of(line)) && !is_compiler_line(line)
}

/// The rule that a line's characters break by themselves.
pub fn character_fault(line: &[u8]) -> Option<SourceRule>
    ensures some { IfSome result (λ r. BreaksAlone r line.now) }
    ensures none { IfNone result (KeepsCharacters line.now) }
{
    let indicator = indicator_of(line);
    if makes_comment(indicator) {
        None
    } else if holds_tab(line) {
        Some(SourceRule::Tab)
    } else if holds_foreign(line) {
        Some(SourceRule::NotAscii)
    } else if holds_unknown(line) {
        Some(SourceRule::UnknownIndicator)
    } else {
        None
    }
}

/// Whether it is a plain line, and begins with MOVE.
pub fn begins_statement(line: &[u8]) -> bool {
    let word = front(without_spaces(written_in(line)), 5);
    match line_kind(line) {
        LineKind::Plain => is_spelled(word, b"MOVE "),
        _ => false,
    }
}
