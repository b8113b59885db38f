// The house label book: for a label of a log the text that the book lists for it, or the label as it stands in the log.
//
// `text_for` hands the text back where it stands, as a part of the book or of the log. `piece_for` is its twin: it answers where that part
// stands, or the refusal for which `text_for` hands back no bytes. Behind both is one pass over the book, line by line. No verdict
// depends on a book.
#![tactic(auto)]

ghost use Rattle.std.specs.Prelude.{◌≡◌};
ghost use Rattle.labels.specs.Label.{capitals};
ghost use Rattle.label_book.specs.Reading.{fits?, span, line_of, before?, look_up};
ghost use Rattle.label_book.specs.Piece.{bytes_inside, TellsPiece, Hands};

use labels::MAX_LABEL_BYTES;
use refusals::Refusal;

// The most bytes of a text: max_text_bytes of specs.
const MAX_TEXT_BYTES: usize = 60;

// Where the text for a label stands, from its first byte to past its last.
#[derive(Clone, Copy)]
pub enum Piece {
    InBook(usize, usize),
    InLog(usize, usize),
}

// Whether a text, or a label, may have the byte.
fn may_stand(text: bool, b: u8) -> bool
    ensures { result ≡ fits? text b }
{
    if text {
        if b == b'\n' {
            return false;
        }
        return b != b'=';
    }
    let c = labels::capital_byte(b);
    labels::label_byte(c)
}

// How many bytes stand before the first that a text, or a label, may not have.
fn count_fitting(s: &[u8], text: bool) -> usize
    ensures { result ≡ span (fits? text) s.now }
{
    s.iter()
        .position(|b| !may_stand(text, *b))
        .unwrap_or(s.len())
}

// The line at the front of what is left of a book: how many bytes its label has, and its text; none where the bytes are no line.
fn read_line(s: &[u8]) -> Option<(usize, usize)>
    ensures { result ≡ line_of s.now }
{
    let n = count_fitting(s, false);
    if n == 0 {
        return None;
    }
    if MAX_LABEL_BYTES < n {
        return None;
    }
    if s.len() <= n {
        return None;
    }
    if s[n] != b'=' {
        return None;
    }
    let from = n + 1;
    let m = count_fitting(&s[from..], true);
    if m == 0 {
        return None;
    }
    if MAX_TEXT_BYTES < m {
        return None;
    }
    let end = from + m;
    if s.len() <= end {
        return None;
    }
    if s[end] != b'\n' {
        return None;
    }
    Some((n, m))
}

// Whether the capitals of one label are before those of another in byte order.
fn precedes(s: &[u8], t: &[u8]) -> bool
    ensures { result ≡ before? (capitals s.now) (capitals t.now) }
{
    for (p, q) in s.iter().zip(t) {
        let x = labels::capital_byte(*p);
        let y = labels::capital_byte(*q);
        if x < y {
            return true;
        }
        if y < x {
            return false;
        }
    }
    s.len() < t.len()
}

// Where a book has the text of a label, from the first byte to past the last, if it lists the label. Bytes that are no book are refused.
fn look_up(book: &[u8], label: &[u8]) -> Result<Option<(usize, usize)>, Refusal>
    ensures { result ≡ look_up book.now label.now }
{
    let mut found = None;
    let mut at: usize = 0;
    // the label of the line before
    let mut from: usize = 0;
    let mut to: usize = 0;
    // Kept: no count, since each line says where the next begins; the places of a text are those that `piece_for` answers.
    while at < book.len() {
        let Some((n, m)) = read_line(&book[at..]) else {
            return Err(Refusal::BookForm);
        };
        let sign = at + n;
        if !precedes(&book[from..to], &book[at..sign]) {
            return Err(Refusal::BookForm);
        }
        let same = labels::same_label(label, &book[at..sign]);
        let start = sign + 1;
        let end = start + m;
        from = at;
        to = sign;
        at = end + 1;
        // the first text that is found stays
        found = found.or(same.then_some((start, end)));
    }
    Ok(found)
}

// The bytes of the log from a place on; none where they are not all inside it.
fn bytes_at<'a>(log: &'a [u8], place: usize, length: usize) -> &'a [u8]
    ensures { result.now ≡ bytes_inside log.now place length }
{
    if log.len() < place {
        return &log[0..0];
    }
    if log.len() - place < length {
        return &log[0..0];
    }
    let end = place + length;
    &log[place..end]
}

// Where the text of the label stands that has these bytes of the log, or why there is none.
pub fn piece_for(book: &[u8], log: &[u8], place: usize, length: usize) -> Result<Piece, Refusal>
    ensures { TellsPiece book.now log.now place length result }
{
    let label = bytes_at(log, place, length);
    let found = look_up(book, label)?;
    if !labels::is_label(label) {
        return Err(Refusal::LineLabel);
    }
    match found {
        Some((start, end)) => Ok(Piece::InBook(start, end)),
        None => Ok(Piece::InLog(place, place + length)),
    }
}

// The text of the label that has these bytes of the log, where it stands; no bytes where `piece_for` refuses.
pub fn text_for<'a>(book: &'a [u8], log: &'a [u8], place: usize, length: usize) -> &'a [u8]
    ensures { Hands book.entry log.entry place length result }
{
    match piece_for(book, log, place, length) {
        Ok(piece) => match piece {
            Piece::InBook(start, end) => &book[start..end],
            Piece::InLog(start, end) => &log[start..end],
        },
        Err(_) => &log[0..0],
    }
}
