// The signs of a typed rule. Each function looks at the unread text from a place on, skips spaces and LFs, and answers the place behind
// the sign that it found.
//
// `sign`, `exist_sign` and `same_sign` look for one sign, `repeated` for one as often as it follows, `name` and `label` read a name and a label between quotes.
#![tactic(auto)]

ghost use Rattle.std.specs.Prelude.{◌≡◌, Bool, [], ◌∷◌, ◌≤◌, ◌<◌, ◌+◌, length, drop, get_or};
ghost use Rattle.signs.specs.Signs.{blank?, capital?, word_byte?, skip as skip_of, sign as sign_of, name as name_of, name_more, label as label_of, exist_sign, same_sign};
ghost use Rattle.signs.specs.Finding.{FindsSign, ReadsWord, Behind, FindsQuote, Runs};

// A name as a number, or a label's place from the end of the text; and the place behind it.
#[derive(Clone, Copy)]
pub struct Word {
    pub value: usize,
    pub at: usize,
}

// How many times a sign stands one behind another, and the place behind them.
#[derive(Clone, Copy)]
pub struct Run {
    pub count: usize,
    pub at: usize,
}

fn is_blank(b: u8) -> bool
    ensures { result ≡ blank? b }
{
    b == b' ' || b == b'\n'
}

fn is_capital(b: u8) -> bool
    ensures { result ≡ capital? b }
{
    b.is_ascii_uppercase()
}

// Whether a byte goes on with a name.
fn is_word_byte(b: u8) -> bool
    ensures { result ≡ word_byte? b }
{
    b.is_ascii_alphanumeric()
}

// The place of the next byte that is neither space nor LF.
pub fn skip(text: &[u8], at: usize) -> usize
    requires { at ≤ length text.now }
    ensures { Behind text.now at result }
{
    for i in at..text.len() {
        if !is_blank(text[i]) {
            return i;
        }
    }
    text.len()
}

// A sign of one byte: the place behind it.
pub fn sign(text: &[u8], at: usize, c: u8) -> Option<usize>
    requires { at ≤ length text.now }
    ensures { FindsSign text.now at (sign_of (c ∷ []) (drop at text.now)) result }
{
    let p = skip(text, at);
    if p < text.len() && text[p] == c {
        return Some(p + 1);
    }
    None
}

// A sign of one byte, as often as it follows, but at most so many times.
pub fn repeated(text: &[u8], at: usize, c: u8, most: usize) -> Run
    requires { at ≤ length text.now }
    ensures { Runs text.now (c ∷ []) at most result }
{
    let mut p = at;
    for n in 0..most {
        let Some(q) = sign(text, p, c) else {
            return Run { count: n, at: p };
        };
        p = q;
    }
    Run { count: most, at: p }
}

// A sign of several bytes: the place behind it.
fn keyword(text: &[u8], at: usize, w: &[u8]) -> Option<usize>
    requires { (at ≤ length text.now) × (1 ≤ length w.now) }
    ensures { FindsSign text.now at (sign_of w.now (drop at text.now)) result }
{
    let p = skip(text, at);
    if !text[p..].starts_with(w) {
        return None;
    }
    Some(p + w.len())
}

pub fn exist_sign(text: &[u8], at: usize) -> Option<usize>
    requires { at ≤ length text.now }
    ensures { FindsSign text.now at (sign_of exist_sign (drop at text.now)) result }
{
    keyword(text, at, b"exist")
}

pub fn same_sign(text: &[u8], at: usize) -> Option<usize>
    requires { at ≤ length text.now }
    ensures { FindsSign text.now at (sign_of same_sign (drop at text.now)) result }
{
    keyword(text, at, b"same")
}

// The most letters and digits behind the capital of a name.
const NAME_REST: usize = 7;

// A name as a number.
pub fn name(text: &[u8], at: usize) -> Option<Word>
    requires { at ≤ length text.now }
    ensures { ReadsWord text.now at (name_of (drop at text.now)) result }
{
    let p = skip(text, at);
    if text.len() <= p || !is_capital(text[p]) {
        return None;
    }
    name_rest(text, p)
}

// The name whose capital stands at p.
fn name_rest(text: &[u8], p: usize) -> Option<Word>
    requires { p < length text.now }
    ensures { ReadsWord text.now p (name_more 7 (get_or text.now p 0) (drop (p + 1) text.now)) result }
{
    let mut n = usize::from(text[p]);
    for (i, b) in text[p + 1..].iter().enumerate() {
        if !is_word_byte(*b) {
            return Some(Word {
                value: n,
                at: p + 1 + i,
            });
        }
        if i == NAME_REST {
            return None;
        }
        n = 256 * n + usize::from(*b);
    }
    Some(Word {
        value: n,
        at: text.len(),
    })
}

// The place behind the first quote.
fn quote(text: &[u8], at: usize) -> Option<usize>
    requires { at ≤ length text.now }
    ensures { FindsQuote text.now at result }
{
    for i in at..text.len() {
        if text[i] == b'\'' {
            return Some(i + 1);
        }
    }
    None
}

// A label, by its place from the end of the text.
pub fn label(text: &[u8], at: usize) -> Option<Word>
    requires { at ≤ length text.now }
    ensures { ReadsWord text.now at (label_of (drop at text.now)) result }
{
    let open = sign(text, at, b'\'')?;
    let at = quote(text, open)?;
    Some(Word {
        value: text.len() - open,
        at,
    })
}
