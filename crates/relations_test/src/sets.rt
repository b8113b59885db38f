// Positions, compositions and converses.
use refusals::Refusal;
use std::io::Stdout;

// Writes a text and a number.
fn answer(out: Stdout, text: &[u8], n: u8) {
    test_text::write(out, text);
    test_text::write(out, b": ");
    test_text::write_number(out, test_text::wide(n));
    test_text::write(out, b"\n");
}

// Writes a text and a refusal.
fn refusal(out: Stdout, text: &[u8], refusal: Refusal) {
    test_text::write(out, text);
    test_text::write(out, b": ");
    test_text::write_refusal(out, u8::from(refusal));
    test_text::write(out, b"\n");
}

// Writes a text and what a call answers.
pub fn show(out: Stdout, text: &[u8], answered: Result<u8, Refusal>) {
    match answered {
        Ok(n) => answer(out, text, n),
        Err(e) => refusal(out, text, e),
    }
}

fn between(text: &[u8]) -> u8 {
    relations::relation_between(
        test_cases::number(text, 0),
        test_cases::number(text, 1),
        test_cases::number(text, 2),
        test_cases::number(text, 3),
    )
}

// The cases of sets and positions.
pub fn case(out: Stdout, kind: u8, text: &[u8]) {
    if kind == b'=' {
        test_text::write_line(out, text);
    }
    if kind == b'b' {
        answer(out, text, between(text));
    }
    if kind == b'c' {
        show(
            out,
            text,
            relations::compose(test_cases::byte(text, 0), test_cases::byte(text, 1)),
        );
    }
    if kind == b'v' {
        show(out, text, relations::converse(test_cases::byte(text, 0)));
    }
}
