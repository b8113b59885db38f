// What a label book hands back: each line of the output is a case's name, the text, and where it stands or why it is refused.
#![tactic(auto)]

use label_book::Piece;
use std::io::Stdout;

fn show_place(out: Stdout, name: &[u8], start: usize, end: usize) {
    test_text::write(out, name);
    test_text::write_next(out, start as u64);
    test_text::write_number(out, end as u64);
}

fn show<'a>(out: Stdout, name: &[u8], book: &'a [u8], log: &'a [u8], place: usize, length: usize) {
    test_text::write(out, name);
    test_text::write(out, b": '");
    let t = label_book::text_for(book, log, place, length);
    test_text::write(out, t);
    test_text::write(out, b"' ");
    let p = label_book::piece_for(book, log, place, length);
    match p {
        Ok(Piece::InBook(start, end)) => show_place(out, b"book ", start, end),
        Ok(Piece::InLog(start, end)) => show_place(out, b"log ", start, end),
        Err(refusal) => test_text::write_refusal(out, u8::from(refusal)),
    }
    test_text::write(out, b"\n");
}

// Texts of the book, and labels that it does not list.
fn show_texts(out: Stdout) {
    show(
        out,
        b"a label of the book",
        b"A1=One\x0aEVENING=Evening, all\x0aevening_w=Evening, west hall\x0a",
        b"B 7 EVENING_W\x0a",
        4,
        9,
    );
    show(
        out,
        b"in small letters",
        b"A1=One\x0aEVENING=Evening, all\x0aevening_w=Evening, west hall\x0a",
        b"B 7 evening\x0a",
        4,
        7,
    );
    show(
        out,
        b"the first line",
        b"A1=One\x0aEVENING=Evening, all\x0aevening_w=Evening, west hall\x0a",
        b"B 7 a1\x0a",
        4,
        2,
    );
    show(
        out,
        b"a front of a label",
        b"A1=One\x0aEVENING=Evening, all\x0aevening_w=Evening, west hall\x0a",
        b"B 7 EVEN\x0a",
        4,
        4,
    );
    show(
        out,
        b"not listed, in small letters",
        b"A1=One\x0aEVENING=Evening, all\x0aevening_w=Evening, west hall\x0a",
        b"B 7 test\x0a",
        4,
        4,
    );
    show(
        out,
        b"the digits of an id",
        b"A1=One\x0aEVENING=Evening, all\x0aevening_w=Evening, west hall\x0a",
        b"B 123\x0a",
        2,
        3,
    );
}

fn show_more_texts(out: Stdout) {
    show(out, b"a book of no lines", b"", b"B 7 TEST\x0a", 4, 4);
    show(
        out,
        b"CR and a quote in a text",
        b"A=\"x\r\x0a",
        b"B 7 A\x0a",
        4,
        1,
    );
}

// Pieces at the edges of the log.
fn show_pieces(out: Stdout) {
    show(
        out,
        b"no bytes",
        b"A1=One\x0aEVENING=Evening, all\x0aevening_w=Evening, west hall\x0a",
        b"B 7 TEST\x0a",
        4,
        0,
    );
    show(
        out,
        b"with the LF",
        b"A1=One\x0aEVENING=Evening, all\x0aevening_w=Evening, west hall\x0a",
        b"B 7 TEST\x0a",
        4,
        5,
    );
    show(
        out,
        b"with the space",
        b"A1=One\x0aEVENING=Evening, all\x0aevening_w=Evening, west hall\x0a",
        b"B 7 TEST\x0a",
        3,
        5,
    );
    show(
        out,
        b"over the end",
        b"A1=One\x0aEVENING=Evening, all\x0aevening_w=Evening, west hall\x0a",
        b"B 7 TEST",
        4,
        5,
    );
    show(
        out,
        b"the last byte",
        b"A1=One\x0aEVENING=Evening, all\x0aevening_w=Evening, west hall\x0a",
        b"B 7 TEST",
        7,
        1,
    );
    show(
        out,
        b"behind the end",
        b"A1=One\x0aEVENING=Evening, all\x0aevening_w=Evening, west hall\x0a",
        b"B 7 TEST",
        8,
        1,
    );
}

fn show_more_pieces(out: Stdout) {
    show(
        out,
        b"past 2^64",
        b"A1=One\x0aEVENING=Evening, all\x0aevening_w=Evening, west hall\x0a",
        b"B 7 TEST\x0a",
        18446744073709551615,
        2,
    );
    show(
        out,
        b"a length past 2^64",
        b"A1=One\x0aEVENING=Evening, all\x0aevening_w=Evening, west hall\x0a",
        b"B 7 TEST\x0a",
        4,
        18446744073709551615,
    );
    show(
        out,
        b"an empty log",
        b"A1=One\x0aEVENING=Evening, all\x0aevening_w=Evening, west hall\x0a",
        b"",
        0,
        0,
    );
    show(
        out,
        b"24 bytes",
        b"A1=One\x0aEVENING=Evening, all\x0aevening_w=Evening, west hall\x0a",
        b"AAAAAAAAAAAAAAAAAAAAAAAAA",
        0,
        24,
    );
    show(
        out,
        b"25 bytes",
        b"A1=One\x0aEVENING=Evening, all\x0aevening_w=Evening, west hall\x0a",
        b"AAAAAAAAAAAAAAAAAAAAAAAAA",
        0,
        25,
    );
}

// Lines in and outside the form.
fn show_forms(out: Stdout) {
    show(
        out,
        b"a text of 60 bytes",
        b"A=xxxxxxxxxxxxxxxxxxxxxxxxxxxxxxxxxxxxxxxxxxxxxxxxxxxxxxxxxxxx\x0a",
        b"B 7 A\x0a",
        4,
        1,
    );
    show(
        out,
        b"a text of 61 bytes",
        b"A=xxxxxxxxxxxxxxxxxxxxxxxxxxxxxxxxxxxxxxxxxxxxxxxxxxxxxxxxxxxxx\x0a",
        b"B 7 A\x0a",
        4,
        1,
    );
    show(out, b"no text", b"A=\x0a", b"B 7 A\x0a", 4, 1);
    show(out, b"two signs", b"A=x=y\x0a", b"B 7 A\x0a", 4, 1);
    show(out, b"no sign", b"A\x0a", b"B 7 A\x0a", 4, 1);
    show(out, b"no last LF", b"A=x", b"B 7 A\x0a", 4, 1);
}

fn show_more_forms(out: Stdout) {
    show(out, b"an empty line", b"A=x\x0a\x0a", b"B 7 A\x0a", 4, 1);
    show(out, b"no label", b"=x\x0a", b"B 7 A\x0a", 4, 1);
    show(out, b"a wrong label", b"A-=x\x0a", b"B 7 A\x0a", 4, 1);
    show(
        out,
        b"a label of 25 bytes",
        b"AAAAAAAAAAAAAAAAAAAAAAAAA=x\x0a",
        b"B 7 A\x0a",
        4,
        1,
    );
    show(out, b"27 before 13", b"A=\x0a", b"B 7 A\x0a", 4, 0);
}

// The order of the lines.
fn show_orders(out: Stdout) {
    show(
        out,
        b"digits, letters, underscore",
        b"0=v\x0aA=w\x0aA0=x\x0aAA=y\x0aA_=z\x0aZ=t\x0a_=u\x0a",
        b"B 7 a_\x0a",
        4,
        2,
    );
    show(
        out,
        b"a before underscore",
        b"a=x\x0a_=y\x0a",
        b"B 7 A\x0a",
        4,
        1,
    );
    show(
        out,
        b"underscore before a",
        b"_=y\x0aa=x\x0a",
        b"B 7 A\x0a",
        4,
        1,
    );
    show(
        out,
        b"a longer label first",
        b"AB=x\x0aA=y\x0a",
        b"B 7 A\x0a",
        4,
        1,
    );
    show(
        out,
        b"a letter before a digit",
        b"A=x\x0a9=y\x0a",
        b"B 7 A\x0a",
        4,
        1,
    );
    show(out, b"a label twice", b"A=x\x0aA=y\x0a", b"B 7 A\x0a", 4, 1);
}

fn show_more_orders(out: Stdout) {
    show(
        out,
        b"twice in another case",
        b"A=x\x0aa=y\x0a",
        b"B 7 A\x0a",
        4,
        1,
    );
    show(
        out,
        b"a wrong line behind",
        b"A=x\x0aB=\x0a",
        b"B 7 A\x0a",
        4,
        1,
    );
}

fn main(rt: HostRuntime) {
    let out = rt.stdout();
    show_texts(out);
    show_more_texts(out);
    show_pieces(out);
    show_more_pieces(out);
    show_forms(out);
    show_more_forms(out);
    show_orders(out);
    show_more_orders(out);
}
