// Writes the shape of each node of some rules.
//
// A line has the node's number, the mask of its free variables, and its height.
#![tactic(auto)]

ghost use Rattle.std.specs.Prelude.{◌≤◌};
ghost use Rattle.rules.specs.Rules.{Taken};

use rules::{MAX_NODES, Rule};
use std::io::Stdout;

// Writes the line of node n.
fn write_node(out: Stdout, n: usize, mask: u8, height: u8) {
    test_text::write_next(out, n as u64);
    test_text::write_next(out, test_text::wide(mask));
    test_text::write_number(out, test_text::wide(height));
    test_text::write(out, b"\n");
}

// Writes the lines of the first nodes.
fn write_nodes(out: Stdout, count: usize, masks: [u8; MAX_NODES], heights: [u8; MAX_NODES])
    requires { count ≤ 64 }
{
    for n in 0..count {
        write_node(out, n, masks[n], heights[n]);
    }
}

// Writes the nodes of a rule that was read.
fn show_rule(out: Stdout, file: &[u8], x: Rule)
    requires { Taken file.now x }
{
    let masks = shape::free_variables(file, x.nodes, x.count);
    let heights = shape::heights(file, x.nodes, x.count);
    write_nodes(out, x.count, masks, heights);
}

// Reads a rule file and writes its nodes.
fn show(out: Stdout, name: &[u8], file: &[u8]) {
    test_text::write(out, name);
    let r = rule_file::read_rule(file);
    match r {
        Ok(x) => show_rule(out, file, x),
        Err(e) => test_text::write_refusal(out, u8::from(e)),
    }
}

fn main(rt: HostRuntime) {
    let out = rt.stdout();
    show(
        out,
        b"no EVENING includes a TEST\n",
        b"RUL\x01\x00\x02\x07EVENING\x04TEST\x08\x04\x00\x00\x04\x01\x01\x01\x00\x01\x07\x00\x01\x01\x02\x03\x03\x01\x04\x03\x00\x05\x02\x06\x00",
    );
    show(
        out,
        b"four variables, four \"some\" one inside another, and one beside them\n",
        b"RUL\x01\x00\x00\x0c\x05\x02\x03\x03\x03\x00\x06\x00\x02\x01\x01\x02\x03\x02\x03\x08\x01\x01\x01\x05\x04\x03\x01\x06\x03\x00\x07\x08\x00\x00\x03\x00\x09\x01\x08\x0a",
    );
    show(
        out,
        b"a variable bound again\n",
        b"RUL\x01\x00\x01\x01A\x05\x04\x00\x00\x03\x00\x00\x07\x00\x00\x01\x02\x01\x03\x00\x03",
    );
}
