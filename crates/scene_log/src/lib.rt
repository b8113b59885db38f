// The check for programs in other languages: functions on numbers and byte slices, under plain C names.
//
// A slice is a pointer and a length in C (`include/scene_log.h`). Every call takes any input. An answer that is an enum in the
// library is a number here; `answer_numbers` says which: 65,536 times a refusal, anything else below 65,536. `specs/Numbers.antt`
// has the contracts. The carried record is 2,628 bytes, in the form of `record_bytes`, and a tally is five numbers;
// `specs/InBytes.antt` has the contracts of the calls that take them. A slip is a byte a run; `specs/Slips.antt` has its contracts. A call
// that is lent a work area names its layout by a number, and `in_layout` has it for each layout. A call on a whole log names a mode by
// a number too: 1 is the full one, any other the default, which stops at the first failure. The text of a label is told by its place;
// `specs/LabelText.antt` has the contract.
#![tactic(auto)]

ghost use Rattle.std.specs.Prelude.{◌≡◌};
ghost use Rattle.labels.specs.Fnv.{fnv_of};
ghost use Rattle.scene_log.specs.Numbers.{ComposesNumbers, ConversesNumber, ChecksLogFor, ReportsFor};
ghost use Rattle.scene_log.specs.Texts.{ReadsTextNumber, WritesTextNumber};
ghost use Rattle.scene_log.specs.Slips.{FindsNumber, PassesNumber};
ghost use Rattle.scene_log.specs.LabelText.{TellsNumbers};
ghost use Rattle.scene_log.specs.InBytes.{StartsFor, ChecksLineFor, ChecksTalliedFor, KeepsLogFor, RelatesNumber};

use label_book::Piece;
use trace::RunNo;

mod in_layout;

// The bytes of a record.
const RECORD_BYTES: usize = record_bytes::RECORD_BYTES;

// The fewest bytes of a buffer for a slip.
const SLIP_BYTES: usize = rule_file::MAX_NESTED;

// The layouts are named by 0 and 1; for any other number no buffer is long enough.
const LAST_LAYOUT: u32 = 1;

// The refusal of a lent buffer that is too short.
const TOO_SHORT: u32 = 20 * answer_numbers::REFUSAL_STEP;

// The report of a rule file and a log at the start of the text: its length, or the refusal.
#[unsafe(no_mangle)]
pub extern "C" fn scene_log_report(
    layout: u32,
    mode: u32,
    rule: &[u8],
    log: &[u8],
    work: &mut [u8],
    verdicts: &mut [u8],
    text: &mut [u8],
) -> u32
    ensures { ReportsFor layout mode rule.now log.now work.old verdicts.old text.old result work.new verdicts.new text.new }
{
    if LAST_LAYOUT < layout {
        return TOO_SHORT;
    }
    let named = answer_numbers::layout_of(layout);
    in_layout::report(named, mode, rule, log, work, verdicts, text)
}

// The rule file of a typed rule at the start of the rule: its length, or the refusal.
#[unsafe(no_mangle)]
pub extern "C" fn scene_log_rule_from_text(text: &[u8], rule: &mut [u8]) -> u32
    ensures { ReadsTextNumber text.now rule.old result rule.new }
{
    let a = typed_file::rule_from_text(text, rule);
    answer_numbers::written_number(a)
}

// The text of a rule file at the start of the text: its length, or the refusal.
#[unsafe(no_mangle)]
pub extern "C" fn scene_log_text_from_rule(rule: &[u8], text: &mut [u8]) -> u32
    ensures { WritesTextNumber rule.now text.old result text.new }
{
    let a = rule_text::text_from_rule(rule, text);
    answer_numbers::written_number(a)
}

// A whole log with a rule file: the number of lines that are taken; or the refusal and the number of the refused line.
#[unsafe(no_mangle)]
pub extern "C" fn scene_log_check_log(
    layout: u32,
    mode: u32,
    rule: &[u8],
    log: &[u8],
    work: &mut [u8],
    verdicts: &mut [u8],
) -> u32
    ensures { ChecksLogFor layout mode rule.now log.now work.old verdicts.old result work.new verdicts.new }
{
    if LAST_LAYOUT < layout {
        return TOO_SHORT;
    }
    let named = answer_numbers::layout_of(layout);
    in_layout::check_log(named, mode, rule, log, work, verdicts)
}

// The same, with the record of the lines that are taken in bytes.
#[unsafe(no_mangle)]
pub extern "C" fn scene_log_check_log_record(
    layout: u32,
    mode: u32,
    rule: &[u8],
    log: &[u8],
    carried: &mut [u8],
    work: &mut [u8],
    verdicts: &mut [u8],
) -> u32
    ensures { KeepsLogFor layout mode rule.now log.now carried.old work.old verdicts.old result carried.new work.new verdicts.new }
{
    if LAST_LAYOUT < layout {
        return TOO_SHORT;
    }
    let named = answer_numbers::layout_of(layout);
    in_layout::check_log_record(named, mode, rule, log, carried, work, verdicts)
}

// Starts a record in bytes and its work area: 0, or the refusal.
#[unsafe(no_mangle)]
pub extern "C" fn scene_log_start(layout: u32, carried: &mut [u8], work: &mut [u8]) -> u32
    ensures { StartsFor layout carried.old work.old result carried.new work.new }
{
    if LAST_LAYOUT < layout {
        return TOO_SHORT;
    }
    let named = answer_numbers::layout_of(layout);
    in_layout::start(named, carried, work)
}

// One line on a record in bytes and its work area: 1 holds, 0 fails, or the refusal.
#[unsafe(no_mangle)]
pub extern "C" fn scene_log_check_line(
    layout: u32,
    rule: &[u8],
    carried: &mut [u8],
    work: &mut [u8],
    line: &[u8],
) -> u32
    ensures { ChecksLineFor layout rule.now carried.old work.old line.now result carried.new work.new }
{
    if LAST_LAYOUT < layout {
        return TOO_SHORT;
    }
    let named = answer_numbers::layout_of(layout);
    in_layout::check_line(named, rule, carried, work, line)
}

// The same, with a tally: its five counts, which are updated where they stand.
#[unsafe(no_mangle)]
pub extern "C" fn scene_log_check_line_tallied(
    layout: u32,
    rule: &[u8],
    carried: &mut [u8],
    tally: &mut [u32],
    work: &mut [u8],
    line: &[u8],
) -> u32
    ensures { ChecksTalliedFor layout rule.now carried.old tally.old work.old line.now result carried.new tally.new work.new }
{
    if LAST_LAYOUT < layout {
        return TOO_SHORT;
    }
    let named = answer_numbers::layout_of(layout);
    in_layout::check_line_tallied(named, rule, carried, tally, work, line)
}

// The relation of run a to run b of a record in bytes, or the refusal.
#[unsafe(no_mangle)]
pub extern "C" fn scene_log_relate(carried: &[u8], a: u32, b: u32) -> u32
    ensures { RelatesNumber carried.now a b result }
{
    if carried.len() < RECORD_BYTES {
        return TOO_SHORT;
    }
    let u = record_bytes::unpack(carried);
    let state = u.state;
    let x = relations::relate(
        state,
        RunNo(answer_numbers::as_byte(a)),
        RunNo(answer_numbers::as_byte(b)),
    );
    answer_numbers::answer_number(x)
}

// The first slip of a rule file and a record in bytes: how many runs it has, with their numbers in the first bytes; 0 for none; or the
// refusal.
#[unsafe(no_mangle)]
pub extern "C" fn scene_log_first_slip(rule: &[u8], carried: &[u8], slip: &mut [u8]) -> u32
    ensures { FindsNumber rule.now carried.now slip.old result slip.new }
{
    if carried.len() < RECORD_BYTES {
        return TOO_SHORT;
    }
    if slip.len() < SLIP_BYTES {
        return TOO_SHORT;
    }
    let u = record_bytes::unpack(carried);
    let state = u.state;
    let a = slips::first_slip(rule, state);
    slip_bytes::keep_slip(a, slip)
}

// Whether a slip in bytes, a run a byte, passes for a rule file and a record in bytes: 1 it does, 0 it does not, or the refusal.
#[unsafe(no_mangle)]
pub extern "C" fn scene_log_slip_passes(rule: &[u8], carried: &[u8], slip: &[u8]) -> u32
    ensures { PassesNumber rule.now carried.now slip.now result }
{
    if carried.len() < RECORD_BYTES {
        return TOO_SHORT;
    }
    let u = record_bytes::unpack(carried);
    let state = u.state;
    let x = slip_bytes::slip_from(slip);
    let a = slips::passes(rule, state, x);
    slip_bytes::passing_number(a)
}

// Where the text of a label of a log stands: 0 in the book, 1 in the log, with the place of its first byte and its length in the two
// numbers; or the refusal, and the numbers stay.
#[unsafe(no_mangle)]
pub extern "C" fn scene_log_label_text(
    book: &[u8],
    log: &[u8],
    place: usize,
    length: usize,
    start: &mut usize,
    size: &mut usize,
) -> u32
    ensures { TellsNumbers book.now log.now place length start.old size.old result start.new size.new }
{
    match label_book::piece_for(book, log, place, length) {
        Ok(piece) => match piece {
            Piece::InBook(first, end) => {
                *start = first;
                *size = end - first;
                0
            }
            Piece::InLog(first, end) => {
                *start = first;
                *size = end - first;
                1
            }
        },
        Err(refusal) => (u8::from(refusal) as u32) * answer_numbers::REFUSAL_STEP,
    }
}

// The composition of two sets of relations, or the refusal.
#[unsafe(no_mangle)]
pub extern "C" fn scene_log_compose(a: u32, b: u32) -> u32
    ensures { ComposesNumbers a b result }
{
    let c = relations::compose(answer_numbers::as_byte(a), answer_numbers::as_byte(b));
    answer_numbers::answer_number(c)
}

// The converses of a set's members, or the refusal.
#[unsafe(no_mangle)]
pub extern "C" fn scene_log_converse(a: u32) -> u32
    ensures { ConversesNumber a result }
{
    let c = relations::converse(answer_numbers::as_byte(a));
    answer_numbers::answer_number(c)
}

// The 32-bit FNV-1a hash of the bytes.
#[unsafe(no_mangle)]
pub extern "C" fn scene_log_fnv1a(bytes: &[u8]) -> u32
    ensures { result ≡ fnv_of bytes.now }
{
    labels::fnv1a(bytes)
}
