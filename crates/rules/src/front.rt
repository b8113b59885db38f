// The front of a rule file: mark, version, label count.
ghost use Rattle.std.specs.Prelude.{◌≡◌};
ghost use Rattle.rules.specs.Parts.{read_mark, read_version, read_label_count, read_head};

use crate::{LABEL_COUNT_AT, LABELS_AT, MAX_LABELS};
use refusals::Refusal;

// The mark `RUL`.
fn mark(file: &[u8]) -> Result<usize, Refusal>
    ensures { result ≡ read_mark file.now }
{
    if file.len() < 3 {
        return Err(Refusal::RuleEndsEarly);
    }
    if !file.starts_with(b"RUL") {
        return Err(Refusal::RuleMark);
    }
    Ok(3)
}

// The version, 16 bits, low byte first.
fn version(file: &[u8]) -> Result<usize, Refusal>
    ensures { result ≡ read_version file.now }
{
    if file.len() < 5 {
        return Err(Refusal::RuleEndsEarly);
    }
    if u16::from_le_bytes([file[3], file[4]]) != 1 {
        return Err(Refusal::RuleVersion);
    }
    Ok(5)
}

// The count of labels.
fn label_count(file: &[u8]) -> Result<usize, Refusal>
    ensures { result ≡ read_label_count file.now }
{
    if file.len() < LABELS_AT {
        return Err(Refusal::RuleEndsEarly);
    }
    if MAX_LABELS < file[LABEL_COUNT_AT] as usize {
        return Err(Refusal::RuleCount);
    }
    Ok(LABELS_AT)
}

// The mark, the version and the count of labels.
pub fn head(file: &[u8]) -> Result<usize, Refusal>
    ensures { result ≡ read_head file.now }
{
    mark(file)?;
    version(file)?;
    label_count(file)
}
