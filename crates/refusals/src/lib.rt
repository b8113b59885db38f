// Why a call refuses what it is asked, by the numbers of docs/REFUSALS.md.
#![tactic(auto)]

ghost use Rattle.std.specs.Prelude.{◌≡◌};
ghost use Rattle.refusals.specs.Refusal.{number};

// The numbered list. Its numbers are fixed.
#[derive(Clone, Copy, Debug, PartialEq, Eq)]
pub enum Refusal {
    // The rule file ends before the next part is whole.
    RuleEndsEarly = 1,
    // Its mark is not RUL.
    RuleMark = 2,
    // Its version is not 1.
    RuleVersion = 3,
    // A count of it is outside its range.
    RuleCount = 4,
    // A label of it has a wrong length or a wrong byte, or is listed twice.
    RuleLabel = 5,
    // A node's kind or one of its fields is outside its range.
    RuleNode = 6,
    // Bytes follow its last node.
    RuleTooLong = 7,
    // A node other than the root is not named exactly once.
    RuleNotATree = 8,
    // A variable is used outside every "some" that binds it.
    RuleUnbound = 9,
    // Five "some" lie one inside another.
    RuleTooDeep = 10,
    // The line has neither form, or its LF is not among its first 40 bytes.
    LineForm = 11,
    // Its id is not in 1 to 65535.
    LineId = 12,
    // Its label has a wrong byte or more than 24 bytes.
    LineLabel = 13,
    // A relation set is above 63.
    NoSet = 14,
    // A begin line has an id whose run is still open.
    StillOpen = 15,
    // An end line has an id that never began.
    NeverBegun = 16,
    // An end line has an id that has begun, and no run of it is open.
    NoneOpen = 17,
    // The line would begin a 129th run.
    TooManyRuns = 18,
    // The line would bring a 65th label.
    TooManyLabels = 19,
    // A lent buffer is shorter than stated.
    ShortBuffer = 20,
    // No accepted lines leave the record, or the pair bytes are not that record's.
    NoRecord = 21,
    // A run number has no finished run, or a slip has a wrong number of runs.
    NoFinishedRun = 22,
    // Both numbers name the same finished run.
    SameRun = 23,
    // The tally is not the record's, or its failing lines exceed its lines.
    NoTally = 24,
    // The typed rule is outside the grammar or longer than 4,096 bytes.
    RuleGrammar = 25,
    // The rule has another form than one with slips.
    RuleNoSlips = 26,
    // The label book is outside its form.
    BookForm = 27,
}

// Its number.
impl From<Refusal> for u8 {
    ghost from_gives = { λ refusal result. result ≡ number refusal };

    fn from(refusal: Refusal) -> u8 {
        refusal as u8
    }
}
