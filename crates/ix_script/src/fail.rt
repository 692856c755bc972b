ghost use Rattle.std.specs.Prelude.{◌≡◌, Some};
ghost use Rattle.ix_script.specs.{lines.RuleTexts.{rule_text}, reader.Readers.{HasCause}};
ghost use Rattle.ix_script.specs.declared.fail.ReadFail.TheVariants as fail;

use ix_model::NoMemory;
use thiserror::Error;

/// The first line that breaks a rule of scripts, and the first rule that it breaks.
#[derive(Clone, Copy, Debug, PartialEq, Eq, Drop, Error)]
#[error("line {line} breaks rule {rule}")]
pub struct ScriptFault {
    /// From 1.
    pub line: u32,
    pub rule: u8,
}

/// Why bytes weren't read.
#[derive(Clone, Copy, Debug, PartialEq, Eq, Drop, Error)]
pub enum ReadFail {
    /// They are no script.
    #[error(transparent)]
    Fault(ScriptFault),
    #[error("there is no memory")]
    NoMemory,
}

impl From<NoMemory> for ReadFail {
    ghost from_gives = { λ _ e. e ≡ fail.NoMemory };

    fn from(_e: NoMemory) -> ReadFail {
        ReadFail::NoMemory
    }
}

/// A rule of scripts, by its number: [`rule_text`] says what each asks. Of the rules that a line breaks the least is told.
#[derive(Clone, Copy)]
pub(crate) struct Rule(pub u8);

impl Rule {
    pub const LONG_SCRIPT: Rule = Rule(1);

    pub const LONG_LINE: Rule = Rule(2);

    pub const UNPRINTABLE: Rule = Rule(3);

    pub const EMPTY_WORD: Rule = Rule(4);

    pub const OPEN_QUOTE: Rule = Rule(5);

    pub const NO_VERSION: Rule = Rule(6);

    pub const UNKNOWN_COMMAND: Rule = Rule(7);

    pub const LATE_HEADER: Rule = Rule(8);

    pub const OUTSIDE_LANE: Rule = Rule(9);

    pub const WORD_COUNT: Rule = Rule(10);

    pub const BAD_NAME: Rule = Rule(11);

    pub const BAD_NUMBER: Rule = Rule(12);

    pub const OUT_OF_RANGE: Rule = Rule(13);

    pub const BAD_LABEL: Rule = Rule(14);

    pub const BAD_SET: Rule = Rule(15);

    pub const BAD_PATH: Rule = Rule(16);

    pub const UNKNOWN_WORD: Rule = Rule(17);

    pub const BAD_PAYLOAD: Rule = Rule(18);

    pub const LONG_PAYLOAD: Rule = Rule(19);

    pub const GIVEN_TWICE: Rule = Rule(20);

    pub const UNKNOWN_NAME: Rule = Rule(21);

    pub const ABOVE_CEILING: Rule = Rule(22);

    pub const MISFIT: Rule = Rule(23);

    pub const NO_ROOM: Rule = Rule(24);

    pub const OUT_OF_ORDER: Rule = Rule(25);

    pub const TOO_MANY: Rule = Rule(26);

    pub const NO_POLICY: Rule = Rule(28);
}

/// The fault of a line, by the rule that it breaks.
pub(crate) fn fault_at(line: u32, rule: Rule) -> ReadFail
    ensures { HasCause result (Some (line, rule.0)) }
{
    ReadFail::Fault(ScriptFault { line, rule: rule.0 })
}

/// What is said to a script that breaks a rule, by the rule's number, which is 1 to 28.
#[tactic(auto, unfolding(crate::specs::lines::RuleTexts::rule_text, crate::specs::lines::RuleTexts::first_rule_text, crate::specs::lines::RuleTexts::word_rule_text, crate::specs::lines::RuleTexts::last_rule_text))]
pub fn rule_text(rule: u8) -> &'static [u8]
    ensures { result.now ≡ rule_text rule }
{
    match rule {
        1 => b"the script is too long",
        2 => b"a line is too long",
        3 => b"a byte is not printable",
        4 => b"a word is empty",
        5 => b"a quote is not closed",
        6 => b"the first line is not ix 1 or ix 2",
        7 => b"the command is unknown",
        8 => b"a header line stands after a phase",
        9 => b"a line stands outside a lane",
        10 => b"the number of words is wrong",
        11 => b"a name is not well formed",
        12 => b"a number is not well formed",
        13 => b"a number is out of range",
        14 => b"a label is not well formed",
        15 => b"a privilege set is not well formed",
        16 => b"a path is not well formed",
        17 => b"a mode or state is unknown",
        18 => b"a payload is not well formed",
        19 => b"a payload is too long",
        20 => b"a name is given twice",
        21 => b"a name is unknown",
        22 => b"a label is not below its ceiling",
        23 => b"a path does not fit the tree",
        24 => b"there is no room",
        25 => b"a header line is out of order",
        26 => b"there are too many",
        27 => b"the policy is refused",
        _ => b"there is no policy",
    }
}
