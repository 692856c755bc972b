ghost use Rattle.std.specs.Prelude.{◌≡◌, ◌≤◌, length};
ghost use Rattle.ix_report.specs.RefusalText.{refusal_text};

use ix_model::Refusal;

/// The name of a refusal, as it is declared.
#[tactic(auto, unfolding(crate::specs::RefusalText::refusal_text))]
pub fn name_of(why: Refusal) -> &'static [u8]
    ensures text { result.now ≡ refusal_text why }
    ensures few { length result.now ≤ 16 }
{
    match why {
        Refusal::NoProcess => b"NoProcess",
        Refusal::BadFd => b"BadFd",
        Refusal::NotReadable => b"NotReadable",
        Refusal::NotWritable => b"NotWritable",
        Refusal::NotFound => b"NotFound",
        Refusal::NotDir => b"NotDir",
        Refusal::IsDir => b"IsDir",
        Refusal::Exists => b"Exists",
        Refusal::NotEmpty => b"NotEmpty",
        Refusal::CrossFs => b"CrossFs",
        Refusal::ProcFrozen => b"ProcFrozen",
        Refusal::ProcCeiling => b"ProcCeiling",
        Refusal::FileFrozen => b"FileFrozen",
        Refusal::FsCeiling => b"FsCeiling",
        Refusal::Trusted => b"Trusted",
        Refusal::NoCapability => b"NoCapability",
        Refusal::NoLicence => b"NoLicence",
        Refusal::NotAbove => b"NotAbove",
        Refusal::BelowLabel => b"BelowLabel",
        Refusal::PexHeld => b"PexHeld",
        Refusal::NotPipe => b"NotPipe",
        Refusal::NotClaimed => b"NotClaimed",
        Refusal::NoSpace => b"NoSpace",
        Refusal::NoInode => b"NoInode",
        Refusal::NoEntry => b"NoEntry",
        Refusal::NoSlot => b"NoSlot",
        Refusal::NoFd => b"NoFd",
        Refusal::NoOpen => b"NoOpen",
        Refusal::TooBig => b"TooBig",
        Refusal::PipeFull => b"PipeFull",
        Refusal::Broken => b"Broken",
        Refusal::NoChild => b"NoChild",
        Refusal::ChildrenLive => b"ChildrenLive",
        Refusal::LogFull => b"LogFull",
        Refusal::Again => b"Again",
        Refusal::EndOfList => b"EndOfList",
        Refusal::IsPipe => b"IsPipe",
        Refusal::InUse => b"InUse",
    }
}
