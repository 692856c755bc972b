ghost use Rattle.std.specs.Prelude.{◌≡◌, IfOk};
ghost use Rattle.ix_host.specs.report.Rules.{image_line, refusal_line};

use crate::streams::text::{push, push_number};
use ix_model::NoMemory;
use ix_script::rule_text;
use std::alloc::Global;

/// The line of text for a script that breaks a rule at a line. `NoMemory` where there was none for it.
#[tactic(auto, unfolding(crate::specs::report::Rules::refusal_line))]
pub fn refusal(alloc: Global, line: u32, rule: u8) -> Result<Vec<u8>, NoMemory>
    ensures { IfOk result (λ text. text.items ≡ refusal_line line rule) }
{
    let mut text = Vec::new(alloc);
    push(&mut text, b"script:")?;
    push_number(alloc, &mut text, line as u64)?;
    push(&mut text, b": ")?;
    push(&mut text, rule_text(rule))?;
    push(&mut text, b"\n")?;
    Ok(text)
}

/// The line of text for an image that breaks a rule at a place. `NoMemory` where there was none for it.
#[tactic(auto, unfolding(crate::specs::report::Rules::image_line))]
pub fn image_fault(alloc: Global, at: u64, rule: u8) -> Result<Vec<u8>, NoMemory>
    ensures { IfOk result (λ text. text.items ≡ image_line at rule) }
{
    let mut text = Vec::new(alloc);
    push(&mut text, b"image:")?;
    push_number(alloc, &mut text, at)?;
    push(&mut text, b": ")?;
    push(&mut text, ix_image::rule_text(rule))?;
    push(&mut text, b"\n")?;
    Ok(text)
}

/// The line of text for a script that is too long.
pub fn too_long_line() -> &'static [u8]
    ensures { result.now ≡ refusal_line 1 1 }
{
    b"script:1: the script is too long\n"
}
