//! The fields of an image. Each reader takes one from the front of the bytes, and gives what is behind it.
ghost use Rattle.std.specs.Prelude.{◌≡◌, ◌≤◌, length, IfOk};
ghost use Rattle.ix_model.specs.{opening.Valid.{is_within}, world.Naming.{is_name}};
ghost use Rattle.ix_image.specs.{Meant.{Gives}, Reading.{start_at, bytes_at, word_at, number_at, small_at, text_at, name_at}};

use crate::fault::Fault;
use crate::rules::{BAD_NAME, MISSING, NO_IMAGE, OUT_OF_RANGE};
use ix_model::NameRef;

/// The first bytes.
const START: &[u8] = b"IXIMAGE1";

/// What is behind the first bytes.
#[tactic(auto, unfolding(crate::specs::Reading::start_at))]
pub fn start_at(bytes: &[u8]) -> Result<&[u8], Fault>
    ensures { Gives (λ x. x.now) result (start_at bytes.now) }
{
    if bytes.len() < START.len() {
        return Err(Fault::at_end(MISSING));
    }
    for i in 0..START.len() {
        if bytes[i] != START[i] {
            return Err(Fault::here(NO_IMAGE, &bytes[i..]));
        }
    }
    Ok(&bytes[START.len()..])
}

/// So many bytes.
#[tactic(auto, unfolding(crate::specs::Reading::bytes_at))]
pub fn bytes_at(len: usize, bytes: &[u8]) -> Result<(&[u8], &[u8]), Fault>
    ensures read { Gives (λ x. (x.0.now, x.1.now)) result (bytes_at len bytes.now) }
    ensures long { IfOk result (λ x. length x.0.now ≡ len) }
{
    if bytes.len() < len {
        return Err(Fault::at_end(MISSING));
    }
    Ok(bytes.split_at(len))
}

/// A number of four bytes, the most significant first.
#[tactic(auto, unfolding(crate::specs::Reading::word_at, crate::specs::Reading::bytes_at))]
pub fn word_at(bytes: &[u8]) -> Result<(u32, &[u8]), Fault>
    ensures { Gives (λ x. (x.0, x.1.now)) result (word_at bytes.now) }
{
    if bytes.len() < 4 {
        return Err(Fault::at_end(MISSING));
    }
    let (front, rest) = bytes.split_at(4);
    let number = u32::from_be_bytes([front[0], front[1], front[2], front[3]]);
    Ok((number, rest))
}

/// A number of four bytes that is within a range.
#[tactic(auto, unfolding(crate::specs::Reading::number_at))]
pub fn number_at(least: u32, most: u32, bytes: &[u8]) -> Result<(u32, &[u8]), Fault>
    ensures read { Gives (λ x. (x.0, x.1.now)) result (number_at (is_within least most) bytes.now) }
    ensures most { IfOk result (λ x. x.0 ≤ most) }
{
    let (number, rest) = word_at(bytes)?;
    if least <= number && number <= most {
        Ok((number, rest))
    } else {
        Err(Fault::here(OUT_OF_RANGE, bytes))
    }
}

/// A number of one byte.
#[tactic(auto, unfolding(crate::specs::Reading::small_at))]
pub fn small_at(most: u8, bytes: &[u8]) -> Result<(u8, &[u8]), Fault>
    ensures number { Gives (λ x. (x.0, x.1.now)) result (small_at most bytes.now) }
    ensures within { IfOk result (λ x. x.0 ≤ most) }
{
    match bytes {
        [] => Err(Fault::at_end(MISSING)),
        [number, rest @ ..] => {
            if *number <= most {
                Ok((*number, rest))
            } else {
                Err(Fault::here(OUT_OF_RANGE, bytes))
            }
        }
    }
}

/// Bytes behind their number, which has one byte.
#[tactic(auto, unfolding(crate::specs::Reading::text_at))]
pub fn text_at(bytes: &[u8]) -> Result<(&[u8], &[u8]), Fault>
    ensures { Gives (λ x. (x.0.now, x.1.now)) result (text_at bytes.now) }
{
    match bytes {
        [] => Err(Fault::at_end(MISSING)),
        [len, rest @ ..] => bytes_at(*len as usize, rest),
    }
}

/// A name of the kernel behind its length.
#[tactic(auto, unfolding(crate::specs::Reading::name_at))]
pub fn name_at(bytes: &[u8]) -> Result<(&[u8], &[u8]), Fault>
    ensures { Gives (λ x. (x.0.now, x.1.now)) result (name_at is_name bytes.now) }
{
    let (name, rest) = text_at(bytes)?;
    match NameRef::read(name) {
        Some(_) => Ok((name, rest)),
        None => Err(Fault::here(BAD_NAME, bytes)),
    }
}
