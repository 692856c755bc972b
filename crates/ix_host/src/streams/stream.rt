ghost use Rattle.std.specs.Prelude.{◌≡◌, ℕ, ◌+◌, ◌≤◌, ◌<◌, List, IfSome, OnOk, true, vec_len};
ghost use Rattle.ix_io.specs.Streams.{HasCause, Rose};
ghost use Rattle.ix_image.specs.Image.{longest};
ghost use Rattle.ix_host.specs.run.Whole.{Gathers, GoesOn, IsFront, IsShort, TakesFew, Writes};

use ix_io::{Failed, Sink, Source};
use std::alloc::Global;

/// The most bytes of one read.
const PIECE: usize = 65_536;

/// What a source gave.
#[derive(Drop)]
pub enum Input {
    /// All there was, read to its end.
    Whole(Vec<u8>),
    /// One byte more than it may have.
    TooLong,
    Fault,
    NoMemory,
}

/// Reads all there is, but at most one byte more than an input may have.
pub fn read_all<S: Source>(alloc: Global, source: &mut S, max: usize) -> Input
    requires { max ≤ longest }
    ensures told { IfSome (S.left source.old) (λ bytes. Gathers max bytes (S.left source.new) result) }
    ensures few { IfSome (S.left source.old) (λ bytes. TakesFew max bytes (S.left source.new)) }
    ensures short { IsShort max result }
    ensures fault { result ≡ Input.Fault → Rose (S.faults source.old) (S.faults source.new) }
    ensures kept { ¬ (result ≡ Input.Fault) → S.faults source.new ≡ S.faults source.old }
{
    let (mut bytes, mut room) = (Vec::new(alloc), [0; PIECE]);
    'pieces: while bytes.len() <= max {
        match read_piece(source, &mut bytes, &mut room, max) {
            Piece::More => {}
            Piece::End => return Input::Whole(bytes),
            Piece::Fault => return Input::Fault,
            Piece::NoMemory => return Input::NoMemory,
        }
    }
    Input::TooLong
}

/// What one read gave.
#[derive(Clone, Copy)]
enum Piece {
    More,
    End,
    Fault,
    NoMemory,
}

/// Reads a piece into a room for it, and puts it at the end of what was read.
fn read_piece<S: Source>(
    source: &mut S,
    bytes: &mut Vec<u8>,
    room: &mut [u8; PIECE],
    max: usize,
) -> Piece
    requires few { max ≤ longest }
    requires within { vec_len bytes.old ≤ max }
    ensures told { (all : List ℕ) → IsFront all bytes.old.items (S.left source.old) → GoesOn all bytes.new.items (S.left source.new) result }
    ensures few { (all : List ℕ) → IsFront all bytes.old.items (S.left source.old) → TakesFew max all (S.left source.new) }
    ensures more { result ≡ Piece.More → (vec_len bytes.old < vec_len bytes.new) × (vec_len bytes.new ≤ max + 1) }
    ensures end { result ≡ Piece.End → vec_len bytes.new ≡ vec_len bytes.old }
    ensures fault { result ≡ Piece.Fault → Rose (S.faults source.old) (S.faults source.new) }
    ensures kept { ¬ (result ≡ Piece.Fault) → S.faults source.new ≡ S.faults source.old }
{
    let most = PIECE.min(max + 1 - bytes.len());
    let piece = &mut room[..most];
    match source.read(piece) {
        Err(Failed) => Piece::Fault,
        Ok(0) => Piece::End,
        Ok(n) => {
            if bytes.extend_from_slice(&piece[..n]).is_err() {
                return Piece::NoMemory;
            }
            Piece::More
        }
    }
}

/// Writes all of the text. `Failed` where the sink fails: it took a beginning of the text then, and nobody tells how much.
pub fn write_piece<K: Sink>(sink: &mut K, text: &[u8]) -> Result<(), Failed>
    ensures told { IfSome (K.taken sink.old) (λ taken. Writes taken (K.taken sink.new) text.now result) }
    ensures cause { HasCause (K.faults sink.old) (K.faults sink.new) result }
{
    let mut at = 0;
    'pieces: while at < text.len() {
        let (_, rest) = text.split_at(at);
        let n = sink.write(rest)?;
        at += n;
    }
    Ok(())
}

/// Writes all of the text, and finishes. `Failed` where the sink fails at either: it took a beginning of the text then, or all.
pub fn write_all<K: Sink>(sink: &mut K, text: &[u8]) -> Result<(), Failed>
    ensures told { IfSome (K.taken sink.old) (λ taken. Writes taken (K.taken sink.new) text.now result) }
    ensures finished { OnOk result (K.finished sink.new ≡ true) }
    ensures cause { HasCause (K.faults sink.old) (K.faults sink.new) result }
{
    write_piece(sink, text)?;
    sink.finish()
}
