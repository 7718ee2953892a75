// The reading loop: bytes to lines, lines to replies.
ghost use Rattle.std.specs.Prelude.{◌≡◌, ◌≢◌, ◌+◌, ◌-◌, ◌^◌, ◌<◌, ◌≤◌, [], ◌∷◌, ◌++◌, List, ℕ, length, take, max, IfOk, OnErr, MatchOption, MatchResult, ⊤};
ghost use Rattle.std.specs.Io.KnownBytes.{Appends, Consumes, IsAtEnd, Keeps};
ghost use Rattle.tmm_io.specs.Causes.{Rose, HasCause};
ghost use Rattle.tmm_model.specs.Cuts.{IsLine};
ghost use Rattle.tmm_drive.specs.Endings.{Ends, AnswersAll};
ghost use Rattle.tmm_drive.specs.Reading.{AnswersLine, ReadSoFar, GoesOn, GivesUp};

use crate::lines::Lines;
use crate::status::Status;
use crate::tally::Tally;
use memchr::memchr;
use replies::memory_reply;
use std::alloc::Global;
use tmm_io::{Failed, Sink, Source};
use tmm_model::{LONGEST_LINE, LONGEST_SCRIPT, Seq, Turn};

/// The most bytes that are taken.
const LIMIT: usize = LONGEST_SCRIPT;

/// How much of a line is kept: a longer one is refused whatever follows.
const KEPT: usize = LONGEST_LINE + 1;

/// How much is read at once.
const PIECE: usize = 8192;

/// Reads a script, answers its lines, and writes each reply by one write as soon as its line is
/// whole. A line that lies whole in what was read is not copied.
pub fn drive<L: Lines, S: Source, K: Sink>(
    alloc: Global,
    lines: &mut L,
    buffer: &mut Seq<u8>,
    source: &mut S,
    sink: &mut K,
) -> Status
    requires empty { buffer.old.items ≡ [] }
    requires room { 401 ≤ buffer.old.room }
    requires first { L.number lines.old ≡ 0 }
    requires ready { L.ready lines.old }

    ensures ends { (taken output : List ℕ)
        × Consumes (S.left source.old) (S.left source.new) taken
        × Appends (K.written sink.old) (K.written sink.new) output
        × Ends L.step (L.state lines.old) (IsAtEnd (S.left source.new)) taken output result }

    ensures read_fault { result ≡ Status.ReadFault → Rose (S.faults source.old) (S.faults source.new) }
    ensures write_fault { result ≡ Status.WriteFault → Rose (K.faults sink.old) (K.faults sink.new) }
    ensures source_faults { result ≢ Status.ReadFault → S.faults source.new ≡ S.faults source.old }
    ensures sink_faults { result ≢ Status.WriteFault → K.faults sink.new ≡ K.faults sink.old }
{
    let mut tally = Tally::new();
    let mut piece = [0u8; PIECE];
    let mut taken = 0;
    'reads: loop {
        let Ok(count) = read_piece(source, &mut piece, taken) else {
            return Status::ReadFault;
        };
        if count == 0 {
            return match finish(alloc, lines, buffer, &mut tally, sink) {
                Ok(status) => status,
                Err(Failed) => Status::WriteFault,
            };
        }
        if taken == LIMIT {
            return Status::TooLong;
        }
        taken += count;
        let Ok(()) = feed(alloc, lines, buffer, &mut tally, sink, &piece[..count]) else {
            return Status::WriteFault;
        };
    }
}

// Reads no more than is left up to the limit, and where nothing is, one byte.
fn read_piece<S: Source>(source: &mut S, piece: &mut [u8], taken: usize) -> Result<usize, Failed>
    requires some { 0 < length piece.old }
    requires within { taken ≤ 2 ^ 30 }
    ensures bytes { IfOk result (λ count. Consumes (S.left source.old) (S.left source.new) (take count piece.new)) }
    ensures end { IfOk result (λ count. count ≡ 0 → IsAtEnd (S.left source.new)) }
    ensures bound { IfOk result (λ count. (count ≤ length piece.new) × (taken + count ≤ max (2 ^ 30) (taken + 1))) }
    ensures err { OnErr result (Keeps (S.left source.old) (S.left source.new)) }
    ensures cause { HasCause (S.faults source.old) (S.faults source.new) result }
{
    let ask = (LIMIT - taken).max(1).min(piece.len());
    source.read(&mut piece[..ask])
}

// Answers the lines that end in this piece, and keeps what is left of it.
fn feed<L: Lines, K: Sink>(
    alloc: Global,
    lines: &mut L,
    buffer: &mut Seq<u8>,
    tally: &mut Tally,
    sink: &mut K,
    piece: &[u8],
) -> Result<(), Failed>
    requires room { 401 ≤ buffer.old.room + length buffer.old.items }
    requires kept { length buffer.old.items ≤ 401 }
    requires ready { L.ready lines.old }
    requires number { L.number lines.old ≡ tally.old.lines }
    requires few { tally.old.lines + length piece.now < 2 ^ 64 - 1 }
    ensures room { 401 ≤ buffer.new.room + length buffer.new.items }
    ensures kept { length buffer.new.items ≤ 401 }
    ensures ready { L.ready lines.new }
    ensures number { L.number lines.new ≡ tally.new.lines }
    ensures few { tally.new.lines ≤ tally.old.lines + length piece.now }
    ensures answers { (start : L.State) (taken output : List ℕ)
        → ReadSoFar L.step start taken output (L.state lines.old) buffer.old.items tally.old
        → MatchResult result
        (λ _. GoesOn L.step start (taken ++ piece.now) output (K.written sink.old) (K.written sink.new) (L.state lines.new) buffer.new.items tally.new)
        (λ _. GivesUp L.step start ⊥ (taken ++ piece.now) output (K.written sink.old) (K.written sink.new)) }
    ensures cause { HasCause (K.faults sink.old) (K.faults sink.new) result }
{
    let mut rest = piece;
    'lines: while let Some((line, behind)) = first_line(rest) {
        end_line(alloc, lines, buffer, tally, sink, line)?;
        rest = behind;
    }
    keep(buffer, rest);
    Ok(())
}

// The bytes before the first line end, and those behind it.
fn first_line(bytes: &[u8]) -> Option<(&[u8], &[u8])>
    ensures { MatchOption result (IsLine bytes.now) (λ parts. IsLine parts.0.now × (bytes.now ≡ (parts.0.now ++ 10 ∷ []) ++ parts.1.now)) }
{
    let end = memchr(b'\n', bytes)?;
    Some((&bytes[..end], &bytes[end + 1..]))
}

// Keeps the first bytes of a line.
fn keep(buffer: &mut Seq<u8>, part: &[u8])
    requires room { 401 ≤ buffer.old.room + length buffer.old.items }
    requires kept { length buffer.old.items ≤ 401 }
    ensures items { buffer.new.items ≡ take 401 (buffer.old.items ++ part.now) }
    ensures room { 401 ≤ buffer.new.room + length buffer.new.items }
{
    let room = KEPT - buffer.items().len();
    // There is room, so no memory is asked for.
    let _ = buffer.extend(&part[..room.min(part.len())]);
}

// Answers the line that ends behind this part.
fn end_line<L: Lines, K: Sink>(
    alloc: Global,
    lines: &mut L,
    buffer: &mut Seq<u8>,
    tally: &mut Tally,
    sink: &mut K,
    part: &[u8],
) -> Result<(), Failed>
    requires room { 401 ≤ buffer.old.room + length buffer.old.items }
    requires kept { length buffer.old.items ≤ 401 }
    requires line { IsLine part.now }
    requires ready { L.ready lines.old }
    requires number { L.number lines.old ≡ tally.old.lines }
    requires few { tally.old.lines < 2 ^ 64 - 1 }
    ensures cleared { buffer.new.items ≡ [] }
    ensures room { 401 ≤ buffer.new.room }
    ensures ready { L.ready lines.new }
    ensures number { L.number lines.new ≡ tally.new.lines }
    ensures few { tally.new.lines ≤ tally.old.lines + 1 }
    ensures answers { (start : L.State) (taken output : List ℕ)
        → ReadSoFar L.step start taken output (L.state lines.old) buffer.old.items tally.old
        → MatchResult result
        (λ _. GoesOn L.step start (taken ++ (part.now ++ 10 ∷ [])) output (K.written sink.old) (K.written sink.new) (L.state lines.new) buffer.new.items tally.new)
        (λ _. GivesUp L.step start ⊥ (taken ++ (part.now ++ 10 ∷ [])) output (K.written sink.old) (K.written sink.new)) }
    ensures cause { HasCause (K.faults sink.old) (K.faults sink.new) result }
{
    if buffer.items().is_empty() {
        return answer(alloc, lines, tally, sink, part);
    }
    keep(buffer, part);
    let answered = answer(alloc, lines, tally, sink, buffer.items());
    buffer.clear();
    answered
}

// Answers a last line without its end, and tells of the replies.
fn finish<L: Lines, K: Sink>(
    alloc: Global,
    lines: &mut L,
    buffer: &Seq<u8>,
    tally: &mut Tally,
    sink: &mut K,
) -> Result<Status, Failed>
    requires ready { L.ready lines.old }
    requires number { L.number lines.old ≡ tally.old.lines }
    requires few { tally.old.lines < 2 ^ 64 - 1 }
    ensures answers { (start : L.State) (taken output : List ℕ)
        → ReadSoFar L.step start taken output (L.state lines.old) buffer.now.items tally.old
        → MatchResult result
        (λ status. (more : List ℕ) × Appends (K.written sink.old) (K.written sink.new) more × AnswersAll L.step start taken (output ++ more) status)
        (λ _. GivesUp L.step start ⊤ taken output (K.written sink.old) (K.written sink.new)) }
    ensures no_fault { IfOk result (λ status. (status ≢ Status.ReadFault) × (status ≢ Status.WriteFault)) }
    ensures cause { HasCause (K.faults sink.old) (K.faults sink.new) result }
{
    if buffer.items().is_empty() {
        return Ok(tally.status());
    }
    answer(alloc, lines, tally, sink, buffer.items())?;
    Ok(tally.status())
}

// Gives a line, and writes its reply.
fn answer<L: Lines, K: Sink>(
    alloc: Global,
    lines: &mut L,
    tally: &mut Tally,
    sink: &mut K,
    line: &[u8],
) -> Result<(), Failed>
    requires ready { L.ready lines.old }
    requires number { L.number lines.old ≡ tally.old.lines }
    requires few { tally.old.lines < 2 ^ 64 - 1 }
    ensures answers { AnswersLine L.step (L.state lines.old) line.now (L.state lines.new) tally.old tally.new (K.written sink.old) (K.written sink.new) result }
    ensures ready { L.ready lines.new }
    ensures number { L.number lines.new ≡ tally.new.lines }
    ensures few { tally.new.lines ≡ tally.old.lines + 1 }
    ensures cause { HasCause (K.faults sink.old) (K.faults sink.new) result }
{
    let turn = lines.line(alloc, line);
    tally.count(&turn);
    match turn {
        Turn::Silent => Ok(()),
        Turn::Reply { bytes, refused: _ } => sink.write_all(bytes.items()),
        Turn::Memory => sink.write_all(memory_reply(tally.lines).as_slice()),
    }
}
