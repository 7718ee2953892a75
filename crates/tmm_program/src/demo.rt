// The words `demo N`: a generated script is answered, and one line tells of its replies.
ghost use Rattle.std.specs.Prelude.{◌≡◌, ◌≢◌, ◌+◌, ◌-◌, ◌^◌, ◌<◌, ◌≤◌, [], ◌∷◌, ◌++◌, List, ℕ, None, codes, decimal, length, nat_lt, if◌then◌else◌, MatchOption};
ghost use Rattle.std.specs.declared.option.Option.{Option};
ghost use Rattle.std.specs.Io.KnownBytes.{Appends};
ghost use Rattle.tmm_io.specs.Causes.{Rose};
ghost use Rattle.tmm_model.specs.declared.turn.Turn.{Turn};
ghost use Rattle.tmm_model.specs.Generator.{script_of};
ghost use Rattle.tmm_model.specs.Replies.{Reply};
ghost use Rattle.tmm_model.specs.Standing.{Standing};
ghost use Rattle.tmm_program.specs.Counts.{AreCounts, counts_text, number_word};
ghost use Rattle.tmm_program.specs.Demo.{IsDemo, RunReplied, DemoEnds};

use arrayvec::ArrayVec;
use demo_gen::line_of;
use itoa::Buffer;
use map_core::MapCore;
use std::alloc::Global;
use tmm_drive::Status;
use tmm_io::Sink;
use tmm_model::MOST_EVENTS;
use tmm_session::{ReplyKind, Session, Told};
use tmm_words::number;

/// The greatest N.
const MOST: i64 = MOST_EVENTS as i64;

/// The N of the words `demo N`, from 1 to 1000 in decimal and with no zero before it.
pub fn demo_number(words: &[String]) -> Option<u32>
    ensures { MatchOption result ((n : ℕ) → IsDemo words.now n → ⊥) (λ n. IsDemo words.now n) }
{
    match words {
        [first, second] if first.as_bytes() == b"demo".as_slice() => in_range(second.as_bytes()),
        _ => None,
    }
}

// The number from 1 to 1000 that a word spells.
fn in_range(word: &[u8]) -> Option<u32>
    ensures { MatchOption result ((n : ℕ) → word.now ≡ decimal n → 1 ≤ n → n ≤ 1000 → ⊥) (λ n. (word.now ≡ decimal n) × (1 ≤ n) × (n ≤ 1000)) }
{
    match number(word) {
        Some(n) if n >= 1 && n <= MOST => Some(n as u32),
        _ => None,
    }
}

/// Answers the script of `n` in a session that was given no line, and writes one line that tells of
/// its replies.
pub fn demo<M: MapCore + Drop, K: Sink>(
    alloc: Global,
    n: u32,
    session: &mut Session<M>,
    sink: &mut K,
) -> Status
    requires number { n ≤ 1000 }
    requires first { session.old.lines ≡ 0 }
    requires idle { M.pending session.old.core ≡ None }
    ensures ends { (output : List ℕ)
        × Appends (K.written sink.old) (K.written sink.new) output
        × DemoEnds (M.list session.old.core) n output result }
    ensures write_fault { result ≡ Status.WriteFault → Rose (K.faults sink.old) (K.faults sink.new) }
    ensures sink_faults { result ≢ Status.WriteFault → K.faults sink.new ≡ K.faults sink.old }
{
    let counts = answer_script(alloc, n, session);
    match sink.write_all(summary(n, &counts).as_slice()) {
        Ok(()) => counts.status(),
        Err(_) => Status::WriteFault,
    }
}

// Gives the lines of the script of `n`, and counts their replies.
fn answer_script<M: MapCore + Drop>(alloc: Global, n: u32, session: &mut Session<M>) -> Counts
    requires number { n ≤ 1000 }
    requires first { session.old.lines ≡ 0 }
    requires idle { M.pending session.old.core ≡ None }
    ensures { (turns : List Turn) × (replies : List (Option Reply)) × (end : Standing)
        × RunReplied (M.list session.old.core) (script_of n) turns replies end
        × AreCounts result replies }
{
    let mut counts = Counts::new();
    let mut i = 0;
    'lines: while let Some(line) = line_of(n, i) {
        let told = session.tell(alloc, line.as_slice());
        counts.count(&told);
        i += 1;
    }
    counts
}

/// How many replies there were, and how many of them of each kind.
#[derive(Clone, Copy)]
pub struct Counts {
    /// The replies of any kind.
    pub lines: u64,
    /// Edits that were made.
    pub ok: u64,
    /// Questions whether a fact holds that were answered `yes`.
    pub yes: u64,
    /// Such questions that were answered `no`, with blames.
    pub no: u64,
    /// Lines that were refused.
    pub refused: u64,
    /// Lines for which there was no memory.
    pub memory: u64,
    /// The size that the last reply told, where it told one.
    pub size: Option<u64>,
}

impl Counts {
    ghost use Rattle.tmm_program.specs.Counts.{HaveRoom, counted, with_kind};

    fn new() -> Counts
        ensures { AreCounts result [] }
    {
        Counts {
            lines: 0,
            ok: 0,
            yes: 0,
            no: 0,
            refused: 0,
            memory: 0,
            size: None,
        }
    }

    fn count(&mut self, told: &Told)
        requires { HaveRoom self.old }
        ensures { self.new ≡ counted self.old told.now }
    {
        match told {
            Told::Silent => {}
            Told::Reply { bytes: _, kind } => self.count_kind(*kind),
            Told::Memory => {
                self.lines += 1;
                self.memory += 1;
                self.size = None;
            }
        }
    }

    fn count_kind(&mut self, kind: ReplyKind)
        requires { HaveRoom self.old }
        ensures { self.new ≡ with_kind self.old kind }
    {
        self.lines += 1;
        self.size = None;
        match kind {
            ReplyKind::Accepted => self.ok += 1,
            ReplyKind::Yes => self.yes += 1,
            ReplyKind::No => self.no += 1,
            ReplyKind::Refused => self.refused += 1,
            ReplyKind::Size(n) => self.size = Some(n),
            ReplyKind::Other => {}
        }
    }

    // The status of a script with these replies.
    fn status(&self) -> Status
        ensures { result ≡ (if nat_lt 0 self.now.memory then Status.SomeMemory else (if nat_lt 0 self.now.refused then Status.SomeRefused else Status.Clean)) }
    {
        if self.memory > 0 {
            Status::SomeMemory
        } else if self.refused > 0 {
            Status::SomeRefused
        } else {
            Status::Clean
        }
    }
}

// Its words take at most 49 bytes, and each of its eight numbers at most 20.
type Text = ArrayVec<u8, 256>;

// The line that tells of the replies.
fn summary(n: u32, counts: &Counts) -> Text
    ensures { result.items ≡ counts_text n counts.now }
{
    let mut text = ArrayVec::new();
    put(&mut text, b"demo ", u64::from(n));
    put(&mut text, b" lines ", counts.lines);
    put(&mut text, b" ok ", counts.ok);
    put(&mut text, b" yes ", counts.yes);
    put(&mut text, b" no ", counts.no);
    put(&mut text, b" refused ", counts.refused);
    put(&mut text, b" memory ", counts.memory);
    put_size(&mut text, counts.size);
    text
}

// Puts these bytes and the number at the end.
fn put(text: &mut Text, front: &[u8], n: u64)
    requires { length text.old.items + length front.now + 20 ≤ 256 }
    ensures text { text.new.items ≡ text.old.items ++ front.now ++ decimal n }
    ensures short { length text.new.items ≤ length text.old.items + length front.now + 20 }
{
    let mut digits = Buffer::new();
    let _ = text.try_extend_from_slice(front);
    let _ = text.try_extend_from_slice(digits.format(n).as_bytes());
}

// Puts the size at the end, and the end of the line.
fn put_size(text: &mut Text, size: Option<u64>)
    requires { length text.old.items + 30 ≤ 256 }
    ensures { text.new.items ≡ text.old.items ++ codes " size " ++ number_word size ++ 10 ∷ [] }
{
    match size {
        Some(n) => put(text, b" size ", n),
        None => {
            let _ = text.try_extend_from_slice(b" size *");
        }
    }
    let _ = text.try_push(b'\n');
}
