// One line to one reply.
ghost use Rattle.std.specs.Prelude.{◌≡◌, ◌+◌, ◌-◌, ◌^◌, ◌<◌, ℕ, List, [], false, None, MatchResult};
ghost use Rattle.tmm_grammar.specs.Reading.{edit_of, query_of};
ghost use Rattle.tmm_model.specs.declared.line.Line.{Line};
ghost use Rattle.tmm_model.specs.declared.refusal.Refusal.TheVariants.{LimitLine};
ghost use Rattle.tmm_model.specs.declared.version.Version.{Version};
ghost use Rattle.tmm_model.specs.Lines.{IsWellFormedEdit, IsWellFormedQuery, is_comment, words};
ghost use Rattle.tmm_model.specs.Replies.{Refused, Answered, Reasons, text_of};
ghost use Rattle.tmm_model.specs.Standing.{Standing};
ghost use Rattle.tmm_model.specs.Transcript.{Step};
ghost use Rattle.tmm_session.specs.Kinds.{reply_kind};
ghost use Rattle.tmm_session.specs.Sessions.{Splits, Tells, TellsLine, TellsMeaning};
ghost use Rattle.tmm_session.specs.LongLines.{Step-long};

use crate::told::{ReplyKind, Told};
use crate::why_text::WhyText;
use map_core::{Counter, MapCore};
use replies::{
    Word, reply_answer, reply_bounds, reply_check, reply_dump, reply_list, reply_no, reply_number,
    reply_ok, reply_path, reply_why,
};
use std::alloc::Global;
use tmm_drive::Lines;
use tmm_model::{
    Answer, Edit, LONGEST_LINE, Name, NoMemory, Occ, Query, QueryPoint, Refusal, Seq, Stop, Turn,
};
use tmm_script::{Misread, begins_edit, edit, first_word, query};

/// Answers the lines of a script over a map.
#[derive(Drop)]
pub struct Session<M: MapCore + Drop> {
    /// The map.
    pub core: M,
    /// How many lines were given.
    pub lines: u64,
    /// The decisions that the map counts.
    pub counter: Counter,
}

impl<M: MapCore + Drop> Session<M> {
    /// A session over a map in which nothing is pending, with no line given and no decision
    /// counted.
    pub fn make(core: M) -> Session<M>
        requires { M.pending core ≡ None }
        ensures core { result.core ≡ core }
        ensures lines { result.lines ≡ 0 }
        ensures counter { result.counter ≡ 0 }
    {
        Session {
            core,
            lines: 0,
            counter: Counter::zero(),
        }
    }

    /// Answers the next line, given without its end, and tells of which kind the reply is.
    pub fn tell(&mut self, alloc: Global, bytes: &[u8]) -> Told
        requires idle { M.pending self.old.core ≡ None }
        requires few { self.old.lines < 2 ^ 64 - 1 }
        ensures tells { TellsLine (M.list self.old.core) (self.old.lines + 1) bytes.now result (M.list self.new.core) }
        ensures number { self.new.lines ≡ self.old.lines + 1 }
        ensures idle { M.pending self.new.core ≡ None }
    {
        self.lines += 1;
        answer_line(alloc, self.lines, bytes, &mut self.core, &mut self.counter)
    }
}

impl<M: MapCore + Drop> Lines for Session<M> {
    ghost State = { Standing };

    ghost state = { λ s. M.list s.core };

    ghost number = { λ s. s.lines };

    ghost ready = { λ s. M.pending s.core ≡ None };

    ghost step = { Step };

    ghost long_lines = { Step-long };

    fn line(&mut self, alloc: Global, bytes: &[u8]) -> Turn {
        self.tell(alloc, bytes).turn()
    }
}

/// Answers the line of this number, given without its end, over a map in which nothing is pending,
/// and tells of which kind the reply is. The counter counts the decisions that the map makes.
pub fn answer_line<M: MapCore>(
    alloc: Global,
    line: u64,
    bytes: &[u8],
    core: &mut M,
    counter: &mut Counter,
) -> Told
    requires { M.pending core.old ≡ None }
    ensures tells { TellsLine (M.list core.old) line bytes.now result (M.list core.new) }
    ensures idle { M.pending core.new ≡ None }
{
    if bytes.len() > LONGEST_LINE {
        return refuse_long(alloc, line);
    }
    match first_word(bytes) {
        None => Told::Silent,
        Some((word, rest)) => answer_words(alloc, line, word, rest, core, counter),
    }
}

// Answers a line that begins with this word. What an edit says is large, so each of the two ways is
// kept apart from the other, and from the way that silent lines take.
fn answer_words<M: MapCore>(
    alloc: Global,
    line: u64,
    word: &[u8],
    rest: &[u8],
    core: &mut M,
    counter: &mut Counter,
) -> Told
    requires idle { M.pending core.old ≡ None }
    requires speaks { is_comment word.now ≡ false }
    ensures tells { (bytes : List ℕ) → Splits bytes word.now (words rest.now) → TellsLine (M.list core.old) line bytes result (M.list core.new) }
    ensures idle { M.pending core.new ≡ None }
{
    if begins_edit(word) {
        answer_edit(alloc, line, word, rest, core, counter)
    } else {
        answer_query(alloc, line, word, rest, core)
    }
}

// Makes the edit that such a line says, where its first word begins one.
#[inline(never)]
fn answer_edit<M: MapCore>(
    alloc: Global,
    line: u64,
    word: &[u8],
    rest: &[u8],
    core: &mut M,
    counter: &mut Counter,
) -> Told
    requires idle { M.pending core.old ≡ None }
    requires speaks { is_comment word.now ≡ false }
    requires no_question { query_of word.now (words rest.now) ≡ None }
    ensures tells { (bytes : List ℕ) → Splits bytes word.now (words rest.now) → TellsLine (M.list core.old) line bytes result (M.list core.new) }
    ensures idle { M.pending core.new ≡ None }
{
    match edit(core.standing().version(), word, rest) {
        Some(edit) => change(alloc, line, &edit, core, counter),
        None => refuse(alloc, line, &Refusal::Form),
    }
}

// Answers the question that such a line asks, where its first word begins no edit.
#[inline(never)]
fn answer_query<M: MapCore>(alloc: Global, line: u64, word: &[u8], rest: &[u8], core: &M) -> Told
    requires idle { M.pending core.now ≡ None }
    requires speaks { is_comment word.now ≡ false }
    requires no_edit { (version : Version) → edit_of version word.now (words rest.now) ≡ None }
    ensures tells { (bytes : List ℕ) → Splits bytes word.now (words rest.now) → TellsLine (M.list core.now) line bytes result (M.list core.now) }
{
    match query(alloc, word, rest) {
        Ok(query) => answer(alloc, line, &query, core),
        Err(Misread::Form) => refuse(alloc, line, &Refusal::Form),
        Err(Misread::Memory) => Told::Memory,
    }
}

// Refuses a line for its length.
#[inline(never)]
fn refuse_long(alloc: Global, line: u64) -> Told
    ensures { Tells line (λ reply. reply ≡ Refused LimitLine) (Unit {0}) result }
{
    refuse(alloc, line, &Refusal::LimitLine)
}

// The reply that these bytes are, where there was memory for them.
fn reply(bytes: Result<Seq<u8>, NoMemory>, kind: ReplyKind) -> Told
    ensures { MatchResult bytes (λ text. result ≡ Told.Reply text kind) (λ _. result ≡ Told.Memory) }
{
    match bytes {
        Ok(bytes) => Told::Reply { bytes, kind },
        Err(NoMemory) => Told::Memory,
    }
}

// Refuses a line.
fn refuse(alloc: Global, line: u64, refusal: &Refusal) -> Told
    ensures { Tells line (λ reply. reply ≡ Refused refusal.now) (Unit {0}) result }
{
    reply(reply_no(alloc, line, refusal), ReplyKind::Refused)
}

// Makes an edit, and keeps it once there is a reply. What an edit makes is large, so this is kept
// apart from lines that are refused.
#[inline(never)]
fn change<M: MapCore>(
    alloc: Global,
    line: u64,
    edit: &Edit,
    core: &mut M,
    counter: &mut Counter,
) -> Told
    requires idle { M.pending core.old ≡ None }
    requires well_formed { IsWellFormedEdit edit.now }
    ensures tells { TellsMeaning (M.list core.old) line (Line.Change edit.now) result (M.list core.new) }
    ensures idle { M.pending core.new ≡ None }
{
    match core.apply(alloc, edit, counter) {
        Ok(made) => match reply_ok(alloc, line, &made.changes) {
            Ok(bytes) => {
                core.commit();
                Told::Reply {
                    bytes,
                    kind: ReplyKind::Accepted,
                }
            }
            Err(NoMemory) => {
                core.rollback();
                Told::Memory
            }
        },
        Err(Stop::Refused(refusal)) => refuse(alloc, line, &refusal),
        Err(Stop::NoMemory) => Told::Memory,
    }
}

/// Answers a question about the map's list, under this line number.
pub fn answer<M: MapCore>(alloc: Global, line: u64, query: &Query, core: &M) -> Told
    requires idle { M.pending core.now ≡ None }
    requires well_formed { IsWellFormedQuery query.now }
    ensures { TellsMeaning (M.list core.now) line (Line.Question query.now) result (M.list core.now) }
{
    match query {
        Query::Bounds(p, q) => answer_bounds(alloc, line, p, q, core),
        Query::Path(p, q) => answer_path(alloc, line, p, q, core),
        Query::Ask(fact, p, q) => answer_ask(alloc, line, *fact, p, q, core),
        Query::Why(occ) => answer_why(alloc, line, occ, core),
        Query::Check => answer_check(alloc, line, core),
        Query::List => answer_list(alloc, line, core),
        Query::Dump => reply(reply_dump(alloc, line, core.standing()), ReplyKind::Other),
        Query::Size => answer_size(alloc, line, core),
        Query::Audit => answer_audit(alloc, line, core),
    }
}

fn answer_bounds<M: MapCore>(
    alloc: Global,
    line: u64,
    p: &QueryPoint,
    q: &QueryPoint,
    core: &M,
) -> Told
    requires idle { M.pending core.now ≡ None }
    requires well_formed { IsWellFormedQuery (Query.Bounds p.now q.now) }
    ensures { TellsMeaning (M.list core.now) line (Line.Question (Query.Bounds p.now q.now)) result (M.list core.now) }
{
    match core.bounds(alloc, p, q) {
        Ok((lo, hi)) => reply(reply_bounds(alloc, line, lo, hi), ReplyKind::Other),
        Err(Stop::Refused(refusal)) => refuse(alloc, line, &refusal),
        Err(Stop::NoMemory) => Told::Memory,
    }
}

fn answer_path<M: MapCore>(
    alloc: Global,
    line: u64,
    p: &QueryPoint,
    q: &QueryPoint,
    core: &M,
) -> Told
    requires idle { M.pending core.now ≡ None }
    requires well_formed { IsWellFormedQuery (Query.Path p.now q.now) }
    ensures { TellsMeaning (M.list core.now) line (Line.Question (Query.Path p.now q.now)) result (M.list core.now) }
{
    match core.path(alloc, p, q) {
        Ok((far, steps)) => reply(
            reply_path(alloc, line, far, steps.items()),
            ReplyKind::Other,
        ),
        Err(Stop::Refused(refusal)) => refuse(alloc, line, &refusal),
        Err(Stop::NoMemory) => Told::Memory,
    }
}

fn answer_ask<M: MapCore>(
    alloc: Global,
    line: u64,
    fact: Name,
    p: &QueryPoint,
    q: &QueryPoint,
    core: &M,
) -> Told
    requires idle { M.pending core.now ≡ None }
    requires well_formed { IsWellFormedQuery (Query.Ask fact p.now q.now) }
    ensures { TellsMeaning (M.list core.now) line (Line.Question (Query.Ask fact p.now q.now)) result (M.list core.now) }
{
    match core.ask(alloc, fact, p, q) {
        Ok(answer) => tell_answer(alloc, line, &answer),
        Err(Stop::Refused(refusal)) => refuse(alloc, line, &refusal),
        Err(Stop::NoMemory) => Told::Memory,
    }
}

// Tells an answer; that the points are in no order is a refusal.
fn tell_answer(alloc: Global, line: u64, answer: &Answer) -> Told
    ensures { Tells line (λ reply. reply ≡ Answered answer.now) (Unit {0}) result }
{
    reply(reply_answer(alloc, line, answer), answer_kind(answer))
}

fn answer_kind(answer: &Answer) -> ReplyKind
    ensures { result ≡ reply_kind (Answered answer.now) }
{
    match answer {
        Answer::Yes(_) => ReplyKind::Yes,
        Answer::No { .. } => ReplyKind::No,
        Answer::Unordered => ReplyKind::Refused,
    }
}

fn answer_why<M: MapCore>(alloc: Global, line: u64, occ: &Occ, core: &M) -> Told
    requires idle { M.pending core.now ≡ None }
    requires well_formed { IsWellFormedQuery (Query.Why occ.now) }
    ensures { TellsMeaning (M.list core.now) line (Line.Question (Query.Why occ.now)) result (M.list core.now) }
{
    match reply_why(alloc, line, &[]) {
        Ok(bytes) => tell_why(alloc, line, occ, core, WhyText { bytes }),
        Err(NoMemory) => Told::Memory,
    }
}

// Tells the reasons behind this first line. They may be many, so each is written as it comes.
fn tell_why<M: MapCore>(alloc: Global, line: u64, occ: &Occ, core: &M, mut text: WhyText) -> Told
    requires idle { M.pending core.now ≡ None }
    requires well_formed { IsWellFormedQuery (Query.Why occ.now) }
    requires first { text.bytes.items ≡ text_of line (Reasons []) }
    ensures { TellsMeaning (M.list core.now) line (Line.Question (Query.Why occ.now)) result (M.list core.now) }
{
    match core.why(alloc, occ, &mut text) {
        Ok(()) => Told::Reply {
            bytes: text.bytes,
            kind: ReplyKind::Other,
        },
        Err(Stop::Refused(refusal)) => refuse(alloc, line, &refusal),
        Err(Stop::NoMemory) => Told::Memory,
    }
}

fn answer_check<M: MapCore>(alloc: Global, line: u64, core: &M) -> Told
    requires idle { M.pending core.now ≡ None }
    ensures { TellsMeaning (M.list core.now) line (Line.Question Query.Check) result (M.list core.now) }
{
    match core.check(alloc) {
        Ok(reports) => reply(reply_check(alloc, line, reports.items()), ReplyKind::Other),
        Err(NoMemory) => Told::Memory,
    }
}

fn answer_list<M: MapCore>(alloc: Global, line: u64, core: &M) -> Told
    requires idle { M.pending core.now ≡ None }
    ensures { TellsMeaning (M.list core.now) line (Line.Question Query.List) result (M.list core.now) }
{
    match core.list(alloc) {
        Ok(rows) => reply(reply_list(alloc, line, rows.items()), ReplyKind::Other),
        Err(NoMemory) => Told::Memory,
    }
}

// What is kept is right, so the only answer is yes.
fn answer_audit<M: MapCore>(alloc: Global, line: u64, core: &M) -> Told
    requires idle { M.pending core.now ≡ None }
    ensures { TellsMeaning (M.list core.now) line (Line.Question Query.Audit) result (M.list core.now) }
{
    match core.audit(alloc) {
        Ok(right) => reply(
            reply_number(alloc, line, Word::Audit, u64::from(right)),
            ReplyKind::Other,
        ),
        Err(NoMemory) => Told::Memory,
    }
}

fn answer_size<M: MapCore>(alloc: Global, line: u64, core: &M) -> Told
    requires idle { M.pending core.now ≡ None }
    ensures { TellsMeaning (M.list core.now) line (Line.Question Query.Size) result (M.list core.now) }
{
    let size = core.size();
    reply(
        reply_number(alloc, line, Word::Size, size),
        ReplyKind::Size(size),
    )
}
