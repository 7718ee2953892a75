// All that the program does.
ghost use Rattle.std.specs.Prelude.{[], IfOk, ◌≡◌, ◌≢◌, ◌≤◌, List, ℕ};
ghost use Rattle.std.specs.Io.KnownBytes.{Appends, Consumes, IsAtEnd};
ghost use Rattle.tmm_io.specs.Causes.{Rose};
ghost use Rattle.tmm_program.specs.Program.{ProgramEnds, ScriptEnds, SummaryEnds};

use crate::command::{Command, command_of};
use crate::demo::demo;
use crate::sessions::{
    agents_session, plain_session, repairs_session, suppose_session, timeline_session,
};
use crate::usage::tell_usage;
use map_core::{Copies, Opens};
use std::alloc::Global;
use tmm_drive::{Lines, Status, drive};
use tmm_io::{Sink, Source};
use tmm_model::{Mode, NoMemory, Seq};

/// All that the program does, over any map that opens empty and can be copied. Without words it
/// reads a script from the source and writes a reply for each line to the sink. With the word
/// `suppose` the script may put suppositions on top of the map; with `agents` its edits are those of
/// agents that share the map; with `repairs` it may ask what mends a broken protection, and with
/// `timeline` what happens on the earliest dates. With the words `demo N` it answers a generated
/// script, and writes one line that tells of the replies; with any other words it writes how it is
/// used.
pub fn run_over<M: Opens + Copies + Drop, S: Source, K: Sink>(
    alloc: Global,
    words: &[String],
    source: &mut S,
    sink: &mut K,
) -> Status
    ensures ends { (taken output : List ℕ)
        × Consumes (S.left source.old) (S.left source.new) taken
        × Appends (K.written sink.old) (K.written sink.new) output
        × ProgramEnds words.now (IsAtEnd (S.left source.new)) taken output result }

    ensures read_fault { result ≡ Status.ReadFault → Rose (S.faults source.old) (S.faults source.new) }
    ensures write_fault { result ≡ Status.WriteFault → Rose (K.faults sink.old) (K.faults sink.new) }
    ensures source_faults { result ≢ Status.ReadFault → S.faults source.new ≡ S.faults source.old }
    ensures sink_faults { result ≢ Status.WriteFault → K.faults sink.new ≡ K.faults sink.old }
{
    match command_of(words) {
        Command::Script(None) => run_lines(alloc, plain_session::<M>(alloc), source, sink),
        Command::Script(Some(Mode::Suppose)) => {
            run_lines(alloc, suppose_session::<M>(alloc), source, sink)
        }
        Command::Script(Some(Mode::Agents)) => {
            run_lines(alloc, agents_session::<M>(alloc), source, sink)
        }
        Command::Script(Some(Mode::Repairs)) => {
            run_lines(alloc, repairs_session::<M>(alloc), source, sink)
        }
        Command::Script(Some(Mode::Timeline)) => {
            run_lines(alloc, timeline_session::<M>(alloc), source, sink)
        }
        Command::Demo(n) => run_demo::<M, K>(alloc, n, sink),
        Command::Usage => tell_usage(sink),
    }
}

// Answers the script that it reads, by what was opened for it, where there was memory for that.
fn run_lines<L: Lines + Drop, S: Source, K: Sink>(
    alloc: Global,
    opened: Result<L, NoMemory>,
    source: &mut S,
    sink: &mut K,
) -> Status
    requires number { IfOk opened (λ lines. L.number lines ≡ 0) }
    requires ready { IfOk opened L.ready }
    ensures ends { (start : L.State) → IfOk opened (λ lines. L.state lines ≡ start)
        → (taken output : List ℕ)
        × Consumes (S.left source.old) (S.left source.new) taken
        × Appends (K.written sink.old) (K.written sink.new) output
        × ScriptEnds L.step start (IsAtEnd (S.left source.new)) taken output result }
    ensures read_fault { result ≡ Status.ReadFault → Rose (S.faults source.old) (S.faults source.new) }
    ensures write_fault { result ≡ Status.WriteFault → Rose (K.faults sink.old) (K.faults sink.new) }
    ensures source_faults { result ≢ Status.ReadFault → S.faults source.new ≡ S.faults source.old }
    ensures sink_faults { result ≢ Status.WriteFault → K.faults sink.new ≡ K.faults sink.old }
{
    let (Ok(mut lines), Ok(mut buffer)) = (opened, line_buffer(alloc)) else {
        return Status::NoMemory;
    };
    drive(alloc, &mut lines, &mut buffer, source, sink)
}

// Answers a generated script over the empty map.
fn run_demo<M: Opens + Drop, K: Sink>(alloc: Global, n: u32, sink: &mut K) -> Status
    requires { n ≤ 1000 }
    ensures ends { (output : List ℕ)
        × Appends (K.written sink.old) (K.written sink.new) output
        × SummaryEnds n output result }
    ensures write_fault { result ≡ Status.WriteFault → Rose (K.faults sink.old) (K.faults sink.new) }
    ensures sink_faults { result ≢ Status.WriteFault → K.faults sink.new ≡ K.faults sink.old }
{
    let Ok(mut session) = plain_session::<M>(alloc) else {
        return Status::NoMemory;
    };
    demo(alloc, n, &mut session, sink)
}

// Room for the part of a line that `drive` keeps.
fn line_buffer(alloc: Global) -> Result<Seq<u8>, NoMemory>
    ensures empty { IfOk result (λ buffer. buffer.items ≡ []) }
    ensures room { IfOk result (λ buffer. 401 ≤ buffer.room) }
{
    let mut buffer = Seq::make(alloc);
    buffer.reserve(401)?;
    Ok(buffer)
}
