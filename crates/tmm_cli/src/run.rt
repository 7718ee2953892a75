// The top call.
ghost use Rattle.std.specs.Prelude.{◌≡◌, ◌≢◌, List, ℕ};
ghost use Rattle.std.specs.Io.KnownBytes.{Appends, Consumes, IsAtEnd};
ghost use Rattle.tmm_io.specs.Causes.{Rose};
ghost use Rattle.tmm_program.specs.Program.{ProgramEnds};

use map_engine::NetMap;
use std::alloc::Global;
use tmm_drive::Status;
use tmm_io::{Sink, Source};
use tmm_program::run_over;

/// All that the program does. Without words it reads a script from the source and writes a reply
/// for each line to the sink. With the word `suppose` the script may put suppositions on top of the
/// map; with `agents` its edits are those of agents that share the map; with `repairs` it may ask
/// what mends a broken protection, and with `timeline` what happens on the earliest dates. With the
/// words `demo N` it answers a generated script, and writes one line that tells of the replies; with
/// any other words it writes how it is used.
pub fn run<S: Source, K: Sink>(
    alloc: Global,
    words: &[String],
    source: &mut S,
    sink: &mut K,
) -> Status
    ensures ends { (taken output : List ℕ)
        × Consumes (S.left source.old) (S.left source.new) taken
        × Appends (K.written sink.old) (K.written sink.new) output
        × ProgramEnds words.now (IsAtEnd (S.left source.new)) taken output result }

    ensures read_fault { result ≡ Status.ReadFault → Rose (S.faults source.old) (S.faults source.new) }
    ensures write_fault { result ≡ Status.WriteFault → Rose (K.faults sink.old) (K.faults sink.new) }
    ensures source_faults { result ≢ Status.ReadFault → S.faults source.new ≡ S.faults source.old }
    ensures sink_faults { result ≢ Status.WriteFault → K.faults sink.new ≡ K.faults sink.old }
{
    run_over::<NetMap, S, K>(alloc, words, source, sink)
}
