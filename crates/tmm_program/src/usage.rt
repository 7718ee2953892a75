// How the program is used.
ghost use Rattle.std.specs.Prelude.{◌≡◌, ◌≢◌, List, ℕ};
ghost use Rattle.std.specs.Io.KnownBytes.{Appends};
ghost use Rattle.tmm_io.specs.Causes.{Rose};
ghost use Rattle.tmm_program.specs.Program.{UsageEnds};

use tmm_drive::Status;
use tmm_io::Sink;

// Writes how the program is used.
pub(crate) fn tell_usage<K: Sink>(sink: &mut K) -> Status
    ensures ends { (output : List ℕ)
        × Appends (K.written sink.old) (K.written sink.new) output
        × UsageEnds output result }
    ensures write_fault { result ≡ Status.WriteFault → Rose (K.faults sink.old) (K.faults sink.new) }
    ensures sink_faults { result ≢ Status.WriteFault → K.faults sink.new ≡ K.faults sink.old }
{
    match sink.write_all(
        b"usage: tmm [demo N | suppose | agents | repairs | timeline], N from 1 to 1000\n",
    ) {
        Ok(()) => Status::Words,
        Err(_) => Status::WriteFault,
    }
}
