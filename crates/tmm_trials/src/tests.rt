//! Decisions that are counted, a long history, and scripts that both maps answer.
ghost use Rattle.std.specs.Prelude.{[], ◌≡◌, ◌≤◌, IfOk};

use map_engine::NetMap;
use plain_map::PlainMap;
use std::alloc::{AllocError, Global};
use std::fmt::Write;
use std::process::Abort;
use std::test::Fail;
use tmm_drive::{Status, drive};
use tmm_io::{MemSink, MemSource};
use tmm_model::{NoMemory, Seq};
use tmm_session::Session;

/// Room for the part of a line that is kept.
fn line_buffer(alloc: Global) -> Result<Seq<u8>, NoMemory>
    ensures empty { IfOk result (λ buffer. buffer.items ≡ []) }
    ensures room { IfOk result (λ buffer. 401 ≤ buffer.room) }
{
    let mut buffer = Seq::make(alloc);
    buffer.reserve(401)?;
    Ok(buffer)
}

/// Answers a script over the map of the program, and tells how that ended and how many decisions
/// the map made.
fn answered(
    alloc: Global,
    buffer: &mut Seq<u8>,
    source: &mut MemSource,
    sink: &mut MemSink,
) -> Result<(Status, u64), NoMemory>
    requires empty { buffer.old.items ≡ [] }
    requires room { 401 ≤ buffer.old.room }
{
    let mut session = Session::make(NetMap::make(alloc)?);
    let status = drive(alloc, &mut session, buffer, source, sink);
    Ok((status, session.counter.value()))
}

/// How many decisions the map of the program makes for a script, whose replies end so.
fn decisions(rt: &impl Abort, alloc: Global, script: &[u8], end: &[u8]) -> Result<u64, Fail> {
    let mut buffer = line_buffer(alloc)?;
    let mut source = MemSource::make(alloc, script, 4096, &[])?;
    let mut sink = MemSink::make(alloc, 1 << 20, &[])?;
    let (status, made) = answered(alloc, &mut buffer, &mut source, &mut sink)?;
    assert_eq!(rt; status, Status::Clean);
    assert!(rt; sink.bytes().ends_with(end));
    Ok(made)
}

/// An event that a rule repeats every ten units, three times up to the horizon.
const REPEATED: &[u8] = b"kind t\nevent e t\ndist z start e 0 0\nhorizon 35\nrule r t 10 10 t\n";

/// The same, and then a nearer horizon.
const CUT_SHORT: &[u8] =
    b"kind t\nevent e t\ndist z start e 0 0\nhorizon 35\nrule r t 10 10 t\nhorizon 20\n";

#[test]
fn an_edit_decides_what_it_touches(rt: HostRuntime) -> Result<(), Fail> {
    let alloc = rt.alloc();
    let made = decisions(&rt, alloc, REPEATED, b"  in e/r/r/r\n")?;
    assert_eq!(rt; made, 4);
    let made = decisions(&rt, alloc, CUT_SHORT, b"6 ok\n  out e/r/r/r\n")?;
    assert!(rt; (5..=7).contains(&made));
    Ok(())
}

/// How many edits of a still map come after its building.
const STILL_EDITS: u32 = 2000;

/// The script of a map near the greatest size: 80 tokens that begin at one date and 100 events at
/// another, with 300 rules of which each fires at each event. Then, so many times, a point comes or
/// goes of which nothing is said.
fn still_script(alloc: Global, edits: u32) -> Result<String, AllocError> {
    let mut script = String::new(alloc);
    script.push_str("class c f g\nkind t\nkind u\n")?;
    for j in 0..80 {
        writeln!(script, "token k{j} f")?;
    }
    for j in 0..80 {
        writeln!(script, "dist a{j} start k{j} 0 0")?;
    }
    for j in 0..100 {
        writeln!(script, "event e{j} t")?;
    }
    for j in 0..100 {
        writeln!(script, "dist b{j} start e{j} 10 10")?;
    }
    for i in 0..300 {
        writeln!(script, "rule r{i} t 1 1 u if f")?;
    }
    for i in 0..edits {
        script.push_str(if i % 2 == 0 { "point x\n" } else { "erase x\n" })?;
    }
    script.push_str("size\n")?;
    Ok(script)
}

#[test]
fn a_still_map_decides_nothing(rt: HostRuntime) -> Result<(), Fail> {
    let alloc = rt.alloc();
    let map = still_script(alloc, 0)?;
    let built = decisions(&rt, alloc, map.as_bytes(), b"664 size 90180\n")?;
    let whole = still_script(alloc, STILL_EDITS)?;
    let made = decisions(&rt, alloc, whole.as_bytes(), b"2664 size 90180\n")?;
    assert_eq!(rt; made, built);
    Ok(())
}

/// Edits that leave beliefs as they are, and among them some that do not: points and constraints
/// that come and go beside a door that a push shuts, protections that they break and mend, roots
/// that they move, a horizon, a token that is erased, and edits that are refused.
const STILL: [&[u8]; 2] = [
    b"class door open shut\nkind push\nrule shuts push 1 2 shut if open\ntoken held open\nevent e push\npoint x\ndist d held e 5 10\nprotect p open held e\npoint y\ndist m x y 3 4\nprotect q open held x\ndist n held x 2 3\ncheck\nbounds held y\nerase n\ncheck\ndist s start held 1 1\nlist\nhorizon 0\nlist\nhorizon 1000\nerase x\naudit\nwhy e/shuts\ndump\n",
    b"class c f g\nkind k\ntoken t f\nspan s f\npoint a\ndist d t a 2 2\nprotect p f t a\ntoken u g\ndist v t u 1 1\ndist w a start * -9\nerase v\ndist w t s 5 5\ndist z t a 3 3\ndist o s.end a 0 0\ndist o a s.end 9 9\nerase o\nerase d\nerase d\nerase u\nerase p\nrule r k 1 1 g if f\nevent e k\nerase a\ncheck\nlist\nsize\naudit\n",
];

/// Scripts of facts, events and rules.
const BELIEFS: [&[u8]; 8] = [
    // sorts and unknown names
    b"class c f g\nkind f\ntoken f h\ntoken t h\ntoken t c\nclass d g2 g2\nerase f\ndist d f x 0 1\nbounds start e/r\nwhy c\nask f start t\n",
    // protections
    b"class door open shut\ntoken k open\ndist z start k 0 0\npoint p\ndist y start p 8 8\nprotect g open k p\ntoken m shut\ndist x start m 5 5\ncheck\nerase x\ndist x start m 9 9\ncheck\n",
    // an order that is lost
    b"class door open shut\ntoken k open\ndist z start k 0 0\npoint p\ndist y start p 8 8\nprotect g open k p\ntoken m shut\ndist x start m 5 5\ncheck\nerase z\ncheck\n",
    // siblings
    b"class door open shut\nkind push\nrule r push 1 2 shut if open\ntoken k open\ndist z start k 0 0\nevent e push\ndist x start e 10 10\nbounds e e/r\nrule q push 4 6 open\nbounds e/r e/q\n",
    // a rule that is blocked
    b"class door open shut\nclass lamp dark lit\nkind push\nrule r push 1 1 lit if open\ntoken k open\ndist z start k 0 0\ntoken n dark\ndist y start n 0 0\ntoken m shut\ndist x start m 5 5\nevent e push\ndist w start e 10 10\nerase m\ntoken m shut\ndist x start m 5 5\nlist\n",
    // a horizon
    b"kind t\nevent e t\ndist z start e 0 0\nhorizon 35\nrule r t 10 10 t\nhorizon 20\nsize\n",
    // facts of two classes that contradict each other as long as a premise says so
    b"tmm 2\nclass door open shut\nclass alarm calm ringing\ntoken k open\ndist z start k 0 0\ntoken n ringing\ndist y start n 4 4\npoint p\ndist x start p 6 6\nprotect g open k p\nagainst a open ringing\nask open k p\nerase a\nagainst a open open\nagainst a open door\n",
    // a rule that such a fact blocks
    b"tmm 2\nclass door open shut\nclass alarm calm ringing\nkind push\nrule r push 1 1 shut if open\ntoken k open\ndist z start k 0 0\ntoken n ringing\ndist y start n 4 4\nevent e push\ndist x start e 10 10\nagainst a open ringing\nlist\nerase y\ndist y start n 12 12\nerase alarm\naudit\n",
];

/// Answers a script over the plain map, and tells how that ended.
fn answered_plainly(
    alloc: Global,
    buffer: &mut Seq<u8>,
    source: &mut MemSource,
    sink: &mut MemSink,
) -> Result<Status, NoMemory>
    requires empty { buffer.old.items ≡ [] }
    requires room { 401 ≤ buffer.old.room }
{
    let mut session = Session::make(PlainMap::make(alloc)?);
    Ok(drive(alloc, &mut session, buffer, source, sink))
}

/// Answers a script over the plain map, with a sink that keeps its replies.
fn run_plain(alloc: Global, script: &[u8], sink: &mut MemSink) -> Result<Status, Fail> {
    let mut buffer = line_buffer(alloc)?;
    let mut source = MemSource::make(alloc, script, 4096, &[])?;
    let status = answered_plainly(alloc, &mut buffer, &mut source, sink)?;
    Ok(status)
}

/// The map of the program answers a script as the plain map does.
fn expect_alike(rt: &impl Abort, alloc: Global, script: &[u8]) -> Result<(), Fail> {
    let mut plain = MemSink::make(alloc, 1 << 12, &[])?;
    let status = run_plain(alloc, script, &mut plain)?;
    let mut buffer = line_buffer(alloc)?;
    let mut source = MemSource::make(alloc, script, 4096, &[])?;
    let mut sink = MemSink::make(alloc, 1 << 12, &[])?;
    let (ended, _) = answered(alloc, &mut buffer, &mut source, &mut sink)?;
    assert_eq!(rt; ended, status);
    assert_eq!(rt; sink.bytes(), plain.bytes());
    Ok(())
}

#[test]
fn both_maps_answer_alike(rt: HostRuntime) -> Result<(), Fail> {
    for script in STILL {
        expect_alike(&rt, rt.alloc(), script)?;
    }
    for script in BELIEFS {
        expect_alike(&rt, rt.alloc(), script)?;
    }
    Ok(())
}
