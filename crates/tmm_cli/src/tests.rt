//! What no clause says: the text of whole scripts, that calls succeed, and what faults leave.
use crate::run::run;
use std::alloc::Global;
use std::process::Abort;
use std::test::Fail;
use tmm_drive::Status;
use tmm_io::{MemSink, MemSource, RepeatSource, Source, SteadySource};

/// Runs a script in pieces of this many bytes, and compares its replies and its status.
fn expect(
    rt: &impl Abort,
    alloc: Global,
    script: &[u8],
    piece: usize,
    replies: &[u8],
    status: Status,
) -> Result<(), Fail> {
    let mut source = MemSource::make(alloc, script, piece.max(1), &[])?;
    let mut sink = MemSink::make(alloc, 1 << 20, &[])?;
    let ended = run(alloc, &[], &mut source, &mut sink);
    assert_eq!(rt; sink.bytes(), replies);
    assert_eq!(rt; ended, status);
    Ok(())
}

const FIRST: &[u8] = b"point a\npoint b\ndist d a b 3 7\nbounds a b\n";

#[test]
fn scripts_come_in_pieces(rt: HostRuntime) -> Result<(), Fail> {
    for piece in [1, 8, 4096] {
        expect(
            &rt,
            rt.alloc(),
            FIRST,
            piece,
            b"1 ok\n2 ok\n3 ok\n4 bounds 3 7\n",
            Status::Clean,
        )?;
    }
    Ok(())
}

#[test]
fn paths_have_their_steps(rt: HostRuntime) -> Result<(), Fail> {
    expect(
        &rt,
        rt.alloc(),
        b"point a\npoint b\ndist d a b 3 7\npoint c\ndist e b c 2 4\npath a c\npath c a\npath a a\npath start a\npath c start\npath a q\npath q/r a\npath a d\n",
        4096,
        b"1 ok\n2 ok\n3 ok\n4 ok\n5 ok\n6 path 11\n  d hi a b 7\n  e hi b c 4\n7 path -5\n  e lo c b -2\n  d lo b a -3\n8 path 0\n9 path *\n10 path -5\n  e lo c b -2\n  d lo b a -3\n  a base a start 0\n11 no unknown q\n12 no unknown q/r\n13 no sort d\n",
        Status::SomeRefused,
    )
}

// The first cause that holds, with the word as it stands in the line.
#[test]
fn refusals_have_their_causes(rt: HostRuntime) -> Result<(), Fail> {
    expect(
        &rt,
        rt.alloc(),
        b"point a\npoint a\npoint start\npoint if\ndist d x y 0 1\ndist a x y 0 1\ndist d start.end a 0 1\ndist d a.end a 0 1\nbounds a q\nbounds a/r q\ndist d a start 0 1\ndist e d a 0 1\nbogus\n# note\n\nbounds a start\n",
        4096,
        b"1 ok\n2 no taken a\n3 no taken start\n4 no taken if\n5 no unknown x\n6 no taken a\n7 no unknown start.end\n8 no sort a.end\n9 no unknown q\n10 no unknown a/r\n11 ok\n12 no sort d\n13 no form\n16 bounds 0 0\n",
        Status::SomeRefused,
    )
}

// What mentions an erased premise is erased too, and a dump tells what stands.
#[test]
fn premises_are_erased(rt: HostRuntime) -> Result<(), Fail> {
    expect(
        &rt,
        rt.alloc(),
        b"point a\npoint b\ndist d a b 3 7\ndist e a b 4 9\nhorizon 50\ndump\nbounds a b\nerase d\nbounds a b\nerase a\ndump\nbounds start b\nerase a\nerase start\npoint a\ndist d a b 1 2\ndist f a b 1 2\nerase f\nbounds a b\nhorizon 0\nerase b\ndump\nhorizon 100001\nerase\ndump x\n",
        4096,
        b"1 ok\n2 ok\n3 ok\n4 ok\n5 ok\n6 dump 4\n  horizon 50\n  point a\n  point b\n  dist d a b 3 7\n  dist e a b 4 9\n7 bounds 4 7\n8 ok\n  erased d\n9 bounds 4 9\n10 ok\n  erased a\n  erased e\n11 dump 1\n  horizon 50\n  point b\n12 bounds 0 *\n13 no unknown a\n14 no unknown start\n15 ok\n16 ok\n17 ok\n18 ok\n  erased f\n19 bounds 1 2\n20 ok\n21 ok\n  erased b\n  erased d\n22 dump 1\n  horizon 0\n  point a\n23 no form\n24 no form\n25 no form\n",
        Status::SomeRefused,
    )
}

/// Calls of the source that fail, where it gives pieces of 8 bytes, and what is written then.
const READ_FAULTS: [(u64, &[u8]); 2] = [(1, b""), (3, b"1 ok\n2 ok\n")];

/// Calls of the sink that fail, how many bytes each keeps, and what is written then.
const WRITE_FAULTS: [(u64, usize, &[u8]); 3] = [
    (1, 0, b""),
    (3, 2, b"1 ok\n2 ok\n3 "),
    (4, 13, b"1 ok\n2 ok\n3 ok\n4 bounds 3 7\n"),
];

#[test]
fn faults_end_the_run(rt: HostRuntime) -> Result<(), Fail> {
    let alloc = rt.alloc();
    for (call, replies) in READ_FAULTS {
        let mut source = MemSource::make(alloc, FIRST, 8, &[call])?;
        let mut sink = MemSink::make(alloc, 1 << 10, &[])?;
        assert_eq!(rt; run(alloc, &[], &mut source, &mut sink), Status::ReadFault);
        assert_eq!(rt; sink.bytes(), replies);
    }
    for (call, kept, replies) in WRITE_FAULTS {
        let mut source = SteadySource::make(alloc, FIRST, 4096)?;
        let mut sink = MemSink::make(alloc, 1 << 10, &[(call, kept)])?;
        assert_eq!(rt; run(alloc, &[], &mut source, &mut sink), Status::WriteFault);
        assert_eq!(rt; sink.bytes(), replies);
    }
    Ok(())
}

/// A comment of 400 bytes with its line feed: the longest line.
const COMMENT: &[u8] =
    b"#xxxxxxxxxxxxxxxxxxxxxxxxxxxxxxxxxxxxxxxxxxxxxxxxxxxxxxxxxxxxxxxxxxxxxxxxxxxxxxxxxxxxxxxxxxxxxxxxxxxxxxxxxxxxxxxxxxxxxxxxxxxxxxxxxxxxxxxxxxxxxxxxxxxxxxxxxxxxxxxxxxxxxxxxxxxxxxxxxxxxxxxxxxxxxxxxxxxxxxxxxxxxxxxxxxxxxxxxxxxxxxxxxxxxxxxxxxxxxxxxxxxxxxxxxxxxxxxxxxxxxxxxxxxxxxxxxxxxxxxxxxxxxxxxxxxxxxxxxxxxxxxxxxxxxxxxxxxxxxxxxxxxxxxxxxxxxxxxxxxxxxxxxxxxxxxxxxxxxxxxxxxxxxxxxxxxxxxxxxxxxxxxxxxxxxxxxxxxxx\n";

/// Runs over this many bytes of comments, which have no replies, and compares the status.
fn expect_silent(rt: &impl Abort, alloc: Global, total: u64, status: Status) -> Result<(), Fail> {
    let mut source = RepeatSource::make(alloc, COMMENT, total)?;
    let mut sink = MemSink::make(alloc, 1 << 10, &[])?;
    assert_eq!(rt; run(alloc, &[], &mut source, &mut sink), status);
    assert_eq!(rt; sink.bytes(), b"".as_slice());
    Ok(())
}

#[test]
fn the_longest_input_is_read(rt: HostRuntime) -> Result<(), Fail> {
    expect_silent(&rt, rt.alloc(), 1 << 30, Status::Clean)
}

#[test]
fn a_longer_input_is_told(rt: HostRuntime) -> Result<(), Fail> {
    expect_silent(&rt, rt.alloc(), (1 << 30) + 1, Status::TooLong)
}

/// Runs with these words, and compares what is written and the status. The source keeps its bytes.
fn expect_with(
    rt: &impl Abort,
    alloc: Global,
    words: &[&str],
    line: &[u8],
    status: Status,
) -> Result<(), Fail> {
    let mut given = Vec::new(alloc);
    for word in words {
        given.push(String::from_str(alloc, word)?)?;
    }
    let mut source = SteadySource::make(alloc, FIRST, 4096)?;
    let mut sink = MemSink::make(alloc, 1 << 12, &[])?;
    let ended = run(alloc, given.as_slice(), &mut source, &mut sink);
    assert_eq!(rt; sink.bytes(), line);
    assert_eq!(rt; ended, status);
    let mut piece = [0u8; 8];
    let count = source.read(&mut piece)?;
    assert_eq!(rt; &piece[..count], b"point a\n".as_slice());
    Ok(())
}

#[test]
fn other_words_get_the_usage_line(rt: HostRuntime) -> Result<(), Fail> {
    let alloc = rt.alloc();
    let wrong: [&[&str]; 10] = [
        &["x"],
        &["demo"],
        &["demo", "0"],
        &["demo", "01"],
        &["demo", "1001"],
        &["demo", "-1"],
        &["demo", ""],
        &["demo", "1", "1"],
        &["suppose", "suppose"],
        &["timeline", "suppose"],
    ];
    for words in wrong {
        expect_with(
            &rt,
            alloc,
            words,
            b"usage: tmm [demo N | suppose | agents | repairs | timeline], N from 1 to 1000\n",
            Status::Words,
        )?;
    }
    Ok(())
}

#[test]
fn generated_scripts_are_summarized(rt: HostRuntime) -> Result<(), Fail> {
    let alloc = rt.alloc();
    let lines: [(&str, &[u8]); 3] = [
        (
            "1",
            b"demo 1 lines 12 ok 10 yes 1 no 0 refused 0 memory 0 size 12\n",
        ),
        (
            "2",
            b"demo 2 lines 15 ok 12 yes 2 no 0 refused 0 memory 0 size 23\n",
        ),
        (
            "60",
            b"demo 60 lines 189 ok 128 yes 60 no 0 refused 0 memory 0 size 661\n",
        ),
    ];
    for (n, line) in lines {
        expect_with(&rt, alloc, &["demo", n], line, Status::Clean)?;
    }
    Ok(())
}

/// Scripts with suppositions, and their replies.
const SUPPOSED: [(&[u8], &[u8]); 2] = [
    // one that is given up, and one that is kept
    (
        b"point a\npoint b\ndist d a b 3 7\nsuppose\ndist f a b 5 5\nbounds a b\ndrop\nbounds a b\nsuppose\ndist f a b 2 5\nkeep\nbounds a b\ndrop\n",
        b"1 ok\n2 ok\n3 ok\n4 ok\n5 ok\n6 bounds 5 5\n7 ok\n8 bounds 3 7\n9 ok\n10 ok\n11 ok\n12 bounds 3 5\n13 no suppose\n",
    ),
    // as many as may stand, and one more
    (
        b"suppose\nsuppose\nsuppose\nsuppose\nsuppose\nsuppose\nsuppose\nsuppose\nsuppose\n",
        b"1 ok\n2 ok\n3 ok\n4 ok\n5 ok\n6 ok\n7 ok\n8 ok\n9 no limit suppose\n",
    ),
];

#[test]
fn suppositions_are_kept_or_given_up(rt: HostRuntime) -> Result<(), Fail> {
    let alloc = rt.alloc();
    let words = [String::from_str(alloc, "suppose")?];
    for (script, replies) in SUPPOSED {
        let mut source = MemSource::make(alloc, script, 4096, &[])?;
        let mut sink = MemSink::make(alloc, 1 << 10, &[])?;
        assert_eq!(rt;
            run(alloc, &words, &mut source, &mut sink),
            Status::SomeRefused
        );
        assert_eq!(rt; sink.bytes(), replies);
    }
    Ok(())
}

/// Scripts that ask for repairs, their replies and their statuses.
const REPAIRED: [(&[u8], &[u8], Status); 2] = [
    // what is taken from a premise
    (
        b"class door open shut\ntoken k open\ndist z start k 0 0\npoint p\ndist y start p 8 8\nprotect g open k p\ntoken m shut\ndist x start m 5 5\nrepairs g\n",
        b"1 ok\n2 ok\n3 ok\n4 ok\n5 ok\n6 ok\n7 ok\n8 ok\n  clip k by m\n  broken g\n    k clipped m\n9 repairs 6\n  erase y\n  loosen y lo\n  erase m\n  erase x\n  loosen x lo\n  loosen x hi\n",
        Status::Clean,
    ),
    // a constraint that is added, and a name that is that of no protection
    (
        b"class door open shut\ntoken k open\npoint p\ndist y start p 8 8\nprotect g open p p\nrepairs g\nrepairs y\n",
        b"1 ok\n2 ok\n3 ok\n4 ok\n5 ok\n  broken g\n    k late\n6 repairs 1\n  add k p 0 *\n7 no sort y\n",
        Status::SomeRefused,
    ),
];

#[test]
fn repairs_are_told(rt: HostRuntime) -> Result<(), Fail> {
    let alloc = rt.alloc();
    let words = [String::from_str(alloc, "repairs")?];
    for (script, replies, status) in REPAIRED {
        let mut source = MemSource::make(alloc, script, 4096, &[])?;
        let mut sink = MemSink::make(alloc, 1 << 10, &[])?;
        assert_eq!(rt; run(alloc, &words, &mut source, &mut sink), status);
        assert_eq!(rt; sink.bytes(), replies);
    }
    Ok(())
}

/// Scripts that ask for their timeline, and their replies.
const PLAYED: [(&[u8], &[u8]); 3] = [
    // each occurrence on its date, and a persistence until what contradicts it
    (
        b"class door open shut\nkind push\nrule r push 1 2 shut if open\ntoken k open\ndist z start k 0 0\nevent e push\ndist x start e 10 10\ntimeline\n",
        b"1 ok\n2 ok\n3 ok\n4 ok\n5 ok\n6 ok\n  in e/r\n  clip k by e/r\n7 ok\n8 timeline 2 3\n  at k 0\n  at e 10\n  0 k open 11\n  10 e push\n  11 e/r shut *\n",
    ),
    // an effect that is played, and not believed
    (
        b"class door open shut\nkind push\nrule r push 1 3 shut if open\ntoken k open\nevent e push\nlist\ntimeline\n",
        b"1 ok\n2 ok\n3 ok\n4 ok\n5 ok\n6 list 2\n  0 e push\n  0 k open\n7 timeline 2 3\n  at k 0\n  at e 0\n  0 e push\n  0 k open 1\n  1 e/r shut *\n",
    ),
    // a span holds until its end; what is dated after the horizon brings nothing about
    (
        b"tmm 2\nhorizon 5\nclass door open shut\nkind push\nspan s open\ndist d start s 2 2\ndist l s s.end 3 3\nevent e push\ndist f start e 6 6\nrule r push 1 1 shut\npoint p\n timeline \n",
        b"1 ok\n2 ok\n3 ok\n4 ok\n5 ok\n6 ok\n7 ok\n8 ok\n9 ok\n10 ok\n11 ok\n12 timeline 4 2\n  at s 2\n  at s.end 5\n  at e 6\n  at p 0\n  2 s open 5\n  6 e push\n",
    ),
];

#[test]
fn timelines_are_played(rt: HostRuntime) -> Result<(), Fail> {
    let alloc = rt.alloc();
    let words = [String::from_str(alloc, "timeline")?];
    for (script, replies) in PLAYED {
        let mut source = MemSource::make(alloc, script, 4096, &[])?;
        let mut sink = MemSink::make(alloc, 1 << 10, &[])?;
        assert_eq!(rt; run(alloc, &words, &mut source, &mut sink), Status::Clean);
        assert_eq!(rt; sink.bytes(), replies);
    }
    Ok(())
}

#[test]
fn agents_commit_all_that_they_hold_or_none_of_it(rt: HostRuntime) -> Result<(), Fail> {
    let alloc = rt.alloc();
    let words = [String::from_str(alloc, "agents")?];
    let mut source = MemSource::make(alloc, SHARED, 4096, &[])?;
    let mut sink = MemSink::make(alloc, 1 << 10, &[])?;
    assert_eq!(rt;
        run(alloc, &words, &mut source, &mut sink),
        Status::SomeRefused
    );
    assert_eq!(rt; sink.bytes(), SHARED_REPLIES);
    Ok(())
}

/// A script of two agents: a batch with a word that is not declared yet, one that is taken, one
/// that closes a cycle, and lines without an agent.
const SHARED: &[u8] =
    b"@p point a\n@q point b\n@p dist d a b 3 7\n@p commit\n@q commit\n@p point a\n@p dist d a b 3 7\n@p commit\n@q dist e b a 0 *\n@q commit\nbounds a b\npoint c\n";

/// Its replies.
const SHARED_REPLIES: &[u8] =
    b"1 held 1\n2 held 1\n3 held 2\n4 no batch 3\n  unknown b\n5 ok 1\n  line 2\n6 held 1\n7 held 2\n8 ok 2\n  line 6\n  line 7\n9 held 1\n10 no batch 9\n  cycle -3\n    e lo a b 0\n    d lo b a -3\n11 bounds 3 7\n12 no agent\n";

#[test]
fn a_summary_may_break_off(rt: HostRuntime) -> Result<(), Fail> {
    let alloc = rt.alloc();
    let words = [
        String::from_str(alloc, "demo")?,
        String::from_str(alloc, "1")?,
    ];
    let mut source = SteadySource::make(alloc, FIRST, 4096)?;
    let mut sink = MemSink::make(alloc, 1 << 12, &[(1, 6)])?;
    assert_eq!(rt;
        run(alloc, &words, &mut source, &mut sink),
        Status::WriteFault
    );
    assert_eq!(rt; sink.bytes(), b"demo 1".as_slice());
    Ok(())
}

/// Scripts of facts, events and rules, with their replies and their statuses.
const ROWS: &[(&[u8], &[u8], Status)] = &[
    // no line at all
    (b"", b"", Status::Clean),
    // a line without its end
    (b"  point   a\r", b"1 ok\n", Status::Clean),
    // bounds, and a constraint that closes a cycle
    (
        b"point a\npoint b\ndist d a b 3 7\nbounds a b\npoint c\ndist e b c 2 4\nbounds a c\nbounds start a\ndist x c a 0 *\nbounds a c",
        b"1 ok\n2 ok\n3 ok\n4 bounds 3 7\n5 ok\n6 ok\n7 bounds 5 11\n8 bounds 0 *\n9 no cycle -5\n  x lo a c 0\n  e lo c b -2\n  d lo b a -3\n10 bounds 5 11\n",
        Status::SomeRefused,
    ),
    // a constraint of a point with itself
    (
        b"point a\ndist d a a 1 2\ndist e a a 0 5\n",
        b"1 ok\n2 no cycle -1\n  d lo a a -1\n3 ok\n",
        Status::SomeRefused,
    ),
    // all that is kept, and its check
    (
        b"class door open shut\ntoken k open\ntoken m shut\ndist d k m 5 5\ndump\naudit\nsize\naudit x\n",
        b"1 ok\n2 ok\n3 ok\n4 ok\n  clip k by m\n5 dump 4\n  horizon 1000\n  class door open shut\n  token k open\n  token m shut\n  dist d k m 5 5\n6 audit yes\n7 size 2\n8 no form\n",
        Status::SomeRefused,
    ),
    // a premise that others hang on
    (
        b"point a\npoint b\ndist d a b 3 7\nbounds a b\npoint c\ndist w c b 0 0\nerase a\nbounds c b\n",
        b"1 ok\n2 ok\n3 ok\n4 bounds 3 7\n5 ok\n6 ok\n7 ok\n  erased a\n  erased d\n8 bounds 0 0\n",
        Status::Clean,
    ),
    // a bound that another gives again
    (
        b"point a\npoint b\ndist d a b 3 7\nbounds a b\ndist f a b 2 5\nbounds a b\nerase f\nbounds a b\n",
        b"1 ok\n2 ok\n3 ok\n4 bounds 3 7\n5 ok\n6 bounds 3 5\n7 ok\n  erased f\n8 bounds 3 7\n",
        Status::Clean,
    ),
    // a door and a shutter
    (
        b"class door open shut\ntoken k open\ntoken m shut\ndist d k m 5 5\nask open k k\nask open k m\nask shut m m\n",
        b"1 ok\n2 ok\n3 ok\n4 ok\n  clip k by m\n5 yes k\n6 no\n  k clipped m\n7 yes m\n",
        Status::Clean,
    ),
    // a tie
    (
        b"class door open shut\ntoken k open\ntoken m shut\ndist d k m 0 0\nask open k k\nask open k m\nask shut m m\n",
        b"1 ok\n2 ok\n3 ok\n4 ok\n5 yes k\n6 yes k\n7 yes m\n",
        Status::Clean,
    ),
    // an unknown order
    (
        b"class door open shut\ntoken k open\ntoken m shut\nask open k k\nask open k m\nask shut m m\n",
        b"1 ok\n2 ok\n3 ok\n4 yes k\n5 no unordered\n6 yes m\n",
        Status::SomeRefused,
    ),
    // a span that ends
    (
        b"class w on off\nspan s on\ndist a start s 0 0\ndist b s s.end 5 5\npoint p\ndist c start p 5 5\nask on s p\nask on s s\n",
        b"1 ok\n2 ok\n3 ok\n4 ok\n5 ok\n6 ok\n7 no\n  s ends\n8 yes s\n",
        Status::Clean,
    ),
    // blames that are cut
    (
        b"class c f g\ntoken t0 f\ntoken t1 f\ntoken t2 f\ntoken t3 f\ntoken t4 f\ntoken t5 f\ntoken t6 f\ntoken t7 f\ntoken t8 f\ntoken t9 f\nask f start start\n",
        b"1 ok\n2 ok\n3 ok\n4 ok\n5 ok\n6 ok\n7 ok\n8 ok\n9 ok\n10 ok\n11 ok\n12 no\n  t0 late\n  t1 late\n  t2 late\n  t3 late\n  t4 late\n  t5 late\n  t6 late\n  t7 late\n  and 2 more\n",
        Status::Clean,
    ),
    // sorts and unknown names
    (
        b"class c f g\nkind f\ntoken f h\ntoken t h\ntoken t c\nclass d g2 g2\nerase f\ndist d f x 0 1\nbounds start e/r\nwhy c\nask f start t\n",
        b"1 ok\n2 no taken f\n3 no taken f\n4 no unknown h\n5 no sort c\n6 no taken g2\n7 no sort f\n8 no sort f\n9 no unknown e/r\n10 no sort c\n11 no unknown t\n",
        Status::SomeRefused,
    ),
    // protections
    (
        b"class door open shut\ntoken k open\ndist z start k 0 0\npoint p\ndist y start p 8 8\nprotect g open k p\ntoken m shut\ndist x start m 5 5\ncheck\nerase x\ndist x start m 9 9\ncheck\n",
        b"1 ok\n2 ok\n3 ok\n4 ok\n5 ok\n6 ok\n7 ok\n8 ok\n  clip k by m\n  broken g\n    k clipped m\n9 check 1\n  broken g\n    k clipped m\n10 ok\n  erased x\n  loose k\n  mended g\n11 ok\n  clip k by m\n12 check 0\n",
        Status::Clean,
    ),
    // an order that is lost
    (
        b"class door open shut\ntoken k open\ndist z start k 0 0\npoint p\ndist y start p 8 8\nprotect g open k p\ntoken m shut\ndist x start m 5 5\ncheck\nerase z\ncheck\n",
        b"1 ok\n2 ok\n3 ok\n4 ok\n5 ok\n6 ok\n7 ok\n8 ok\n  clip k by m\n  broken g\n    k clipped m\n9 check 1\n  broken g\n    k clipped m\n10 ok\n  erased z\n  loose k\n11 check 1\n  broken g unordered\n",
        Status::Clean,
    ),
    // events of unknown order
    (
        b"class a a1 a2\nclass b b1 b2\nkind t\nkind u\ntoken p a1\ndist pz start p 0 0\ntoken q b1\ndist qz start q 0 0\nrule r t 1 1 b2 if a1\nrule s u 1 1 a2 if b1\nevent e t\nevent f u\nask b2 e/r e/r\nask a2 f/s f/s\n",
        b"1 ok\n2 ok\n3 ok\n4 ok\n5 ok\n6 ok\n7 ok\n8 ok\n9 ok\n10 ok\n11 ok\n  in e/r\n  clip q by e/r\n12 ok\n  in f/s\n  clip p by f/s\n13 yes e/r\n14 yes f/s\n",
        Status::Clean,
    ),
    // an effect, and a rule that is gone
    (
        b"class door open shut\nkind push\nrule r push 1 2 shut if open\ntoken k open\ndist z start k 0 0\nevent e push\ndist x start e 10 10\nbounds e e/r\nerase r\n",
        b"1 ok\n2 ok\n3 ok\n4 ok\n5 ok\n6 ok\n  in e/r\n  clip k by e/r\n7 ok\n8 bounds 1 2\n9 ok\n  erased r\n  out e/r\n  loose k\n",
        Status::Clean,
    ),
    // the reasons of an effect
    (
        b"class door open shut\nkind push\nrule r push 1 2 shut if open\ntoken k open\ndist z start k 0 0\nevent e push\ndist x start e 10 10\nwhy e/r\nerase r\nwhy e/r\n",
        b"1 ok\n2 ok\n3 ok\n4 ok\n5 ok\n6 ok\n  in e/r\n  clip k by e/r\n7 ok\n8 why\n  premise k\n  premise e\n  order k e -10\n    x lo e start -10\n    z hi start k 0\n  e/r by r on e with k\n9 ok\n  erased r\n  out e/r\n  loose k\n10 no unknown e/r\n",
        Status::SomeRefused,
    ),
    // siblings
    (
        b"class door open shut\nkind push\nrule r push 1 2 shut if open\ntoken k open\ndist z start k 0 0\nevent e push\ndist x start e 10 10\nbounds e e/r\nrule q push 4 6 open\nbounds e/r e/q\n",
        b"1 ok\n2 ok\n3 ok\n4 ok\n5 ok\n6 ok\n  in e/r\n  clip k by e/r\n7 ok\n8 bounds 1 2\n9 ok\n  in e/q\n  clip e/r by e/q\n10 bounds 2 5\n",
        Status::Clean,
    ),
    // a rule that is blocked
    (
        b"class door open shut\nclass lamp dark lit\nkind push\nrule r push 1 1 lit if open\ntoken k open\ndist z start k 0 0\ntoken n dark\ndist y start n 0 0\ntoken m shut\ndist x start m 5 5\nevent e push\ndist w start e 10 10\nerase m\ntoken m shut\ndist x start m 5 5\nlist\n",
        b"1 ok\n2 ok\n3 ok\n4 ok\n5 ok\n6 ok\n7 ok\n8 ok\n9 ok\n10 ok\n  clip k by m\n11 ok\n  in e/r\n  clip n by e/r\n12 ok\n  out e/r\n  loose n\n13 ok\n  erased m\n  erased x\n  in e/r\n  loose k\n  clip n by e/r\n14 ok\n15 ok\n  out e/r\n  loose n\n  clip k by m\n16 list 4\n  0 k open clip m\n  0 n dark\n  5 m shut\n  10 e push\n",
        Status::Clean,
    ),
    // a horizon
    (
        b"kind t\nevent e t\ndist z start e 0 0\nhorizon 35\nrule r t 10 10 t\nhorizon 20\nsize\n",
        b"1 ok\n2 ok\n3 ok\n4 ok\n5 ok\n  in e/r\n  in e/r/r\n  in e/r/r/r\n6 ok\n  out e/r/r/r\n7 size 9\n",
        Status::Clean,
    ),
    // facts of two classes that contradict each other as long as a premise says so
    (
        b"tmm 2\nclass door open shut\nclass alarm calm ringing\ntoken k open\ndist z start k 0 0\ntoken n ringing\ndist y start n 4 4\npoint p\ndist x start p 6 6\nprotect g open k p\nagainst a open ringing\nask open k p\nerase a\nagainst a open open\nagainst a open door\n",
        b"1 ok\n2 ok\n3 ok\n4 ok\n5 ok\n6 ok\n7 ok\n8 ok\n9 ok\n10 ok\n11 ok\n  clip k by n\n  broken g\n    k clipped n\n12 no\n  k clipped n\n13 ok\n  erased a\n  loose k\n  mended g\n14 no form\n15 no sort door\n",
        Status::SomeRefused,
    ),
    // a rule that such a fact blocks
    (
        b"tmm 2\nclass door open shut\nclass alarm calm ringing\nkind push\nrule r push 1 1 shut if open\ntoken k open\ndist z start k 0 0\ntoken n ringing\ndist y start n 4 4\nevent e push\ndist x start e 10 10\nagainst a open ringing\nlist\nerase y\ndist y start n 12 12\nerase alarm\naudit\n",
        b"1 ok\n2 ok\n3 ok\n4 ok\n5 ok\n6 ok\n7 ok\n8 ok\n9 ok\n10 ok\n  in e/r\n  clip k by e/r\n11 ok\n12 ok\n  out e/r\n  clip k by n\n13 list 3\n  0 k open clip n\n  4 n ringing\n  10 e push\n14 ok\n  erased y\n  in e/r\n  clip k by e/r\n15 ok\n16 ok\n  erased alarm\n  erased n\n  erased a\n  erased y\n17 audit yes\n",
        Status::Clean,
    ),
];

#[test]
fn rows_are_answered(rt: HostRuntime) -> Result<(), Fail> {
    for (script, replies, status) in ROWS {
        expect(&rt, rt.alloc(), script, 4096, replies, *status)?;
    }
    Ok(())
}
