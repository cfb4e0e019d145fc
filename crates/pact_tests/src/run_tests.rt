ghost use Rattle.std.specs.Prelude.{◌<◌};

use crate::calls::{NotingFeed, Outcome, add_file, answer, call, fail_at, sink};
use pact_outside::{FailList, MemFeed, MemFiles, MemSink};
use pact_record::{Bytes, OutOfMemory};
use pact_top::{pact_alone, pact_main};
use std::alloc::Global;
use std::sync::Wait;
use std::test::Fail;
use std::thread::Threads;
use worker_gate::MeetGate;

const MATCH: &str = "pact 1
fields 8
source l l.csv int:0 text:1 int:2
source r r.csv int:3 text:4 int:5
function both match
  r0 = copy join
  emit r0
end
match m both l r by 0 1 = 3 4
sink m 2 5
";

// A file takes two reads: one for its bytes, and one that finds its end. No file is opened after a refused program or
// row, and no source's file for `sets`. The same holds with threads, of which there are four unless the words ask for
// another number.
#[test]
fn files_are_read_once_in_order(rt: HostRuntime) -> Result<(), Fail> {
    let alloc = rt.alloc();
    let no_sink = "pact 1\nfields 1\nsource l l.csv int:0\n";
    for (on_threads, command, program, left, calls) in [
        (
            false,
            "run",
            MATCH,
            "1,a,10\n",
            "\np.pact..\nl.csv..\nr.csv..",
        ),
        (false, "run", MATCH, "1,a\n", "\np.pact..\nl.csv.."),
        (false, "run", no_sink, "1\n", "\np.pact.."),
        (false, "sets", MATCH, "1,a,10\n", "\np.pact.."),
        (
            true,
            "run",
            MATCH,
            "1,a,10\n",
            "\np.pact..\nl.csv..\nr.csv..",
        ),
        (true, "run", MATCH, "1,a\n", "\np.pact..\nl.csv.."),
        (true, "sets", MATCH, "1,a,10\n", "\np.pact.."),
    ] {
        let mut files = MemFiles::new(alloc);
        add_file(alloc, &mut files, "p.pact", program.as_bytes())?;
        add_file(alloc, &mut files, "l.csv", left.as_bytes())?;
        add_file(alloc, &mut files, "r.csv", b"1,a,20\n")?;
        let mut feed = NotingFeed {
            feed: MemFeed::new(files, 65536, FailList::new(alloc)),
            calls: Bytes::new(alloc),
        };
        let mut out = sink(alloc, 0)?;
        let mut err = sink(alloc, 0)?;
        let words = [command, "p.pact"];
        answer(
            &rt, on_threads, alloc, &words, &mut feed, &mut out, &mut err,
        );
        assert!(rt; feed.calls.bytes() == calls.as_bytes(), "{command} {calls}");
    }
    Ok(())
}

// Neither command reads a file, and a drill prints the same text with threads and without.
#[test]
fn generated_rows_are_read_from_no_file(rt: HostRuntime) -> Result<(), Fail> {
    let alloc = rt.alloc();
    let one = "rows 1\nout 1\ncheck 44790612456\n";
    for (on_threads, command, rows, text) in [
        (false, "gen", "0", ""),
        (false, "gen", "1", "1,-752,t66\n"),
        (true, "gen", "1", "1,-752,t66\n"),
        (false, "drill", "0", "rows 0\nout 0\ncheck 0\n"),
        (false, "drill", "1", one),
        (true, "drill", "1", one),
    ] {
        let mut feed = NotingFeed {
            feed: MemFeed::new(MemFiles::new(alloc), 65536, FailList::new(alloc)),
            calls: Bytes::new(alloc),
        };
        let mut out = sink(alloc, 0)?;
        let mut err = sink(alloc, 0)?;
        let words = [command, "0", rows];
        let status = answer(
            &rt, on_threads, alloc, &words, &mut feed, &mut out, &mut err,
        );
        assert!(rt;
            status == 0 && out.taken() == text.as_bytes(),
            "{command} {rows}"
        );
        assert!(rt; feed.calls.bytes().is_empty(), "{command} {rows}");
    }
    Ok(())
}

const TWICE: &str = "pact 1
fields 4
source s s.csv int:0 int:1
function two map
  r0 = copy in
  emit r0
  emit r0
end
map m two s
sink m 0 1
";

// Calls over TWICE as `p.pact` and two rows. `fails` has the numbers of the calls of the feed and of the two sinks that
// fail; 0 means none.
fn faulty<R: Threads + Wait + Sync>(
    rt: &R,
    on_threads: bool,
    alloc: Global,
    words: &[&str],
    fails: [u64; 3],
) -> Result<Outcome, OutOfMemory> {
    let mut files = MemFiles::new(alloc);
    add_file(alloc, &mut files, "p.pact", TWICE.as_bytes())?;
    add_file(alloc, &mut files, "s.csv", b"1,5\n1,5\n")?;
    call(rt, on_threads, alloc, words, files, fails)
}

// A file is opened, and read in pieces until none is left: three calls a file here. The call returns its status even if
// it can't print anything. What can't be printed isn't tried again.
#[test]
fn faults_are_told(rt: HostRuntime) -> Result<(), Fail> {
    for (on_threads, program, fails, status, written, line) in [
        (false, "p.pact", [2, 0, 0], 3, "", "cannot read p.pact\n"),
        (false, "p.pact", [6, 0, 0], 3, "", "cannot read s.csv\n"),
        (false, "p.pact", [0, 2, 0], 4, "1,5\n", "cannot write\n"),
        (false, "none.pact", [0, 0, 2], 3, "", "cann"),
        (true, "p.pact", [2, 0, 0], 3, "", "cannot read p.pact\n"),
        (true, "p.pact", [6, 0, 0], 3, "", "cannot read s.csv\n"),
        (true, "p.pact", [0, 2, 0], 4, "1,5\n", "cannot write\n"),
        (true, "none.pact", [0, 0, 2], 3, "", "cann"),
    ] {
        let words = ["run", program, "--workers", "2"];
        let outcome = faulty(&rt, on_threads, rt.alloc(), &words, fails)?;
        assert!(rt; outcome.is(status, written, line), "{line}");
        assert!(rt; (outcome.err.faults() == 1) == (fails[2] > 0), "{line}");
    }
    Ok(())
}

// The rows and then the counts are written whole, though a sink takes few bytes at a time. If the counts can't be, that
// is reported.
#[test]
fn counts_are_told(rt: HostRuntime) -> Result<(), Fail> {
    let alloc = rt.alloc();
    let counted: &[&str] = &["run", "p.pact", "--counts", "--workers", "2"];
    let rounds: &[&str] = &["iterate", "p.pact", "s", "1", "--stable", "--workers", "2"];
    let rows = "1,5\n1,5\n1,5\n1,5\n";
    for (on_threads, words, fails, status, told) in [
        (false, counted, [0, 0, 0], 0, "s out 2\nm in 2 out 4\n"),
        (false, counted, [0, 0, 2], 4, "s oucannot write\n"),
        (true, counted, [0, 0, 0], 0, "s out 2\nm in 2 out 4\n"),
        (true, counted, [0, 0, 2], 4, "s oucannot write\n"),
        (false, rounds, [0, 0, 0], 0, "rounds 1\n"),
        (false, rounds, [0, 0, 2], 4, "rouncannot write\n"),
        (true, rounds, [0, 0, 0], 0, "rounds 1\n"),
        (true, rounds, [0, 0, 2], 4, "rouncannot write\n"),
    ] {
        let outcome = faulty(&rt, on_threads, alloc, words, fails)?;
        assert!(rt; outcome.is(status, rows, told), "{told}");
    }
    Ok(())
}

// A file is opened, and read in pieces of 65,536 bytes. Its limit takes 16 of them, and one more byte shows that it is
// too long: 18 calls.
#[test]
fn programs_have_a_limit(rt: HostRuntime) -> Result<(), Fail> {
    let alloc = rt.alloc();
    for (feed_fails, status, line) in [
        (19, 8, "p.pact is longer than 1048576 bytes\n"),
        (18, 3, "cannot read p.pact\n"),
    ] {
        let mut files = MemFiles::new(alloc);
        let program = vec![in alloc; b'#'; 2097152]?;
        add_file(alloc, &mut files, "p.pact", &program)?;
        let outcome = call(
            &rt,
            false,
            alloc,
            &["run", "p.pact"],
            files,
            [feed_fails, 0, 0],
        )?;
        assert!(rt; outcome.is(status, "", line), "{line}");
    }
    Ok(())
}

const TEXTS: &str = "pact 1
fields 1
source s s.csv text:0
sink s 0
";

// A text is written in pieces of at most 65,536 bytes, even if the sink would take more. Here it is seventeen rows of
// 4,096 bytes each, with the line feed.
#[test]
fn texts_are_written_in_pieces(rt: HostRuntime) -> Result<(), Fail> {
    let alloc = rt.alloc();
    let row = vec![in alloc; b'#'; 4095]?;
    let mut rows = Bytes::new(alloc);
    for _ in 0..17 {
        rows.extend_from_slice(&row)?;
        rows.extend_from_slice(b"\n")?;
    }
    let mut files = MemFiles::new(alloc);
    add_file(alloc, &mut files, "p.pact", TEXTS.as_bytes())?;
    add_file(alloc, &mut files, "s.csv", rows.bytes())?;
    let mut feed = MemFeed::new(files, 65536, FailList::new(alloc));
    let mut out = MemSink::new(alloc, 1048576, fail_at(alloc, 2)?)?;
    out.reserve(1048576)?;
    let mut err = sink(alloc, 0)?;
    let status = pact_alone(alloc, &["run", "p.pact"], &mut feed, &mut out, &mut err);
    assert!(rt; status == 4 && err.taken() == b"cannot write\n".as_slice());
    assert_eq!(rt; out.taken().len(), 65536);
    Ok(())
}

const SUM: &str = "pact 1
fields 4
source s s.csv int:0 int:1
function sum reduce 1
  v0 = int 0
  each x1 of group
    v1 = get x1 1
    v0 = addw v0 v1
  end
  r0 = new
  v2 = key 0
  set r0 0 v2
  set r0 2 v0
  emit r0
end
reduce r sum s by 0
sink r 0 2
";

// The run of SUM in which these calls of the feed and of the two sinks fail; 0 means none.
fn sum_with_faults<R: Threads + Wait + Sync>(
    rt: &R,
    on_threads: bool,
    alloc: Global,
    words: &[&str],
    fails: [u64; 3],
) -> Result<Outcome, OutOfMemory> {
    let mut files = MemFiles::new(alloc);
    add_file(alloc, &mut files, "sum.pact", SUM.as_bytes())?;
    add_file(alloc, &mut files, "s.csv", b"1,5\n2,-3\n1,7\n")?;
    call(rt, on_threads, alloc, words, files, fails)
}

const SUMS: &[u8] = b"1,12\n2,-3\n";

// Whether each of these calls of the feed, of `out` or of `err` fails with that status, and a prefix of the rows was
// written, of a length from `least` to `most` bytes. Also whether later calls aren't made.
fn each_call_fails<R: Threads + Wait + Sync>(
    rt: &R,
    alloc: Global,
    on_threads: bool,
    words: &[&str],
    failing: usize,
    expected: (u8, usize, usize, u64),
) -> Result<bool, OutOfMemory>
    requires { failing < 3 }
{
    let (status, least, most, calls) = expected;
    for number in 1..8u64 {
        let mut fails = [0; 3];
        fails[failing] = number;
        let outcome = sum_with_faults(rt, on_threads, alloc, words, fails)?;
        let taken = outcome.out.taken();
        let as_expected = if number > calls {
            outcome.status == 0 && taken == SUMS
        } else {
            outcome.status == status && least <= taken.len() && taken.len() <= most
        };
        if !as_expected || !SUMS.starts_with(taken) {
            return Ok(false);
        }
    }
    Ok(true)
}

// Each call of the feed and of the two sinks fails in turn, up to the run in which none does. What was written is
// nothing, then a prefix of the rows, then all of them. If no counts are asked for, nothing is written to `err`.
#[test]
fn each_call_outside_fails_in_turn(rt: HostRuntime) -> Result<(), Fail> {
    let alloc = rt.alloc();
    let counted: &[&str] = &["run", "sum.pact", "--workers", "1", "--counts"];
    let plain: &[&str] = &["run", "sum.pact"];
    for on_threads in [false, true] {
        for (words, told) in [(counted, 6), (plain, 0)] {
            assert!(rt;
                each_call_fails(&rt, alloc, on_threads, words, 0, (3, 0, 0, 6))?,
                "feed"
            );
            assert!(rt;
                each_call_fails(&rt, alloc, on_threads, words, 1, (4, 0, 8, 3))?,
                "out"
            );
            assert!(rt;
                each_call_fails(&rt, alloc, on_threads, words, 2, (4, 10, 10, told))?,
                "err"
            );
        }
        let outcome = sum_with_faults(&rt, on_threads, alloc, plain, [0, 0, 0])?;
        assert!(rt; outcome.is(0, "1,12\n2,-3\n", ""));
    }
    Ok(())
}

// Each of two workers waits at its first event until the other has come to its own, so there is a thread for each. Each
// worker ends its part of the source and of the Reduce.
#[test]
fn two_workers_meet(rt: HostRuntime) -> Result<(), Fail> {
    let alloc = rt.alloc();
    let mut files = MemFiles::new(alloc);
    add_file(alloc, &mut files, "sum.pact", SUM.as_bytes())?;
    add_file(alloc, &mut files, "s.csv", b"1,5\n2,-3\n1,7\n")?;
    let mut feed = MemFeed::new(files, 65536, FailList::new(alloc));
    let mut out = sink(alloc, 0)?;
    let mut err = sink(alloc, 0)?;
    let gate = MeetGate::new(2, 10000000);
    let words = [
        "run",
        "sum.pact",
        "--workers",
        "2",
        "--depth",
        "1",
        "--batch",
        "1",
    ];
    let status = pact_main(&rt, alloc, &words, &mut feed, &mut out, &mut err, &gate);
    assert!(rt; status == 0 && out.taken() == b"1,12\n2,-3\n".as_slice());
    assert!(rt; gate.met() && gate.ends(0) == 2 && gate.ends(1) == 2);
    Ok(())
}
