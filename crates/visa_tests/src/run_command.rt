// Worked cases of `run`, over files and a sink in memory.
use crate::calls::{call, files, task_text};
use std::test::Fail;
use visa_io::{List, MemSink, PutFail};

const LAST_CYCLE: &str = "icache none\ndcache none\npoint 1000\ntime 200000 183000\n";

const ONE_LESS: &str = "icache none\ndcache none\npoint 1000\ntime 200000 182999\n";

const AT_ONCE: &str = "icache none\ndcache none\npoint 1000\ntime 200000 124000\n";

const NO_TIME: &str = "icache none\ndcache none\npoint 1000\ntime 200000 123999\n";

const LATE: &str = "icache none\ndcache none\npoint 1000\ntime 200000 200000\n";

const CACHED: &str = "icache 4 1 16\ndcache none\npoint 1000\ntime 200000 139000\n";

const COUNTS_IN_TIME: &str = "icache none\ndcache none\npoint 1000\ntime 600000 501000\n";

const TWO_POINTS: &str = "icache none\ndcache none\npoint 2000\npoint 1000\ntime 200000 130000\n";

const CODE: &str = "words 00400000 24020007 3c03ffff ac620000 03e00008 00000000\nentry 00400000\n";

const MISMATCH: &str = "words 00400000 27ff0004 03e00008 00000000\nentry 00400000\n";

// A loop in a loop, twice each.
const NESTED: &str =
    "words 00400000 24080002 24090002 2529ffff 1520fffe 00000000 2508ffff 1500fffa 00000000 03e00008 00000000\n\
     entry 00400000\n";

// A loop of three instructions, and two behind it.
const COUNTS: &str =
    "words 00400000 24080001 2508ffff 1500fffe 00000000 24020007 03e00008 00000000\nentry 00400000\n";

const REST: &str = "input 00000000 0\noutput 16\n";

const NESTED_REST: &str = "input 00000000 0\noutput 16\n\
     loop 00400008 00400010 00400008 2 9\nloop 00400004 0040001c 00400004 2 8\n\
     fact 00400004 8 1 2 1\nfact 00400008 8 1 2 1\nfact 00400008 9 1 2 1\nfact 00400014 8 1 2 1\n";

const COUNTED: &str =
    "input 00000000 0\noutput 16\ncut 00400010\nloop 00400004 0040000c 00400004 12 8\nfact 00400004 8 1 1 1\n";

const ONE_JOB: &str = "visa-jobs 1\njob -\n";

const VALUES: &str = "regs 2=00000007 3=ffff0000 29=7fff0000 31=fffffff0\nout 00000007\n";

const FAST: &str = "visa 1 run\njob 1 fast pair 0 0 end 59000 exit\nsub 1 59\n";

#[test]
fn worked_cases_of_one_point_have_their_status_and_log(rt: HostRuntime) -> Result<(), Fail> {
    let alloc = rt.alloc();
    for (machine, code, rest, status, text, values) in [
        // it ends in the last allowed cycle
        (LAST_CYCLE, CODE, REST, 0, FAST, VALUES),
        // one less: the miss lies between the jump and its slot
        (
            ONE_LESS,
            CODE,
            REST,
            0,
            "visa 1 run\njob 1 missed 1 pair 0 0 at 58 switch 34000 end 108000 exit\n",
            VALUES,
        ),
        (
            AT_ONCE,
            CODE,
            REST,
            0,
            "visa 1 run\njob 1 missed 1 pair 0 0 at 0 switch 34000 end 94000 exit\n",
            VALUES,
        ),
        (
            NO_TIME,
            CODE,
            REST,
            5,
            "refused exceeds 124000 123999\n",
            "",
        ),
        (
            LATE,
            MISMATCH,
            REST,
            0,
            "visa 1 run\njob 1 fast pair 0 0 end 26000 trap return-mismatch 00400004\nsub 1 26\n",
            "regs 29=7fff0000 31=fffffff4\nout\n",
        ),
        // a miss in the inner loop, in mid-line, with a fetch in flight
        (
            CACHED,
            NESTED,
            NESTED_REST,
            0,
            "visa 1 run\njob 1 missed 1 pair 0 0 at 17 switch 45000 end 123000 exit\n",
            "regs 29=7fff0000 31=fffffff0\nout\n",
        ),
        (
            COUNTS_IN_TIME,
            COUNTS,
            COUNTED,
            0,
            "visa 1 run\njob 1 missed 1 pair 0 0 at 0 switch 34000 end 116000 exit\n",
            "regs 2=00000007 29=7fff0000 31=fffffff0\nout\n",
        ),
    ] {
        let task = task_text(alloc, machine, code, rest)?;
        let mut files = files(alloc, task.as_str(), ONE_JOB, b"missing", &[])?;
        let mut sink = MemSink::new(alloc, 1000, List::new(alloc))?;
        let answer = call(alloc, "run t j", &mut files, &mut sink)?;
        let whole = format!(in alloc; "{text}{values}")?;
        assert_eq!(rt; answer.number(), status, "at {text}");
        assert_eq!(rt; sink.bytes(), whole.as_bytes());
    }
    Ok(())
}

#[test]
fn a_pair_is_chosen_by_the_counts_so_far(rt: HostRuntime) -> Result<(), Fail> {
    let alloc = rt.alloc();
    let task = task_text(alloc, TWO_POINTS, CODE, REST)?;
    // the first checkpoint is at 6000 ps: three cycles of the first point end by it; a missed sub-task counts as its bound there, 35
    for (past, pairs) in [
        ("", [(1, 1, 6), (2, 1, 6)]),
        ("past 1 4\n", [(1, 1, 6), (2, 1, 6)]),
        ("past 1 3\n", [(1, 0, 3), (2, 1, 6)]),
    ] {
        let jobs = format!(in alloc; "visa-jobs 1\n{past}job -\njob -\n")?;
        let mut text = String::from_str(alloc, "visa 1 run\n")?;
        for (number, point, at) in pairs {
            let job = format!(in alloc;
                "job {number} missed 1 pair {point} 1 at {at} switch 38000 end 104000 exit\n{VALUES}"
            )?;
            text.push_str(job.as_str())?;
        }
        let mut files = files(alloc, task.as_str(), jobs.as_str(), b"missing", &[])?;
        let mut sink = MemSink::new(alloc, 1000, List::new(alloc))?;
        let answer = call(alloc, "run t j", &mut files, &mut sink)?;
        assert_eq!(rt; answer.number(), 0);
        assert_eq!(rt; sink.bytes(), text.as_bytes());
    }
    Ok(())
}

#[test]
fn a_predictor_is_chosen_by_words(rt: HostRuntime) -> Result<(), Fail> {
    let alloc = rt.alloc();
    let task = task_text(alloc, LAST_CYCLE, CODE, REST)?;
    let text = format!(in alloc; "{FAST}{VALUES}")?;
    for words in [
        "run t j --predictor static",
        "run --predictor=bimodal t j",
        "run t --predictor gshare j",
    ] {
        let mut files = files(alloc, task.as_str(), ONE_JOB, b"missing", &[])?;
        let mut sink = MemSink::new(alloc, 1000, List::new(alloc))?;
        let answer = call(alloc, words, &mut files, &mut sink)?;
        assert_eq!(rt; answer.number(), 0, "at {words}");
        assert_eq!(rt; sink.bytes(), text.as_bytes());
    }
    Ok(())
}

#[test]
fn a_put_that_fails_ends_the_log_of_a_run(rt: HostRuntime) -> Result<(), Fail> {
    let alloc = rt.alloc();
    let task = task_text(alloc, LAST_CYCLE, CODE, REST)?;
    for (number, text) in [
        (1, "visa"),
        (2, "visa 1 run\njob "),
        (3, "visa 1 run\njob 1 fast pair 0 0 end 59000 exit\nsub "),
        (
            4,
            "visa 1 run\njob 1 fast pair 0 0 end 59000 exit\nsub 1 59\nregs",
        ),
    ] {
        let mut files = files(alloc, task.as_str(), ONE_JOB, b"missing", &[])?;
        let fails = List::copy_of(
            alloc,
            &[PutFail {
                call: number,
                kept: 4,
            }],
        )?;
        let mut sink = MemSink::new(alloc, 1000, fails)?;
        let answer = call(alloc, "run t j", &mut files, &mut sink)?;
        assert_eq!(rt; answer.number(), 7);
        assert_eq!(rt; sink.bytes(), text.as_bytes());
    }
    Ok(())
}
