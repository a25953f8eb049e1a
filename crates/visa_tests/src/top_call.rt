// Worked cases of the top call, over files and a sink in memory.
use crate::calls::{call, files, list, task_text};
use std::test::Fail;
use visa_cli::{ArgumentsFault, run_program};
use visa_io::{List, MemFile, MemFiles, MemSink, PutFail};

const PLAIN: &str = "icache none\ndcache none\npoint 1000\ntime 200000 200000\n";

const JUST_IN_TIME: &str = "icache none\ndcache none\npoint 1000\ntime 200000 70000\n";

const TOO_LATE: &str = "icache none\ndcache none\npoint 1000\ntime 200000 69999\n";

const TWO_POINTS: &str = "icache none\ndcache none\npoint 2000\npoint 1000\ntime 200000 70000\n";

const LATE_DEADLINE: &str = "icache none\ndcache none\npoint 1000\ntime 69999 70000\n";

const CODE: &str = "words 00400000 24020007 3c03ffff ac620000 03e00008 00000000\nentry 00400000\n";

const IMAGE: &str = "image prog\nentry -\n";

const MISMATCH: &str = "words 00400000 27ff0004 03e00008 00000000\nentry 00400000\n";

const SYSCALL: &str = "words 00400000 24020007 0000000c\nentry 00400000\n";

const CALLS_IN_TIME: &str = "icache none\ndcache none\npoint 1000\ntime 100000 95000\n";

const CALLS_TOO_LATE: &str = "icache none\ndcache none\npoint 1000\ntime 100000 94999\n";

// Keeps $31, calls a function that doubles 5, and returns.
const CALLS: &str =
    "words 00400000 03e08025 0c100007 24040005 0200f825 03e00008 00000000 00000000 03e00008 00841021\nentry 00400000\n";

const CALLS_LOG: &str =
    "visa 1 simple\njob 1 simple end 93000 exit\nregs 2=0000000a 4=00000005 16=fffffff0 29=7fff0000 31=fffffff0\nout\n";

const COUNTS_IN_TIME: &str = "icache none\ndcache none\npoint 1000\ntime 600000 501000\n";

const COUNTS_TOO_LATE: &str = "icache none\ndcache none\npoint 1000\ntime 600000 500999\n";

// A loop of three instructions, and two behind it.
const COUNTS: &str =
    "words 00400000 24080001 2508ffff 1500fffe 00000000 24020007 03e00008 00000000\nentry 00400000\n";

const COUNTED: &str =
    "input 00000000 0\noutput 16\ncut 00400010\nloop 00400004 0040000c 00400004 12 8\nfact 00400004 8 1 1 1\n";

const CUT_INSIDE: &str =
    "input 00000000 0\noutput 16\ncut 00400008\nloop 00400004 0040000c 00400004 12 8\n\
     fact 00400004 8 1 1 1\nfact 00400008 8 0 0 1\n";

const CUT_IN_SLOT: &str =
    "input 00000000 0\noutput 16\ncut 0040000c\nloop 00400004 0040000c 00400004 12 8\nfact 00400004 8 1 1 1\n";

const ENTERED_BESIDE: &str =
    "input 00000000 0\noutput 16\nloop 00400004 0040000c 00400008 12 8\nfact 00400004 8 1 1 1\n";

const WITHOUT_LOOP: &str = "input 00000000 0\noutput 16\n";

const WRONG_FACT: &str =
    "input 00000000 0\noutput 16\nloop 00400004 0040000c 00400004 12 8\nfact 00400004 8 2 2 1\n";

const TWO_PLANS: &str = "icache none\ndcache none\npoint 2000\npoint 1000\ntime 200000 130000\n";

const TWO_PLANS_CHECK: &str = "visa 1 check\nbound 0 1 35\nbound 1 1 65\n\
     short 0 0 38000\nplan 0 1 54000 3\nshort 1 0 38000\nplan 1 1 54000 6\n";

// Adds its input to a word in ram, and puts the sum out.
const COUNTER: &str =
    "words 00400000 8c880000 3c091000 8d2a0000 01485021 ad2a0000 3c03ffff ac6a0000 03e00008 00000000\nentry 00400000\n";

const REST: &str = "input 00000000 0\noutput 16\n";

const OVERLAP: &str = "ram 00400010 16\ninput 00000000 0\noutput 16\n";

const UNCOVERED: &str = "input 10000000 4\noutput 16\n";

const CUT: &str = "input 00000000 0\noutput 16\ncut 00400008\n";

const RAM: &str =
    "ram 10000000 4096\ninput 10000100 16\noutput 16\nshow 10000000 4\nshow 10000100 8\n";

const ONE_JOB: &str = "visa-jobs 1\njob -\n";

const LOG: &str =
    "visa 1 simple\njob 1 simple end 60000 exit\nregs 2=00000007 3=ffff0000 29=7fff0000 31=fffffff0\nout 00000007\n";

const MISMATCH_LOG: &str =
    "visa 1 simple\njob 1 simple end 27000 trap return-mismatch 00400004\nregs 29=7fff0000 31=fffffff4\nout\n";

const SYSCALL_LOG: &str =
    "visa 1 simple\njob 1 simple end 27000 trap syscall 00400004\nregs 2=00000007 29=7fff0000 31=fffffff0\nout\n";

const THREE_JOBS: &str = "visa-jobs 1\njob 00000005\njob 00000007\njob -\n";

const COUNTER_LOG: &str = "visa 1 simple\n\
     job 1 simple end 104000 exit\n\
     regs 3=ffff0000 4=10000100 5=00000004 8=00000005 9=10000000 10=00000005 29=7fff0000 31=fffffff0\n\
     out 00000005\n\
     mem 10000000 00000005\n\
     mem 10000100 0000000500000000\n\
     job 2 simple end 104000 exit\n\
     regs 3=ffff0000 4=10000100 5=00000004 8=00000007 9=10000000 10=0000000c 29=7fff0000 31=fffffff0\n\
     out 0000000c\n\
     mem 10000000 0000000c\n\
     mem 10000100 0000000700000000\n\
     job 3 simple end 104000 exit\n\
     regs 3=ffff0000 4=10000100 9=10000000 10=0000000c 29=7fff0000 31=fffffff0\n\
     out 0000000c\n\
     mem 10000000 0000000c\n\
     mem 10000100 0000000000000000\n";

// The code of the first task as a big-endian ELF file.
const PROG: [u8; 104] = [
    0x7f, 0x45, 0x4c, 0x46, 0x01, 0x02, 0x01, 0x00, 0x00, 0x00, 0x00, 0x00, 0x00, 0x00, 0x00, 0x00,
    0x00, 0x02, 0x00, 0x08, 0x00, 0x00, 0x00, 0x01, 0x00, 0x40, 0x00, 0x00, 0x00, 0x00, 0x00, 0x34,
    0x00, 0x00, 0x00, 0x00, 0x50, 0x00, 0x10, 0x01, 0x00, 0x34, 0x00, 0x20, 0x00, 0x01, 0x00, 0x00,
    0x00, 0x00, 0x00, 0x00, 0x00, 0x00, 0x00, 0x01, 0x00, 0x00, 0x00, 0x54, 0x00, 0x40, 0x00, 0x00,
    0x00, 0x40, 0x00, 0x00, 0x00, 0x00, 0x00, 0x14, 0x00, 0x00, 0x00, 0x14, 0x00, 0x00, 0x00, 0x05,
    0x00, 0x00, 0x00, 0x04, 0x24, 0x02, 0x00, 0x07, 0x3c, 0x03, 0xff, 0xff, 0xac, 0x62, 0x00, 0x00,
    0x03, 0xe0, 0x00, 0x08, 0x00, 0x00, 0x00, 0x00,
];

// The same with a symbol table: `job`, `first`, `put it` and `put`.
const NAMED_PROG: [u32; 82] = [
    0x7f454c46, 0x01020100, 0, 0, 0x00020008, 1, 0x00400000, 52, 0xd0, 0x50001001, 0x00340020,
    0x00010028, 0x00030000, 1, 84, 0x00400000, 0x00400000, 20, 20, 5, 4, 0x24020007, 0x3c03ffff,
    0xac620000, 0x03e00008, 0, 0, 0, 0, 0, 1, 0x00400000, 0, 0x12000001, 5, 0x00400000, 0,
    0x12000001, 11, 0x00400008, 0, 0x12000001, 18, 0x00400008, 0, 0x12000001, 0x006a6f62,
    0x00666972, 0x73740070, 0x75742069, 0x74007075, 0x74000000, 0, 0, 0, 0, 0, 0, 0, 0, 0, 0, 0, 2,
    0, 0, 0x68, 80, 2, 0, 4, 16, 0, 3, 0, 0, 0xb8, 22, 0, 0, 1, 0,
];

const LIST: &str = "visa 1 list\n00400000 24020007 addiu $2,$0,7\n00400004 3c03ffff lui $3,65535\n\
     00400008 ac620000 sw $2,0($3)\n0040000c 03e00008 jr $31\n00400010 00000000 sll $0,$0,0\n";

const NAMED_LIST: &str = "visa 1 list\nsym job\nsym first\n\
     00400000 24020007 addiu $2,$0,7\n00400004 3c03ffff lui $3,65535\nsym put\n\
     00400008 ac620000 sw $2,0($3)\n0040000c 03e00008 jr $31\n00400010 00000000 sll $0,$0,0\n";

const RESERVED: &str = "words 00400000 7c000000 1000ffff\nentry 00400000\n";

const USAGE: &str =
    "usage: visa simple TASK JOBS | check TASK | run TASK JOBS [--predictor P] | list TASK | demo N\n";

#[test]
fn worked_cases_have_their_status_and_text(rt: HostRuntime) -> Result<(), Fail> {
    let alloc = rt.alloc();
    for (machine, code, rest, jobs, status, text) in [
        (PLAIN, CODE, REST, ONE_JOB, 0, LOG),
        (JUST_IN_TIME, CODE, REST, ONE_JOB, 0, LOG),
        (
            TOO_LATE,
            CODE,
            REST,
            ONE_JOB,
            5,
            "refused exceeds 70000 69999\n",
        ),
        // a refused task reads no jobs
        (
            TOO_LATE,
            CODE,
            REST,
            "missing",
            5,
            "refused exceeds 70000 69999\n",
        ),
        (TWO_POINTS, CODE, REST, ONE_JOB, 0, LOG),
        (LATE_DEADLINE, CODE, REST, ONE_JOB, 3, "task line 8 value\n"),
        (PLAIN, MISMATCH, REST, ONE_JOB, 0, MISMATCH_LOG),
        (PLAIN, SYSCALL, REST, ONE_JOB, 0, SYSCALL_LOG),
        (CALLS_IN_TIME, CALLS, REST, ONE_JOB, 0, CALLS_LOG),
        (
            CALLS_TOO_LATE,
            CALLS,
            REST,
            ONE_JOB,
            5,
            "refused exceeds 95000 94999\n",
        ),
        (PLAIN, COUNTER, RAM, THREE_JOBS, 0, COUNTER_LOG),
        (PLAIN, CODE, OVERLAP, ONE_JOB, 4, "image overlap 00400010\n"),
        (
            PLAIN,
            CODE,
            UNCOVERED,
            ONE_JOB,
            4,
            "image uncovered 10000000\n",
        ),
        (PLAIN, CODE, CUT, ONE_JOB, 0, LOG),
        (PLAIN, CODE, REST, "visa-jobs 1\n", 0, "visa 1 simple\n"),
        (PLAIN, CODE, REST, "visa-jobs 1\n# none\njob -\n", 0, LOG),
        (
            PLAIN,
            CODE,
            REST,
            "visa-jobs 1\njob 0\n",
            6,
            "jobs line 2\n",
        ),
        (PLAIN, CODE, REST, "missing", 2, "read fault jobs\n"),
        (PLAIN, IMAGE, REST, ONE_JOB, 0, LOG),
    ] {
        let task = task_text(alloc, machine, code, rest)?;
        let mut files = files(alloc, task.as_str(), jobs, &PROG, &[])?;
        let mut sink = MemSink::new(alloc, 1000, List::new(alloc))?;
        let answer = call(alloc, "simple t j", &mut files, &mut sink)?;
        assert_eq!(rt; answer.number(), status, "at {text}");
        assert_eq!(rt; sink.bytes(), text.as_bytes());
    }
    Ok(())
}

#[test]
fn a_check_tells_bounds_and_plans_or_the_first_condition(rt: HostRuntime) -> Result<(), Fail> {
    let alloc = rt.alloc();
    for (machine, code, rest, status, text) in [
        (
            COUNTS_IN_TIME,
            COUNTS,
            COUNTED,
            0,
            "visa 1 check\nbound 0 1 409\nbound 0 2 33\nplan 0 0 54000 0 409\n",
        ),
        (TWO_PLANS, CODE, REST, 0, TWO_PLANS_CHECK),
        (
            COUNTS_TOO_LATE,
            COUNTS,
            COUNTED,
            5,
            "refused exceeds 501000 500999\n",
        ),
        (
            COUNTS_IN_TIME,
            COUNTS,
            CUT_INSIDE,
            5,
            "refused cut 2 in-region\n",
        ),
        (
            COUNTS_IN_TIME,
            COUNTS,
            CUT_IN_SLOT,
            5,
            "refused cut 2 slot\n",
        ),
        (
            COUNTS_IN_TIME,
            COUNTS,
            ENTERED_BESIDE,
            5,
            "refused region 1 side 00400000 00400004\n",
        ),
        (
            COUNTS_IN_TIME,
            COUNTS,
            WITHOUT_LOOP,
            5,
            "refused region free 00400004\n",
        ),
        (
            COUNTS_IN_TIME,
            COUNTS,
            WRONG_FACT,
            5,
            "refused fact 00400000 00400004 8\n",
        ),
        (PLAIN, CODE, OVERLAP, 4, "image overlap 00400010\n"),
    ] {
        let task = task_text(alloc, machine, code, rest)?;
        let mut files = files(alloc, task.as_str(), "missing", &PROG, &[])?;
        let mut sink = MemSink::new(alloc, 1000, List::new(alloc))?;
        let answer = call(alloc, "check t", &mut files, &mut sink)?;
        assert_eq!(rt; answer.number(), status, "at {text}");
        assert_eq!(rt; sink.bytes(), text.as_bytes());
    }
    Ok(())
}

#[test]
fn a_list_has_the_words_of_the_code_and_its_symbols(rt: HostRuntime) -> Result<(), Fail> {
    let alloc = rt.alloc();
    let mut named = Vec::new(alloc);
    for word in NAMED_PROG {
        named.extend_from_slice(&word.to_be_bytes())?;
    }
    for (machine, code, rest, status, text) in [
        (PLAIN, CODE, REST, 0, LIST),
        // neither laid out nor admitted
        (TOO_LATE, CODE, OVERLAP, 0, LIST),
        (PLAIN, IMAGE, REST, 0, NAMED_LIST),
        (
            PLAIN,
            RESERVED,
            REST,
            0,
            "visa 1 list\n00400000 7c000000 reserved\n00400004 1000ffff beq $0,$0,00400004\n",
        ),
        (LATE_DEADLINE, CODE, REST, 3, "task line 8 value\n"),
    ] {
        let task = task_text(alloc, machine, code, rest)?;
        let mut files = files(alloc, task.as_str(), "missing", named.as_slice(), &[])?;
        let mut sink = MemSink::new(alloc, 1000, List::new(alloc))?;
        let answer = call(alloc, "list t", &mut files, &mut sink)?;
        assert_eq!(rt; answer.number(), status, "at {text}");
        assert_eq!(rt; sink.bytes(), text.as_bytes());
    }
    Ok(())
}

#[test]
fn a_task_text_is_refused_by_its_first_fault(rt: HostRuntime) -> Result<(), Fail> {
    let alloc = rt.alloc();
    for (task, text) in [
        ("", "task line 1 end\n"),
        ("visa-task 2\n", "task line 1 value\n"),
        ("visa-task 3\n", "task line 1 value\n"),
        ("visa-task one\n", "task line 1 field\n"),
        ("# none\norder big\n", "task line 2 word\n"),
        ("visa-task 1\n# \u{7f}\n", "task line 2 bytes\n"),
        ("visa-task 1\n\norder big", "task line 4 end\n"),
    ] {
        let mut files = files(alloc, task, ONE_JOB, b"missing", &[])?;
        let mut sink = MemSink::new(alloc, 1000, List::new(alloc))?;
        let answer = call(alloc, "simple t j", &mut files, &mut sink)?;
        assert_eq!(rt; answer.number(), 3, "at {text}");
        assert_eq!(rt; sink.bytes(), text.as_bytes());
    }
    Ok(())
}

#[test]
fn one_fact_too_many_is_refused(rt: HostRuntime) -> Result<(), Fail> {
    let alloc = rt.alloc();
    let mut task = task_text(alloc, PLAIN, CODE, REST)?;
    for n in 1000..5097u32 {
        let fact = format!(in alloc; "fact 0000{n} 8 0 0 1\n")?;
        task.push_str(fact.as_str())?;
    }
    let mut files = files(alloc, task.as_str(), ONE_JOB, b"missing", &[])?;
    let mut sink = MemSink::new(alloc, 1000, List::new(alloc))?;
    let answer = call(alloc, "simple t j", &mut files, &mut sink)?;
    assert_eq!(rt; answer.number(), 3);
    assert_eq!(rt; sink.bytes(), b"task line 4110 word\n".as_slice());
    Ok(())
}

#[test]
fn an_image_is_refused_by_its_first_fault(rt: HostRuntime) -> Result<(), Fail> {
    let alloc = rt.alloc();
    let task = task_text(alloc, PLAIN, IMAGE, REST)?;
    for (length, text) in [
        (0, "image not-elf\n"),
        (3, "image not-elf\n"),
        (4, "image truncated 4\n"),
        (51, "image truncated 51\n"),
        (52, "image truncated 52\n"),
        (83, "image truncated 83\n"),
        (84, "image truncated 84\n"),
        (103, "image truncated 103\n"),
    ] {
        let mut files = files(alloc, task.as_str(), ONE_JOB, &PROG[..length], &[])?;
        let mut sink = MemSink::new(alloc, 1000, List::new(alloc))?;
        let answer = call(alloc, "simple t j", &mut files, &mut sink)?;
        assert_eq!(rt; answer.number(), 4, "at {text}");
        assert_eq!(rt; sink.bytes(), text.as_bytes());
    }
    Ok(())
}

#[test]
fn words_that_are_no_command_read_nothing(rt: HostRuntime) -> Result<(), Fail> {
    let alloc = rt.alloc();
    for (words, status, text) in [
        ("simple -t j", 1, USAGE),
        ("help", 1, USAGE),
        ("demo 01", 1, USAGE),
        ("run t j --predictor none", 1, USAGE),
    ] {
        let mut files = files(alloc, "", ONE_JOB, b"missing", &[1])?;
        let mut sink = MemSink::new(alloc, 1000, List::new(alloc))?;
        let answer = call(alloc, words, &mut files, &mut sink)?;
        assert_eq!(rt; answer.number(), status, "at {words}");
        assert_eq!(rt; sink.bytes(), text.as_bytes());
    }
    Ok(())
}

#[test]
fn a_read_that_fails_is_told(rt: HostRuntime) -> Result<(), Fail> {
    let alloc = rt.alloc();
    let task = task_text(alloc, PLAIN, IMAGE, REST)?;
    for (fails, text) in [
        (1, "read fault task\n"),
        (2, "read fault image\n"),
        (3, "read fault jobs\n"),
    ] {
        let mut files = files(alloc, task.as_str(), ONE_JOB, &PROG, &[fails])?;
        let mut sink = MemSink::new(alloc, 1000, List::new(alloc))?;
        let answer = call(alloc, "simple t j", &mut files, &mut sink)?;
        assert_eq!(rt; answer.number(), 2);
        assert_eq!(rt; sink.bytes(), text.as_bytes());
    }
    Ok(())
}

#[test]
fn a_put_that_fails_ends_the_log(rt: HostRuntime) -> Result<(), Fail> {
    let alloc = rt.alloc();
    let task = task_text(alloc, PLAIN, CODE, REST)?;
    let mut files = files(alloc, task.as_str(), ONE_JOB, b"missing", &[])?;
    let fails = List::copy_of(alloc, &[PutFail { call: 3, kept: 4 }])?;
    let mut sink = MemSink::new(alloc, 1000, fails)?;
    let answer = call(alloc, "simple t j", &mut files, &mut sink)?;
    assert_eq!(rt; answer.number(), 7);
    assert_eq!(rt;
        sink.bytes(),
        b"visa 1 simple\njob 1 simple end 60000 exit\nregs".as_slice()
    );
    Ok(())
}

#[test]
fn a_file_that_is_too_long_is_told(rt: HostRuntime) -> Result<(), Fail> {
    let alloc = rt.alloc();
    let mut held = List::new(alloc);
    held.push(MemFile {
        name: list(alloc, "t")?,
        bytes: List::from_vec(vec![in alloc; 32u8; 8388609]?),
    })?;
    let mut files = MemFiles::new(held, List::new(alloc));
    let mut sink = MemSink::new(alloc, 1000, List::new(alloc))?;
    let answer = call(alloc, "simple t j", &mut files, &mut sink)?;
    assert_eq!(rt; answer.number(), 9);
    assert_eq!(rt; sink.bytes(), b"long task\n".as_slice());
    Ok(())
}

#[test]
fn a_program_is_run_by_its_arguments(rt: HostRuntime) -> Result<(), Fail> {
    let alloc = rt.alloc();
    let task = task_text(alloc, PLAIN, CODE, REST)?;
    let mut held = files(alloc, task.as_str(), ONE_JOB, b"missing", &[])?;
    let mut arguments = Vec::new(alloc);
    for argument in ["visa", "simple", "t", "j"] {
        arguments.push(String::from_str(alloc, argument)?)?;
    }
    for (arguments, status, text) in [
        (Ok(arguments), 0, LOG),
        (Err(ArgumentsFault::NotText), 1, USAGE),
        (Err(ArgumentsFault::Memory), 8, ""),
        (Ok(Vec::new(alloc)), 1, USAGE),
    ] {
        let mut sink = MemSink::new(alloc, 1000, List::new(alloc))?;
        let answer = run_program(alloc, arguments, &mut held, &mut sink);
        assert_eq!(rt; answer, status);
        assert_eq!(rt; sink.bytes(), text.as_bytes());
    }
    Ok(())
}
