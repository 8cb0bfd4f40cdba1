//! Each answer of the program: its status, its line, and what was done before it.

use crate::runs::{
    FIVE, FOREVER, RUN, check, image_of, sample_shelf, shelf_of, steps, strings, told,
};
use bao_command::play;
use outside::{MemSink, SureShelf};
use sample_configs::ONE_VM;
use std::alloc::Global;
use std::process::Abort;
use std::test::Fail;

#[test]
fn first_runs(rt: HostRuntime) -> Result<(), Fail> {
    static ROWS: [(&str, &str); 2] = [
        (
            "s 0 0\ns 0 1\ns 0 2\n",
            "status 0 entered 3 calls 3 faults 0
vm a
core 0 on
pc 0000000000100004
pstate 000003c5
x0 0000000000000005
console 0=
m 0000000000100000 a00080d2000000140000000000000000
end a
done
",
        ),
        (
            "",
            "status 0 entered 0 calls 3 faults 0
vm a
core 0 on
pc 0000000000100000
pstate 000003c5
console 0=
m 0000000000100000 a00080d2000000140000000000000000
end a
done
",
        ),
    ];
    let alloc = rt.alloc();
    let image = image_of(alloc, &FIVE)?;
    for (schedule, wanted) in ROWS.as_slice() {
        let mut shelf = sample_shelf(alloc, &image, schedule.as_bytes())?;
        check(&rt, schedule, &told(alloc, &RUN, &mut shelf, &[])?, wanted);
    }
    Ok(())
}

const USAGE: &str = "usage: run CONFIG SCHEDULE or check CONFIG or gen N\n";

/// Words that aren't those of a command, with the status and the line that they get.
#[rattlefmt::skip]
static WORDS: [(&[&str], u8, &str); 16] = [
    // words                                       status line
    (&[],                                            2, USAGE),
    (&[""],                                          2, USAGE),
    (&["run"],                                       2, USAGE),
    (&["run", "config.toml"],                        2, USAGE),
    (&["run", "config.toml", "schedule.txt", "x"],   2, USAGE),
    (&["Run", "config.toml", "schedule.txt"],        2, USAGE),
    (&["runs", "config.toml", "schedule.txt"],       2, USAGE),
    (&["check"],                                     2, USAGE),
    (&["check", "config.toml", "x"],                 2, USAGE),
    (&["gen"],                                       2, USAGE),
    (&["gen", "007"],                                2, USAGE),
    (&["gen", "4294967296"],                         2, USAGE),
    (&["gen", "99999999999999999999999"],            2, USAGE),
    (&["gen", "+1"],                                 2, USAGE),
    (&["gen", ""],                                   2, USAGE),
    (&["gen", "1", "2"],                             2, USAGE),
];

fn check_words(
    rt: &impl Abort,
    alloc: Global,
    words: &[&str],
    status: u8,
    line: &str,
) -> Result<(), Fail> {
    let shows = format!(in alloc; "{words:?}")?;
    let wanted = format!(in alloc; "status {status} entered 0 calls 0 faults 0\n{line}")?;
    let mut shelf = sample_shelf(alloc, b"", b"")?;
    check(rt, &shows, &told(alloc, words, &mut shelf, &[])?, &wanted);
    Ok(())
}

#[test]
fn words(rt: HostRuntime) -> Result<(), Fail> {
    for (words, status, line) in WORDS.as_slice() {
        check_words(&rt, rt.alloc(), words, *status, line)?;
    }
    Ok(())
}

/// The report of `b .`, after any number of steps.
const FOREVER_REPORT: &str = "vm a
core 0 on
pc 0000000000100000
pstate 000003c5
console 0=
m 0000000000100000 00000014000000000000000000000000
end a
done
";

/// Schedules over `b .`: how many steps are taken, the status, and the text.
#[rattlefmt::skip]
static SCHEDULES: [(&str, u32, u8, &str); 27] = [
    // schedule                           steps status  text
    ("",                                  0,    0,      FOREVER_REPORT),
    ("s 0 0\n",                           1,    0,      FOREVER_REPORT),
    ("s 0 3\ns 0 3\n",                    2,    0,      FOREVER_REPORT),
    ("s 0 3\ns 0 4\n",                    2,    0,      FOREVER_REPORT),
    ("s 0 10\n",                          1,    0,      FOREVER_REPORT),
    ("s 0 18446744073709551615\n",        1,    0,      FOREVER_REPORT),
    ("\n",                                0,    0,      FOREVER_REPORT),
    ("# comment\n",                       0,    0,      FOREVER_REPORT),
    ("#\r\n\ns 0 1\n#s 0 0\n",           1,    0,      FOREVER_REPORT),
    ("s 0 0",                             0,    8,      "bad schedule line 1 rule 1\n"),
    ("# comment",                         0,    8,      "bad schedule line 1 rule 1\n"),
    ("s 0 0\ns 0 0",                      0,    8,      "bad schedule line 2 rule 1\n"),
    ("s 0 00\n",                          0,    8,      "bad schedule line 1 rule 1\n"),
    ("s  0 0\n",                          0,    8,      "bad schedule line 1 rule 1\n"),
    ("s 0 0\r\n",                         0,    8,      "bad schedule line 1 rule 1\n"),
    ("S 0 0\n",                           0,    8,      "bad schedule line 1 rule 1\n"),
    ("s 0 18446744073709551616\n",        0,    8,      "bad schedule line 1 rule 1\n"),
    ("i 0 256\n",                         0,    8,      "bad schedule line 1 rule 1\n"),
    ("i 99 256\n",                        0,    8,      "bad schedule line 1 rule 1\n"),
    ("s 1 0\n",                           0,    8,      "bad schedule line 1 rule 2\n"),
    ("s 18446744073709551615 0\n",        0,    8,      "bad schedule line 1 rule 2\n"),
    ("i 1 0\n",                           0,    8,      "bad schedule line 1 rule 3\n"),
    ("i 16 0\n",                          0,    8,      "bad schedule line 1 rule 3\n"),
    ("s 0 5\ns 0 4\n",                    0,    8,      "bad schedule line 2 rule 4\n"),
    ("# a\n\ns 0 1\n# b\ns 0 0\n",        0,    8,      "bad schedule line 5 rule 4\n"),
    ("i 0 0\n",                           0,    0,      FOREVER_REPORT),
    ("# a\ns 0 0\ns 0 0\ni 0 0\n",        2,    0,      FOREVER_REPORT),
];

fn check_schedule(
    rt: &impl Abort,
    alloc: Global,
    shows: &str,
    schedule: &[u8],
    entered: u32,
    status: u8,
    text: &str,
) -> Result<(), Fail> {
    let wanted = format!(in alloc; "status {status} entered {entered} calls 3 faults 0\n{text}")?;
    let image = image_of(alloc, &FOREVER)?;
    let mut shelf = sample_shelf(alloc, &image, schedule)?;
    check(rt, shows, &told(alloc, &RUN, &mut shelf, &[])?, &wanted);
    Ok(())
}

#[test]
fn schedules(rt: HostRuntime) -> Result<(), Fail> {
    for (schedule, entered, status, text) in SCHEDULES.as_slice() {
        let bytes = schedule.as_bytes();
        check_schedule(&rt, rt.alloc(), schedule, bytes, *entered, *status, text)?;
    }
    Ok(())
}

/// As many events as a schedule may have are all run, and one more is refused.
#[test]
fn a_million_events(rt: HostRuntime) -> Result<(), Fail> {
    let alloc = rt.alloc();
    let mut schedule = steps(alloc, 1_000_000)?;
    check_schedule(
        &rt,
        alloc,
        "a million",
        &schedule,
        1_000_000,
        0,
        FOREVER_REPORT,
    )?;
    schedule.extend_from_slice(b"s 0 0\n")?;
    let refusal = "bad schedule line 1000001 rule 5\n";
    check_schedule(&rt, alloc, "a million and one", &schedule, 0, 8, refusal)
}

/// Lengths of the files in bytes, 0 for a configuration that is the sample and others for a comment, and the answer.
#[rattlefmt::skip]
static LIMITS: [(&str, usize, usize, usize, &str); 6] = [
    // shows                     config  image   schedule    answer
    ("a configuration too long", 65_537, 8,      0,          "status 4 entered 0 calls 1 faults 0\ntoo long config limit 65536\n"),
    ("one just not too long",    65_536, 8,      0,          "status 6 entered 0 calls 1 faults 0\nbad shape version\n"),
    ("an image too long",        0,      32_769, 0,          "status 4 entered 0 calls 2 faults 0\ntoo long image 0 limit 32768\n"),
    ("one just not too long",    0,      32_768, 0,          "status 0 entered 0 calls 3 faults 0\nvm a\ncore 0 on\npc 0000000000100000\npstate 000003c5\nconsole 0=\nend a\ndone\n"),
    ("a schedule too long",      0,      8,      33_554_433, "status 4 entered 0 calls 3 faults 0\ntoo long schedule limit 33554432\n"),
    ("one just not too long",    0,      8,      33_554_432, "status 8 entered 0 calls 3 faults 0\nbad schedule line 1 rule 1\n"),
];

fn check_limit(
    rt: &impl Abort,
    alloc: Global,
    shows: &str,
    lengths: [usize; 3],
    wanted: &str,
) -> Result<(), Fail> {
    let [config, image, schedule] = lengths;
    let config = if config == 0 {
        ONE_VM.as_bytes().to_vec(alloc)?
    } else {
        vec![in alloc; b'#'; config]?
    };
    let image = vec![in alloc; 0u8; image]?;
    let schedule = vec![in alloc; b'#'; schedule]?;
    let mut shelf = shelf_of(alloc, &config, &image, &schedule, &[])?;
    check(rt, shows, &told(alloc, &RUN, &mut shelf, &[])?, wanted);
    Ok(())
}

#[test]
fn limits(rt: HostRuntime) -> Result<(), Fail> {
    for (shows, config, image, schedule, wanted) in LIMITS.as_slice() {
        check_limit(&rt, rt.alloc(), shows, [*config, *image, *schedule], wanted)?;
    }
    Ok(())
}

/// The call of the shelf that fails and the answer. A sink that fails at the line leaves the status.
static FAILING_CALLS: [(&[u32], &[u32], &str); 7] = [
    (
        &[1],
        &[],
        "status 3 entered 0 calls 1 faults 1\nread fault config\n",
    ),
    (
        &[2],
        &[],
        "status 3 entered 0 calls 2 faults 1\nread fault image 0\n",
    ),
    (
        &[3],
        &[],
        "status 3 entered 0 calls 3 faults 1\nread fault schedule\n",
    ),
    (&[1], &[1], "status 3 entered 0 calls 1 faults 1\n"),
    (&[2], &[1], "status 3 entered 0 calls 2 faults 1\n"),
    (&[3], &[1], "status 3 entered 0 calls 3 faults 1\n"),
    // A fourth call isn't made.
    (&[4], &[1], "status 9 entered 1 calls 3 faults 0\n"),
];

fn check_failing(
    rt: &impl Abort,
    alloc: Global,
    calls: &[u32],
    puts: &[u32],
    wanted: &str,
) -> Result<(), Fail> {
    let image = image_of(alloc, &FIVE)?;
    let mut shelf = shelf_of(alloc, ONE_VM.as_bytes(), &image, b"s 0 0\n", calls)?;
    check(rt, wanted, &told(alloc, &RUN, &mut shelf, puts)?, wanted);
    Ok(())
}

#[test]
fn a_shelf_that_fails(rt: HostRuntime) -> Result<(), Fail> {
    for (calls, puts, wanted) in FAILING_CALLS.as_slice() {
        check_failing(&rt, rt.alloc(), calls, puts, wanted)?;
    }
    Ok(())
}

/// Words of a run over a shelf whose third call fails, and the answer: a schedule that is missing, and schedules that have
/// the name of another file, of which the first file of the name is told.
#[rattlefmt::skip]
static FAILING_NAMES: [(&[&str], &str); 4] = [
    (&["run", "config.toml", "other.txt"],    "status 3 entered 0 calls 3 faults 1\nread fault schedule\n"),
    (&["run", "config.toml", "config.toml"],  "status 3 entered 0 calls 3 faults 1\nread fault config\n"),
    (&["run", "config.toml", "a.bin"],        "status 3 entered 0 calls 3 faults 1\nread fault image 0\n"),
    (&["run", "config.toml", "schedule.txt"], "status 3 entered 0 calls 3 faults 1\nread fault schedule\n"),
];

fn check_name(rt: &impl Abort, alloc: Global, words: &[&str], wanted: &str) -> Result<(), Fail> {
    let image = image_of(alloc, &FIVE)?;
    let shows = format!(in alloc; "{words:?}")?;
    let mut shelf = shelf_of(alloc, ONE_VM.as_bytes(), &image, b"", &[3])?;
    check(rt, &shows, &told(alloc, words, &mut shelf, &[])?, wanted);
    Ok(())
}

#[test]
fn files_that_fail_by_name(rt: HostRuntime) -> Result<(), Fail> {
    for (words, wanted) in FAILING_NAMES.as_slice() {
        check_name(&rt, rt.alloc(), words, wanted)?;
    }
    Ok(())
}

/// A file that isn't there is a fault too, with no call that is to fail.
#[test]
fn a_file_that_is_missing(rt: HostRuntime) -> Result<(), Fail> {
    let alloc = rt.alloc();
    let mut shelf = sample_shelf(alloc, b"", b"")?;
    let told = told(alloc, &["run", "config.toml", "other.txt"], &mut shelf, &[])?;
    let wanted = "status 3 entered 0 calls 3 faults 1\nread fault schedule\n";
    check(&rt, "a schedule that is missing", &told, wanted);
    Ok(())
}

/// The puts of the report of `FIVE` after one step, in order.
static PUTS: [&str; 10] = [
    "vm a\n",
    "core 0 on\n",
    "pc 0000000000100004\n",
    "pstate 000003c5\n",
    "x0 0000000000000005\n",
    "console 0=",
    "\n",
    "m 0000000000100000 a00080d2000000140000000000000000\n",
    "end a\n",
    "done\n",
];

/// A sink that fails at the put of this number, from 1, has taken all those before it.
fn check_failing_put(rt: &impl Abort, alloc: Global, put: u32, taken: &str) -> Result<(), Fail> {
    let wanted = format!(in alloc; "status 9 entered 1 calls 3 faults 0\n{taken}")?;
    check_failing(rt, alloc, &[], &[put], &wanted)
}

#[test]
fn a_sink_that_fails(rt: HostRuntime) -> Result<(), Fail> {
    let alloc = rt.alloc();
    let mut taken = String::new(alloc);
    let mut put = 1;
    for part in PUTS.as_slice() {
        check_failing_put(&rt, alloc, put, &taken)?;
        taken.push_str(part)?;
        put = put.saturating_add(1);
    }
    // An eleventh put isn't made.
    let wanted = format!(in alloc; "status 0 entered 1 calls 3 faults 0\n{taken}")?;
    check_failing(&rt, alloc, &[], &[11], &wanted)
}

/// A shelf that never fails, with the sample, `FIVE` and three steps.
fn sure_shelf(alloc: Global) -> Result<SureShelf, Fail> {
    let names = vec![in alloc;
        String::from_str(alloc, "config.toml")?,
        String::from_str(alloc, "a.bin")?,
        String::from_str(alloc, "schedule.txt")?,
    ]?;
    let contents = vec![in alloc;
        ONE_VM.as_bytes().to_vec(alloc)?,
        image_of(alloc, &FIVE)?,
        b"s 0 0\ns 0 1\ns 0 2\n".to_vec(alloc)?,
    ]?;
    Ok(SureShelf::new(alloc, names, contents))
}

/// The status of a run over it, and below that the text that the sink took.
fn told_surely(alloc: Global) -> Result<String, Fail> {
    let mut shelf = sure_shelf(alloc)?;
    let mut sink = MemSink::new(alloc, 4096, Vec::new(alloc))?;
    let words = strings(alloc, &RUN)?;
    let number = play(alloc, &words, &mut shelf, &mut sink)?.status.number();
    let text = std::str::from_utf8(sink.taken())?;
    Ok(format!(in alloc; "{number}\n{text}")?)
}

/// Its status, and the report of `FIVE` after three steps.
static SURELY: &str = "0
vm a
core 0 on
pc 0000000000100004
pstate 000003c5
x0 0000000000000005
console 0=
m 0000000000100000 a00080d2000000140000000000000000
end a
done
";

/// Over a shelf that never fails two runs give the same report.
#[test]
fn a_sure_shelf_and_two_runs(rt: HostRuntime) -> Result<(), Fail> {
    for shows in ["the first run", "the second"] {
        check(&rt, shows, &told_surely(rt.alloc())?, SURELY);
    }
    Ok(())
}
