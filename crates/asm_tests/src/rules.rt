//! Sources that break rules, and some that break none.

use crate::told::{told, with_ends};
use std::alloc::{AllocError, Global};
use std::process::Abort;

/// Sources, each with its bytes, or with the first line that breaks a rule and the rule. `~` stands for the end of a line.
static SOURCES: &str = "\
|
~;~; any bytes \r\t\\\"~|
movz x0, 5, 0~here:~b here~|a00080d200000014
b -0~|00000014
b here~here:~|01000014
here:~nop~b here~|1f2003d5ffffff17
here:~~; b~there:~b here~b there~|00000014ffffff17
b x0~x0:~|01000014
cbz w1, s3_0_c0_c0_0~s3_0_c0_c0_0:~|21000034
A:~a:~b.eq A~|00000054
abcdefghijklmnopqrstuvwxyz_01234:~|
.word 00000000~.word deadbeef~|00000000efbeadde
movz x0, 5, 0|line 1 rule 1
x:|line 1 rule 1
;|line 1 rule 1
nop~~x:~nop|line 4 rule 1
b x~x:|line 1 rule 3
movz x0, 5, 0\r~|line 1 rule 1
movz\tx0, 5, 0~|line 1 rule 1
b a~A:~|line 1 rule 3
b a~a:|line 1 rule 3
a:~a:~|line 2 rule 4
a:~nop~~a:~|line 4 rule 4
a:~b:~a:~b:~|line 3 rule 4
a:~nop~a:~b a~|line 3 rule 4
b there~movz x0, 65536, 0~|line 1 rule 3
nop~movz x0, 65536, 0~q~|line 2 rule 2
a:~a:~q~|line 2 rule 4
q~a:~a:~|line 1 rule 1
~;~~b there~|line 4 rule 3
a:~b b~a:~|line 2 rule 3
a:~a:~b b~|line 2 rule 4
a:~a:~movz x0, 65536, 0~|line 2 rule 4
svc 65536~a:~a:~|line 1 rule 2
a:~a:|line 2 rule 1
a:~a:~a:~|line 2 rule 4
b b~movz x0, 65536, 0~q~|line 1 rule 3
b 2~b b~a:~a:~|line 1 rule 2
movz x0, 5, 0 ~|line 1 rule 1
movz x0, 5, ~|line 1 rule 1
movz ~|line 1 rule 1
b ~|line 1 rule 1
br x0 ~|line 1 rule 1
brk 1 ~|line 1 rule 1
eret ~|line 1 rule 1
.word ~|line 1 rule 1
a: ~|line 1 rule 1";

/// Lines that have no form. The line's end stands after each.
static NO_FORM: &str = "\
movz x0,5, 0
movz  x0, 5, 0
 movz x0, 5, 0
movz x0, 5,0
movz x0, 5 , 0
movz x0, 05, 0
movz x0, 00, 0
movz x0, +5, 0
movz x0, -5, 0
movz x0, #5, 0
movz x0, , 0
movz x31, 5, 0
movz x00, 5, 0
movz sp, 5, 0
movz X0, 5, 0
movz q0, 5, 0
movz x, 5, 0
movz x0, 5
movz x0, 5, 0, 0
movz
MOVZ x0, 5, 0
movs x0, 5, 0
add x0, w1, 5
add x0, xzr, 5
add xzr, x0, 5
add sp, x0, x1
add x0, sp, x1
add x0, x1, sp
add x0, x1, w2
add x0, w1, x2
add x0, x1, -1
add x0, x1
adds x0, x1, x2
and x0, x1, 5
and sp, x0, x1
ands x0, x1, x2
eor x0, x1, w2
ldr x0, [xzr, 0]
ldr x0, [w1, 0]
ldr x0, [wsp, 0]
ldr sp, [x0, 0]
ldr x0, [x1]
ldr x0, [x1, 0
ldr x0, x1, 0]
ldr x0, [x1,0]
ldr x0, [x1, 0]]
ldr x0, [x1, -8]
ldrb x0, [x1, 0]
strb xzr, [x1, 0]
ldrh w0, [x1, 0]
b.al 0
b.nv 0
b.hs 0
b. 0
b +4
b
b 04
b -04
b --4
b -
b here there
b a-b
cbz sp, 0
cbz x0,0
cbz 4
cbz x0, 0, 0
br w0
br sp
br wzr
ret
ret x30, x30
svc
svc #1
svc 0x1
svc -1
mrs w0, s3_0_c0_c0_0
mrs sp, s3_0_c0_c0_0
mrs x0, S3_0_c0_c0_0
mrs x0, s3_0_C0_c0_0
mrs x0, s3_0_0_c0_0
mrs x0, s3_0_c0_c0
mrs x0, s3_0_c0_c0_0_0
mrs x0, s03_0_c0_c0_0
mrs x0, s3_0_c0_c0_
mrs s3_0_c0_c0_0, x0
msr x0, s3_0_c0_c0_0
msr s3_0_c0_c0_0, w0
eret x0
nop x0
nops
.word 0000000
.word 000000000
.word 0000000g
.word 0000000A
.word
.word 0x000000
.long 00000000
1a:
_a:
a b:
a::
a-b:
:
a:b
 a:
abcdefghijklmnopqrstuvwxyz_012345:";

/// Lines with a number that their form doesn't admit: one past each bound, and more.
static NO_NUMBER: &str = "\
movz x0, 65536, 0
movn x0, 65536, 0
movk w0, 65536, 0
movz x0, 0, 8
movz x0, 0, 47
movz x0, 0, 64
movz w0, 0, 32
movz w0, 0, 48
movz x0, 18446744073709551616, 0
movz x0, 340282366920938463463374607431768211456, 0
movz x0, 0, 18446744073709551616
add x0, x1, 4096
sub wsp, w1, 4096
ldr x0, [x1, 32768]
ldr x0, [x1, 4]
ldr w0, [x1, 16384]
ldr w0, [x1, 2]
str x0, [sp, 32764]
str w0, [sp, 1]
ldrb w0, [x1, 4096]
strb w0, [x1, 4096]
b 134217728
b -134217732
b 2
b -2
bl 134217728
bl -134217732
b.eq 1048576
b.le -1048580
cbz x0, 1048576
cbnz w0, -1048580
b 18446744073709551616
b -18446744073709551612
svc 65536
hvc 65536
smc 65536
brk 65536
mrs x0, s1_0_c0_c0_0
mrs x0, s4_0_c0_c0_0
mrs x0, s3_8_c0_c0_0
mrs x0, s3_0_c16_c0_0
mrs x0, s3_0_c0_c16_0
mrs x0, s3_0_c0_c0_8
msr s3_0_c0_c0_8, x0
mrs x0, s258_0_c0_c0_0
movn w0, 0, 32
movk x0, 0, 1
sub x0, x1, 4096
add wsp, w1, 4096
str x0, [x1, 32768]
str w0, [sp, 16384]
ldrb w0, [sp, 65536]
cbz w0, -1048580
cbnz x0, 1048576
b.eq 1048574
cbz x0, 6
b.gt 1048576
msr s1_7_c15_c15_7, x0
msr s3_8_c15_c15_7, x0
msr s2_7_c16_c15_7, x0
msr s2_7_c15_c16_7, x0";

/// Lines that name a label which no line defines.
static NO_LABEL: &str = "\
b there
bl there
b.eq there
cbz x0, there
cbnz wzr, there
b x0";

/// Lines that have no form, and break another rule as well.
static TWO_RULES: &str = "\
movz x31, 65536, 0
cbz sp, there
cbz x0,there
ldr x0, [w1, 32768]
movz x0, 65536
add x0, xzr, 4096
ldr w0, [x1,2]
mrs w0, s4_0_c0_c0_0
b there there
cbnz w31, 1048576";

fn check_source(
    rt: &impl Abort,
    alloc: Global,
    source: &str,
    want: &str,
) -> Result<(), AllocError> {
    let said = told(alloc, with_ends(alloc, source)?.as_bytes())?;
    assert!(rt; said.as_str() == want, "{source}: {said}");
    Ok(())
}

fn check_row(rt: &impl Abort, alloc: Global, row: &str) -> Result<(), AllocError> {
    match row.split_once('|') {
        None => check_source(rt, alloc, row, "a row of two cells"),
        Some((source, want)) => check_source(rt, alloc, source, want),
    }
}

/// Each line breaks this rule first.
fn check_lines(rt: &impl Abort, alloc: Global, lines: &str, want: &str) -> Result<(), AllocError> {
    for line in lines.lines() {
        check_source(rt, alloc, format!(in alloc; "{line}~")?.as_str(), want)?;
    }
    Ok(())
}

#[test]
fn sources(rt: HostRuntime) -> Result<(), AllocError> {
    for row in SOURCES.lines() {
        check_row(&rt, rt.alloc(), row)?;
    }
    Ok(())
}

#[test]
fn lines(rt: HostRuntime) -> Result<(), AllocError> {
    let alloc = rt.alloc();
    check_lines(&rt, alloc, NO_FORM, "line 1 rule 1")?;
    check_lines(&rt, alloc, NO_NUMBER, "line 1 rule 2")?;
    check_lines(&rt, alloc, NO_LABEL, "line 1 rule 3")?;
    check_lines(&rt, alloc, TWO_RULES, "line 1 rule 1")
}
