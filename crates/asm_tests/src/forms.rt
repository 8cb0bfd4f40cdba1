//! Each line form at its bounds, and words without a form.

use crate::told::{listed, told};
use std::alloc::{AllocError, Global};
use std::process::Abort;

/// A line, and the bytes of its word as `llvm-mc` gives them for the same instruction. The word is listed as that line.
static FORMS: &str = "\
movz x0, 0, 0|000080d2
movz x30, 65535, 48|feffffd2
movz wzr, 65535, 16|ffffbf52
movn x0, 0, 0|00008092
movn x30, 65535, 48|feffff92
movn wzr, 65535, 16|ffffbf12
movk x0, 0, 0|000080f2
movk x30, 65535, 48|fefffff2
movk wzr, 65535, 16|ffffbf72
movz xzr, 1, 32|3f00c0d2
add x0, sp, 0|e0030091
add sp, x30, 4095|dfff3f91
add wsp, w30, 4095|dfff3f11
add x0, xzr, x30|e0031e8b
add w30, w0, wzr|1e001f0b
sub x0, sp, 0|e00300d1
sub sp, x30, 4095|dfff3fd1
sub wsp, w30, 4095|dfff3f51
sub x0, xzr, x30|e0031ecb
sub w30, w0, wzr|1e001f4b
and x0, xzr, x30|e0031e8a
and w30, w0, wzr|1e001f0a
orr x0, xzr, x30|e0031eaa
orr w30, w0, wzr|1e001f2a
eor x0, xzr, x30|e0031eca
eor w30, w0, wzr|1e001f4a
ldr x0, [sp, 0]|e00340f9
ldr xzr, [x30, 32760]|dfff7ff9
ldr w0, [sp, 16380]|e0ff7fb9
ldr wzr, [x0, 4]|1f0440b9
str x0, [sp, 8]|e00700f9
str xzr, [x30, 32760]|dfff3ff9
str w0, [sp, 16380]|e0ff3fb9
str wzr, [x0, 0]|1f0000b9
ldrb w0, [sp, 0]|e0034039
ldrb wzr, [x30, 4095]|dfff7f39
strb w30, [x1, 1]|3e040039
strb wzr, [sp, 4095]|ffff3f39
b 0|00000014
b 134217724|ffffff15
b -134217728|00000016
b -4|ffffff17
bl 0|00000094
bl 134217724|ffffff95
bl -134217728|00000096
bl -4|ffffff97
b.eq 8|40000054
b.ne 8|41000054
b.cs 8|42000054
b.cc 8|43000054
b.mi 8|44000054
b.pl 8|45000054
b.vs 8|46000054
b.vc 8|47000054
b.hi 8|48000054
b.ls 8|49000054
b.ge 8|4a000054
b.lt 8|4b000054
b.gt 8|4c000054
b.le 8|4d000054
b.eq 1048572|e0ff7f54
b.le -1048576|0d008054
cbz x0, 1048572|e0ff7fb4
cbz wzr, -1048576|1f008034
cbnz xzr, 4|3f0000b5
cbnz w30, -4|feffff35
br x0|00001fd6
br x30|c0031fd6
br xzr|e0031fd6
blr x0|00003fd6
blr x30|c0033fd6
blr xzr|e0033fd6
ret x0|00005fd6
ret x30|c0035fd6
ret xzr|e0035fd6
svc 0|010000d4
svc 65535|e1ff1fd4
hvc 0|020000d4
hvc 65535|e2ff1fd4
smc 0|030000d4
smc 65535|e3ff1fd4
brk 0|000020d4
brk 65535|e0ff3fd4
mrs x0, s2_0_c0_c0_0|000030d5
mrs xzr, s3_7_c15_c15_7|ffff3fd5
mrs x30, s3_3_c14_c0_2|5ee03bd5
msr s2_7_c15_c15_7, x0|e0ff17d5
msr s3_0_c4_c0_0, xzr|1f4018d5
eret|e0039fd6
nop|1f2003d5";

/// Words that no line form has, each by its bytes, and the line of the listing.
static OTHERS: &str = "\
00000000|.word 00000000
ffffffff|.word ffffffff
0e000054|.word 5400000e
0f000054|.word 5400000f
3f2003d5|.word d503203f
5f2203d5|.word d503225f
20044091|.word 91400420
200400b1|.word b1000420
2000028b|add x0, x1, x2
2004028b|.word 8b020420
2000428b|.word 8b420020
200002ab|.word ab020020
2000228b|.word 8b220020
200002ea|.word ea020020
2000228a|.word 8a220020
200402aa|.word aa020420
2000c2ca|.word cac20020
20000092|.word 92000020
20000079|.word 79000020
20004079|.word 79400020
200080b9|.word b9800020
2000c039|.word 39c00020
2000c0b9|.word b9c00020
20000010|.word 10000020
20000036|.word 36000020
20000058|.word 58000020
200840a9|.word a9400820
bf3f03d5|.word d5033fbf
bf4100d5|.word d50041bf
1f7508d5|.word d508751f
e0031fd6|br xzr
00006ad4|.word d46a0000";

fn check_form(rt: &impl Abort, alloc: Global, row: &str) -> Result<(), AllocError> {
    let said = match row.split_once('|') {
        None => "no row".to_owned(alloc)?,
        Some((line, _)) => format!(in alloc; "{line}|{}", both(alloc, line)?)?,
    };
    assert!(rt; said.as_str() == row, "{row}: {said}");
    Ok(())
}

/// The bytes of a line, where they are listed as that line.
fn both(alloc: Global, line: &str) -> Result<String, AllocError> {
    let source = format!(in alloc; "{line}\n")?;
    let bytes = told(alloc, source.as_bytes())?;
    let back = listed(alloc, bytes.as_str())?;
    if back.as_str() == source.as_str() {
        Ok(bytes)
    } else {
        Ok(back)
    }
}

fn check_other(rt: &impl Abort, alloc: Global, row: &str) -> Result<(), AllocError> {
    let said = match row.split_once('|') {
        None => "no row".to_owned(alloc)?,
        Some((bytes, _)) => format!(in alloc;
            "{bytes}|{}",
            listed(alloc, bytes)?.as_str().trim_end()
        )?,
    };
    assert!(rt; said.as_str() == row, "{row}: {said}");
    Ok(())
}

#[test]
fn forms(rt: HostRuntime) -> Result<(), AllocError> {
    for row in FORMS.lines() {
        check_form(&rt, rt.alloc(), row)?;
    }
    Ok(())
}

#[test]
fn words_without_a_form(rt: HostRuntime) -> Result<(), AllocError> {
    for row in OTHERS.lines() {
        check_other(&rt, rt.alloc(), row)?;
    }
    Ok(())
}
