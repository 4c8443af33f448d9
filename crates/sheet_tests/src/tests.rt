use paced::rack::Rack;
use plan::stages::OpenPlan;
use plan::verdict::Verdict;
use refusal::{Fault, Refusal};
use schedule::cyclic::Schedule;
use sheet::{list, read_plan};
use source::pair::Pair;
use std::alloc::{AllocError, Global};
use std::process::Abort;
use std::test::Fail;

// Whether every byte is still the one that the buffers are filled with, which no listing has.
fn untouched(bytes: &[u8]) -> bool {
    bytes.iter().all(|byte| *byte == b'#')
}

// That a sheet has this listing, and that the rest of the buffer stays as it was.
fn lists(rt: &impl Abort, sheet: &[u8], want: &[u8]) -> Result<(), Fail> {
    let mut buffer = [b'#'; 2056];
    let count = list(sheet, &mut buffer)?;
    assert_eq!(rt; count, want.len(), "{sheet:?}");
    assert_eq!(rt; buffer.get(0..count).unwrap_or(&[]), want, "{sheet:?}");
    assert!(rt;
        untouched(buffer.get(count..2056).unwrap_or(&[])),
        "{sheet:?}"
    );
    Ok(())
}

// That each sheet is refused with this number and line.
fn all_refused(rt: &impl Abort, heap: Global, cases: &[(u32, u32, &str)]) -> Result<(), Fail> {
    for (number, line, sheet) in cases {
        // by number, as the pages have them: a test asks the code for no layer
        let layer = match *number {
            1..=3 => "words",
            4 => "lines",
            5..=8 => "plan",
            _ => "judge",
        };
        let want = format!(in heap; "refused {number} {layer} {line}\n")?;
        lists(rt, sheet.as_bytes(), want.as_bytes())?;
    }
    Ok(())
}

// A byte that is none of a sheet, or a last line without a line feed, comes before all else that is wrong with the line.
#[test]
fn foreign_bytes(rt: HostRuntime) -> Result<(), Fail> {
    let cases = [
        (2, 1, "Cycle 12\n"),
        (2, 1, "cycLe 12\n"),
        (2, 1, "cycle\t12\n"),
        (2, 1, "cycle 12\r\n"),
        (2, 1, "cycle -12\n"),
        (2, 1, "cycle 1,000\n"),
        (2, 1, "cycle 12é\n"),
        (2, 2, "cycle 12\n# pairs\n"),
        (2, 3, "cycle 12\ntask 40 0 2 15 0 2\n\0\n"),
        (2, 1, "cycle 12"),
        (2, 2, "cycle 12\ntask 40 0 0 15 0 2"),
        (2, 2, "cycle 12\na"),
        (2, 1, "a"),
        (2, 1, " "),
        // 2 before 3
        (2, 1, "cycle 012?\n"),
        (2, 1, "?  \n"),
        (2, 1, "cycle 1000001"),
        (2, 2, "cycle 12\ncycle1A\n"),
        // 2 before 4 and 6
        (2, 1, "cycle 12 13?\n"),
        (2, 1, "cycle 0"),
    ];
    all_refused(&rt, rt.alloc(), &cases)
}

#[test]
fn bad_words(rt: HostRuntime) -> Result<(), Fail> {
    let cases = [
        (3, 1, "\n"),
        (3, 1, "\n\n"),
        (3, 2, "cycle 12\n\n"),
        (3, 2, "cycle 12\n\ntask 40 0 2 15 0 2\n"),
        (3, 1, " cycle 12\n"),
        (3, 1, "cycle 12 \n"),
        (3, 1, "cycle  12\n"),
        (3, 1, " \n"),
        (3, 1, "  \n"),
        (3, 3, "cycle 12\ntask 40 0 2 15 0 2\n \n"),
        (3, 1, "cycle12\n"),
        (3, 1, "cycle 12a\n"),
        (3, 1, "cycle a12\n"),
        (3, 1, "1cycle 12\n"),
        (3, 1, "cycle 1a2\n"),
        // 3 before 4
        (3, 1, "cycle 012 13\n"),
        (3, 1, "word 00\n"),
        (3, 1, "at 0 01\n"),
        (3, 1, "12 \n"),
        (3, 1, "cycle x 1000001\n"),
        (3, 2, "cycle 12\ncycle  12\n"),
        // 3 before 5 and 6
        (3, 2, "cycle 12\nirq 0 00 1\n"),
        (3, 2, "cycle 12\nirq 10 2 1 1 1 1 1 1 1 1 01\n"),
    ];
    all_refused(&rt, rt.alloc(), &cases)
}

#[test]
fn numbers(rt: HostRuntime) -> Result<(), Fail> {
    let cases = [
        (6, 1, "cycle 0\n"),
        (9, 0, "cycle 1\n"),
        (9, 0, "cycle 999999\n"),
        (9, 0, "cycle 1000000\n"),
        (3, 1, "cycle 1000001\n"),
        (3, 1, "cycle 2000000\n"),
        (3, 1, "cycle 9999999\n"),
        (3, 1, "cycle 4294967297\n"),
        (3, 1, "cycle 18446744073709551617\n"),
        (3, 1, "cycle 99999999999999999999\n"),
        (3, 1, "cycle 00000000000000000001\n"),
        (3, 1, "cycle 340282366920938463463374607431768211457\n"),
        (3, 1, "cycle 00\n"),
        (3, 1, "cycle 01\n"),
        (9, 0, "cycle 10\n"),
        (3, 1, "cycle 000000\n"),
        (9, 0, "cycle 12\nat 0 1000000\n"),
        (3, 2, "cycle 12\nat 0 1000001\n"),
        (9, 0, "cycle 12\nirq 1000000 999999 1000000\n"),
        (3, 2, "cycle 12\nirq 1000000 1000001 1\n"),
        (7, 2, "cycle 12\nirq 1000000 1000000 1\n"),
        (3, 2, "cycle 12\ntask 40 0 1000001 15 0 2\n"),
        (10, 2, "cycle 12\ntask 40 0 1000000 15 0 2\n"),
    ];
    all_refused(&rt, rt.alloc(), &cases)
}

#[test]
fn bad_lines(rt: HostRuntime) -> Result<(), Fail> {
    let cases = [
        (4, 1, ""),
        (4, 1, "x\n"),
        (4, 1, "12\n"),
        (4, 1, "12 cycle\n"),
        (4, 1, "cycles 12\n"),
        (4, 1, "cycl 12\n"),
        (4, 1, "a 0 3\n"),
        (4, 1, "cycle\n"),
        (4, 1, "cycle 12 13\n"),
        (4, 1, "cycle x\n"),
        (4, 1, "cycle cycle\n"),
        (4, 1, "cycle 12 x\n"),
        (4, 2, "cycle 12\n0 3\n"),
        (4, 2, "cycle 12\nat\n"),
        (4, 2, "cycle 12\nat 0\n"),
        (4, 2, "cycle 12\nat 0 3 1\n"),
        (4, 2, "cycle 12\nat 0 x\n"),
        (4, 2, "cycle 12\nirq\n"),
        (4, 2, "cycle 12\nirq 10\n"),
        (4, 2, "cycle 12\nirq 10 2\n"),
        (4, 2, "cycle 12\nirq 10 2 x\n"),
        (4, 2, "cycle 12\nirq 10 2 1 x\n"),
        (4, 2, "cycle 12\ntask\n"),
        (4, 2, "cycle 12\ntask 40 0 0 15 0\n"),
        (4, 2, "cycle 12\ntask 40 0 0 15 0 x\n"),
        (4, 2, "cycle 12\ntasks 40 0 0 15 0 2\n"),
    ];
    all_refused(&rt, rt.alloc(), &cases)
}

#[test]
fn line_order(rt: HostRuntime) -> Result<(), Fail> {
    let cases = [
        (4, 1, "at 0 3\n"),
        (4, 1, "irq 10 2 1\n"),
        (4, 1, "task 40 0 0 15 0 2\n"),
        (4, 1, "task 40 0 0 15 0 2\ncycle 12\n"),
        (4, 2, "cycle 12\ncycle 12\n"),
        (4, 3, "cycle 12\nat 0 3\ncycle 12\n"),
        (4, 3, "cycle 12\nirq 10 2 1\nat 0 3\n"),
        (4, 3, "cycle 12\nirq 10 2 1\ncycle 12\n"),
        (4, 3, "cycle 12\ntask 40 0 2 15 0 2\nat 0 3\n"),
        (4, 3, "cycle 12\ntask 40 0 2 15 0 2\nirq 10 2 1\n"),
        (4, 3, "cycle 12\ntask 40 0 2 15 0 2\ncycle 12\n"),
        // 4 before 5 to 8
        (4, 1, "cycle 0 0\n"),
        (4, 2, "cycle 12\ncycle 0\n"),
        (4, 2, "cycle 12\nirq 0 0\n"),
        (4, 2, "cycle 12\ntask 0 0 0 0 0\n"),
        (4, 2, "cycle 12\nat 12 0 1\n"),
        (4, 2, "cycle 12\nirq 10 10\n"),
        (4, 2, "cycle 12\nirq 10 2 1 1 1 1 1 1 1 1 1 x\n"),
        (4, 3, "cycle 12\nirq 10 2 1\nat 12 0\n"),
        (
            4,
            3,
            "cycle 12\ntask 40 0 2 15 0 2\nirq 0 0 1 1 1 1 1 1 1 1 1\n",
        ),
        (4, 3, "cycle 12\ntask 40 0 2 15 0 2\ntask 40 0 0 41 9\n"),
    ];
    all_refused(&rt, rt.alloc(), &cases)
}

#[test]
fn too_many_costs(rt: HostRuntime) -> Result<(), Fail> {
    let cases = [
        (9, 0, "cycle 12\nirq 10 2 1 1 1 1 1 1 1 1\n"),
        (5, 2, "cycle 12\nirq 10 2 1 1 1 1 1 1 1 1 1\n"),
        (5, 2, "cycle 12\nirq 10 2 1 1 1 1 1 1 1 1 1 1\n"),
        (5, 2, "cycle 12\ntask 40 0 0 15 0 1 1 1 1 1 1 1 1 1\n"),
        // 5 before 6 to 8
        (5, 2, "cycle 12\nirq 10 2 1 1 1 1 1 1 1 1 0\n"),
        (5, 2, "cycle 12\nirq 0 2 1 1 1 1 1 1 1 1 1\n"),
        (5, 2, "cycle 12\nirq 10 10 1 1 1 1 1 1 1 1 1\n"),
        (5, 2, "cycle 12\ntask 0 0 0 0 0 0 0 0 0 0 0 0 0 0\n"),
        (5, 2, "cycle 12\ntask 40 0 0 41 0 1 1 1 1 1 1 1 1 1\n"),
        (
            5,
            3,
            "cycle 12\ntask 40 0 2 15 0 2\ntask 40 0 0 40 3 1 1 1 1 1 1 1 1 1\n",
        ),
    ];
    all_refused(&rt, rt.alloc(), &cases)
}

#[test]
fn out_of_range(rt: HostRuntime) -> Result<(), Fail> {
    let cases = [
        (6, 1, "cycle 0\n"),
        (6, 2, "cycle 12\nat 0 0\n"),
        (6, 3, "cycle 12\nat 0 3\nat 5 0\n"),
        (6, 2, "cycle 12\nirq 0 0 1\n"),
        (6, 2, "cycle 12\nirq 10 0 0\n"),
        (6, 2, "cycle 12\nirq 10 2 1 0 1\n"),
        (6, 2, "cycle 12\nirq 10 2 1 1 1 1 1 1 1 0\n"),
        (6, 2, "cycle 12\ntask 0 0 0 1 0 1\n"),
        (6, 2, "cycle 12\ntask 40 0 0 0 0 2\n"),
        (6, 2, "cycle 12\ntask 40 0 0 15 0 0\n"),
        (6, 2, "cycle 12\ntask 40 0 0 15 0 2 0\n"),
        // 6 before 7 and 8
        (6, 2, "cycle 12\nat 12 0\n"),
        (6, 3, "cycle 12\nat 3 1\nat 3 0\n"),
        (6, 2, "cycle 12\nirq 0 5 1\n"),
        (6, 2, "cycle 12\nirq 10 10 0\n"),
        (6, 2, "cycle 12\ntask 40 40 0 0 0 2\n"),
        (6, 2, "cycle 12\ntask 40 0 0 41 0 0\n"),
        (6, 3, "cycle 12\ntask 40 0 2 15 0 2\ntask 40 0 0 15 3 0\n"),
        (6, 3, "cycle 12\ntask 40 0 2 15 0 2\ntask 40 0 0 41 3 0\n"),
    ];
    all_refused(&rt, rt.alloc(), &cases)
}

#[test]
fn misfits(rt: HostRuntime) -> Result<(), Fail> {
    let cases = [
        (9, 0, "cycle 12\nat 11 3\n"),
        (7, 2, "cycle 12\nat 12 3\n"),
        (7, 2, "cycle 12\nat 13 3\n"),
        (9, 0, "cycle 1\nat 0 1\n"),
        (7, 2, "cycle 1\nat 1 1\n"),
        (9, 0, "cycle 12\nat 5 2\nat 6 2\n"),
        (7, 3, "cycle 12\nat 5 2\nat 5 2\n"),
        (7, 3, "cycle 12\nat 5 2\nat 4 2\n"),
        (7, 3, "cycle 12\nat 0 2\nat 0 2\n"),
        (9, 0, "cycle 12\nirq 10 9 1\n"),
        (7, 2, "cycle 12\nirq 10 10 1\n"),
        (7, 2, "cycle 12\nirq 10 11 1\n"),
        (7, 2, "cycle 12\ntask 40 40 0 1 0 1\n"),
        (7, 2, "cycle 12\ntask 40 41 0 1 0 1\n"),
        (7, 2, "cycle 12\ntask 40 5 0 36 0 2\n"),
        (7, 2, "cycle 12\ntask 40 0 0 41 0 2\n"),
        // 7 before 8
        (7, 3, "cycle 12\ntask 40 0 2 15 0 2\ntask 60 0 0 61 3 2\n"),
        (7, 3, "cycle 12\ntask 40 0 2 15 0 2\ntask 60 60 0 1 3 2\n"),
    ];
    all_refused(&rt, rt.alloc(), &cases)
}

// A hold is set against the blocking of every earlier task, and not against that of its own.
#[test]
fn holds(rt: HostRuntime) -> Result<(), Fail> {
    let cases = [
        (8, 3, "cycle 12\ntask 40 0 2 15 0 2\ntask 60 0 9 40 3 2\n"),
        (
            8,
            4,
            "cycle 12\ntask 40 0 5 15 0 2\ntask 40 0 2 15 0 2\ntask 60 0 0 60 3 2\n",
        ),
        (
            8,
            4,
            "cycle 12\ntask 40 0 2 15 0 2\ntask 40 0 5 15 0 2\ntask 60 0 0 60 3 2\n",
        ),
        (8, 3, "cycle 12\ntask 40 0 0 15 9 2\ntask 60 0 0 60 1 2\n"),
    ];
    all_refused(&rt, rt.alloc(), &cases)
}

// What the judge refuses comes after the last line.
#[test]
fn judged(rt: HostRuntime) -> Result<(), Fail> {
    let cases = [
        (9, 0, "cycle 12\n"),
        (9, 0, "cycle 12\nat 0 3\n"),
        (9, 0, "cycle 12\nirq 10 2 1\n"),
        (9, 0, "cycle 12\nat 0 3\nirq 10 2 1\n"),
        (10, 2, "cycle 12\ntask 40 0 0 1 0 2\n"),
        (
            10,
            3,
            "cycle 12\ntask 40 0 0 2 0 2\ntask 40 0 0 3 0 2\ntask 40 0 0 5 0 2\n",
        ),
        (10, 4, "cycle 12\nat 0 3\nirq 10 2 1\ntask 40 0 0 5 0 2\n"),
        (10, 3, "cycle 1\nat 0 1\ntask 1000000 0 0 1000000 0 1\n"),
        (
            10,
            4,
            "cycle 1\nat 0 1000000\nirq 1 0 1000000\ntask 1000000 0 1000000 1000000 0 1000000\n",
        ),
        // a line after a task that has no window, or after none
        (8, 3, "cycle 12\ntask 40 0 0 1 0 2\ntask 40 0 0 15 1 2\n"),
        (6, 3, "cycle 12\ntask 40 0 0 1 0 2\ntask 0 0 0 1 0 1\n"),
        (3, 3, "cycle 12\ntask 40 0 0 1 0 2\n\n"),
        (2, 3, "cycle 12\ntask 40 0 0 1 0 2\na"),
        (6, 2, "cycle 12\nat 0 0\n"),
        (2, 2, "cycle 12\n "),
    ];
    all_refused(&rt, rt.alloc(), &cases)
}

// The first faulty line decides, whatever the numbers.
#[test]
fn first_line_first(rt: HostRuntime) -> Result<(), Fail> {
    let cases = [
        (6, 1, "cycle 0\n\n"),
        (6, 1, "cycle 0\nA"),
        (4, 1, "cycle 12 13\nA\n"),
        (3, 1, "\nA\n"),
        (7, 2, "cycle 12\nat 12 3\nat 0 0\n"),
        (7, 2, "cycle 12\nirq 10 10 1\nirq 10 2 1 1 1 1 1 1 1 1 1\n"),
        (5, 2, "cycle 12\nirq 10 2 1 1 1 1 1 1 1 1 1\nat 0 3\n"),
        (
            8,
            3,
            "cycle 12\ntask 40 0 2 15 0 2\ntask 60 0 0 60 3 2\nx\n",
        ),
        (6, 3, "cycle 12\nat 0 3\nirq 0 0 1\n12\n"),
    ];
    all_refused(&rt, rt.alloc(), &cases)
}

#[test]
fn accepted(rt: HostRuntime) -> Result<(), Fail> {
    let cases = [
        (
            "cycle 12\nat 0 3\nat 5 2\nirq 10 2 1\ntask 40 0 2 15 0 2\ntask 60 5 0 40 2 3 1\n",
            "accepted 2\npart 1 load 1000\npart 2 load 4167\ntask 1 bound 11 deadline 15 load 500\ntask 2 bound 12 deadline 40 load 334\n",
        ),
        (
            "cycle 1\ntask 1 0 0 1 0 1\n",
            "accepted 1\npart 1 load 0\ntask 1 bound 1 deadline 1 load 10000\n",
        ),
        (
            "cycle 12\nat 0 3\nat 10 2\ntask 40 0 0 40 0 1\n",
            "accepted 1\npart 1 load 4167\ntask 1 bound 6 deadline 40 load 250\n",
        ),
        (
            "cycle 3\nirq 5 0 4 1 1 3\ntask 90 0 0 90 0 1\n",
            "accepted 1\npart 1 load 4500\npart 2 load 0\ntask 1 bound 5 deadline 90 load 112\n",
        ),
        (
            "cycle 1000000\nat 999999 1\nirq 1000000 999999 1\ntask 1000000 0 0 1000000 0 999997\n",
            "accepted 1\npart 1 load 1\npart 2 load 1\ntask 1 bound 1000000 deadline 1000000 load 10000\n",
        ),
        (
            "cycle 12\ntask 40 0 0 15 0 1 1 1 1 1 1 1 1\n",
            "accepted 1\npart 1 load 0\ntask 1 bound 1 deadline 15 load 250\n",
        ),
        (
            "cycle 12\ntask 40 39 0 1 0 1\n",
            "accepted 1\npart 1 load 0\ntask 1 bound 1 deadline 1 load 250\n",
        ),
        (
            "cycle 12\ntask 40 5 0 35 0 2\n",
            "accepted 1\npart 1 load 0\ntask 1 bound 2 deadline 35 load 500\n",
        ),
        (
            "cycle 12\ntask 40 0 2 15 0 2\ntask 60 0 0 60 2 2\n",
            "accepted 2\npart 1 load 0\ntask 1 bound 4 deadline 15 load 500\ntask 2 bound 4 deadline 60 load 334\n",
        ),
        (
            "cycle 12\ntask 40 0 0 15 9 2\n",
            "accepted 1\npart 1 load 0\ntask 1 bound 2 deadline 15 load 500\n",
        ),
    ];
    for (sheet, want) in cases {
        lists(&rt, sheet.as_bytes(), want.as_bytes())?;
    }
    Ok(())
}

// Every byte in the place of a number.
#[test]
fn every_byte(rt: HostRuntime) -> Result<(), Fail> {
    for byte in 0..=255u8 {
        let want = match byte {
            b'0' => "refused 6 plan 1\n",
            b'1'..=b'9' => "refused 9 judge 0\n",
            b'a'..=b'z' => "refused 4 lines 1\n",
            b' ' | b'\n' => "refused 3 words 1\n",
            _ => "refused 2 words 1\n",
        };
        let sheet = [b'c', b'y', b'c', b'l', b'e', b' ', byte, b'\n'];
        lists(&rt, &sheet, want.as_bytes())?;
    }
    Ok(())
}

#[test]
fn long_sheets(rt: HostRuntime) -> Result<(), Fail> {
    lists(&rt, &[b'a'; 16384], b"refused 2 words 1\n")?;
    lists(&rt, &[b'a'; 16385], b"refused 1 words 0\n")?;
    lists(&rt, &[b'\n'; 16384], b"refused 3 words 1\n")?;
    lists(&rt, &[b'\n'; 16385], b"refused 1 words 0\n")?;
    lists(&rt, &[b'?'; 16385], b"refused 1 words 0\n")
}

// Some interrupts or tasks with the same words, and a cost of 1 that often.
fn add_lines(sheet: &mut String, lines: u32, words: &str, costs: u32) -> Result<(), AllocError> {
    for _ in 0..lines {
        sheet.push_str(words)?;
        for _ in 0..costs {
            sheet.push_str(" 1")?;
        }
        sheet.push_str("\n")?;
    }
    Ok(())
}

// A sheet of that many pairs, interrupts and tasks.
fn sheet_of(heap: Global, pairs: u32, irqs: u32, tasks: u32) -> Result<String, AllocError> {
    let mut sheet = format!(in heap; "cycle 1000000\n")?;
    for offset in 0..pairs {
        let pair = format!(in heap; "at {offset} 1\n")?;
        sheet.push_str(&pair)?;
    }
    add_lines(&mut sheet, irqs, "irq 1000 0", 1)?;
    add_lines(&mut sheet, tasks, "task 1000 0 0 1000 0", 1)?;
    Ok(sheet)
}

// One line after that many pairs, interrupts and tasks.
#[test]
fn too_many_lines(rt: HostRuntime) -> Result<(), Fail> {
    let cases = [
        (64, 0, 0, "", "refused 9 judge 0\n"),
        (64, 0, 0, "at 64 1\n", "refused 5 plan 66\n"),
        (64, 0, 0, "at 64 1 1\n", "refused 4 lines 66\n"),
        (64, 0, 0, "at 64 0\n", "refused 5 plan 66\n"),
        (64, 0, 0, "at 0 1\n", "refused 5 plan 66\n"),
        (64, 0, 0, "at 1000000 1\n", "refused 5 plan 66\n"),
        (63, 0, 0, "at 1000000 1\n", "refused 7 plan 65\n"),
        (0, 8, 0, "", "refused 9 judge 0\n"),
        (0, 8, 0, "irq 1000 0 1\n", "refused 5 plan 10\n"),
        (0, 8, 0, "irq 0 0 1\n", "refused 5 plan 10\n"),
        (0, 8, 0, "irq 1000 0\n", "refused 4 lines 10\n"),
        (0, 7, 0, "irq 0 0 1\n", "refused 6 plan 9\n"),
        (64, 8, 0, "irq 1000 0 1\n", "refused 5 plan 74\n"),
        (0, 0, 16, "task 1000 0 0 1000 0 1\n", "refused 5 plan 18\n"),
        (0, 0, 16, "task 1000 0 0 0 0 1\n", "refused 5 plan 18\n"),
        (0, 0, 16, "task 1000 0 0 1000 1 1\n", "refused 5 plan 18\n"),
        (0, 0, 15, "task 1000 0 0 1000 1 1\n", "refused 8 plan 17\n"),
        (64, 8, 16, "task 1000 0 0 1000 0 1\n", "refused 5 plan 90\n"),
        (64, 8, 16, "at 64 1\n", "refused 4 lines 90\n"),
        (64, 8, 16, "\n", "refused 3 words 90\n"),
    ];
    for (pairs, irqs, tasks, last, want) in cases {
        let mut sheet = sheet_of(rt.alloc(), pairs, irqs, tasks)?;
        sheet.push_str(last)?;
        lists(&rt, sheet.as_bytes(), want.as_bytes())?;
    }
    Ok(())
}

// As many lines as a sheet may have. Task n needs its own unit, one of each earlier task, the 64 of the schedule, which stand
// side by side, and one of each interrupt: 72 + n in all.
#[test]
fn most_lines(rt: HostRuntime) -> Result<(), Fail> {
    let heap = rt.alloc();
    let sheet = sheet_of(heap, 64, 8, 16)?;
    let mut want = format!(in heap; "accepted 16\n")?;
    for part in 1..=8u32 {
        let line = format!(in heap; "part {part} load 10\n")?;
        want.push_str(&line)?;
    }
    want.push_str("part 9 load 1\n")?;
    for task in 1..=16u32 {
        let bound = 72 + task;
        let line = format!(in heap; "task {task} bound {bound} deadline 1000 load 10\n")?;
        want.push_str(&line)?;
    }
    lists(&rt, sheet.as_bytes(), want.as_bytes())
}

#[test]
fn many_costs(rt: HostRuntime) -> Result<(), Fail> {
    let cases = [
        (1, "refused 9 judge 0\n"),
        (8, "refused 9 judge 0\n"),
        (9, "refused 5 plan 2\n"),
        (10, "refused 5 plan 2\n"),
        (300, "refused 5 plan 2\n"),
        (8000, "refused 5 plan 2\n"),
        (9000, "refused 1 words 0\n"),
    ];
    for (costs, want) in cases {
        let mut sheet = format!(in rt.alloc(); "cycle 12\n")?;
        add_lines(&mut sheet, 1, "irq 1000 0", costs)?;
        lists(&rt, sheet.as_bytes(), want.as_bytes())?;
    }
    Ok(())
}

// A buffer that is too short is refused before anything that is wrong with the sheet.
#[test]
fn short_buffers(rt: HostRuntime) {
    let short = Err(Refusal::plain(Fault::BufferTooShort));
    let mut buffer = [b'#'; 2047];
    assert_eq!(rt; list(b"cycle 12\ntask 40 0 0 15 0 2\n", &mut buffer), short);
    assert!(rt; untouched(&buffer));
    assert_eq!(rt; list(b"?", &mut buffer), short);
    assert!(rt; untouched(&buffer));
    assert_eq!(rt; list(&[b'a'; 16385], &mut buffer), short);
    assert!(rt; untouched(&buffer));
    assert_eq!(rt; list(b"cycle 12\n", &mut []), short);
}

#[test]
fn least_buffer(rt: HostRuntime) {
    let mut buffer = [b'#'; 2048];
    assert_eq!(rt; list(b"cycle 12\n", &mut buffer), Ok(18));
    assert_eq!(rt;
        buffer.get(0..18).unwrap_or(&[]),
        b"refused 9 judge 0\n".as_slice()
    );
    assert!(rt; untouched(buffer.get(18..2048).unwrap_or(&[])));
}

// A plan over the worked bank, with a task that has the bound 11.
fn lent(rt: &impl Abort) -> Result<OpenPlan<Pair<Rack, Schedule>>, Fail> {
    let schedule = Schedule::new(1)?;
    let mut plan = OpenPlan::new(Pair::new(Rack::new(), schedule));
    let sheet = b"cycle 12\nat 0 3\nat 5 2\nirq 10 2 1\ntask 40 0 2 15 0 2\n";
    assert_eq!(rt; read_plan(sheet, &mut plan), Ok(5));
    Ok(plan)
}

// That a sheet is read into the lent plan with this answer, and how the plan is judged then: the verdict and the first of a list of
// bounds, which stays 0 if there is none.
fn reads(
    rt: &impl Abort,
    sheet: &[u8],
    answer: Result<u32, Refusal>,
    verdict: Verdict,
    bound: u32,
) -> Result<(), Fail> {
    let mut plan = lent(rt)?;
    assert_eq!(rt; read_plan(sheet, &mut plan), answer, "{sheet:?}");
    let judged = plan.judge();
    assert_eq!(rt; judged.verdict(), verdict, "{sheet:?}");
    let mut bounds = [0];
    let _ = judged.bounds(&mut bounds);
    assert_eq!(rt; bounds, [bound], "{sheet:?}");
    Ok(())
}

// A sheet that is refused leaves the plan as it was.
#[test]
fn refused_reading(rt: HostRuntime) -> Result<(), Fail> {
    let cases = [
        ("cycle 12", Fault::ForeignByte, 1, 0),
        ("cycle 12\ntask 40 0 0 15 0 02\n", Fault::BadWord, 2, 0),
        ("", Fault::BadLine, 1, 0),
        ("cycle 12\ntask 40 0 0 15 0\n", Fault::BadLine, 2, 0),
        (
            "cycle 12\nirq 9 0 1 1 1 1 1 1 1 1 1\n",
            Fault::TooMany,
            2,
            0,
        ),
        (
            "cycle 12\ntask 40 0 0 40 0 1 1 1 1 1 1 1 1 1\n",
            Fault::TooMany,
            2,
            1,
        ),
        ("cycle 0\n", Fault::OutOfRange, 1, 0),
        ("cycle 12\nirq 0 0 1\n", Fault::OutOfRange, 2, 0),
        (
            "cycle 12\nirq 9 0 1\ntask 40 0 0 40 0 1\ntask 40 0 0 0 0 1\n",
            Fault::OutOfRange,
            4,
            2,
        ),
        ("cycle 12\nat 12 3\n", Fault::Misfit, 2, 0),
        ("cycle 12\ntask 40 0 0 41 0 1\n", Fault::Misfit, 2, 1),
        (
            "cycle 12\ntask 40 0 2 15 0 2\ntask 60 0 0 60 3 2\n",
            Fault::HoldAboveBlocking,
            3,
            2,
        ),
    ];
    for (sheet, fault, line, task) in cases {
        let refusal = Refusal { fault, line, task };
        reads(
            &rt,
            sheet.as_bytes(),
            Err(refusal),
            Verdict::Accepted(1),
            11,
        )?;
    }
    let long = Refusal::plain(Fault::SheetTooLong);
    reads(&rt, &[b'a'; 16385], Err(long), Verdict::Accepted(1), 11)
}

// A sheet that is read replaces the plan, also if the judge refuses it then.
#[test]
fn good_reading(rt: HostRuntime) -> Result<(), Fail> {
    let cases = [
        ("cycle 12\n", 1, Verdict::NotJudgeable, 0),
        (
            "cycle 12\nat 0 3\nirq 10 2 1\n",
            3,
            Verdict::NotJudgeable,
            0,
        ),
        ("cycle 12\ntask 40 0 0 40 0 2\n", 2, Verdict::Accepted(1), 2),
        (
            "cycle 12\ntask 40 0 0 40 0 3\ntask 40 0 0 40 0 2\n",
            3,
            Verdict::Accepted(2),
            3,
        ),
        (
            "cycle 12\nat 0 3\ntask 40 0 0 40 0 2\ntask 40 0 0 6 0 2\n",
            4,
            Verdict::Late(2),
            0,
        ),
    ];
    for (sheet, lines, verdict, bound) in cases {
        reads(&rt, sheet.as_bytes(), Ok(lines), verdict, bound)?;
    }
    Ok(())
}
