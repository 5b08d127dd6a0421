//! Stored programs, read: answers, the line of each refusal, and the cells that a read leaves.

use crate::making::{KIND_MARK, MARK, front_of, kinds, starts_with, terms};
use reader::read;
use std::alloc::Global;
use std::process::Abort;
use std::test::Fail;

// The counts of an accepted read, or the number and the line of a refused one.
type Verdict = Result<(usize, usize), (u16, usize)>;

// A text, the cells of the two tables, the verdict, and the cells that are left in them.
#[derive(Drop)]
struct Case<'a>(&'a str, (usize, usize), Verdict, &'a str, &'a str);

const TYPE_ROOM: usize = 300;

const TERM_ROOM: usize = 600;

// Reads a text into marked tables of so many cells, and checks the verdict and every cell.
fn reads(rt: &impl Abort, heap: Global, case: &Case) -> Result<(), Fail> {
    let Case(text, room, want, kinds_left, terms_left) = case;
    let mut types = [KIND_MARK; TYPE_ROOM];
    let mut cells = [MARK; TERM_ROOM];
    let got = read(
        text.as_bytes(),
        front_of(&mut types, room.0),
        front_of(&mut cells, room.1),
    );
    let got = got.map_err(|fault| (fault.number(), fault.line));
    assert_eq!(rt; got, *want, "{}", *text);
    starts_with(
        rt,
        &types,
        kinds(heap, *kinds_left)?.as_slice(),
        KIND_MARK,
        *text,
    )?;
    starts_with(
        rt,
        &cells,
        terms(heap, *terms_left)?.as_slice(),
        MARK,
        *text,
    )
}

#[rattlefmt::skip]
const FIRST_LINES: &[(&str, u16)] = &[
    ("", 15), ("QL\t1", 15), ("XX", 15), ("QL 1", 15), ("QL\t1\r", 15),
    ("\n", 11), ("QL\t1\r\n", 11), ("QL 1\n", 11), ("ql\t1\n", 11), ("QL\t10\n", 11),
    ("QL\t2\n", 11), ("QL\n", 11), ("QL\t1\t\n", 11), ("\tQL\t1\n", 11),
    ("T\tb\n", 11), ("E\t0\t0\n", 11), ("QL\t01\nQL\t1\nE\t9\t9\nx", 11), ("QL\nM\tz\t00\t0\n", 11),
];

#[test]
fn first_lines(rt: HostRuntime) -> Result<(), Fail> {
    for (text, number) in FIRST_LINES {
        for room in [(0, 0), (300, 600)] {
            reads(
                &rt,
                rt.alloc(),
                &Case(*text, room, Err((*number, 1)), "", ""),
            )?;
        }
    }
    Ok(())
}

// What follows the header line.
#[rattlefmt::skip]
const LATER_LINES: &[Case] = &[
    // An unended line comes before all that is wrong in it.
    Case("", (9, 9), Err((15, 2)), "", ""),
    Case("T\tb", (9, 9), Err((15, 2)), "", ""),
    Case("T\tb\nT\tq", (9, 9), Err((15, 3)), "b", ""),
    Case("X\tz", (9, 9), Err((15, 2)), "", ""),
    Case("T\tb\nM\tv\t007\t0", (9, 9), Err((15, 3)), "b", ""),
    Case("T\tb", (0, 0), Err((15, 2)), "", ""),
    Case("E\t0\t0", (9, 9), Err((15, 2)), "", ""),
    Case("E\t5\t0", (9, 9), Err((15, 2)), "", ""),
    Case("T\tb\nM\t0\t0\t0\n", (9, 9), Err((15, 4)), "b", "0"),
    // Lines, fields and letters that are not allowed.
    Case("\n", (9, 9), Err((12, 2)), "", ""),
    Case("QL\t1\n", (9, 9), Err((12, 2)), "", ""),
    Case("T\n", (9, 9), Err((12, 2)), "", ""),
    Case("T\t\n", (9, 9), Err((12, 2)), "", ""),
    Case("T\tbb\n", (9, 9), Err((12, 2)), "", ""),
    Case("T\tb\t\n", (9, 9), Err((12, 2)), "", ""),
    Case("T\tb\r\n", (9, 9), Err((12, 2)), "", ""),
    Case("T\tz\n", (9, 9), Err((12, 2)), "", ""),
    Case("T\tB\n", (9, 9), Err((12, 2)), "", ""),
    Case("T\tλ\n", (9, 9), Err((12, 2)), "", ""),
    Case("T b\n", (9, 9), Err((12, 2)), "", ""),
    Case("TT\tb\n", (9, 9), Err((12, 2)), "", ""),
    Case("\tT\tb\n", (9, 9), Err((12, 2)), "", ""),
    Case("t\tb\n", (9, 9), Err((12, 2)), "", ""),
    Case("M\tv\t0\n", (9, 9), Err((12, 2)), "", ""),
    Case("M\tv\t0\t0\t0\n", (9, 9), Err((12, 2)), "", ""),
    Case("M\tv\t0\t0\t\n", (9, 9), Err((12, 2)), "", ""),
    Case("M\tz\t0\t0\n", (9, 9), Err((12, 2)), "", ""),
    Case("M\tb\t0\t0\n", (9, 9), Err((12, 2)), "", ""),
    Case("M\t\t0\t0\n", (9, 9), Err((12, 2)), "", ""),
    Case("M\tvv\t0\t0\n", (9, 9), Err((12, 2)), "", ""),
    Case("E\t0\n", (9, 9), Err((12, 2)), "", ""),
    Case("E\n", (9, 9), Err((12, 2)), "", ""),
    Case("E\t0\t0\t0\n", (9, 9), Err((12, 2)), "", ""),
    Case("e\t0\t0\n", (9, 9), Err((12, 2)), "", ""),
    Case("T\tq\nM\t0\t0\t0\nT\tb\n", (9, 9), Err((12, 4)), "q", "0"),
    // Bytes after the end line, before its counts.
    Case("E\t0\t0\n\n", (9, 9), Err((12, 3)), "", ""),
    Case("E\t0\t0\nx", (9, 9), Err((12, 3)), "", ""),
    Case("E\t0\t0\nT\tb\n", (9, 9), Err((12, 3)), "", ""),
    Case("E\t0\t0\nE\t0\t0\n", (9, 9), Err((12, 3)), "", ""),
    Case("E\t5\t5\nx", (9, 9), Err((12, 3)), "", ""),
    Case("T\tu\nE\t5\t5\n\n", (9, 9), Err((12, 4)), "u", ""),
    // Letters before numbers, numbers before room.
    Case("M\tz\t00\t0\n", (9, 9), Err((12, 2)), "", ""),
    Case("M\tv\t00\n", (9, 9), Err((12, 2)), "", ""),
    Case("E\t00\t0\t0\n", (9, 9), Err((12, 2)), "", ""),
    Case("T\tz\n", (0, 0), Err((12, 2)), "", ""),
    Case("M\tz\t0\t0\n", (0, 0), Err((12, 2)), "", ""),
    Case("M\tv\t00\t0\n", (0, 0), Err((13, 2)), "", ""),
    Case("T\tb\nT\tq\nM\tv\t0\t\n", (2, 0), Err((13, 4)), "bq", ""),
    Case("E\t00\t5\nx", (9, 9), Err((13, 2)), "", ""),
    // Room.
    Case("T\tb\n", (0, 9), Err((14, 2)), "", ""),
    Case("T\tb\nT\tq\n", (1, 9), Err((14, 3)), "b", ""),
    Case("M\t0\t0\t0\n", (9, 0), Err((14, 2)), "", ""),
    Case("T\tb\nM\t0\t0\t0\nM\t1\t0\t7\nE\t9\t9\n", (1, 1), Err((14, 4)), "b", "0"),
    Case("E\t0\t0\n", (0, 0), Ok((0, 0)), "", ""),
    // Counts.
    Case("E\t0\t1\n", (9, 9), Err((15, 2)), "", ""),
    Case("E\t65535\t0\n", (9, 9), Err((15, 2)), "", ""),
    Case("T\tb\nE\t0\t0\n", (9, 9), Err((15, 3)), "b", ""),
    Case("T\tb\nE\t0\t1\n", (9, 9), Err((15, 3)), "b", ""),
    Case("T\tb\nM\t0\t0\t0\nE\t1\t2\n", (9, 9), Err((15, 4)), "b", "0"),
    // Accepted.
    Case("M\tq\t5\t9\nE\t0\t1\n", (9, 9), Ok((0, 1)), "", "q5.9"),
    Case("T\t!\nT\t>\nE\t2\t0\n", (2, 0), Ok((2, 0)), "!>", ""),
    Case(
        "T\tb\nM\tg\t65535\t65535\nM\ti\t10\t0\nE\t1\t2\n",
        (1, 2), Ok((1, 2)), "b", "g65535.65535 i10",
    ),
];

#[test]
fn later_lines(rt: HostRuntime) -> Result<(), Fail> {
    let heap = rt.alloc();
    for Case(lines, room, want, types, cells) in LATER_LINES {
        let text = format!(in heap; "QL\t1\n{lines}")?;
        reads(
            &rt,
            heap,
            &Case(text.as_str(), *room, *want, *types, *cells),
        )?;
    }
    Ok(())
}

#[rattlefmt::skip]
const NUMBERS: &[(&str, bool)] = &[
    ("0", true), ("9", true), ("10", true), ("65535", true), ("65536", false), ("99999", false),
    ("100000", false), ("000000", false), ("", false), ("00", false), ("01", false),
    ("-1", false), ("+1", false), ("1a", false), ("a", false), (" 1", false),
    ("1 ", false), ("1.", false), ("²", false), ("1\r", false),
];

#[test]
fn number_fields(rt: HostRuntime) -> Result<(), Fail> {
    let heap = rt.alloc();
    for (number, stands) in NUMBERS {
        for (argument, claim) in [(*number, "0"), ("0", *number), (*number, *number)] {
            let op = format!(in heap; "QL\t1\nT\tu\nM\tv\t{argument}\t{claim}\n")?;
            let left = if *stands {
                format!(in heap; "v{argument}.{claim}")?
            } else {
                String::new(heap)
            };
            let want = if *stands { Err((15, 4)) } else { Err((13, 3)) };
            reads(
                &rt,
                heap,
                &Case(op.as_str(), (9, 9), want, "u", left.as_str()),
            )?;
            let counts = format!(in heap; "QL\t1\nT\tu\nE\t{argument}\t{claim}\n")?;
            let want = Err((if *stands { 15 } else { 13 }, 3));
            reads(&rt, heap, &Case(counts.as_str(), (9, 9), want, "u", ""))?;
        }
    }
    Ok(())
}

#[rattlefmt::skip]
const LIMITS: &[((usize, usize), (usize, usize), Verdict)] = &[
    ((256, 512), (300, 600), Ok((256, 512))),
    ((256, 512), (256, 512), Ok((256, 512))),
    ((257, 0), (300, 600), Err((14, 258))),
    ((257, 513), (300, 600), Err((14, 258))),
    ((256, 513), (300, 600), Err((14, 770))),
    ((0, 513), (300, 600), Err((14, 514))),
    ((256, 1), (255, 600), Err((14, 257))),
    ((2, 512), (256, 511), Err((14, 515))),
];

#[test]
fn limits_of_tables(rt: HostRuntime) -> Result<(), Fail> {
    let heap = rt.alloc();
    for (lines, room, want) in LIMITS {
        let type_lines = "T\tu\n".repeat(heap, lines.0)?;
        let term_lines = "M\ts\t0\t8\n".repeat(heap, lines.1)?;
        let (type_lines, term_lines) = (type_lines.as_str(), term_lines.as_str());
        let text = format!(in heap;
            "QL\t1\n{type_lines}{term_lines}E\t{}\t{}\n",
            lines.0, lines.1
        )?;
        let type_room = room.0.min(256);
        let term_room = if lines.0 <= type_room {
            room.1.min(512)
        } else {
            0
        };
        let types = "u".repeat(heap, lines.0.min(type_room))?;
        let cells = "s.8 ".repeat(heap, lines.1.min(term_room))?;
        reads(
            &rt,
            heap,
            &Case(text.as_str(), *room, *want, types.as_str(), cells.as_str()),
        )?;
    }
    Ok(())
}
