//! Listings of whole shots, byte for byte.

use listing::{listing, play_text};
use std::alloc::{AllocError, Global};
use std::test::Fail;

/// A stored program with a blank for byte 9 and a stroke for byte 10.
pub fn stored(heap: Global, text: &str) -> Result<Vec<u8>, AllocError> {
    text.bytes()
        .map(|byte| match byte {
            b' ' => b'\t',
            b'/' => b'\n',
            other => other,
        })
        .collect(heap)
}

// A program and its listing.
#[rattlefmt::skip]
const SHOTS: &[(&str, &str)] = &[
    // meas (H (new 0))
    (
        "QL 1/T b/T >/T q/T b/T >/T q/T q/T >/T b/T q/\
        M a 0 0/M m 0 1/M a 0 2/M g 0 4/M a 0 2/M n 0 7/M 0 0 0/E 10 7/",
        "S 3 0\nT b\nM 0 0\nJ 0 P 0 0 - -\nJ 1 G 0 0 - -\nJ 2 R 0 0 - -\n",
    ),
    // An empty file, no term, a claim outside, an end line whose counts differ.
    ("", "X 15 1\n"),
    ("QL 1/T b/E 1 0/", "X 22 0\n"),
    ("QL 1/T b/M 0 0 1/E 1 1/", "X 23 0\n"),
    ("QL 1/T b/M 0 0 0/E 1 2/", "X 15 4\n"),
    // fun x. <x, x>, refused and accepted
    ("QL 1/T >/T b/T */T b/T b/M l 0 0/M p 0 2/M v 0 3/M v 0 4/E 5 4/", "X 27 1\n"),
    (
        "QL 1/T >/T !/T b/T */T b/T b/M l 0 0/M p 0 3/M v 0 4/M v 0 5/E 6 4/",
        "S 0 0\nT >\nT !\nT b\nT *\nT b\nT b\nM l 0\nM p 0\nM v 0\nM v 0\n",
    ),
    // if 1 then 0 else 1
    ("QL 1/T b/M i 0 0/M 1 0 0/M 0 0 0/M 1 0 0/E 1 4/", "S 1 0\nT b\nM 0 0\n"),
    // (fun x. 0) (new 0)
    (
        "QL 1/T b/T >/T q/T b/T >/T b/T q/\
        M a 0 0/M l 0 1/M 0 0 0/M a 0 2/M n 0 4/M 0 0 0/E 7 6/",
        "S 2 0\nT b\nM 0 0\nJ 0 P 0 0 - -\n",
    ),
    // Toffoli <new 1, <new 0, new 1>>
    (
        "QL 1/T */T q/T */T q/T q/T >/T */T q/T */T q/T q/T */T q/T */T q/T q/T >/T b/T q/T b/\
        M a 0 0/M g 7 5/M p 0 0/M a 0 1/M n 0 16/M 1 0 19/M p 0 2/M a 0 3/M n 0 16/M 0 0 19/\
        M a 0 4/M n 0 16/M 1 0 19/E 20 13/",
        "S 4 0\nT *\nT q\nT *\nT q\nT q\nM p 0\nM q 0\nM p 0\nM q 1\nM q 2\n\
        J 0 P 0 1 - -\nJ 1 P 1 0 - -\nJ 2 P 2 1 - -\nJ 3 G 7 0 1 2\n",
    ),
];

#[test]
fn listings(rt: HostRuntime) -> Result<(), Fail> {
    let heap = rt.alloc();
    for (text, want) in SHOTS {
        let bytes = stored(heap, *text)?;
        let got = listing(&play_text(bytes.as_slice()));
        assert_eq!(rt; got.as_str(), *want, "{}", *text);
    }
    Ok(())
}
