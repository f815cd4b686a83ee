//! Results files and what they come to, worked out by hand.
use crate::{Reading, read_results};
use dk_num::Dec;
use std::alloc::{AllocError, Global};
use std::test::Fail;

/// Whether the bytes give these values, each in its plain text.
fn gives(bytes: &[u8], wanted: &[&str]) -> bool {
    let mut room = [Dec::whole(0); 3];
    let Some(out) = room.get_mut(..wanted.len()) else {
        return false;
    };
    if read_results(bytes, out) != Reading::Values {
        return false;
    }
    out.iter()
        .zip(wanted.iter())
        .all(|(value, text)| is_text(*value, text.as_bytes()))
}

/// Whether the decimal has this plain text.
fn is_text(value: Dec, text: &[u8]) -> bool {
    let mut room = [0u8; 64];
    let length = value.table_text(&mut room);
    &room[..length] == text
}

/// Whether the bytes fail, for so many values.
fn fails(bytes: &[u8], count: usize) -> bool {
    let mut room = [Dec::whole(0); 3];
    match room.get_mut(..count) {
        Some(out) => read_results(bytes, out) == Reading::Failed,
        None => false,
    }
}

/// What has values: labels, comments, white space and the forms of numbers that simulations write.
#[test]
fn values_are_read(rt: HostRuntime) {
    let cases: [(&[u8], &[&str]); 22] = [
        (b"1.5 obj_fn", &["1.5"]),
        (b"# c\n3e2", &["300"]),
        (b"1 _", &["1"]),
        (b"1 #x", &["1"]),
        (b"6.500000000000000e+00 obj_fn\n", &["6.5"]),
        (b"   1.5E+00\n   -2.5000000E-01\n\n", &["1.5", "-0.25"]),
        (b"1 f\r\n2 g\r\n", &["1", "2"]),
        (b"\t1\tf\t2\tg\t3\th\t", &["1", "2", "3"]),
        (b"1 2 3", &["1", "2", "3"]),
        (b"1\nf\n2", &["1", "2"]),
        (b"+.5 -5. 007", &["0.5", "-5", "7"]),
        (b"1e-05", &["0.00001"]),
        (b"1#\n", &["1"]),
        (b"1 f# 2 g\n2 g#", &["1", "2"]),
        (b"#\r1\n2", &["2"]),
        (b"##\n#\n1\n#2", &["1"]),
        (b"#fail\n1", &["1"]),
        (b"1 fail", &["1"]),
        (b"1 nan", &["1"]),
        (b"1 ASV_1:f[2]='x',=\x00\xff", &["1"]),
        (b"", &[]),
        (b" \t\r\n# no responses", &[]),
    ];
    for (place, (bytes, wanted)) in cases.iter().enumerate() {
        assert!(rt; gives(bytes, wanted), "at {place}");
    }
}

/// What fails: the word of a simulation, and what is no results file.
#[test]
fn all_else_fails(rt: HostRuntime) {
    let cases: [(&[u8], usize); 34] = [
        (b"  FAILURE at step 3", 1),
        (b"nan", 1),
        (b"-inf", 1),
        (b"", 1),
        (b"1", 2),
        (b"1 2", 1),
        (b"1 a b", 1),
        (b"1 2x", 1),
        (b"fAiL", 1),
        (b"1 'a'", 1),
        (b"fail", 0),
        (b"\t\r\n Failed\n1 f\n", 1),
        (b"FAIL\n1", 1),
        (b"FAIL#1\n1", 1),
        (b"# c\nfail\n1", 1),
        (b"fai", 1),
        (b"f 1", 1),
        (b"f", 0),
        (b"1", 0),
        (b"1 f 2", 3),
        (b"1 f 2 g", 1),
        (b"1 f\n\n3 h g", 2),
        (b"NaN f", 1),
        (b"Infinity", 1),
        (b"1 inf 2 -inf", 2),
        (b"1.5D+00", 1),
        (b"1,5", 1),
        (b"1, 2", 2),
        (b"1 \\\n", 1),
        (b"1\x0c", 1),
        (b"1\x00", 1),
        (b"\xef\xbb\xbf1", 1),
        (b"[ 1 2 ]", 2),
        (b"1e10000", 1),
    ];
    for (place, (bytes, count)) in cases.iter().enumerate() {
        assert!(rt; fails(bytes, *count), "at {place}");
    }
}

/// A text that goes on with the same bytes so many times.
fn long_text(
    alloc: Global,
    front: &[u8],
    filler: &[u8],
    times: usize,
) -> Result<Vec<u8>, AllocError> {
    let mut text = Vec::new(alloc);
    text.extend_from_slice(front)?;
    for _ in 0..times {
        text.extend_from_slice(filler)?;
    }
    Ok(text)
}

/// Room for so many values.
fn places(alloc: Global, count: usize) -> Result<Vec<Dec>, AllocError> {
    vec![in alloc; Dec::whole(0); count]
}

/// Texts of 65,536 bytes: a number before blanks, before a comment and too long, and as many numbers as there is room
/// for.
#[test]
fn long_texts_are_read(rt: HostRuntime) -> Result<(), Fail> {
    let alloc = rt.alloc();
    let blanks = long_text(alloc, b"1", b" ", 65_535)?;
    assert!(rt; gives(&blanks, &["1"]));
    let comment = long_text(alloc, b"1#", b"2 ", 32_767)?;
    assert!(rt; gives(&comment, &["1"]));
    let nines = long_text(alloc, b"", b"9", 65_536)?;
    assert!(rt; fails(&nines, 1));
    let numbers = long_text(alloc, b"", b"7\n", 32_768)?;
    let mut values = places(alloc, 32_768)?;
    assert!(rt; read_results(&numbers, &mut values) == Reading::Values);
    assert!(rt; values.iter().all(|value| is_text(*value, b"7")));
    Ok(())
}
