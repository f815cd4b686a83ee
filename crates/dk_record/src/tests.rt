//! Restart files, byte for byte.
ghost use Rattle.std.specs.Prelude.{◌≤◌};

use crate::{Decoded, header, read_header, read_record, write_record};
use dk_num::Dec;
use dk_outside::Text;
use dk_types::{Labels, Outcome, Shape};
use std::alloc::{AllocError, Global};
use std::test::Fail;

const EMPTY: [u8; 27] = [
    0x01, 0x44, 0x4b, 0x52, 0x53, 0x54, 0x76, 0x31, 0x0a, 0x02, 0x00, 0x02, 0x78, 0x31, 0x02, 0x78,
    0x32, 0x01, 0x00, 0x06, 0x6f, 0x62, 0x6a, 0x5f, 0x66, 0x6e, 0x00,
];

// (0.5, 0.5), attempt 1, value 6.5
const RECORD: [u8; 59] = [
    0x05, 0x00, 0x00, 0x00, 0x00, 0x00, 0x00, 0x00, 0x00, 0x00, 0x00, 0x00, 0x00, 0x00, 0x00, 0x00,
    0xff, 0xff, 0x05, 0x00, 0x00, 0x00, 0x00, 0x00, 0x00, 0x00, 0x00, 0x00, 0x00, 0x00, 0x00, 0x00,
    0x00, 0x00, 0xff, 0xff, 0x01, 0x00, 0x00, 0x00, 0x01, 0x41, 0x00, 0x00, 0x00, 0x00, 0x00, 0x00,
    0x00, 0x00, 0x00, 0x00, 0x00, 0x00, 0x00, 0x00, 0x00, 0xff, 0xff,
];

/// The decimal of a pair, or zero where the pair has none.
fn decimal(mantissa: i128, exponent: i32) -> Dec {
    Dec::of_pair(mantissa, exponent).unwrap_or(Dec::whole(0))
}

/// Appends an open gate and the record of an attempt at a point.
fn add_record(
    out: &mut Vec<u8>,
    point: [Dec; 2],
    attempt: u32,
    value: Option<Dec>,
) -> Result<(), AllocError>
    requires { 1 ≤ attempt }
{
    let mut buffer = [0; 59];
    let length = match value {
        Some(value) => write_record(&point, attempt, Outcome::Values(&[value]), &mut buffer),
        None => write_record(&point, attempt, Outcome::Failed, &mut buffer),
    };
    out.push(1)?;
    out.extend_from_slice(&buffer[..length])
}

/// What is read as a record of two variables and one response, and the point and the value that are left.
fn read(bytes: &[u8]) -> (Option<Decoded>, [Dec; 2], [Dec; 1]) {
    let mut point = [Dec::whole(0); 2];
    let mut values = [Dec::whole(0); 1];
    let decoded = read_record(bytes, &mut point, &mut values);
    (decoded, point, values)
}

/// An open gate and a header with two variables and one response.
fn born(alloc: Global) -> Result<Vec<u8>, AllocError> {
    let variables = [Text::of(alloc, "x1")?, Text::of(alloc, "x2")?];
    let shape = Shape {
        variables: Labels::of(alloc, &variables)?,
        responses: Labels::of(alloc, &[Text::of(alloc, "obj_fn")?])?,
    };
    let mut file = vec![in alloc; 1]?;
    header(&shape, &mut file)?;
    Ok(file)
}

/// The empty file and the record stand byte for byte as they should, and are read again where all of them is there.
#[test]
fn headers_and_records_are_read_again(rt: HostRuntime) -> Result<(), Fail> {
    let alloc = rt.alloc();
    let mut file = born(alloc)?;
    file.push(0)?;
    assert_eq!(rt; file.as_slice(), EMPTY.as_slice());
    for end in 1..26 {
        assert!(rt;
            read_header(alloc, &EMPTY[1..end])?.is_none(),
            "cut at {end}"
        );
    }
    match read_header(alloc, &EMPTY[1..])? {
        Some(stored) => {
            assert_eq!(rt; stored.length, 25);
            assert_eq!(rt; stored.shape.variables.items()[1].as_str(), "x2");
            assert_eq!(rt; stored.shape.responses.items()[0].as_str(), "obj_fn");
        }
        None => assert!(rt; false),
    }

    let half = decimal(5, -1);
    let value = decimal(65, -1);
    let mut record = [9; 60];
    let length = write_record(&[half, half], 1, Outcome::Values(&[value]), &mut record);
    assert_eq!(rt; length, 59);
    assert_eq!(rt; &record[..59], RECORD.as_slice());
    assert_eq!(rt; record[59], 9);
    for end in 0..59 {
        assert!(rt; read(&RECORD[..end]).0.is_none(), "cut at {end}");
    }
    let (decoded, point, values) = read(&record);
    let want = Decoded {
        attempt: 1,
        values: true,
        length: 59,
    };
    assert_eq!(rt; decoded, Some(want));
    assert_eq!(rt; point, [half, half]);
    assert_eq!(rt; values, [value]);
    Ok(())
}

/// A payload with a kind of 2, with attempt 0 or with a pair that is no decimal isn't one: (50, -1), (0, 1), (5, 10000).
#[test]
fn refuses_what_is_no_record(rt: HostRuntime) {
    for (place, byte) in [(40, 2), (36, 0), (0, 50)] {
        let mut record = RECORD;
        record[place] = byte;
        assert!(rt; read(&record).0.is_none(), "at {place}");
    }
    for (mantissa, low, high, is_one) in [
        (0, 1, 0, false),
        (0, 0, 0, true),
        (5, 0x10, 0x27, false),
        (5, 0x0f, 0x27, true),
    ] {
        let mut record = RECORD;
        record[0] = mantissa;
        record[16] = low;
        record[17] = high;
        assert_eq!(rt;
            read(&record).0.is_some(),
            is_one,
            "({mantissa}, {low}, {high})"
        );
    }
}

/// The lengths of files, and where their gates stand.
#[test]
fn files_have_their_lengths(rt: HostRuntime) -> Result<(), Fail> {
    let alloc = rt.alloc();
    let origin = [Dec::whole(0); 2];
    let half = decimal(5, -1);
    let one = Dec::whole(1);

    let mut file = born(alloc)?;
    add_record(&mut file, origin, 1, Some(one))?;
    add_record(&mut file, [half, half], 1, Some(decimal(65, -1)))?;
    add_record(&mut file, [one, one], 1, Some(Dec::whole(0)))?;
    file.push(0)?;
    assert_eq!(rt; file.len(), 207);
    for (gate, byte) in [(26, 1), (86, 1), (146, 1), (206, 0)] {
        assert_eq!(rt; file.get(gate).copied(), Some(byte), "gate at {gate}");
    }

    for (failures, value, want) in [
        (0, Some(decimal(82, -1)), 87),
        (2, Some(Dec::whole(4)), 171),
        (3, None, 153),
        (1, None, 69),
    ] {
        let mut file = born(alloc)?;
        for attempt in 1..failures + 1 {
            add_record(&mut file, origin, attempt, None)?;
        }
        if value.is_some() {
            add_record(&mut file, origin, failures + 1, value)?;
        }
        file.push(0)?;
        assert_eq!(rt; file.len(), want);
    }
    Ok(())
}
