// Children on the bench over the system's files.
use crate::ChildBench;
use dk_outside::{Bench, Call, Failed, Fetched, Text, Words};
use std::alloc::{AllocError, Global};
use std::fs;
use std::test::Fail;

const SCRIPT: &str = "child.sh";

const PARAMETERS: &str = "p.in";

const RESULTS: &str = "r.out";

/// Files that are kept from children.
const STUDY: &str = "kept.in";

const RESTART: &str = "kept.rst";

const OLDER: &str = "kept.rst.old";

/// The words of a driver.
fn words(alloc: Global, texts: &[&str]) -> Result<Words, AllocError> {
    let mut items = Vec::new(alloc);
    for text in texts {
        items.push(Text::of(alloc, text)?)?;
    }
    Words::of(alloc, &items)
}

/// What a script does, and what it leaves: the count of bytes, or that there are none or too many.
const CASES: [(&str, Fetched); 7] = [
    ("cat \"$1\" > \"$2\"; exit 3", Fetched::Bytes(9)),
    ("true", Fetched::Absent),
    ("head -c 65536 /dev/zero > \"$2\"", Fetched::Bytes(65_536)),
    ("head -c 65537 /dev/zero > \"$2\"", Fetched::TooLong),
    ("echo 1 > \"$2\"; kill -9 $$", Fetched::Bytes(2)),
    ("kill -9 $$", Fetched::Absent),
    ("read word; echo \"$word\" > \"$2\"", Fetched::Bytes(1)),
];

/// A child reads its parameters file and leaves what it will, however it ends, with nothing on its standard input.
#[test]
fn children_leave_what_they_will(rt: HostRuntime) -> Result<(), Fail> {
    let driver = words(rt.alloc(), &["sh", SCRIPT])?;
    let mut bench = ChildBench::new(&rt, rt.stderr(), STUDY, RESTART);
    let mut buf = vec![in rt.alloc(); 0; 65_536]?;
    for (script, left) in CASES {
        fs::write(&rt, SCRIPT, script)?;
        assert_eq!(rt; bench.clear(RESULTS), Ok(()));
        assert_eq!(rt; bench.lay(PARAMETERS, b"an older and longer one"), Ok(()));
        assert_eq!(rt; bench.lay(PARAMETERS, b"2 params\n"), Ok(()));
        let call = Call {
            driver: &driver,
            parameters: PARAMETERS,
            results: RESULTS,
            attempt: 1,
        };
        assert_eq!(rt; bench.run(&call), Ok(()), "{script}");
        assert_eq!(rt; bench.fetch(RESULTS, &mut buf), Ok(left), "{script}");
    }
    assert_eq!(rt; bench.clear(PARAMETERS), Ok(()));
    assert_eq!(rt; bench.clear(PARAMETERS), Ok(()));
    assert_eq!(rt; bench.fetch(PARAMETERS, &mut buf), Ok(Fetched::Absent));
    Ok(())
}

/// A driver that isn't there, a folder in the place of the results, and a folder that isn't there are faults.
#[test]
fn what_fails_is_a_fault(rt: HostRuntime) -> Result<(), Fail> {
    let driver = words(rt.alloc(), &["./none"])?;
    let mut bench = ChildBench::new(&rt, rt.stderr(), STUDY, RESTART);
    let call = Call {
        driver: &driver,
        parameters: PARAMETERS,
        results: RESULTS,
        attempt: 1,
    };
    assert_eq!(rt; bench.run(&call), Err(Failed));
    assert_eq!(rt; bench.fetch(".", &mut [0; 8]), Err(Failed));
    assert_eq!(rt; bench.clear("."), Err(Failed));
    assert_eq!(rt; bench.lay("none/p.in", b"2 params\n"), Err(Failed));
    Ok(())
}

/// The study, its restart file and an older one are neither cleared nor laid, by whatever path.
#[test]
fn files_are_kept_from_children(rt: HostRuntime) -> Result<(), Fail> {
    let mut bench = ChildBench::new(&rt, rt.stderr(), STUDY, RESTART);
    for name in [STUDY, RESTART, OLDER] {
        fs::write(&rt, name, "kept")?;
    }
    for name in [STUDY, RESTART, OLDER, "./kept.in", "./kept.rst"] {
        assert_eq!(rt; bench.clear(name), Err(Failed));
        assert_eq!(rt; bench.lay(name, b"2 params\n"), Err(Failed));
        let file = fs::read(&rt, name)?;
        assert_eq!(rt; file.as_slice(), b"kept".as_slice());
    }
    Ok(())
}
