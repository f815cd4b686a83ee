//! Short texts, the places counted by hand.
use crate::tests::told::told;
use std::test::Fail;

/// Faults of bytes and tokens come first, from left to right.
#[test]
fn short_texts_have_their_first_fault(rt: HostRuntime) -> Result<(), Fail> {
    let alloc = rt.alloc();
    let cases: [(&[u8], &str); 8] = [
        (b"", "MissingBlock 0..0"),
        (b"method 'abc", "OpenString 7..11"),
        (b"method frobnicate", "UnknownKeyword 7..17"),
        (b"method\nmethod", "Repeated 7..13"),
        (b"fork", "Misplaced 0..4"),
        (b"method\\vector", "BadByte 6..7"),
        (b"variables descriptors 'a", "OpenString 22..24"),
        (b"method variables interface responses", "Missing 0..6"),
    ];
    for (text, wanted) in &cases {
        assert_eq!(&rt; told(alloc, text)?.as_str(), *wanted);
    }
    Ok(())
}
