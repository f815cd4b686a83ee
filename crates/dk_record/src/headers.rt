// Headers: the labels of a study.
ghost use Rattle.std.specs.Prelude.{◌≡◌, ◌++◌, OnOk, OnErr, IfOk, MatchOption, length, take};
ghost use Rattle.std.specs.Int.{w16, to_le_bytes};
ghost use Rattle.std.specs.List.{flat_map, list_all, list_any};
ghost use Rattle.std.specs.Str.{bytes_eq};
ghost use Rattle.dk_types.specs.Labels.{AreLabels, is_label as is_label_text, is_visible as is_visible_byte, are_distinct as are_distinct_texts};
ghost use Rattle.dk_record.specs.Payloads.{label_bytes, labels_bytes, header_payload, IsShape};
ghost use Rattle.dk_record.specs.Readings.{NoneBegins, Begins, IsCount, IsLabel, HasLabels, ReadsHeader};

use dk_outside::Text;
use dk_types::{Labels, Shape};
use std::alloc::{AllocError, Global};

/// What each header begins with.
const MARK: &[u8; 8] = b"DKRSTv1\n";

/// A shape that was read, and how many bytes its header's payload takes.
#[derive(Drop)]
pub struct StoredShape {
    pub shape: Shape,
    pub length: usize,
}

/// Appends a label behind its length.
fn put_label(label: &Text, out: &mut Vec<u8>) -> Result<(), AllocError>
    requires { IsLabel label.now }
    ensures appends { OnOk result (out.new.items ≡ out.old.items ++ label_bytes label.now) }
    ensures keeps_front { OnErr result (take (length out.old.items) out.new.items ≡ out.old.items) }
{
    let bytes = label.as_str().as_bytes();
    out.push(bytes.len() as u8)?;
    out.extend_from_slice(bytes)
}

/// Appends how many labels there are, and the labels.
fn put_labels(labels: &[Text], out: &mut Vec<u8>) -> Result<(), AllocError>
    requires { AreLabels labels.now }
    ensures appends { OnOk result (out.new.items ≡ out.old.items ++ labels_bytes labels.now) }
    ensures keeps_front { OnErr result (take (length out.old.items) out.new.items ≡ out.old.items) }
{
    out.extend_from_slice(&(labels.len() as u16).to_le_bytes())?;
    for label in labels {
        put_label(label, out)?;
    }
    Ok(())
}

/// Appends a header's payload.
fn put_header(shape: &Shape, out: &mut Vec<u8>) -> Result<(), AllocError>
    requires { IsShape shape.now }
    ensures appends { OnOk result (out.new.items ≡ out.old.items ++ header_payload shape.now) }
    ensures keeps_front { OnErr result (take (length out.old.items) out.new.items ≡ out.old.items) }
{
    out.extend_from_slice(MARK)?;
    put_labels(shape.variables.items(), out)?;
    put_labels(shape.responses.items(), out)
}

/// Appends the payload of a header with these labels, which are as a study's may be: the eight bytes `DKRSTv1` and a
/// line feed; how many variables there are, in 2 bytes, and their labels; the same of the responses. A label stands
/// behind its length in 1 byte. Where there is no memory for all of it nothing is appended.
pub fn header(shape: &Shape, out: &mut Vec<u8>) -> Result<(), AllocError>
    requires is_shape { IsShape shape.now }
    ensures appends_payload { OnOk result (out.new.items ≡ out.old.items ++ header_payload shape.now) }
    ensures stays_on_want { OnErr result (out.new.items ≡ out.old.items) }
{
    let before = out.len();
    let written = put_header(shape, out);
    if written.is_err() {
        out.truncate(before);
    }
    written
}

/// Whether all bytes are visible.
fn is_visible(bytes: &[u8]) -> bool
    ensures { result ≡ list_all is_visible_byte bytes.now }
{
    bytes.iter().all(|byte| 33 <= *byte && *byte <= 126)
}

/// Whether a text may be a label.
fn is_label(bytes: &[u8]) -> bool
    ensures { result ≡ is_label_text bytes.now }
{
    match bytes {
        [first, ..] => {
            (first.is_ascii_alphabetic() || *first == b'_')
                && is_visible(bytes)
                && bytes.len() <= 255
        }
        [] => false,
    }
}

/// Whether a text stands among others.
fn stands_among(text: &Text, others: &[Text]) -> bool
    ensures { result ≡ list_any (bytes_eq text.now) others.now }
{
    others.iter().any(|other| text.as_str() == other.as_str())
}

/// Whether no text stands twice.
fn are_distinct(texts: &[Text]) -> bool
    ensures { result ≡ are_distinct_texts texts.now }
{
    match texts.split_first() {
        None => true,
        Some((first, others)) => !stands_among(first, others) && are_distinct(others),
    }
}

/// Bytes that may be a label, as a text.
fn text_of(alloc: Global, bytes: &[u8]) -> Result<Text, AllocError>
    requires { IsLabel bytes.now }
    ensures { IfOk result (λ text. text ≡ bytes.now) }
{
    match str::from_utf8(bytes) {
        Ok(text) => Text::of(alloc, text),
        Err(_) => unreachable!(),
    }
}

/// How many labels there are, by the two bytes at the front, and what follows them.
fn read_count(bytes: &[u8]) -> Option<(u16, &[u8])>
    ensures { MatchOption result (NoneBegins IsCount (to_le_bytes w16) bytes.now) (λ found. Begins IsCount (to_le_bytes w16) bytes.now found.0 found.1.now) }
{
    let Some((count, rest)) = bytes.split_first_chunk::<2>() else {
        return None;
    };
    let count = u16::from_le_bytes(*count);
    if count < 1 || 100 < count {
        return None;
    }
    Some((count, rest))
}

/// The label at the front, and what follows it.
fn read_label(bytes: &[u8]) -> Option<(&[u8], &[u8])>
    ensures { MatchOption result (NoneBegins IsLabel label_bytes bytes.now) (λ found. Begins IsLabel label_bytes bytes.now found.0.now found.1.now) }
{
    let Some((length, rest)) = bytes.split_first() else {
        return None;
    };
    let Some((label, rest)) = rest.split_at_checked(*length as usize) else {
        return None;
    };
    if !is_label(label) {
        return None;
    }
    Some((label, rest))
}

/// So many labels at the front, and what follows them.
fn read_so_many(
    alloc: Global,
    bytes: &[u8],
    count: u16,
) -> Result<Option<(Vec<Text>, &[u8])>, AllocError>
    ensures { IfOk result (λ answer. MatchOption answer (NoneBegins (HasLabels count) (flat_map label_bytes) bytes.now) (λ found. Begins (HasLabels count) (flat_map label_bytes) bytes.now found.0.items found.1.now)) }
{
    let mut labels = Vec::new(alloc);
    let mut rest = bytes;
    for _place in 0..count {
        let Some((label, behind)) = read_label(rest) else {
            return Ok(None);
        };
        labels.push(text_of(alloc, label)?)?;
        rest = behind;
    }
    Ok(Some((labels, rest)))
}

/// A list of labels at the front, and what follows it.
fn read_labels(alloc: Global, bytes: &[u8]) -> Result<Option<(Labels, &[u8])>, AllocError>
    ensures { IfOk result (λ answer. MatchOption answer (NoneBegins AreLabels labels_bytes bytes.now) (λ found. Begins AreLabels labels_bytes bytes.now found.0 found.1.now)) }
{
    let Some((count, behind)) = read_count(bytes) else {
        return Ok(None);
    };
    let Some((labels, rest)) = read_so_many(alloc, behind, count)? else {
        return Ok(None);
    };
    if !are_distinct(&labels) {
        return Ok(None);
    }
    Ok(Some((Labels::of_vec(labels), rest)))
}

/// The shape whose header's payload stands at the front, and that payload's length, whatever follows it. None exactly
/// where no header's payload stands there. The only error is want of memory.
pub fn read_header(alloc: Global, bytes: &[u8]) -> Result<Option<StoredShape>, AllocError>
    ensures reads { IfOk result (λ answer. ReadsHeader bytes.now answer) }
{
    let Some(behind) = bytes.strip_prefix(MARK) else {
        return Ok(None);
    };
    let Some((variables, behind)) = read_labels(alloc, behind)? else {
        return Ok(None);
    };
    let Some((responses, rest)) = read_labels(alloc, behind)? else {
        return Ok(None);
    };
    Ok(Some(StoredShape {
        shape: Shape {
            variables,
            responses,
        },
        length: bytes.len() - rest.len(),
    }))
}
