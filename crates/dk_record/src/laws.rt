//! Laws of the bytes of restart files. Each is the contract of a function that does nothing.
ghost use Rattle.dk_record.specs.Laws.{HeadersArePrefixFree, PayloadsArePrefixFree, HeadersAreReadAgain, RecordsAreReadAgain, BytesStandForOneList, FilesHaveOneShape, UnbornFilesStandForNone, EndGateIsTheLastUsed};

/// No header's payload is a proper front of another's, and each is that of one shape.
pub fn headers_are_prefix_free()
    ensures { HeadersArePrefixFree }
{}

/// No record's payload is a proper front of another's of the same widths, and each is that of one entry.
pub fn payloads_are_prefix_free()
    ensures { PayloadsArePrefixFree }
{}

/// A header that was written is read again, whatever follows it.
pub fn headers_are_read_again()
    ensures { HeadersAreReadAgain }
{}

/// A record that was written is read again, whatever follows it.
pub fn records_are_read_again()
    ensures { RecordsAreReadAgain }
{}

/// The bytes of a file stand for one list of entries at most, for a given shape.
pub fn bytes_stand_for_one_list()
    ensures { BytesStandForOneList }
{}

/// A file that was born is that of one shape.
pub fn files_have_one_shape()
    ensures { FilesHaveOneShape }
{}

/// A file of no bytes, of one byte, or with a closed gate at its front stands for no entries, whatever its shape.
pub fn unborn_files_stand_for_none()
    ensures { UnbornFilesStandForNone }
{}

/// The end gate is the last of the bytes that are used.
pub fn end_gate_is_the_last_used()
    ensures { EndGateIsTheLastUsed }
{}
