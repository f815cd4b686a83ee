// Numbers as texts.
ghost use Rattle.std.specs.Prelude.{decimal};
ghost use Rattle.dk_num.specs.Texts.{table_text};
ghost use Rattle.dk_outside.specs.Flows.{Puts};

use dk_num::Dec;
use dk_outside::{Sink, Writer};

/// Puts a decimal's text.
pub fn put_decimal<T: Sink>(decimal: &Dec, writer: &mut Writer<'_, T>)
    ensures { Puts T.held T.faults writer.old writer.new (table_text decimal.now) }
{
    let mut text = [0u8; 64];
    let length = decimal.table_text(&mut text);
    writer.put(&text[..length]);
}

/// Puts a number in decimal digits.
pub fn put_number<T: Sink>(number: usize, writer: &mut Writer<'_, T>)
    ensures { Puts T.held T.faults writer.old writer.new (decimal number) }
{
    let mut digits = itoa::Buffer::new();
    writer.put(digits.format(number).as_bytes());
}
