// A writer that keeps bytes back before a sink.
ghost use Rattle.std.specs.Prelude.{◌≡◌, []};

use crate::buffer::Buffer;
use crate::sink::write_all;
use crate::{Failed, Sink};

/// Bytes on their way to a sink. Pieces are kept until there is no room for the next one, and then sent together; a
/// piece for which there would never be room goes to the sink by itself. Once the sink has failed it isn't called any
/// more: pieces that are put then are dropped, and `finish` tells.
#[derive(Drop)]
pub struct Writer<'a, T: Sink> {
    sink: &'a mut T,
    buffer: Buffer,
    failed: bool,
}

impl<'a, T: Sink> Writer<'a, T> {
    ghost use Rattle.dk_outside.specs.Flows.{Carries, stream, Puts, Finishes};

    /// A writer before a sink, into which nothing was put.
    pub fn new(sink: &'a mut T) -> Writer<'a, T>
        ensures lends_sink { result.sink.ghost_name ≡ sink.entry.ghost_name }
        ensures carries_nothing { Carries (T.held sink.old) (T.faults sink.old) (stream T.held T.faults result) [] }
    {
        Writer {
            sink,
            buffer: Buffer::new(),
            failed: false,
        }
    }

    /// Puts a piece behind the bytes that were put before.
    pub fn put(&mut self, piece: &[u8])
        ensures { Puts T.held T.faults self.old self.new piece.now }
    {
        if self.buffer.has_room(piece) {
            self.buffer.keep(piece);
            return;
        }
        self.send();
        self.put_alone(piece);
    }

    /// Puts a piece where no other is kept.
    fn put_alone(&mut self, piece: &[u8])
        requires { self.old.buffer ≡ [] }
        ensures { Puts T.held T.faults self.old self.new piece.now }
    {
        if self.buffer.has_room(piece) {
            self.buffer.keep(piece);
            return;
        }
        self.pass(piece);
    }

    /// Sends a piece where no other is kept.
    fn pass(&mut self, piece: &[u8])
        requires { self.old.buffer ≡ [] }
        ensures { Puts T.held T.faults self.old self.new piece.now }
    {
        if self.failed {
            return;
        }
        match write_all(&mut *self.sink, piece) {
            Ok(()) => {}
            Err(Failed) => self.failed = true,
        }
    }

    /// Sends what is kept.
    fn send(&mut self)
        ensures puts_nothing { Puts T.held T.faults self.old self.new [] }
        ensures keeps_nothing { self.new.buffer ≡ [] }
    {
        if !self.failed {
            match write_all(&mut *self.sink, self.buffer.bytes()) {
                Ok(()) => {}
                Err(Failed) => self.failed = true,
            }
        }
        self.buffer.clear();
    }

    /// Sends what is kept, and tells whether the sink failed.
    pub fn finish(self) -> Result<(), Failed>
        ensures { Finishes T.held T.faults self.entry self.exit.0.now result }
    {
        let Writer {
            sink,
            buffer,
            failed,
        } = self;
        if failed {
            return Err(Failed);
        }
        write_all(sink, buffer.bytes())
    }
}
