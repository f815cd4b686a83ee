// The lines of a parameters file, as they are written.
ghost use Rattle.std.specs.Prelude.{◌≡◌, ◌+◌, ◌-◌, ◌≤◌, ◌++◌, [], length, take, replicate, codes, decimal};
ghost use Rattle.dk_params.specs.Pages.{Adds, AddsLine, HasRoom, FitsLine, opening, closing};
ghost use Rattle.dk_params.specs.Params.{line, line_text, numbered, count_line};
ghost use Rattle.dk_types.specs.declared.study.ParamForm.TheVariants.{Standard, Aprepro};

use dk_types::ParamForm;

/// The most bytes that a line takes: 8 of its form, 42 of its value and 270 of its tag.
pub(crate) const LONGEST_LINE: usize = 320;

/// In how many places a value stands at the right, in the standard form.
const PLACES: usize = 22;

/// A parameters file that grows at the front of a slice.
#[derive(Drop)]
pub(crate) struct Page<'a> {
    out: &'a mut [u8],
    length: usize,
    form: ParamForm,
}

/// Writes a piece at a place.
fn copy_at(out: &mut [u8], at: usize, piece: &[u8])
    requires { at + length piece.now ≤ length out.old }
    ensures { take (at + length piece.now) out.new ≡ take at out.old ++ piece.now }
{
    out[at..at + piece.len()].copy_from_slice(piece);
}

/// Writes blanks at a place.
fn blanks_at(out: &mut [u8], at: usize, count: usize)
    requires { at + count ≤ length out.old }
    ensures { take (at + count) out.new ≡ take at out.old ++ replicate count 32 }
{
    out[at..at + count].fill(b' ');
}

impl<'a> Page<'a> {
    /// A page on which nothing stands.
    pub(crate) fn new(form: ParamForm, out: &'a mut [u8]) -> Page<'a>
        ensures lends { result.out.ghost_name ≡ out.entry.ghost_name }
        ensures room { result.out.now ≡ out.old }
        ensures form { result.form ≡ form }
        ensures empty { result.length ≡ 0 }
    {
        Page {
            out,
            length: 0,
            form,
        }
    }

    /// How many bytes stand on it.
    pub(crate) fn length(&self) -> usize
        ensures { result ≡ self.now.length }
    {
        self.length
    }

    fn put(&mut self, piece: &[u8])
        requires { HasRoom self.old (length piece.now) }
        ensures { Adds self.old self.new piece.now }
    {
        copy_at(&mut *self.out, self.length, piece);
        self.length += piece.len();
    }

    fn put_blanks(&mut self, count: usize)
        requires { HasRoom self.old count }
        ensures { Adds self.old self.new (replicate count 32) }
    {
        blanks_at(&mut *self.out, self.length, count);
        self.length += count;
    }

    /// Begins a line of this value up to its tag.
    fn open_line(&mut self, value: &[u8])
        requires { HasRoom self.old (length (opening self.old.form value.now)) }
        ensures { Adds self.old self.new (opening self.old.form value.now) }
    {
        match self.form {
            ParamForm::Standard => {
                self.put_blanks(PLACES.saturating_sub(value.len()));
                self.put(value);
                self.put(b" ");
            }
            ParamForm::Aprepro => self.put(b"{ "),
        }
    }

    /// Ends a line of this value behind its tag.
    fn close_line(&mut self, value: &[u8])
        requires { HasRoom self.old (length (closing self.old.form value.now)) }
        ensures { Adds self.old self.new (closing self.old.form value.now) }
    {
        match self.form {
            ParamForm::Standard => self.put(b"\n"),
            ParamForm::Aprepro => {
                self.put(b" = ");
                self.put(value);
                self.put(b" }\n");
            }
        }
    }

    /// Writes a line.
    pub(crate) fn line(&mut self, value: &[u8], tag: &[u8])
        requires { FitsLine self.old value.now tag.now }
        ensures { AddsLine self.old self.new (line_text self.old.form (line value.now tag.now)) }
    {
        self.open_line(value);
        self.put(tag);
        self.close_line(value);
    }

    fn put_numbered(&mut self, prefix: &[u8], number: u32, label: &[u8])
        requires { HasRoom self.old (length (numbered prefix.now number label.now)) }
        ensures { Adds self.old self.new (numbered prefix.now number label.now) }
    {
        let mut digits = itoa::Buffer::new();
        self.put(prefix);
        self.put(digits.format(number).as_bytes());
        self.put(b":");
        self.put(label);
    }

    /// Writes a line whose tag is a prefix with a number, a colon and a label.
    pub(crate) fn numbered_line(&mut self, value: &[u8], prefix: &[u8], number: u32, label: &[u8])
        requires { FitsLine self.old value.now (numbered prefix.now number label.now) }
        ensures { AddsLine self.old self.new (line_text self.old.form (line value.now (numbered prefix.now number label.now))) }
    {
        self.open_line(value);
        self.put_numbered(prefix, number, label);
        self.close_line(value);
    }

    /// Writes a line whose value is a number.
    pub(crate) fn count_line(&mut self, number: u32, tag: &[u8])
        requires room { HasRoom self.old LONGEST_LINE }
        requires short_tag { length tag.now ≤ 270 }
        ensures { AddsLine self.old self.new (line_text self.old.form (count_line number tag.now)) }
    {
        let mut digits = itoa::Buffer::new();
        self.line(digits.format(number).as_bytes(), tag);
    }
}
