// The names of an evaluation's two files.
ghost use Rattle.std.specs.Prelude.{◌≡◌, ◌+◌, ◌≤◌, ◌++◌, length, string_bytes, string_len, string_capacity};
ghost use Rattle.dk_fork.specs.Names.{is_tagged as is_tagged_defined, name_of};

use dk_types::Interface;

/// Whether the names of files have the row behind them: where the study says so (`file_tag`), or where several evaluations
/// may run at once.
pub fn is_tagged(interface: &Interface) -> bool
    ensures { result ≡ is_tagged_defined interface.now }
{
    interface.tag || interface.concurrency > 1
}

/// Writes the name of a row's file into room for 11 bytes more than it has without its row. It takes no memory.
pub fn write_name(base: &str, tagged: bool, row: u32, name: &mut String)
    requires room { length base.now + 11 ≤ string_capacity name.old }
    ensures name { string_bytes name.new ≡ name_of tagged base.now row }
    ensures room { string_capacity name.old ≤ string_capacity name.new }
{
    name.clear();
    push(name, base);
    if tagged {
        let mut digits = itoa::Buffer::new();
        push(name, ".");
        push(name, digits.format(row));
    }
}

/// Puts a text behind a name that has room for it.
fn push(name: &mut String, text: &str)
    requires room { string_len name.old + length text.now ≤ string_capacity name.old }
    ensures bytes { string_bytes name.new ≡ string_bytes name.old ++ text.now }
    ensures len { string_len name.new ≡ string_len name.old + length text.now }
    ensures capacity { string_capacity name.old ≤ string_capacity name.new }
{
    match name.push_str(text) {
        Ok(()) => {}
        Err(_) => {}
    }
}
