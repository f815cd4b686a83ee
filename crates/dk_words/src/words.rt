// The words of the command line.
ghost use Rattle.std.specs.Prelude.{◌≡◌, ◌+◌, ◌<◌, length, map, string_bytes, Some};
ghost use Rattle.std.specs.List.{slice_get};
ghost use Rattle.std.specs.Option.{option_map};
ghost use Rattle.dk_words.specs.Words.{CommandRead, IsFor, RunsIn, run_fault, check_fault, fault_for, restart_of, is_file as is_file_defined, option_of as option_of_defined, takes_file as takes_file_defined};
ghost use Rattle.dk_words.specs.Sorting.{place_in, with_place as with_place_defined, is_barred as is_barred_defined, file_at as file_at_defined, mode_in, IsSorted, HasSorted, HasOptions};

use crate::purpose::Purpose;
use crate::{Command, CommandFault};
use dk_outside::{Mode, Text};
use std::alloc::Global;

/// The restart file of a run that names none.
const DEFAULT_RESTART: &str = "dakota.rst";

/// An option of the command line.
#[derive(Clone, Copy, Debug, PartialEq, Eq)]
pub enum OptionName {
    /// `-i FILE` or `-input FILE`.
    Input,
    /// `-r FILE` or `-read_restart FILE`.
    ReadRestart,
    /// `-w FILE` or `-write_restart FILE`.
    WriteRestart,
    /// `-check`.
    Check,
}

/// How many words stand before a place, and the places of the options among them, counted from 1.
#[derive(Clone, Copy)]
pub struct Found {
    pub count: u32,
    pub input: Option<u32>,
    pub read: Option<u32>,
    pub write: Option<u32>,
    pub check: Option<u32>,
}

/// The places of the options of words without a fault.
#[derive(Clone, Copy)]
pub struct Options {
    pub input: u32,
    pub read: Option<u32>,
    pub write: Option<u32>,
    pub check: Option<u32>,
}

/// Whether this may be a file's name.
fn is_file(name: &[u8]) -> bool
    ensures { result ≡ is_file_defined name.now }
{
    match name {
        [] => false,
        [first, ..] => *first != b'-',
    }
}

/// The option that a word is.
fn option_of(word: &str) -> Option<OptionName>
    ensures { result ≡ option_of_defined word.now }
{
    match word {
        "-i" | "-input" => Some(OptionName::Input),
        "-r" | "-read_restart" => Some(OptionName::ReadRestart),
        "-w" | "-write_restart" => Some(OptionName::WriteRestart),
        "-check" => Some(OptionName::Check),
        _ => None,
    }
}

/// Whether an option needs a FILE.
fn takes_file(option: OptionName) -> bool
    ensures { result ≡ takes_file_defined option }
{
    !matches!(option, OptionName::Check)
}

impl Found {
    /// The place of an option.
    fn place_of(&self, option: OptionName) -> Option<u32>
        ensures { result ≡ place_in self.now option }
    {
        match option {
            OptionName::Input => self.input,
            OptionName::ReadRestart => self.read,
            OptionName::WriteRestart => self.write,
            OptionName::Check => self.check,
        }
    }

    /// Whether an option stands there that doesn't go with this one.
    fn bars(&self, option: OptionName) -> bool
        ensures { result ≡ is_barred_defined self.now option }
    {
        match option {
            OptionName::Input => false,
            OptionName::ReadRestart => self.write.is_some() || self.check.is_some(),
            OptionName::WriteRestart => self.read.is_some() || self.check.is_some(),
            OptionName::Check => self.read.is_some() || self.write.is_some(),
        }
    }

    /// With an option more, which stands behind these words, and has its place and so many words up to its end.
    fn with(&self, option: OptionName, at: u32, count: u32) -> Found
        ensures { result ≡ with_place_defined self.now option at count }
    {
        let mut more = *self;
        more.count = count;
        match option {
            OptionName::Input => more.input = Some(at),
            OptionName::ReadRestart => more.read = Some(at),
            OptionName::WriteRestart => more.write = Some(at),
            OptionName::Check => more.check = Some(at),
        }
        more
    }
}

/// The word behind so many.
fn word_at(words: &[String], index: u32) -> Option<&str>
    ensures { option_map (λ w. w.now) result ≡ slice_get (map string_bytes words.now) index }
{
    match words.get(index as usize) {
        Some(word) => Some(word.as_str()),
        None => None,
    }
}

/// The words one piece further, or the place of the piece's fault.
fn step(words: &[String], word: &str, found: Found) -> Result<Found, u32>
    requires here { slice_get (map string_bytes words.now) found.count ≡ Some word.now }
    requires sorted { IsSorted (map string_bytes words.now) found }
    ensures { HasSorted (map string_bytes words.now) found result }
{
    let at = found.count + 1;
    let Some(option) = option_of(word) else {
        return Err(at);
    };
    if found.place_of(option).is_some() {
        return Err(at);
    }
    if found.bars(option) {
        return Err(at);
    }
    if !takes_file(option) {
        return Ok(found.with(option, at, at));
    }
    match word_at(words, at) {
        Some(file) if is_file(file.as_bytes()) => Ok(found.with(option, at, at + 1)),
        _ => Err(at + 1),
    }
}

/// The places of the options, or that of the first fault. An option stands but once before a fault, so that the places
/// are small however many the words.
fn find_options(words: &[String]) -> Result<Options, u32>
    ensures { HasOptions (map string_bytes words.now) result }
{
    let mut found = Found {
        count: 0,
        input: None,
        read: None,
        write: None,
        check: None,
    };
    while let Some(word) = word_at(words, found.count) {
        match step(words, word, found) {
            Ok(next) => found = next,
            Err(at) => return Err(at),
        }
    }
    match found.input {
        Some(input) => Ok(Options {
            input,
            read: found.read,
            write: found.write,
            check: found.check,
        }),
        None => Err(found.count + 1),
    }
}

/// Where the words aren't those of a run: the place of their first fault, or else of `-check`.
pub fn usage_of_run(words: &[String]) -> Option<u32>
    ensures { result ≡ run_fault (map string_bytes words.now) }
{
    match find_options(words) {
        Ok(options) => options.check,
        Err(at) => Some(at),
    }
}

/// Where the words aren't those of a check: the place of their first fault, or else of `-i` or `-input`.
pub fn usage_of_check(words: &[String]) -> Option<u32>
    ensures { result ≡ check_fault (map string_bytes words.now) }
{
    match find_options(words) {
        Ok(options) => match options.check {
            Some(_) => None,
            None => Some(options.input),
        },
        Err(at) => Some(at),
    }
}

/// Where the words aren't those of a run, or of a check.
pub fn usage_for(purpose: Purpose, words: &[String]) -> Option<u32>
    ensures { result ≡ fault_for purpose (map string_bytes words.now) }
{
    match purpose {
        Purpose::Run => usage_of_run(words),
        Purpose::Check => usage_of_check(words),
    }
}

impl Options {
    /// The mode of the run; `Fresh` also for a check.
    fn mode(&self) -> Mode
        ensures { result ≡ mode_in self.now }
    {
        match (self.check, self.read) {
            (None, Some(_)) => Mode::Resume,
            _ => Mode::Fresh,
        }
    }
}

/// The mode of the words of a run: `Resume` where `-r` or `-read_restart` stands, and else `Fresh`. It is `Fresh` too for
/// words that are no run's. It takes no memory.
pub fn mode_of(words: &[String]) -> Mode
    ensures of_run { (mode : Mode) → RunsIn (map string_bytes words.now) mode → result ≡ mode }
    ensures of_others { ¬ IsFor Purpose.Run (map string_bytes words.now) → result ≡ Mode.Fresh }
{
    match find_options(words) {
        Ok(options) => options.mode(),
        Err(_) => Mode::Fresh,
    }
}

/// The word behind an option, where the option stands.
fn file_at(words: &[String], place: Option<u32>) -> Option<&str>
    ensures { option_map (λ w. w.now) result ≡ file_at_defined (map string_bytes words.now) place }
{
    match place {
        Some(at) => word_at(words, at),
        None => None,
    }
}

/// The name of a run's restart file.
fn restart_name<'a>(words: &'a [String], options: &Options) -> &'a str
    ensures { result.now ≡ restart_of (file_at_defined (map string_bytes words.now) options.now.read) (file_at_defined (map string_bytes words.now) options.now.write) }
{
    if let Some(file) = file_at(words, options.read) {
        return file;
    }
    match file_at(words, options.write) {
        Some(file) => file,
        None => DEFAULT_RESTART,
    }
}

/// Reads the words of the command line.
///
/// They are `-i FILE` or `-input FILE`, which each command needs, `-r FILE` or `-read_restart FILE`, `-w FILE` or
/// `-write_restart FILE`, and `-check`, in any order and each once, and only one of `-r`, `-w` and `-check`. A FILE isn't
/// empty and doesn't begin with `-`. A run goes on with the restart file behind `-r`, or begins the one behind `-w`, or
/// else `dakota.rst`.
///
/// The first fault is answered, which stands at the least place: a word that is no option where one is due; an option for
/// the second time in either spelling; the later one of two of `-r`, `-w` and `-check`; a word that is no FILE in the place
/// of one; or one past the last word, where a FILE is missing or no study is named. `each_command_or_place` says that words
/// have just one command or just one first fault.
pub fn command(alloc: Global, words: &[String]) -> Result<Command, CommandFault>
    ensures { CommandRead (map string_bytes words.now) result }
{
    let options = match find_options(words) {
        Ok(options) => options,
        Err(at) => return Err(CommandFault::Usage { at }),
    };
    let Ok(input) = Text::of(alloc, words[options.input as usize].as_str()) else {
        return Err(CommandFault::NoMemory);
    };
    if options.check.is_some() {
        return Ok(Command::Check { input });
    }
    match Text::of(alloc, restart_name(words, &options)) {
        Ok(restart) => Ok(Command::Run {
            input,
            restart,
            mode: options.mode(),
        }),
        Err(_) => Err(CommandFault::NoMemory),
    }
}
