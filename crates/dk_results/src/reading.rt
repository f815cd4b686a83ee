// What a results file comes to.
ghost use Rattle.std.specs.Prelude.{◌≡◌, length};
ghost use Rattle.dk_results.specs.Results.{results_of, read_as};

use crate::front::{begins_with_fail, behind_space, next_piece, next_value};
use dk_num::Dec;

/// Whether a results file has values.
#[derive(Clone, Copy, Debug, PartialEq, Eq)]
pub enum Reading {
    /// A value for each response.
    Values,
    /// The simulation said that it failed, or left no results.
    Failed,
}

/// Reads the results file of an evaluation: a value for each place of `out`, one a response, in its own unit.
///
/// White space is tab, line feed, carriage return and blank. Where the bytes behind the white space at the front begin
/// with `fail`, in any case of its letters, the simulation says that it failed, whatever follows. Else a comment counts
/// as white space too; it goes from a `#` to the line's end, which is a line feed or the end of the bytes. What stands
/// between white space are pieces. The answer is `Values` exactly where these are as many numbers as `out` has places,
/// each with at most one label behind it, and nothing more. A number is what `Dec::read` accepts. A label begins with an
/// ASCII letter or `_`, and isn't compared with the study's. `out` then has the values in their order.
///
/// In all other cases the answer is `Failed`, as for `nan` and `inf` in a value's place, and nothing is said of what
/// stands in `out`. Each text has just one reading for a number of responses; `each_text_has_one_reading` says so. The
/// file may have any length. It is cut into pieces in one pass, and no memory is taken.
///
/// After the sections on the format of results files and on failure capturing in Dakota's User's Manual. This project's
/// own are the comments, that the word counts at the front alone, and that what is no results file is a failure.
pub fn read_results(bytes: &[u8], out: &mut [Dec]) -> Reading
    ensures gives_results { read_as result out.new ≡ results_of bytes.now (length out.old) }
{
    let text = behind_space(bytes);
    if begins_with_fail(text) {
        return Reading::Failed;
    }
    let mut rest = text;
    for place in 0..out.len() {
        let Some(found) = next_value(rest) else {
            return Reading::Failed;
        };
        out[place] = found.0;
        rest = found.1;
    }
    match next_piece(rest) {
        None => Reading::Values,
        Some(_) => Reading::Failed,
    }
}
