// Parameters files and results files, as often as is asked for.
ghost use Rattle.std.specs.Prelude.{◌≡◌, length};
ghost use Rattle.dk_types.specs.Sound.{IsSound};

use dk_num::Dec;
use dk_params::{params_bound, params_text};
use dk_results::{Reading, read_results};
use dk_types::Study;
use std::io;

/// Writes the parameters files of so many evaluations at a point, reads the results as often, and prints how many bytes were
/// written and how often there were values.
pub fn measure_texts<R: Print + AllocGlobal>(
    rt: &R,
    study: &Study,
    point: &[Dec],
    count: u32,
    results: &[u8],
) -> io::Result<()>
    requires sound { IsSound study.now }
    requires width { length point.now ≡ length study.now.variables.labels }
{
    let alloc = rt.alloc();
    let mut text = vec![in alloc; 0; params_bound(study)]?;
    let mut values = vec![in alloc; Dec::whole(0); study.responses.labels.items().len()]?;
    let mut bytes = 0u64;
    let mut read = 0u32;
    for place in 0..count {
        let length = params_text(study, place + 1, point, &mut text);
        bytes = bytes.saturating_add(length as u64);
        if read_results(results, &mut values) == Reading::Values {
            read = read.saturating_add(1);
        }
    }
    println!(rt; "{bytes} bytes, {read} of {count} with values")
}
