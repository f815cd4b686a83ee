// The calls of a bench for one attempt.
ghost use Rattle.std.specs.Prelude.{◌≡◌, ◌≢◌, length, IfOk, IfSome};
ghost use Rattle.dk_outside.specs.Benches.{IsAtMost};
ghost use Rattle.dk_outside.specs.Causes.{HasCause};
ghost use Rattle.dk_outside.specs.Benches.{start_of};
ghost use Rattle.dk_fork.specs.Serving.{Serves, ClearsBoth};

use dk_outside::{Bench, Call, Failed, Fetched};

/// The call of a bench that failed.
#[derive(Clone, Copy, Debug, PartialEq, Eq)]
pub enum BenchStep {
    ClearBefore,
    Lay,
    Run,
    Fetch,
    ClearAfter,
}

/// Clears the results file, lays the parameters file, runs the child over them, fetches what it left, and, where the
/// files aren't saved, clears both.
pub fn serve<B: Bench>(
    bench: &mut B,
    call: &Call<'_>,
    text: &[u8],
    save: bool,
    left: &mut [u8],
) -> Result<Fetched, BenchStep>
    requires together { B.together bench.old call.now.parameters.now call.now.results.now }
    requires apart { call.now.parameters.now ≢ call.now.results.now }
    ensures serves { IfSome (B.held bench.old) (λ old. Serves B.leaves save (start_of call.now.driver.now call.now.parameters.now call.now.results.now text.now call.now.attempt)
        result left.new old (B.held bench.new)) }
    ensures bound { IfOk result (λ fetched. IsAtMost fetched (length left.new)) }
    ensures after { B.after bench.old bench.new }
    ensures cause { HasCause (B.faults bench.old) (B.faults bench.new) result }
{
    match bench.clear(call.results) {
        Ok(()) => {}
        Err(Failed) => return Err(BenchStep::ClearBefore),
    }
    match bench.lay(call.parameters, text) {
        Ok(()) => {}
        Err(Failed) => return Err(BenchStep::Lay),
    }
    match bench.run(call) {
        Ok(()) => {}
        Err(Failed) => return Err(BenchStep::Run),
    }
    let fetched = match bench.fetch(call.results, left) {
        Ok(fetched) => fetched,
        Err(Failed) => return Err(BenchStep::Fetch),
    };
    if save {
        return Ok(fetched);
    }
    match clear_both(bench, call) {
        Ok(()) => Ok(fetched),
        Err(Failed) => Err(BenchStep::ClearAfter),
    }
}

/// Clears both files of a call, the results file first.
fn clear_both<B: Bench>(bench: &mut B, call: &Call<'_>) -> Result<(), Failed>
    requires apart { call.now.parameters.now ≢ call.now.results.now }
    ensures clears { IfSome (B.held bench.old) (λ old. ClearsBoth call.now.parameters.now call.now.results.now result old (B.held bench.new)) }
    ensures after { B.after bench.old bench.new }
    ensures cause { HasCause (B.faults bench.old) (B.faults bench.new) result }
{
    bench.clear(call.results)?;
    bench.clear(call.parameters)
}
