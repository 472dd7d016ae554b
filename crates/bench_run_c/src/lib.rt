// The run of a program as a C function, for bench/. Nothing of trace is linked with it.
#![tactic(auto)]

ghost use Rattle.std.specs.Prelude.{length};
ghost use Rattle.run.specs.Runs.{run_of, zero_machine, full_budget};
ghost use Rattle.bench_run.specs.Counting.{Counts};

// How many cycles of the run from all zero are accepted; their reports are in the lent slice.
#[unsafe(no_mangle)]
pub extern "C" fn firanbekwo_run(words: &[u16], reports: &mut [u16]) -> usize
    ensures { Counts (run_of zero_machine words.now full_budget (length reports.old)) result reports.old reports.new }
{
    bench_run::firanbekwo_run(words, reports)
}
