// The run of a program, counted, for bench/: bench_run_c exports it to C. Nothing of trace is linked with it.
#![tactic(auto)]

ghost use Rattle.std.specs.Prelude.{length};
ghost use Rattle.run.specs.Runs.{run_of, zero_machine, full_budget};
ghost use Rattle.bench_run.specs.Counting.{Counts};

// How many cycles of the run from all zero are accepted; their reports are in the lent slice.
pub fn firanbekwo_run(words: &[u16], reports: &mut [u16]) -> usize
    ensures { Counts (run_of zero_machine words.now full_budget (length reports.old)) result reports.old reports.new }
{
    let ran = run::run_from_zero(words, reports);
    ran.accepted
}
