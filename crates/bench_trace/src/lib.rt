// The block check, the reader of traces, and the run beside them, as C functions for bench/: what a run costs where trace is linked too.
#![tactic(auto)]

ghost use Rattle.std.specs.Prelude.{◌≡◌, length};
ghost use Rattle.run.specs.Runs.{run_of, zero_machine, full_budget};
ghost use Rattle.trace.specs.Check.{check_of};
ghost use Rattle.bench_run.specs.Counting.{Counts};
ghost use Rattle.bench_trace.specs.Filling.{FillsFrom};

// The check of some bytes.
#[unsafe(no_mangle)]
pub extern "C" fn firanbekwo_check(bytes: &[u8]) -> u16
    ensures { result ≡ check_of bytes.now }
{
    trace::check(bytes)
}

// How many cycle words of a trace are filled in; 0 where it is refused, since C has no Option.
#[unsafe(no_mangle)]
pub extern "C" fn firanbekwo_read(trace: &[u8], cycles: &mut [u16]) -> usize
    ensures { FillsFrom trace.now result cycles.old cycles.new }
{
    trace::read(trace, cycles).unwrap_or(0)
}

// The run, as bench_run has it.
#[unsafe(no_mangle)]
pub extern "C" fn firanbekwo_run_beside_check(words: &[u16], reports: &mut [u16]) -> usize
    ensures { Counts (run_of zero_machine words.now full_budget (length reports.old)) result reports.old reports.new }
{
    bench_run::firanbekwo_run(words, reports)
}
