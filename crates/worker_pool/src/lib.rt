//! A pool of workers: jobs that run in threads, each once and in place.
#![tactic(auto)]

ghost use Rattle.std.specs.Prelude.{◌≡◌, ℕ, ◌<◌, length, slice_index_or, All};

use std::sync::Wait;
use std::thread::{self, Threads};

/// Work that one worker does once, in place.
pub trait Job {
    /// The condition under which it may run.
    ghost is_ready: { Self → Type 0 };

    /// What holds between the job before it ran and after it.
    ghost comes_to: { Self → Self → Type 0 };

    /// Does the work. It may wait for other threads.
    fn run<R: Wait>(&mut self, rt: &R)
        requires { is_ready self.old }
        ensures { comes_to self.old self.new };
}

/// Runs each job once, in at most `workers` threads, and returns when all are done. The jobs are parted into
/// runs of neighbours, and each run is forked off and joined by halves. Where the system starts no thread, its
/// jobs run in the thread that wanted it, so no job is lost; then jobs that wait for each other may wait for
/// ever.
pub fn run_all<R: Threads + Wait + Sync, J: Job + Send>(rt: &R, jobs: &mut [J], workers: usize)
    requires workers { 0 < workers }
    requires ready { All J.is_ready jobs.old }
    ensures count { length jobs.new ≡ length jobs.old }
    ensures each { (k : ℕ) (d : J) → k < length jobs.old → J.comes_to (slice_index_or jobs.old k d) (slice_index_or jobs.new k d) }
{
    thread::for_each_mut(rt, jobs, workers, &|_, job: &mut J| job.run(rt));
}

#[cfg(test)]
mod tests {
    use super::*;
    use std::sync::Barrier;
    use std::test::Fail;

    // Counts how often it ran.
    #[derive(Drop)]
    struct Counts {
        number: u64,
        runs: u64,
    }

    impl Job for Counts {
        ghost use Rattle.std.specs.Prelude.{◌≡◌};

        ghost is_ready = { λ _. Unit {0} };

        ghost comes_to = { λ a b. b.number ≡ a.number };

        fn run<R: Wait>(&mut self, _: &R) {
            self.runs = self.runs.saturating_add(1);
        }
    }

    #[test]
    fn each_job_runs_once(rt: HostRuntime) -> Result<(), Fail> {
        for workers in [1, 2, 3, 8, 16] {
            for n in [0, 1, 2, 7, 100] {
                let mut jobs = Vec::new(rt.alloc());
                for number in 0..n {
                    jobs.push(Counts { number, runs: 0 })?;
                }
                run_all(&rt, &mut jobs, workers);
                assert_eq!(rt; jobs.len(), n as usize);
                for (i, job) in jobs.iter().enumerate() {
                    assert_eq!(rt; job.number, i as u64);
                    assert_eq!(rt; job.runs, 1);
                }
            }
        }
        Ok(())
    }

    // Waits for the others of its barrier.
    #[derive(Drop)]
    struct Meets<'a> {
        barrier: &'a Barrier,
        met: bool,
    }

    impl Job for Meets<'_> {
        ghost use Rattle.std.specs.Prelude.{◌≡◌, true};

        ghost is_ready = { λ _. Unit {0} };

        ghost comes_to = { λ _ b. b.met ≡ true };

        fn run<R: Wait>(&mut self, rt: &R) {
            self.barrier.wait(rt);
            self.met = true;
        }
    }

    // They end only where all are inside `run` at the same time.
    #[test]
    fn workers_run_side_by_side(rt: HostRuntime) -> Result<(), Fail> {
        for n in [2, 4] {
            let barrier = Barrier::new(n);
            let mut jobs = Vec::new(rt.alloc());
            for _ in 0..n {
                jobs.push(Meets {
                    barrier: &barrier,
                    met: false,
                })?;
            }
            run_all(&rt, &mut jobs, n);
            for job in jobs.iter() {
                assert!(rt; job.met);
            }
        }
        Ok(())
    }
}
