//! Work that is split among threads, each with a seat of its own.
ghost use Rattle.std.specs.Prelude.{◌≡◌, ℕ, ◌+◌, ◌<◌, ◌^◌, length, IfOk, vec_len, List};
ghost use Rattle.std.specs.List.{enumerate_from};
ghost use Rattle.sw_claims.specs.Workers.{MayCallEach, AnswersEach};

use std::alloc::{AllocError, Global};
use std::thread;
use std::thread::Threads;

/// The seats with their numbers, which begin at 0. More than 2^32 seats count as want of memory.
fn numbered<S: Drop>(alloc: Global, seats: Vec<S>) -> Result<Vec<(u32, S)>, AllocError>
    ensures { IfOk result (λ jobs. jobs.items ≡ enumerate_from 0 seats.items) }
{
    let mut jobs = Vec::new(alloc);
    let mut number = 0u64;
    for seat in seats {
        let Ok(place) = u32::try_from(number) else {
            return Err(AllocError);
        };
        jobs.push((place, seat))?;
        number += 1;
    }
    Ok(jobs)
}

/// Runs job(i, seat i) for each seat, each in a thread of its own where one can be made.
/// On want of memory some jobs may not have run, and seats and results are dropped.
pub fn fork<H: Threads + Sync, S: Send + Drop, R: Send + Drop, J: Fn(u32, S) -> R + Sync>(
    rt: &H,
    alloc: Global,
    seats: Vec<S>,
    job: &J,
) -> Result<Vec<R>, AllocError>
    requires { MayCallEach (λ i seat. J.pre job.now i seat) seats.items }
    ensures len { IfOk result (λ results. vec_len results ≡ vec_len seats) }
    ensures each { IfOk result (λ results. AnswersEach (λ i seat r. J.post job.now i seat r) seats.items results.items) }
{
    let jobs = numbered(alloc, seats)?;
    let results = thread::map_vec(
        rt,
        jobs,
        &|numbered: (u32, S)| -> R
            requires { J.pre job.now numbered.0 numbered.1 }
            ensures { J.post job.entry.now numbered.0 numbered.1 result }
        {
            let (place, seat) = numbered;
            job(place, seat)
        },
    )?;
    Ok(results)
}
