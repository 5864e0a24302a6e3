//! Workers that share the parts among them: how the calls of this crate go together.
ghost use Rattle.std.specs.Prelude.{◌≡◌, ℕ, ◌+◌, ◌^◌, ◌<◌, ◌≤◌, [], length, All, IfOk, vec_len};
ghost use Rattle.sw_claims.specs.ClaimsRule.{once_below};
ghost use Rattle.sw_claims.specs.Sharing.{times_over, IsFresh, IsShare, IsFirstSeat, HasTaken};

use crate::rule::{MOST_PARTS, MOST_SEATS};
use crate::seats::{ClaimSeat, Claims, Drawn};
use crate::workers::fork;
use std::alloc::{AllocError, Global};
use std::thread::Threads;

/// A worker's seat, and the numbers that it drew.
#[derive(Drop)]
struct Share {
    seat: ClaimSeat,
    numbers: Vec<u64>,
}

/// All seats that the first one can split off.
fn split_all(
    alloc: Global,
    claims: &Claims,
    first: &mut ClaimSeat,
) -> Result<Vec<ClaimSeat>, AllocError>
    requires seat { IsFirstSeat claims.now first.old.view.parts 0 first.old }
    requires new { first.old.view.drawn ≡ [] }
    ensures len { IfOk result (λ seats. vec_len seats ≡ first.old.view.splits) }
    ensures fresh { IfOk result (λ seats. All (IsFresh claims.now first.old.view.parts) seats.items) }
    ensures first { IfOk result (λ seats. IsFirstSeat claims.now first.old.view.parts (vec_len seats) first.new) }
    ensures drawn { IfOk result (λ seats. first.new.view.drawn ≡ []) }
{
    let mut seats = Vec::new(alloc);
    while let Some(seat) = claims.split(first) {
        seats.push(seat)?;
    }
    Ok(seats)
}

/// Draws until the end, or until a reason is seen.
fn draw_share(alloc: Global, claims: &Claims, seat: ClaimSeat) -> Result<Share, AllocError>
    requires { IsFresh claims.now seat.view.parts seat }
    ensures { IfOk result (IsShare claims.now) }
{
    let mut seat = seat;
    let mut numbers = Vec::new(alloc);
    loop {
        match claims.draw(&mut seat) {
            Drawn::Number(number) => numbers.push(number)?,
            Drawn::AllDrawn => return Ok(Share { seat, numbers }),
            Drawn::Stopped(_) => return Ok(Share { seat, numbers }),
        }
    }
}

/// Takes the shares into the first seat, and gives their numbers.
fn gather(
    alloc: Global,
    claims: &Claims,
    first: &mut ClaimSeat,
    shares: Vec<Result<Share, AllocError>>,
) -> Result<Vec<Vec<u64>>, AllocError>
    requires seat { IsFirstSeat claims.now first.old.view.parts (vec_len shares) first.old }
    requires new { first.old.view.drawn ≡ [] }
    requires shares { All (λ share. IfOk share (IsShare claims.now)) shares.items }
    ensures len { IfOk result (λ lists. vec_len lists ≡ vec_len shares) }
    ensures first { IfOk result (λ lists. IsFirstSeat claims.now first.old.view.parts 0 first.new) }
    ensures taken { IfOk result (λ lists. HasTaken lists.items first.new) }
{
    let mut lists = Vec::new(alloc);
    for share in shares {
        let Share { seat, numbers } = share?;
        claims.join(first, seat);
        lists.push(numbers)?;
    }
    Ok(lists)
}

/// The numbers that each of `workers` workers drew, who draw side by side until all parts are drawn.
/// Each number below `parts` stands once in the lists together.
pub fn share_out<H: Threads + Sync>(
    rt: &H,
    alloc: Global,
    parts: u64,
    workers: u32,
) -> Result<Vec<Vec<u64>>, AllocError>
    requires parts { parts ≤ MOST_PARTS }
    requires workers { (1 ≤ workers) × (workers < MOST_SEATS) }
    ensures len { IfOk result (λ lists. vec_len lists ≡ workers) }
    ensures once { IfOk result (λ lists. (x : ℕ) → times_over x lists.items ≡ once_below x parts) }
{
    let (claims, mut first) = Claims::new(alloc, parts, workers + 1)?;
    let seats = split_all(alloc, &claims, &mut first)?;
    let shares = fork(
        rt,
        alloc,
        seats,
        &|_, seat| draw_share(alloc, &claims, seat),
    )?;
    let lists = gather(alloc, &claims, &mut first, shares)?;
    claims.close(first);
    Ok(lists)
}
