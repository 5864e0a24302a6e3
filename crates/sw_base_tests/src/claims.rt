// What no clause says: that the calls succeed, and what several threads draw.
use crate::asserts::is;
use std::alloc::AllocError;
use sw_claims::{Claims, Drawn, fork, share_out};

#[test]
fn two_parts_end_and_the_first_reason_stands(rt: HostRuntime) -> Result<(), AllocError> {
    let (claims, mut seat) = Claims::new(rt.alloc(), 2, 2)?;
    is(
        &rt,
        claims.draw(&mut seat) == Drawn::Number(0),
        "the first number",
    );
    is(
        &rt,
        claims.draw(&mut seat) == Drawn::Number(1),
        "the second",
    );
    is(&rt, claims.draw(&mut seat) == Drawn::AllDrawn, "all drawn");
    is(&rt, claims.draw(&mut seat) == Drawn::AllDrawn, "and still");
    let other = claims.split(&mut seat);
    is(&rt, other.is_some(), "a seat more");
    is(&rt, claims.split(&mut seat).is_none(), "no seat more");
    is(&rt, claims.stop(&mut seat, 7) == 7, "stopped");
    is(&rt, claims.stop(&mut seat, 8) == 7, "stopped by the first");
    is(
        &rt,
        claims.draw(&mut seat) == Drawn::Stopped(7),
        "no more numbers",
    );
    Ok(())
}

#[test]
fn a_seat_sees_the_reason_of_another(rt: HostRuntime) -> Result<(), AllocError> {
    let (claims, mut first) = Claims::new(rt.alloc(), 5, 2)?;
    let Some(mut second) = claims.split(&mut first) else {
        panic!(rt; "the first seat has a split");
    };
    is(
        &rt,
        claims.draw(&mut second) == Drawn::Number(0),
        "the first number",
    );
    is(&rt, claims.stop(&mut first, 7) == 7, "stopped by the other");
    is(
        &rt,
        claims.draw(&mut second) == Drawn::Stopped(7),
        "no more numbers",
    );
    is(
        &rt,
        claims.stop(&mut second, 8) == 7,
        "stopped by the other",
    );
    Ok(())
}

#[test]
fn four_threads_draw_each_number_once(rt: HostRuntime) -> Result<(), AllocError> {
    let lists = share_out(&rt, rt.alloc(), 1000, 4)?;
    is(&rt, lists.len() == 4, "four lists");
    let mut numbers = Vec::new(rt.alloc());
    for list in &lists {
        numbers.extend_from_slice(list)?;
    }
    numbers.sort()?;
    is(&rt, numbers.len() == 1000, "each number once");
    for (place, number) in numbers.iter().enumerate() {
        is(&rt, *number == place as u64, "in order");
    }
    Ok(())
}

#[test]
fn results_stand_in_the_order_of_the_seats(rt: HostRuntime) -> Result<(), AllocError> {
    let seats = vec![in rt.alloc(); 10u64, 20, 30]?;
    let results = fork(
        &rt,
        rt.alloc(),
        seats,
        &|place: u32, seat: u64| (place, seat),
    )?;
    let want = [(0, 10), (1, 20), (2, 30)];
    is(&rt, results.as_slice() == want.as_slice(), "each is told");
    Ok(())
}
