//! The steps of the core machine.
use crate::record::{Kept, Settled};
use sw_template::Body;

/// A step of the core machine; the first number of each is the worker's.
#[derive(Drop)]
pub enum Step {
    Begin,
    Draw(u32),
    Look(u32),
    Append(u32, Body),
    Publish(u32, Kept),
    Settle(u32, Settled),
    Stop(u32, u64),
    Close,
}

/// How far the machine is: it takes steps, or has ended by a stop or by a close.
#[derive(Clone, Copy, PartialEq, Eq)]
pub enum End {
    Running,
    Stopped,
    Closed,
}
