//! Gates and flags. No contract says what they return.

use std::sync::Wait;
use std::test::Fail;
use std::thread;
use std::thread::Threads;
use std::time::Duration;
use worker_gate::{Act, Flags, Gate, HoldGate, MeetGate};

#[test]
fn workers_meet_on_threads_of_their_own_alone(rt: HostRuntime) -> Result<(), Fail> {
    let gate = MeetGate::new(2, 10);
    gate.before(0, Act::Put);
    gate.before(1, Act::End);
    assert!(rt; !gate.met());
    assert_eq!(rt; (gate.ends(0), gate.ends(1)), (0, 1));
    let gate = MeetGate::new(2, 10000000);
    thread::join(
        &rt,
        || gate.before(0, Act::Put),
        || gate.before(1, Act::Take),
    );
    assert!(rt; gate.met());
    Ok(())
}

#[test]
fn flags_tell_who_has_started_and_left(rt: HostRuntime) -> Result<(), Fail> {
    let flags = Flags::new(2);
    flags.start();
    assert!(rt; !flags.all_started() && !flags.left());
    flags.start();
    flags.leave();
    // a nap ends when a worker leaves
    flags.nap(&rt, Duration::from_secs(1000));
    assert!(rt; flags.all_started() && flags.left());
    Ok(())
}

// How often a thread naps for a tenth of a millisecond while worker 0 waits at this gate before its event.
fn naps_beside<R: Threads + Wait + Sync>(rt: &R, gate: &HoldGate) -> u32 {
    let meeting = MeetGate::new(2, 10_000_000);
    let flags = Flags::new(2);
    let ((), naps) = thread::join(
        rt,
        || {
            meeting.before(0, Act::Put);
            gate.before(0, Act::Put);
            flags.leave();
        },
        || {
            meeting.before(1, Act::Put);
            for naps in 0..1_000u32 {
                if flags.left() {
                    return naps;
                }
                flags.nap(rt, Duration::from_micros(100));
            }
            1_000
        },
    );
    naps
}

// In how many of ten tries the thread naps at least twenty times.
fn long_waits<R: Threads + Wait + Sync>(rt: &R, gate: &HoldGate) -> u32 {
    let mut long = 0u32;
    for _ in 0..10u32 {
        if naps_beside(rt, gate) >= 20 {
            long = long.saturating_add(1);
        }
    }
    long
}

// Fifty million turns take at least a tenth of a second. A busy machine may delay a thread that the gate doesn't hold,
// or one that should nap, but not in most tries.
#[test]
fn a_gate_holds_its_own_worker_alone(rt: HostRuntime) -> Result<(), Fail> {
    assert!(rt; long_waits(&rt, &HoldGate::new(0, 50_000_000)) > 5);
    assert!(rt; long_waits(&rt, &HoldGate::new(1, 50_000_000)) < 5);
    Ok(())
}
