//! Threads that wait for each other.
use std::hint::spin_loop;
use std::sync::atomic::{AtomicU64, Ordering};
use std::thread::yield_now;

// How often a thread looks whether another one has come: for some seconds at most.
const MOST_LOOKS: u64 = 10_000_000;

// How often it looks before it lets others run.
const LOOKS_AT_ONCE: u64 = 64;

/// Waits for some time until a count has come to a number, and says whether it has.
pub fn is_reached(count: &AtomicU64, number: u64) -> bool {
    for look in 1..MOST_LOOKS {
        if count.load(Ordering::SeqCst) >= number {
            return true;
        }
        if look % LOOKS_AT_ONCE == 0 {
            yield_now();
        } else {
            spin_loop();
        }
    }
    false
}

/// Counts a thread that has come, waits for some time until so many have, and says whether they have. Those that do go on at the same time.
pub fn meets(came: &AtomicU64, number: u64) -> bool {
    came.fetch_add(1, Ordering::SeqCst);
    is_reached(came, number)
}
