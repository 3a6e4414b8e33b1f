//! Seeds of a source that fails sooner or later.

use nfs_state::{NoRandomSeed, Seeds};
use std::cell::Cell;
use std::io;
use std::io::ErrorKind;
use std::random::RandomSource;
use std::test::Fail;

// What gives bytes so many times.
#[derive(Drop)]
struct Source {
    times: Cell<u32>,
}

impl RandomSource for Source {
    fn fill_bytes(&self, buf: &mut [u8]) -> io::Result<()> {
        let times = self.times.get();
        if times == 0 {
            return Err(io::Error::from(ErrorKind::Other));
        }
        self.times.set(times - 1);
        buf.fill(5);
        Ok(())
    }
}

// The seeds of what gives bytes so many times.
fn seeds_of(times: u32) -> Result<Seeds, NoRandomSeed> {
    Seeds::new(&Source {
        times: Cell::new(times),
    })
}

// Whether a name has two hashes by the two seeds of a value.
fn differ(rt: &impl RandomSource) -> bool {
    match Seeds::new(rt) {
        Ok(seeds) => seeds.owners.hash(0, 0, b"name") != seeds.ids.hash(b"name"),
        Err(_) => false,
    }
}

/// There are seeds where the source gives both, and else none.
#[test]
fn seeds_need_random_bytes(rt: HostRuntime) -> Result<(), Fail> {
    assert!(rt; seeds_of(0).is_err() && seeds_of(1).is_err() && seeds_of(2).is_ok());
    assert!(rt; Seeds::new(&rt).is_ok());
    assert!(rt; NoRandomSeed.to_string(rt.alloc())?.as_str() == "no random seed");
    Ok(())
}

/// Owners and ids have seeds of their own.
#[test]
fn seeds_are_two(rt: HostRuntime) -> Result<(), Fail> {
    for _ in 0..20 {
        assert!(rt; differ(&rt));
    }
    Ok(())
}
