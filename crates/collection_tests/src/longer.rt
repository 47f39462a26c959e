//! Results for fewer bytes and for more.

use bincode::config;
use proved_callers::longer::read_longer;

#[test]
fn answers_as_to_the_front(rt: HostRuntime) {
    let read = read_longer::<u8, _>(rt.alloc(), &[7, 9], 1, config::standard());
    assert!(rt; matches!(read.front, Ok((7, 1))) && matches!(read.whole, Ok((7, 1))));
}
