//! A server's loop: requests one after another, of which the last is still to come.

use bincode::error::DecodeError;
use own_types::requests::{Requests, serve};
use test_helpers::checks::either;

/// 5, 300, and the first byte of a third number.
const RECEIVED: [u8; 5] = [5, 251, 44, 1, 251];

#[test]
fn serves_requests_up_to_one_that_is_torn(rt: HostRuntime) {
    let served: Option<Requests<u32>> = either(
        serve(rt.alloc(), &RECEIVED, 10),
        serve(rt.alloc(), &RECEIVED, 10),
    );
    let Some(all) = served else {
        assert!(rt; false);
        return;
    };
    let [first, second] = all.read.as_slice() else {
        assert!(rt; false);
        return;
    };
    assert!(rt;
        (first.start, first.size, first.value) == (0, 1, 5)
            && (second.start, second.size, second.value) == (1, 3, 300)
            && all.end == 4
            && matches!(
                all.stopped,
                Some(DecodeError::UnexpectedEnd { additional: 2 })
            )
    );
}
