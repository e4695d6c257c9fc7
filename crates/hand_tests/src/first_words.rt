//! The first values of the shared words and of the settings of a small plan.
use plan_reader::read_plan;
use run_words::{HintWord, first_hint, first_receive_settings, first_transmit_settings};
use std::test::Fail;
use steer_base::AppId;

const PLAN: &[u8] = b"{\"cpus\": 3, \"queues\": [{\"home\": 1, \"mask\": [0, 2], \"flows\": 200}, \
    {\"home\": 0, \"mask\": [1], \"flows\": 0}], \
    \"sock\": 1000, \"backlog\": 1, \"apps\": [2, 0], \
    \"tx\": [{\"cpus\": [0, 1], \"queues\": [1]}, {\"cpus\": [2], \"queues\": []}], \
    \"steps\": []}";

// A place is its number and one more, and the entries of the redirection table alternate between
// the two queues. A set has bit c for c; 200 flows are rounded up to 256, and 1,000 entries to
// 1,024; three processors are online.
#[test]
fn words_begin_with_the_plan(rt: HostRuntime) -> Result<(), Fail> {
    let alloc = rt.alloc();
    let plan = read_plan(alloc, PLAN)?;
    let hints = [
        first_hint(&plan, HintWord::Socket(5)),
        first_hint(&plan, HintWord::Redirection(0)),
        first_hint(&plan, HintWord::Redirection(127)),
        first_hint(&plan, HintWord::Stand(AppId(0))),
        first_hint(&plan, HintWord::Stand(AppId(1))),
        first_hint(&plan, HintWord::Stand(AppId(2))),
        first_hint(&plan, HintWord::Done),
    ];
    assert!(rt; hints == [0u64, 1, 2, 3, 1, 0, 0]);
    let receive = first_receive_settings(alloc, &plan)?;
    assert!(rt; receive.as_slice() == [5u64, 2, 256, 0, 1024, 7].as_slice());
    let transmit = first_transmit_settings(alloc, &plan)?;
    assert!(rt; transmit.as_slice() == [3u64, 4, 2, 0].as_slice());
    Ok(())
}
