// Tests of what is warned of, and what a failed call of the listener means.
use adc_sessions::End;
use hub_connections::cause_of;
use hub_warnings::Cause;
use server_tasks::{AcceptError, accept_error_of, descriptors_needed};
use std::io;
use system_answers::descriptor_limit;

#[test]
fn each_end_by_a_fault_has_its_cause(rt: HostRuntime) {
    let rows = [
        (End::Closed, None),
        (End::Ended, None),
        (End::ReadFailed, Some(Cause::ReadFailed)),
        (End::WriteFailed, Some(Cause::WriteFailed)),
        (End::TooLong, Some(Cause::TooLong)),
        (End::Memory, Some(Cause::OutOfMemory)),
    ];
    for (end, cause) in rows {
        assert!(&rt; cause_of(end) == cause, "{end:?}");
    }
}

#[test]
fn want_of_room_is_no_fault_of_the_listener(rt: HostRuntime) {
    let gone = [4, 11, 64, 71, 92, 95, 100, 101, 103, 107, 112, 113];
    let rows: [(AcceptError, &[i32]); 4] = [
        (AcceptError::Memory, &[12]),
        (AcceptError::Room, &[23, 24, 28, 105]),
        (AcceptError::Gone, &gone),
        (AcceptError::Listener, &[1, 9, 13, 14, 22, 88]),
    ];
    for (wanted, numbers) in rows {
        for number in numbers {
            let error = io::Error::from_raw_os_error(*number);
            assert!(&rt; accept_error_of(&error) == wanted, "{number}");
        }
    }
    assert!(&rt; accept_error_of(&io::ErrorKind::OutOfMemory.into()) == AcceptError::Memory);
    assert!(&rt; accept_error_of(&io::ErrorKind::Unsupported.into()) == AcceptError::Listener);
}

#[test]
fn descriptors_are_counted(rt: HostRuntime) {
    assert!(&rt; descriptors_needed(900) == 932);
    // Those of the standard streams are there at least.
    assert!(&rt;
        descriptor_limit()
            .into_inner()
            .is_some_and(|count| count >= 3)
    );
}
