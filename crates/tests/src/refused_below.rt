//! Calls below edits, runs and jobs of which any request for memory may be refused.

use tests_memory_layers::is_right;

#[test]
fn each_call_of_a_layer(rt: HostRuntime) {
    for call in tests_memory_layers::CALLS.iter() {
        assert!(rt; is_right(&rt, rt.alloc(), call));
    }
}

#[test]
fn each_call_of_tunes_and_sessions(rt: HostRuntime) {
    for call in tests_memory_session::CALLS.iter() {
        assert!(rt; is_right(&rt, rt.alloc(), call));
    }
}
