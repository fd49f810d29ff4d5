//! Fault codes and line classes: how they print and compare.

use abc_live::FaultCode;
use abc_scan::{LineClass, class_of};
use std::rt::HostRuntime;

#[test]
fn a_fault_code_prints_its_text(rt: HostRuntime) {
    let alloc = rt.alloc();
    let text = format!(in alloc; "{}", FaultCode::BadKey).expect(&rt, "there is memory");
    assert!(rt; text.as_str() == "K: has no valid key");
}

#[test]
fn a_line_class_prints_and_compares(rt: HostRuntime) {
    let alloc = rt.alloc();
    let class = class_of(b"K:C");
    assert!(rt; class == LineClass::Field(b'K'));
    assert!(rt; class != LineClass::Music);
    let text = format!(in alloc; "{class:?}").expect(&rt, "there is memory");
    assert!(rt; text.as_str() == "Field(75)");
}
